//! Where mail for an address goes.
ghost use Rattle.std.specs.Prelude.{◌≡◌, IfOk, option_copied};
ghost use Rattle.relay_check.specs.Route.{IsRouteLine, IsRouteShown, bracketed, route_line};

use relay_envelope::Path;
use relay_files::{Fault, configuration, write_out};
use relay_routes::{Hop, Table};
use std::alloc::{AllocError, Global};
use std::fs::File;
use std::io::Write;
use std::rt::Files;

/// Writes the next hop of an address by the configuration in a file, `ADDRESS: NAME IP:PORT`, or that there is none.
/// Returns whether there is one. The address may stand in brackets. Fails if the configuration has a fault, the line
/// can't be written, or memory runs out.
pub fn show_route<F: Files<File = File>, W: Write>(
    alloc: Global,
    files: &F,
    file: &str,
    address: &str,
    writer: &mut W,
) -> Result<bool, Fault>
    ensures { IfOk result (λ found. IsRouteShown address.now found (W.contents writer.old) (W.contents writer.new)) }
{
    let config = configuration(alloc, files, file)?;
    let (line, found) = line_of(alloc, &config.routes, address)?;
    write_out(writer, line.as_slice())?;
    Ok(found)
}

/// Returns the line of an address by these routes, and whether it has a next hop. Fails if memory runs out.
fn line_of(alloc: Global, routes: &Table, address: &str) -> Result<(Vec<u8>, bool), AllocError>
    ensures { IfOk result (λ shown. IsRouteLine routes.now address.now shown.0.items shown.1) }
{
    let text = bracketed(alloc, address.as_bytes())?;
    match Path::read(text.as_slice()) {
        Some(path) => {
            let hop = routes.hop(&path);
            Ok((route_line(alloc, address, hop)?, hop.is_some()))
        }
        None => {
            // An address that is no path may have any octets.
            let mut line = format!(in alloc; "{}", address.escape_default())?.into_bytes();
            line.extend_from_slice(b": no address\n")?;
            Ok((line, false))
        }
    }
}

/// Returns an address as a path is written, between brackets. Fails if memory runs out.
fn bracketed(alloc: Global, address: &[u8]) -> Result<Vec<u8>, AllocError>
    ensures { IfOk result (λ text. text.items ≡ bracketed address.now) }
{
    if let [b'<', ..] = address {
        return address.to_vec(alloc);
    }
    let mut text = Vec::new(alloc);
    text.push(b'<')?;
    text.extend_from_slice(address)?;
    text.push(b'>')?;
    Ok(text)
}

/// Returns the line of an address that is a path, with its next hop. Fails if memory runs out.
fn route_line(alloc: Global, address: &str, hop: Option<&Hop>) -> Result<Vec<u8>, AllocError>
    ensures { IfOk result (λ line. line.items ≡ route_line address.now (option_copied hop.entry)) }
{
    match hop {
        None => Ok(format!(in alloc; "{address}: no route\n")?.into_bytes()),
        Some(hop) => {
            let mut line = format!(in alloc; "{address}: ")?.into_bytes();
            line.extend_from_slice(hop.name.as_slice())?;
            let at = format!(in alloc; " {}\n", hop.at)?;
            line.extend_from_slice(at.as_bytes())?;
            Ok(line)
        }
    }
}
