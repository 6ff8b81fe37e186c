//! The boundary of a report: the least number for which it is in none of the parts.
ghost use Rattle.std.specs.Prelude.{◌≡◌, ◌++◌, ◌<◌, length, codes, decimal, IfOk, OnOk};
ghost use Rattle.relay_report.specs.Boundary.{IsBoundary, IsLeastFree, boundary_text, stem_of};

use crate::field::push_decimal;
use crate::marks::least_outside;
use crate::numbers::collect;
use crate::parts::Parts;
use memchr::memmem::Finder;
use std::alloc::{AllocError, Global};

/// The octets that most boundaries fit into.
const USUAL_LEN: usize = 32;

/// Returns the boundary of a report of this number with these parts (RFC 2046, section 5.1.1): `=_relay_`, the number,
/// `_`, and the least number for which it is in none of the parts after two dashes. Fails if memory runs out.
#[tactic(auto, using(crate::proofs::LeastLemmas::boundary_by))]
pub fn boundary_for(alloc: Global, number: u64, parts: &Parts<'_>) -> Result<Vec<u8>, AllocError>
    ensures { IfOk result (λ boundary. IsBoundary number parts.now.first.now parts.now.second.now
        parts.now.third.now boundary.items) }
{
    let stem = stem_of(alloc, number)?;
    let least = boundary_number(alloc, &Finder::new(stem.as_slice()), parts)?;
    let boundary = boundary_text(alloc, number, least)?;
    Ok(boundary)
}

/// Returns the two dashes and the beginning that all boundaries of a report have.
fn stem_of(alloc: Global, number: u64) -> Result<Vec<u8>, AllocError>
    ensures { IfOk result (λ stem. stem.items ≡ stem_of number) }
{
    let mut stem = Vec::with_capacity(alloc, USUAL_LEN)?;
    push_numbered(&mut stem, b"--=_relay_", number)?;
    Ok(stem)
}

fn boundary_text(alloc: Global, number: u64, least: u64) -> Result<Vec<u8>, AllocError>
    ensures { IfOk result (λ boundary. boundary.items ≡ boundary_text number least) }
{
    let mut boundary = Vec::with_capacity(alloc, USUAL_LEN)?;
    push_numbered(&mut boundary, b"=_relay_", number)?;
    push_decimal(&mut boundary, least)?;
    Ok(boundary)
}

/// Adds the front, a number, and `_`.
fn push_numbered(out: &mut Vec<u8>, front: &[u8], number: u64) -> Result<(), AllocError>
    ensures { OnOk result (out.new.items ≡ out.old.items ++ (front.now ++ decimal number ++ codes "_")) }
{
    out.extend_from_slice(front)?;
    push_decimal(out, number)?;
    out.extend_from_slice(b"_")
}

/// Returns the least number whose numbered stem is in none of the parts.
fn boundary_number(alloc: Global, stem: &Finder<'_>, parts: &Parts<'_>) -> Result<u64, AllocError>
    requires { 0 < length stem.now }
    ensures { IfOk result (λ number. IsLeastFree stem.now parts.now.first.now parts.now.second.now
        parts.now.third.now number) }
{
    let mut taken = Vec::new(alloc);
    collect(&mut taken, stem, parts.first)?;
    collect(&mut taken, stem, parts.second)?;
    collect(&mut taken, stem, parts.third)?;
    least_outside(alloc, taken.as_slice())
}
