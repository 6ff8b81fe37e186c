//! The outcome of a row of routes: a configuration, of which `;` between spaces ends a line; a file with one; a file
//! and a path, whose hop is looked up; or a client, a file and a path, which is refused as the client's recipient or
//! whose hop is looked up so.
use crate::answer::{Answer, RowsFault};
use crate::rows::read_file;
use relay_envelope::{Path, PathBuf};
use relay_routes::{BareNewlines, Config, Hop, ReportForm, RoutedPaths, Table};
use std::net::Ipv4Addr;

/// Tells the outcome of the lines, of the file, or of the file and the path that a row gives.
pub fn tell_routes(rt: &HostRuntime, answer: &mut Answer, given: &str) {
    let (word, rest) = given.split_once(' ').unwrap_or((given, ""));
    match word {
        "TEXT" => {
            let document = document_of(answer, rest);
            tell_config(answer, document.as_str());
        }
        "FILE" => {
            let document = read_file(rt, answer, rest);
            tell_config(answer, document.as_str());
        }
        "CLIENT" => {
            let (client, rest) = rest.split_once(' ').unwrap_or((rest, ""));
            let (name, path) = rest.split_once(' ').unwrap_or((rest, ""));
            let document = read_file(rt, answer, name);
            tell_accepted_hop(answer, document.as_str(), client, path.as_bytes());
        }
        name => {
            let document = read_file(rt, answer, name);
            tell_hop_of(answer, document.as_str(), rest.as_bytes());
        }
    }
}

/// Returns the lines of a row, each with its end.
fn document_of(answer: &mut Answer, lines: &str) -> String {
    match lines.replace(answer.alloc, " ; ", "\n") {
        Ok(document) => document,
        Err(_) => {
            answer.stop(RowsFault::NoMemory);
            String::new(answer.alloc)
        }
    }
}

/// Tells what a configuration says: its values without the routes, whether it refuses bare line ends and routed paths,
/// and whether its reports are rich, or its fault.
fn tell_config(answer: &mut Answer, document: &str) {
    match Config::read(answer.alloc, document) {
        Ok(config) => tell_values(answer, &config),
        Err(fault) => answer.show(&fault),
    }
}

fn tell_values(answer: &mut Answer, config: &Config) {
    answer.read_text(config.host.as_slice());
    answer.say(" ");
    answer.show(&config.listen);
    answer.say(" ");
    answer.say(config.spool.as_str());
    answer.count(" ", config.max_content as u64);
    answer.count(" ", config.spool_limit);
    if matches!(config.bare_newlines, BareNewlines::Refuse) {
        answer.say(" refuse");
    }
    if matches!(config.routed_paths, RoutedPaths::Refuse) {
        answer.say(" no routed paths");
    }
    if matches!(config.reports, ReportForm::Rich) {
        answer.say(" rich reports");
    }
}

/// Tells the hop of a path by a configuration, and that of the path as it is stored where that is another.
fn tell_hop_of(answer: &mut Answer, document: &str, path: &[u8]) {
    match Config::read(answer.alloc, document) {
        Ok(config) => match Path::read(path) {
            Some(path) => tell_both_hops(answer, &config.routes, path),
            None => answer.say("no path"),
        },
        Err(fault) => answer.show(&fault),
    }
}

/// Tells the hop of a path that a client at this address gives, and none if it may not send there, or that the path is
/// refused as a routed one.
fn tell_accepted_hop(answer: &mut Answer, document: &str, client: &str, path: &[u8]) {
    let Ok(client) = client.parse::<Ipv4Addr>() else {
        return answer.say("no client");
    };
    match Config::read(answer.alloc, document) {
        Ok(config) => match Path::read(path) {
            Some(path) => tell_as_recipient(answer, &config, client.octets(), path),
            None => answer.say("no path"),
        },
        Err(fault) => answer.show(&fault),
    }
}

fn tell_as_recipient(answer: &mut Answer, config: &Config, client: [u8; 4], path: Path<'_>) {
    if config.accepted_paths(client).refuses(&path) {
        answer.say("refused");
    } else {
        tell_both_hops(answer, config.accepted_table(client), path);
    }
}

fn tell_both_hops(answer: &mut Answer, routes: &Table, path: Path<'_>) {
    let own = routes.hop(&path);
    match PathBuf::new(answer.alloc, path) {
        Ok(stored) => {
            if are_one(routes, own, routes.hop_at(&stored)) {
                tell_hop(answer, own);
            } else {
                answer.say("two hops");
            }
        }
        Err(_) => answer.stop(RowsFault::NoMemory),
    }
}

/// Returns whether two look-ups found one hop, or none, and the first has the place of its name.
fn are_one(routes: &Table, one: Option<&Hop>, other: Option<&Hop>) -> bool {
    match (one, other) {
        (None, None) => true,
        (Some(one), Some(other)) => {
            one.name.as_slice() == other.name.as_slice()
                && routes.place_of(other.name.as_slice()) == Some(one.at)
        }
        _ => false,
    }
}

fn tell_hop(answer: &mut Answer, hop: Option<&Hop>) {
    match hop {
        Some(hop) => {
            answer.read_text(hop.name.as_slice());
            answer.say(" ");
            answer.show(&hop.at);
        }
        None => answer.say("none"),
    }
}
