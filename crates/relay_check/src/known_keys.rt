//! Unknown keys. A relay ignores them, so that their author relies on something that has no effect.
use crate::findings::Findings;
use crate::position::Place;
use crate::shown::shown;
use std::alloc::{AllocError, Global};
use strsim::levenshtein;
use toml::Table;

/// How many keys a configuration may have.
pub(crate) const KEY_COUNT: usize = 20;

/// The keys of a configuration.
const KEYS: [&str; KEY_COUNT] = [
    "host",
    "listen",
    "spool",
    "max_content",
    "spool_limit",
    "bare_newlines",
    "routes",
    "trusted_clients",
    "routed_paths",
    "reports",
    "sessions_per_client",
    "attempts_per_hop",
    "recipients_per_attempt",
    "client_timeout",
    "status_listen",
    "log",
    "balancers",
    "clients",
    "control",
    "control_group",
];

/// The keys of a route's next hop.
const HOP_KEYS: [&str; 2] = ["name", "at"];

/// The most edits between an unknown key and the key that may have been meant.
const FEW_EDITS: usize = 3;

/// The most octets of a key that is compared with the known ones.
const LONGEST_KEY: usize = 32;

/// Finds the unknown keys of a document.
pub(crate) fn check_keys(
    alloc: Global,
    document: &Table,
    findings: &mut Findings<'_>,
) -> Result<(), AllocError> {
    for (key, value) in document.iter() {
        let key = key.as_str();
        if KEYS.contains(&key) {
            continue;
        }
        let written = key.escape_default();
        let shown = shown(alloc, value)?;
        let message = match nearest(alloc, key, &KEYS)? {
            Some(meant) => format!(in alloc;
                "unknown key {written} = {shown}; did you mean {meant}?"
            )?,
            None => format!(in alloc;
                "unknown key {written} = {shown}: it has no effect; remove it"
            )?,
        };
        findings.ignored(Place::Key(key), message)?;
    }
    Ok(())
}

/// Finds the unknown keys of a route's next hop.
pub(crate) fn check_hop_keys(
    alloc: Global,
    domain: &str,
    hop: &Table,
    findings: &mut Findings<'_>,
) -> Result<(), AllocError> {
    for (key, value) in hop.iter() {
        let key = key.as_str();
        if HOP_KEYS.contains(&key) {
            continue;
        }
        let route = domain.escape_default();
        let written = key.escape_default();
        let shown = shown(alloc, value)?;
        let message = match nearest(alloc, key, &HOP_KEYS)? {
            Some(meant) => format!(in alloc;
                "route {route}: unknown key {written} = {shown}; did you mean {meant}?"
            )?,
            None => format!(in alloc;
                "route {route}: unknown key {written} = {shown}: a route has name and at alone, so it has no effect; \
                remove it"
            )?,
        };
        findings.ignored(Place::Route(domain), message)?;
    }
    Ok(())
}

/// Returns the known key with the fewest edits from this one, if they are few for its length.
fn nearest(
    alloc: Global,
    key: &str,
    known: &[&'static str],
) -> Result<Option<&'static str>, AllocError> {
    if key.len() > LONGEST_KEY {
        return Ok(None);
    }
    let mut found = None;
    let mut fewest = FEW_EDITS.saturating_add(1);
    for candidate in known {
        let edits = levenshtein(alloc, key, candidate)?;
        if edits < fewest && edits <= candidate.len() / 2 {
            fewest = edits;
            found = Some(*candidate);
        }
    }
    Ok(found)
}
