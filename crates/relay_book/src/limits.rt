//! The limits of changes, and what texts of records may be.
ghost use Rattle.std.specs.Prelude.{◌≡◌, ◌<◌, ◌≤◌, ◌↔◌, IsTrue};
ghost use Rattle.std.specs.List.{AllPass};
ghost use Rattle.std.specs.Int.{is_in_range};
ghost use Rattle.relay_book.specs.Record.{MayBeHop, text_limit};

use relay_envelope::is_host_name;

/// The greatest number of a change.
pub const LAST_NUMBER: u64 = 1 << 62;

/// The most octets of a report, and of a stored text whose reverse path is null.
pub const REPORT_LIMIT: usize = 1 << 26;

/// The most octets of a stored text whose reverse path isn't null.
pub const STORED_TEXT_LIMIT: usize = 1 << 25;

/// The most octets of a refusal's text.
pub const REFUSAL_LIMIT: usize = 200;

/// For how many seconds after its acceptance a place is tried (RFC 5321, section 4.5.4.1).
pub const PATIENCE: u64 = 432_000;

/// For how many seconds after its acceptance a place may wait before it is late (RFC 3461, section 4.1).
pub const LATENESS: u64 = 14_400;

/// How many seconds a place waits after its first Later verdict; after each further one it waits
/// twice as long.
pub const FIRST_WAIT: u64 = 1_800;

/// The longest wait after a Later verdict, in seconds.
pub const LONGEST_WAIT: u64 = 14_400;

/// Returns the most octets of a stored text: a report may have more.
pub(crate) fn text_limit(reverse_path: &[u8]) -> usize
    ensures { result ≡ text_limit reverse_path.now }
{
    if matches!(reverse_path, b"<>") {
        REPORT_LIMIT
    } else {
        STORED_TEXT_LIMIT
    }
}

/// Returns whether the text may be the name of a hop: one of a host, or nothing.
pub(crate) fn may_be_hop(text: &[u8]) -> bool
    ensures { IsTrue result ↔ MayBeHop text.now }
{
    match text {
        [] => true,
        [_, ..] => is_host_name(text),
    }
}

/// Returns whether a reply may have this code: three digits, the first 2 to 5 (RFC 5321, section 4.2).
pub(crate) fn is_reply_code(code: u16) -> bool
    ensures { IsTrue result ↔ ((200 ≤ code) × (code < 600)) }
{
    200 <= code && code < 600
}

/// Returns whether each octet is printable.
pub(crate) fn is_printable(text: &[u8]) -> bool
    ensures { IsTrue result ↔ AllPass (is_in_range 32 126) text.now }
{
    text.iter().all(|octet| (32..=126).contains(octet))
}
