ghost use Rattle.std.specs.Prelude.{◌≡◌, ◌⊎◌, ◌↔◌, IsTrue};
ghost use Rattle.relay_octets.specs.Beginning.{Begins};
ghost use Rattle.relay_proxy.specs.Block.{signature};
ghost use Rattle.relay_proxy.specs.Header.{Reads, least_left};
ghost use Rattle.relay_proxy.specs.HeaderLine.{line_word};

use crate::block::{SIGNATURE, read_block};
use crate::front::{after, begins};
use crate::line::{WORD, read_line};
use crate::source::Source;

/// No header has fewer octets.
const SHORTEST: usize = 12;

/// A header.
#[derive(Clone, Copy, Drop)]
pub struct Header {
    /// What it says of the client.
    pub source: Source,
    /// How many octets it has.
    pub length: usize,
}

/// What octets begin with.
#[derive(Clone, Copy, Drop)]
pub enum Reading {
    /// A whole header.
    Found(Header),
    /// A beginning of a header, to which this many octets more belong at least.
    Unfinished(usize),
    /// No header.
    Missing,
}

/// Reads the header with which octets begin. It has at most 107 octets in version 1, and 536 in version 2, of which
/// longer ones are no headers here. What is after it isn't checked.
pub fn read_header(octets: &[u8]) -> Reading
    ensures { Reads octets.now result }
{
    if let Some(rest) = after(octets, SIGNATURE) {
        return read_block(rest);
    }
    if begins(octets, WORD) {
        return read_line(octets);
    }
    if is_begun(octets) {
        Reading::Unfinished(least_left(octets.len()))
    } else {
        Reading::Missing
    }
}

/// Returns whether octets are a prefix of that with which each line, or each block, begins.
fn is_begun(octets: &[u8]) -> bool
    ensures { IsTrue result ↔ (Begins octets.now line_word ⊎ Begins octets.now signature) }
{
    if begins(WORD, octets) {
        return true;
    }
    begins(SIGNATURE, octets)
}

/// Returns how many octets are missing at least to a header of which this many are there.
pub(crate) fn least_left(count: usize) -> usize
    ensures { result ≡ least_left count }
{
    SHORTEST.saturating_sub(count).max(1)
}
