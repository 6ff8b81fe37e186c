ghost use Rattle.std.specs.Prelude.{◌≡◌, MatchOption};
ghost use Rattle.std.specs.Option.{option_copied};
ghost use Rattle.relay_queue.specs.Filter.{passes_if};
ghost use Rattle.relay_listing.specs.Row.{said_by};
ghost use Rattle.relay_queue.specs.Selection.{FirstPart, OnePart, has_part, is_numbered, selects, sets_field};

use crate::filter::Filter;
use itoa::Buffer;
use memchr::memchr;
use relay_lines::word::is_word;
use relay_listing::Row;
use relay_trace::Moment;

/// Selects queued recipients to withdraw: those that match every field that is set. Without fields it selects none.
#[derive(Clone, Copy)]
pub struct Selection<'a> {
    /// The numbers of messages, in decimal, with commas between them.
    pub numbers: Option<&'a [u8]>,
    /// The fields by which a list is filtered too.
    pub filter: Filter<'a>,
}

impl Selection<'_> {
    /// Returns whether a recipient is selected at this time. Allocates nothing.
    pub fn selects(&self, now: Moment, row: &Row<'_>) -> bool
        ensures { result ≡ selects self.now now (said_by row.now) }
    {
        self.sets_field()
            && is_numbered_if(row.number, self.numbers)
            && self.filter.passes(now, row)
    }

    /// Returns whether a field is set.
    fn sets_field(&self) -> bool
        ensures { result ≡ sets_field self.now }
    {
        self.numbers.is_some()
            || self.filter.hop.is_some()
            || self.filter.reverse_path.is_some()
            || self.filter.path.is_some()
            || self.filter.age.is_some()
    }
}

fn is_numbered_if(number: u64, asked: Option<&[u8]>) -> bool
    ensures { result ≡ passes_if (λ numbers. is_numbered numbers number) (option_copied asked.entry) }
{
    match asked {
        Some(numbers) => is_numbered(numbers, number),
        None => true,
    }
}

/// Returns whether this number is among those of a text.
fn is_numbered(numbers: &[u8], number: u64) -> bool
    ensures { result ≡ is_numbered numbers.now number }
{
    has_part(numbers, Buffer::new().format(number).as_bytes())
}

/// Returns whether one of the parts of a text between commas is this word.
fn has_part(text: &[u8], word: &[u8]) -> bool
    ensures { result ≡ has_part word.now text.now }
{
    let mut rest = text;
    while let Some((part, after)) = first_part(rest) {
        if is_word(part, word) {
            return true;
        }
        rest = after;
    }
    is_word(rest, word)
}

/// Returns what is before the first comma of a text, and after it.
fn first_part(text: &[u8]) -> Option<(&[u8], &[u8])>
    ensures { MatchOption result (OnePart text.now) (λ parts. FirstPart text.now parts.0.now parts.1.now) }
{
    let place = memchr(b',', text)?;
    Some((&text[..place], &text[place + 1..]))
}
