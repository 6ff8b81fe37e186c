ghost use Rattle.std.specs.Prelude.{◌≡◌, ◌-◌, nat_le};
ghost use Rattle.std.specs.Option.{option_copied};
ghost use Rattle.relay_queue.specs.Filter.{is_hop, is_path, passes, passes_if, within_brackets};
ghost use Rattle.relay_listing.specs.Row.{said_by};

use relay_lines::word::is_word;
use relay_listing::Row;
use relay_trace::Moment;

/// Selects the queued recipients to list: those that match every field that is set.
#[derive(Clone, Copy)]
pub struct Filter<'a> {
    /// The name of the next hop, in any letter case.
    pub hop: Option<&'a [u8]>,
    /// The reverse path, with or without its brackets, in any letter case.
    pub reverse_path: Option<&'a [u8]>,
    /// The forward path, with or without its brackets, in any letter case.
    pub path: Option<&'a [u8]>,
    /// The least age of the message, in seconds since it was accepted.
    pub age: Option<u64>,
}

impl Filter<'_> {
    /// Returns whether a recipient is listed at this time. Allocates nothing.
    pub fn passes(&self, now: Moment, row: &Row<'_>) -> bool
        ensures { result ≡ passes self.now now (said_by row.now) }
    {
        is_hop_if(row.hop, self.hop)
            && is_path_if(row.reverse_path, self.reverse_path)
            && is_path_if(row.path, self.path)
            && is_aged_if(now, row.accepted, self.age)
    }
}

fn is_hop_if(hop: Option<&[u8]>, asked: Option<&[u8]>) -> bool
    ensures { result ≡ passes_if (is_hop (option_copied hop.entry)) (option_copied asked.entry) }
{
    match asked {
        Some(asked) => match hop {
            Some(name) => is_word(name, asked),
            None => false,
        },
        None => true,
    }
}

fn is_path_if(path: &[u8], asked: Option<&[u8]>) -> bool
    ensures { result ≡ passes_if (is_path path.now) (option_copied asked.entry) }
{
    match asked {
        Some(asked) => is_word(path, asked) || is_word(within_brackets(path), asked),
        None => true,
    }
}

fn is_aged_if(now: Moment, accepted: Moment, asked: Option<u64>) -> bool
    ensures { result ≡ passes_if (λ age. nat_le age (now - accepted)) asked }
{
    match asked {
        Some(age) => age <= now.seconds().saturating_sub(accepted.seconds()),
        None => true,
    }
}

/// Returns a path without its brackets.
fn within_brackets(path: &[u8]) -> &[u8]
    ensures { result.now ≡ within_brackets path.now }
{
    if path.len() < 2 {
        return &path[..0];
    }
    &path[1..path.len() - 1]
}
