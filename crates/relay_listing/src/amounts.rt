//! Spans of time and sizes as people read them.
ghost use Rattle.std.specs.Prelude.{◌≡◌, ◌++◌, ◌<◌, ◌≤◌, ◌^◌, OnOk, true};
ghost use Rattle.std.specs.List.{list_all};
ghost use Rattle.relay_lines.specs.Word.{is_printable};
ghost use Rattle.relay_listing.specs.Amounts.{amount_text, in_unit, size_text, span_text, tenth_text, wait_text};

use crate::pieces::push_number;
use std::alloc::AllocError;

/// One KiB, in octets.
const KIB: u64 = 1 << 10;

/// One MiB, in octets.
const MIB: u64 = 1 << 20;

/// One GiB, in octets.
const GIB: u64 = 1 << 30;

/// A number in a unit.
#[derive(Clone, Copy)]
pub struct Amount {
    pub whole: u64,
    /// Tenths of the unit, if they are shown.
    pub tenth: Option<u64>,
    /// A space, and the unit's name in printable ASCII.
    pub unit: &'static [u8],
}

impl Amount {
    /// Returns a span of time in whole seconds, minutes, hours or days.
    #[tactic(auto, unfolding(crate::specs::Amounts::span_text))]
    pub fn of_span(seconds: u64) -> Self
        ensures text { amount_text result ≡ span_text seconds }
        ensures unit { list_all is_printable result.unit.now ≡ true }
    {
        let (whole, unit): (u64, &'static [u8]) = if seconds < 60 {
            (seconds, b" s")
        } else if seconds < 3_600 {
            (seconds / 60, b" min")
        } else if seconds < 172_800 {
            (seconds / 3_600, b" h")
        } else {
            (seconds / 86_400, b" d")
        };
        Amount {
            whole,
            tenth: None,
            unit,
        }
    }

    /// Returns a size, in octets, KiB, MiB or GiB, with one decimal unless in octets.
    #[tactic(auto, unfolding(crate::specs::Amounts::size_text))]
    pub fn of_size(octets: u64) -> Self
        ensures text { amount_text result ≡ size_text octets }
        ensures unit { list_all is_printable result.unit.now ≡ true }
    {
        if octets < KIB {
            Amount {
                whole: octets,
                tenth: None,
                unit: b" B",
            }
        } else if octets < MIB {
            in_unit(octets, KIB, b" KiB")
        } else if octets < GIB {
            in_unit(octets, MIB, b" MiB")
        } else {
            in_unit(octets, GIB, b" GiB")
        }
    }
}

/// Returns a size in a unit of this number of octets, with one decimal.
fn in_unit(octets: u64, size: u64, unit: &'static [u8]) -> Amount
    requires some { 0 < size }
    requires small { size ≤ 2 ^ 30 }
    ensures text { amount_text result ≡ in_unit octets size unit.now }
    ensures unit { result.unit.now ≡ unit.now }
{
    Amount {
        whole: octets / size,
        tenth: Some(octets % size * 10 / size),
        unit,
    }
}

/// Adds how long it is until something happens in this number of seconds.
#[tactic(auto, unfolding(crate::specs::Amounts::wait_text))]
pub(crate) fn push_wait(text: &mut Vec<u8>, seconds: u64) -> Result<(), AllocError>
    ensures { OnOk result (text.new.items ≡ text.old.items ++ wait_text seconds) }
{
    if 0 < seconds {
        text.extend_from_slice(b"in ")?;
        push_amount(text, Amount::of_span(seconds))
    } else {
        text.extend_from_slice(b"now")
    }
}

/// Adds an amount.
pub(crate) fn push_amount(text: &mut Vec<u8>, amount: Amount) -> Result<(), AllocError>
    ensures { OnOk result (text.new.items ≡ text.old.items ++ amount_text amount) }
{
    push_number(text, amount.whole)?;
    if let Some(tenth) = amount.tenth {
        text.extend_from_slice(b".")?;
        push_number(text, tenth)?;
    }
    text.extend_from_slice(amount.unit)
}
