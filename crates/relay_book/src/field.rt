//! Fields of a record: numbers, and texts after their lengths.
ghost use Rattle.std.specs.Prelude.{◌≡◌, ◌≢◌, ◌<◌, ◌^◌, ◌++◌, ◌∷◌, [], ℕ, List, length, OnOk, OnErr, MatchOption};
ghost use Rattle.relay_book.specs.Record.{octets_2, octets_4, octets_8, sized_2, sized_4};
ghost use Rattle.relay_book.specs.Fields.{HasNoSized};
ghost use Rattle.relay_book.specs.SnapshotFields.{HasNoLong};

use std::alloc::AllocError;

/// Returns a number of two octets, and what follows it.
#[tactic(auto, unfolding(crate::specs::Record::octets_2))]
pub(crate) fn read_2(text: &[u8]) -> Option<(u16, &[u8])>
    ensures { MatchOption result (length text.now < 2)
        (λ parts. text.now ≡ octets_2 parts.0 ++ parts.1.now) }
{
    match text {
        [a, b, rest @ ..] => Some((u16::from_be_bytes([*a, *b]), rest)),
        _ => None,
    }
}

/// Returns a number of four octets, and what follows it.
#[tactic(auto, unfolding(crate::specs::Record::octets_4))]
pub(crate) fn read_4(text: &[u8]) -> Option<(u32, &[u8])>
    ensures { MatchOption result (length text.now < 4)
        (λ parts. text.now ≡ octets_4 parts.0 ++ parts.1.now) }
{
    match text {
        [a, b, c, d, rest @ ..] => Some((u32::from_be_bytes([*a, *b, *c, *d]), rest)),
        _ => None,
    }
}

/// Returns a text after its length of two octets, and what follows it.
pub(crate) fn read_sized_2(text: &[u8]) -> Option<(&[u8], &[u8])>
    ensures { MatchOption result
        (HasNoSized text.now)
        (λ parts. (text.now ≡ sized_2 parts.0.now ++ parts.1.now) × (length parts.0.now < 2 ^ 16)) }
{
    let (len, rest) = read_2(text)?;
    let len = len as usize;
    if len <= rest.len() {
        Some(rest.split_at(len))
    } else {
        None
    }
}

/// Returns a text after its length of four octets, and what follows it.
pub(crate) fn read_sized_4(text: &[u8]) -> Option<(&[u8], &[u8])>
    ensures { MatchOption result
        (HasNoLong text.now)
        (λ parts. (text.now ≡ sized_4 parts.0.now ++ parts.1.now) × (length parts.0.now < 2 ^ 32)) }
{
    let (len, rest) = read_4(text)?;
    let len = len as usize;
    if len <= rest.len() {
        Some(rest.split_at(len))
    } else {
        None
    }
}

/// Returns a number of eight octets, and what follows it.
#[tactic(auto, unfolding(crate::specs::Record::octets_8))]
pub(crate) fn read_8(text: &[u8]) -> Option<(u64, &[u8])>
    ensures { MatchOption result (length text.now < 8)
        (λ parts. text.now ≡ octets_8 parts.0 ++ parts.1.now) }
{
    match text {
        [a, b, c, d, e, f, g, h, rest @ ..] => {
            let number = u64::from_be_bytes([*a, *b, *c, *d, *e, *f, *g, *h]);
            Some((number, rest))
        }
        _ => None,
    }
}

/// Adds an octet.
pub(crate) fn push_1(out: &mut Vec<u8>, octet: u8) -> Result<(), AllocError>
    ensures { OnOk result (out.new.items ≡ out.old.items ++ octet ∷ []) }
{
    out.push(octet)?;
    Ok(())
}

/// Adds a number of two octets.
#[tactic(auto, unfolding(crate::specs::Record::octets_2))]
pub(crate) fn push_2(out: &mut Vec<u8>, number: u16) -> Result<(), AllocError>
    ensures { OnOk result (out.new.items ≡ out.old.items ++ octets_2 number) }
{
    out.extend_from_slice(&number.to_be_bytes())
}

/// Adds a number of four octets.
#[tactic(auto, unfolding(crate::specs::Record::octets_4))]
pub(crate) fn push_4(out: &mut Vec<u8>, number: u32) -> Result<(), AllocError>
    ensures { OnOk result (out.new.items ≡ out.old.items ++ octets_4 number) }
{
    out.extend_from_slice(&number.to_be_bytes())
}

/// Adds a number of eight octets.
#[tactic(auto, unfolding(crate::specs::Record::octets_8))]
pub(crate) fn push_8(out: &mut Vec<u8>, number: u64) -> Result<(), AllocError>
    ensures { OnOk result (out.new.items ≡ out.old.items ++ octets_8 number) }
{
    out.extend_from_slice(&number.to_be_bytes())
}

/// Adds a text after its length of two octets.
#[tactic(auto, unfolding(crate::specs::Record::octets_2))]
pub(crate) fn push_sized_2(out: &mut Vec<u8>, text: &[u8]) -> Result<(), AllocError>
    requires { length text.now < 2 ^ 16 }
    ensures { OnOk result (out.new.items ≡ out.old.items ++ sized_2 text.now) }
{
    out.extend_from_slice(&(text.len() as u16).to_be_bytes())?;
    out.extend_from_slice(text)
}

/// Adds a text after its length of four octets. It makes room for both at once, and for no more: such a text is most
/// of its record.
#[tactic(auto, unfolding(crate::specs::Record::octets_4))]
pub(crate) fn push_sized_4(out: &mut Vec<u8>, text: &[u8]) -> Result<(), AllocError>
    requires { length text.now < 2 ^ 32 }
    ensures { OnOk result (out.new.items ≡ out.old.items ++ sized_4 text.now) }
{
    out.reserve_exact(4 + text.len())?;
    out.extend_from_slice(&(text.len() as u32).to_be_bytes())?;
    out.extend_from_slice(text)
}
