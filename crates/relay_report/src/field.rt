//! Fields, each on a line of its own.
ghost use Rattle.std.specs.Prelude.{◌≡◌, ◌++◌, IfOk, OnOk, decimal};
ghost use Rattle.relay_report.specs.Sentences.{sentence};
ghost use Rattle.relay_report.specs.StatusFields.{field, field_front, plain_of, typed, typed_front};

use itoa::Buffer;
use relay_envelope::{Xtext, XtextFault};
use relay_octets::Octets;
use std::alloc::{AllocError, Global};

/// Adds a field.
pub(crate) fn push_field(out: &mut Vec<u8>, name: &[u8], body: &[u8]) -> Result<(), AllocError>
    ensures { OnOk result (out.new.items ≡ out.old.items ++ field name.now body.now) }
{
    out.extend_from_slice(name)?;
    out.extend_from_slice(b": ")?;
    out.extend_from_slice(body)?;
    out.extend_from_slice(b"\r\n")
}

/// Adds a field whose body is a type and a text.
pub(crate) fn push_typed_field(
    out: &mut Vec<u8>,
    name: &[u8],
    kind: &[u8],
    text: &[u8],
) -> Result<(), AllocError>
    ensures { OnOk result (out.new.items ≡ out.old.items ++ field name.now (typed kind.now text.now)) }
{
    begin_typed_field(out, name, kind)?;
    out.extend_from_slice(text)?;
    out.extend_from_slice(b"\r\n")
}

/// Adds a field up to its body.
pub(crate) fn begin_field(out: &mut Vec<u8>, name: &[u8]) -> Result<(), AllocError>
    ensures { OnOk result (out.new.items ≡ out.old.items ++ field_front name.now) }
{
    out.extend_from_slice(name)?;
    out.extend_from_slice(b": ")
}

/// Adds a field whose body is a type and a text, up to the text.
pub(crate) fn begin_typed_field(
    out: &mut Vec<u8>,
    name: &[u8],
    kind: &[u8],
) -> Result<(), AllocError>
    ensures { OnOk result (out.new.items ≡ out.old.items ++ typed_front name.now kind.now) }
{
    out.extend_from_slice(name)?;
    out.extend_from_slice(b": ")?;
    out.extend_from_slice(kind)?;
    out.extend_from_slice(b"; ")
}

/// Adds a line with a word filled in.
pub(crate) fn push_sentence(
    out: &mut Vec<u8>,
    front: &[u8],
    word: &[u8],
    back: &[u8],
) -> Result<(), AllocError>
    ensures { OnOk result (out.new.items ≡ out.old.items ++ sentence front.now word.now back.now) }
{
    out.extend_from_slice(front)?;
    out.extend_from_slice(word)?;
    out.extend_from_slice(back)?;
    out.extend_from_slice(b"\r\n")
}

/// Adds a number in decimal.
pub(crate) fn push_decimal(out: &mut Vec<u8>, number: u64) -> Result<(), AllocError>
    ensures { OnOk result (out.new.items ≡ out.old.items ++ decimal number) }
{
    out.extend_from_slice(Buffer::new().format(number).as_bytes())
}

/// Returns the octets that an xtext stands for. Fails if memory runs out.
pub(crate) fn plain_of(alloc: Global, text: &[u8]) -> Result<Octets, AllocError>
    ensures { IfOk result (λ plain. plain ≡ plain_of text.now) }
{
    match Xtext::decode(alloc, text) {
        Ok(octets) => Ok(octets),
        Err(XtextFault::NotXtext) => Octets::from_slice(alloc, text),
        Err(XtextFault::NoMemory) => Err(AllocError),
    }
}
