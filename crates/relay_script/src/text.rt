//! The text of octets.
ghost use Rattle.std.specs.Prelude.{◌≡◌, ◌++◌, IfOk, MatchOption, OnOk};
ghost use Rattle.relay_script.specs.Text.{spelled};
ghost use Rattle.relay_script.specs.Line.{IsOperand};
ghost use Rattle.relay_script.specs.Line.Operand.{Text};
ghost use Rattle.relay_script.specs.Reading.{LacksOperand};
ghost use Rattle.relay_script.specs.Reading.Kind.{TextKind};

use crate::octet::{first_octet, push_octet};
use relay_octets::Octets;
use std::alloc::{AllocError, Global};

/// Adds the text that spells the octets. If memory runs out, some of it may stand there.
pub fn push_text(out: &mut Vec<u8>, octets: &[u8]) -> Result<(), AllocError>
    ensures { OnOk result (out.new.items ≡ out.old.items ++ spelled octets.now) }
{
    for octet in octets {
        push_octet(out, *octet)?;
    }
    Ok(())
}

/// Returns the octets that a text spells, if it spells any.
#[tactic(auto, using(crate::proofs::TextLemmas::reading))]
pub(crate) fn read_text(alloc: Global, text: &[u8]) -> Result<Option<Octets>, AllocError>
    ensures { IfOk result (λ read. MatchOption read (LacksOperand TextKind text.now)
        (λ octets. IsOperand text.now (Text octets))) }
{
    let mut octets = Vec::new(alloc);
    let mut rest = text;
    while let Some((octet, after)) = first_octet(rest) {
        octets.push(octet)?;
        rest = after;
    }
    if rest.is_empty() {
        Ok(Some(Octets::new(octets)))
    } else {
        Ok(None)
    }
}
