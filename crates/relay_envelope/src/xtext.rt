ghost use Rattle.std.specs.Prelude.{◌≡◌, ◌≢◌, ◌<◌, ◌++◌, ◌∷◌, ℕ, List, [], true, OnOk, OnErr, MatchOption};
ghost use Rattle.relay_envelope.specs.Xtext.{decoded, encoded_octet, octet_of_digits, FirstOctet, is_xchar as xchar};
ghost use Rattle.relay_envelope.specs.Xtext.{is_digit as hexadecimal, value_of_digit as digit_value, digit_of as digit};

use relay_octets::Octets;
use std::alloc::{AllocError, Global};
use std::marker::Model;
use thiserror::Error;

/// Octets encoded as xtext (RFC 3461, section 4).
#[derive(Debug)]
pub struct Xtext {
    text: Octets,
}

// Written out, so that the proof of a caller that drops an xtext stops at this function.
impl Drop for Xtext {
    fn drop(self) {
        let Xtext { text: _text } = self;
    }
}

impl Model for Xtext {
    ghost Value = { List ℕ };

    ghost view = { λ xtext. xtext.text };
}

/// Why a text was not decoded.
#[derive(Clone, Copy, Debug, Drop, PartialEq, Eq, Error)]
pub enum XtextFault {
    /// The text is no xtext.
    #[error("no xtext")]
    NotXtext,
    /// Memory ran out.
    #[error("out of memory")]
    NoMemory,
}

impl Xtext {
    ghost use Rattle.std.specs.Prelude.{◌≡◌, Some, None, IfOk, IsErrOf};
    ghost use Rattle.relay_envelope.specs.Xtext.{decoded, encoded};

    /// Encodes octets as xtext. Fails if memory runs out.
    pub fn encode(alloc: Global, octets: &[u8]) -> Result<Self, AllocError>
        ensures { IfOk result (λ text. text ≡ encoded octets.now) }
    {
        let mut text = Vec::with_capacity(alloc, octets.len())?;
        for octet in octets {
            push_encoded(&mut text, *octet)?;
        }
        Ok(Xtext {
            text: Octets::new(text),
        })
    }

    /// Decodes an xtext.
    pub fn decode(alloc: Global, text: &[u8]) -> Result<Octets, XtextFault>
        ensures decoded { IfOk result (λ octets. decoded text.now ≡ Some octets) }
        ensures refused { IsErrOf result XtextFault.NotXtext → decoded text.now ≡ None }
    {
        let mut octets = Vec::with_capacity(alloc, text.len())?;
        let mut rest = text;
        while let Some((octet, after)) = first_octet(rest) {
            octets.extend_from_slice(&[octet])?;
            rest = after;
        }
        if rest.is_empty() {
            Ok(Octets::new(octets))
        } else {
            Err(XtextFault::NotXtext)
        }
    }

    /// A copy of an xtext as it was written. Fails if memory runs out.
    pub fn written(alloc: Global, text: &[u8]) -> Result<Self, AllocError>
        ensures { IfOk result (λ copy. copy ≡ text.now) }
    {
        Ok(Xtext {
            text: Octets::from_slice(alloc, text)?,
        })
    }

    /// Returns the encoded text.
    pub fn as_slice(&self) -> &[u8]
        ensures { result.now ≡ self.now }
    {
        self.text.as_slice()
    }
}

impl From<AllocError> for XtextFault {
    ghost use Rattle.std.specs.Prelude.{◌≡◌};
    ghost use Rattle.relay_envelope.specs.declared.xtext.XtextFault.TheVariants.{NoMemory};

    ghost from_gives = { λ _ fault. fault ≡ NoMemory };

    fn from(_error: AllocError) -> Self {
        XtextFault::NoMemory
    }
}

/// Adds the encoding of one octet. If memory runs out, nothing is added.
fn push_encoded(text: &mut Vec<u8>, octet: u8) -> Result<(), AllocError>
    ensures ok { OnOk result (text.new.items ≡ text.old.items ++ encoded_octet octet) }
    ensures err { OnErr result (text.new.items ≡ text.old.items) }
{
    if is_xchar(octet) {
        text.push(octet)?;
        Ok(())
    } else {
        text.extend_from_slice(&[b'+', digit_of(octet / 16), digit_of(octet % 16)])
    }
}

/// Returns the octet that the text's first part stands for, and what follows that part.
#[tactic(auto, using(crate::proofs::XtextLemmas::first_char, crate::proofs::XtextLemmas::no_char))]
pub(crate) fn first_octet(text: &[u8]) -> Option<(u8, &[u8])>
    ensures { MatchOption result
        (text.now ≢ [] → decoded text.now ≡ None)
        (λ parts. FirstOctet text.now parts.0 parts.1.now) }
{
    let (first, after) = text.split_first()?;
    if *first == b'+' {
        after_plus(after)
    } else if is_xchar(*first) {
        Some((*first, after))
    } else {
        None
    }
}

/// Returns the octet of the two digits after a `+`, and what follows them.
#[tactic(auto, using(crate::proofs::XtextLemmas::decoded_digits))]
fn after_plus(digits: &[u8]) -> Option<(u8, &[u8])>
    ensures { MatchOption result
        (decoded (43 ∷ digits.now) ≡ None)
        (λ parts. FirstOctet (43 ∷ digits.now) parts.0 parts.1.now) }
{
    let (high, more) = digits.split_first()?;
    let (low, after) = more.split_first()?;
    let octet = octet_of(*high, *low)?;
    Some((octet, after))
}

/// Returns the octet of two digits.
fn octet_of(high: u8, low: u8) -> Option<u8>
    ensures { result ≡ octet_of_digits high low }
{
    if is_digit(high) && is_digit(low) {
        Some(value_of_digit(high) * 16 + value_of_digit(low))
    } else {
        None
    }
}

fn is_xchar(octet: u8) -> bool
    ensures { result ≡ xchar octet }
{
    matches!(octet, b'!'..=b'~') && !matches!(octet, b'+' | b'=')
}

fn is_digit(octet: u8) -> bool
    ensures { result ≡ hexadecimal octet }
{
    matches!(octet, b'0'..=b'9' | b'A'..=b'F')
}

/// Returns the value of a hexadecimal digit in upper case.
fn value_of_digit(digit: u8) -> u8
    requires { hexadecimal digit ≡ true }
    ensures value { result ≡ digit_value digit }
    ensures within { result < 16 }
{
    if digit < b'A' {
        digit - b'0'
    } else {
        digit - 55
    }
}

/// Returns the hexadecimal digit in upper case of a value.
fn digit_of(value: u8) -> u8
    requires { value < 16 }
    ensures { result ≡ digit value }
{
    if value < 10 { b'0' + value } else { 55 + value }
}
