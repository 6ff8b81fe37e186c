ghost use Rattle.std.specs.Prelude.{◌≡◌};
ghost use Rattle.std.specs.List.{list_all};
ghost use Rattle.relay_envelope.specs.Parameters.{address_of, address_type_of, is_address_type, is_envid, is_orcpt};
ghost use Rattle.relay_envelope.specs.Parameters.{is_original_address, is_readable_xtext, is_type_octet};

use crate::part::first_part;
use crate::xtext::first_octet;
use relay_lines::word::is_printable;

/// The most octets of ENVID as it is written (RFC 3461, section 4.4).
const ENVID_LIMIT: usize = 100;

/// The most octets of ORCPT as it is written (RFC 3461, section 4.2).
const ORCPT_LIMIT: usize = 500;

/// Returns whether the value is one of ENVID (RFC 3461, section 4.4). Allocates nothing.
#[tactic(auto, unfolding(crate::specs::Parameters::is_envid))]
pub fn is_envid(value: &[u8]) -> bool
    ensures { result ≡ is_envid value.now }
{
    1 <= value.len() && value.len() <= ENVID_LIMIT && is_readable_xtext(value)
}

/// Returns whether the value is one of ORCPT (RFC 3461, section 4.2): a type, `;` and an address. Allocates nothing.
#[tactic(auto, unfolding(crate::specs::Parameters::is_orcpt))]
pub fn is_orcpt(value: &[u8]) -> bool
    ensures { result ≡ is_orcpt value.now }
{
    let (address_type, address) = type_and_address(value);
    value.len() <= ORCPT_LIMIT && is_address_type(address_type) && is_original_address(address)
}

/// Returns what is before the first `;` of ORCPT, and after it; nothing is after it if there is none.
pub(crate) fn type_and_address(value: &[u8]) -> (&[u8], &[u8])
    ensures address_type { result.0.now ≡ address_type_of value.now }
    ensures address { result.1.now ≡ address_of value.now }
{
    match first_part(b';', value) {
        Some((address_type, address)) => (address_type, address),
        None => value.split_at(value.len()),
    }
}

#[tactic(auto, unfolding(crate::specs::Parameters::is_address_type))]
fn is_address_type(text: &[u8]) -> bool
    ensures { result ≡ is_address_type text.now }
{
    0 < text.len() && are_type_octets(text)
}

fn are_type_octets(text: &[u8]) -> bool
    ensures { result ≡ list_all is_type_octet text.now }
{
    text.iter().all(|octet| is_type_octet(*octet))
}

#[tactic(auto, unfolding(crate::specs::Parameters::is_original_address))]
fn is_original_address(text: &[u8]) -> bool
    ensures { result ≡ is_original_address text.now }
{
    0 < text.len() && is_readable_xtext(text)
}

/// Returns whether the text is xtext, and what it stands for is printable.
#[tactic(auto, unfolding(crate::specs::Parameters::is_readable_xtext))]
fn is_readable_xtext(text: &[u8]) -> bool
    ensures { result ≡ is_readable_xtext text.now }
{
    let mut rest = text;
    while let Some((octet, after)) = first_octet(rest) {
        if !is_printable(octet) {
            return false;
        }
        rest = after;
    }
    rest.is_empty()
}

fn is_type_octet(octet: u8) -> bool
    ensures { result ≡ is_type_octet octet }
{
    octet.is_ascii_alphanumeric() || octet == b'-'
}
