ghost use Rattle.std.specs.Prelude.{◌≡◌, ◌≢◌, ◌<◌, ◌≤◌, ◌↔◌, ◌++◌, ◌∷◌, [], true, false, length, List, ℕ, IsTrue};
ghost use Rattle.std.specs.Prelude.{MatchOption};
ghost use Rattle.std.specs.List.{after_last, list_any};
ghost use Rattle.relay_envelope.specs.Mailbox.{IsDomain, IsDomainName, IsLocalPart, IsMailbox, SplitsAtLast};
ghost use Rattle.relay_envelope.specs.Mailbox.{SplitsRoute, is_at, mailbox_text, stands_in};

use super::brackets::inside_brackets;
use crate::row::{is_row, row_before};
use memchr::memrchr;
use relay_lines::word::{are_domain_octets, is_address_literal};

/// The most octets of a path, with its brackets (RFC 5321, section 4.5.3.1.3).
const PATH_LIMIT: usize = 256;

/// A mailbox in brackets, and its parts: slices of the text.
#[derive(Clone, Copy, Debug)]
pub struct Mailbox<'a> {
    text: &'a [u8],
    route: &'a [u8],
    local: &'a [u8],
    domain: &'a [u8],
    pub ghost is_text: { text.now ≡ mailbox_text route.now local.now domain.now },
    pub ghost in_limit: { length text.now ≤ 256 },
}

impl<'a> Mailbox<'a> {
    /// Returns the mailbox that the whole text is.
    pub(super) fn read(text: &'a [u8]) -> Option<Self>
        ensures { MatchOption result
            ((route : List ℕ) (local : List ℕ) (domain : List ℕ) → text.now ≡ mailbox_text route local domain
            → IsMailbox route local domain → 256 < length text.now)
            (λ mailbox. (mailbox.text.now ≡ text.now)
            × IsMailbox mailbox.route.now mailbox.local.now mailbox.domain.now) }
    {
        let body = inside_brackets(text)?;
        let (route, address) = split_route(body)?;
        let (local, domain) = split_at_last_at(address)?;
        if text.len() <= PATH_LIMIT && is_local_part(local) && is_domain(domain) {
            Some(Mailbox {
                text,
                route,
                local,
                domain,
            })
        } else {
            None
        }
    }

    /// Returns the domain.
    pub(super) fn domain(&self) -> &'a [u8]
        ensures { result.now ≡ self.now.domain.now }
    {
        self.domain
    }

    /// Returns the mailbox as it came, with its brackets.
    pub(super) fn text(&self) -> &'a [u8]
        ensures value { result.now ≡ mailbox_text self.now.route.now self.now.local.now self.now.domain.now }
        ensures within { length result.now ≤ 256 }
    {
        self.text
    }
}

/// Returns the source route of a body that begins with one, and the address after it.
fn split_route(body: &[u8]) -> Option<(&[u8], &[u8])>
    ensures { MatchOption result
        ((route : List ℕ) (address : List ℕ) → ¬ SplitsRoute body.now route address)
        (λ parts. SplitsRoute body.now parts.0.now parts.1.now) }
{
    match body.split_first() {
        Some((first, after)) if *first == b'@' => {
            let len = row_before(b':', after)?;
            Some(body.split_at(len + 2))
        }
        _ => Some(body.split_at(0)),
    }
}

/// Returns what is before the last `@`, and after it.
fn split_at_last_at(body: &[u8]) -> Option<(&[u8], &[u8])>
    ensures { MatchOption result
        (stands_in 64 body.now ≡ false)
        (λ parts. SplitsAtLast 64 body.now parts.0.now parts.1.now) }
{
    let place = memrchr(b'@', body)?;
    Some((&body[..place], &body[place + 1..]))
}

/// Returns what is after the last `@`.
pub(super) fn after_last_at(text: &[u8]) -> Option<&[u8]>
    ensures { MatchOption result
        (list_any is_at text.now ≡ false)
        (λ after. (list_any is_at text.now ≡ true) × (after.now ≡ after_last is_at text.now)
        × (length after.now ≤ length text.now)) }
{
    let (_, after) = split_at_last_at(text)?;
    Some(after)
}

/// Returns whether a local part is not empty, and a row of plain octets and quoted strings.
fn is_local_part(local: &[u8]) -> bool
    ensures { IsTrue result ↔ IsLocalPart local.now }
{
    !local.is_empty() && is_row(local)
}

/// Returns whether the text is what may stand after the `@` of a mailbox (RFC 5321, section 4.1.2): a domain, or an
/// address literal. Allocates nothing.
pub fn is_domain(domain: &[u8]) -> bool
    ensures { IsTrue result ↔ IsDomain domain.now }
{
    is_domain_name(domain) || is_address_literal(domain)
}

/// Returns whether a domain is not empty, and has letters, digits, `-`, `.` and `_` alone.
fn is_domain_name(domain: &[u8]) -> bool
    ensures { IsTrue result ↔ IsDomainName domain.now }
{
    !domain.is_empty() && are_domain_octets(domain)
}
