//! Which reply of a server settled a place.
ghost use Rattle.std.specs.Prelude.{◌≡◌, ◌≤◌, map, slice_get};
ghost use Rattle.relay_course.specs.Settling.{content_position, hello_position, is_completion, is_intermediate};
ghost use Rattle.relay_course.specs.Settling.{is_permanent, settling_position};
ghost use Rattle.relay_course.specs.VerdictTable.{kind_of};

use crate::reply_kind::{ReplyKind, kind_of};

/// Returns the position, among the codes of an attempt's replies, of the reply that settled a place: the one of this
/// index among `count` places. The text was sent by DATA, or as a chunk. Codes after the attempt's end change nothing.
/// There may be no reply at the position, if the attempt ended before.
pub fn settling_position(codes: &[u16], by_data: bool, count: u8, index: u8) -> usize
    ensures { result ≡ settling_position by_data (map kind_of codes.now) count index }
{
    let hello = hello_position(codes);
    let mail = hello + 1;
    let rcpt = mail + 1 + usize::from(index);
    if !is_completion(kind_at(codes, 0)) {
        0
    } else if !is_completion(kind_at(codes, hello)) {
        hello
    } else if !is_completion(kind_at(codes, mail)) {
        mail
    } else if !is_completion(kind_at(codes, rcpt)) {
        rcpt
    } else {
        content_position(codes, by_data, count)
    }
}

/// Returns the position of the reply to EHLO, or to HELO if EHLO was refused.
fn hello_position(codes: &[u16]) -> usize
    ensures position { result ≡ hello_position (map kind_of codes.now) }
    ensures within { result ≤ 2 }
{
    if is_permanent(kind_at(codes, 1)) {
        2
    } else {
        1
    }
}

/// Returns the position of the reply to the content.
fn content_position(codes: &[u16], by_data: bool, count: u8) -> usize
    ensures { result ≡ content_position by_data (map kind_of codes.now) count }
{
    let next = hello_position(codes) + 1 + 1 + usize::from(count);
    if by_data {
        if is_intermediate(kind_at(codes, next)) {
            next + 1
        } else {
            next
        }
    } else {
        next
    }
}

/// Returns the kind of the reply at a position, if there is one.
#[tactic(auto, using(crate::proofs::PositionLemmas::kind_within, crate::proofs::PositionLemmas::kind_past))]
fn kind_at(codes: &[u16], position: usize) -> Option<ReplyKind>
    ensures { result ≡ slice_get (map kind_of codes.now) position }
{
    if position < codes.len() {
        Some(kind_of(codes[position]))
    } else {
        None
    }
}

fn is_completion(kind: Option<ReplyKind>) -> bool
    ensures { result ≡ is_completion kind }
{
    match kind {
        Some(ReplyKind::Completion) => true,
        Some(ReplyKind::Intermediate) => false,
        Some(ReplyKind::Transient) => false,
        Some(ReplyKind::Permanent) => false,
        None => false,
    }
}

fn is_intermediate(kind: Option<ReplyKind>) -> bool
    ensures { result ≡ is_intermediate kind }
{
    match kind {
        Some(ReplyKind::Completion) => false,
        Some(ReplyKind::Intermediate) => true,
        Some(ReplyKind::Transient) => false,
        Some(ReplyKind::Permanent) => false,
        None => false,
    }
}

fn is_permanent(kind: Option<ReplyKind>) -> bool
    ensures { result ≡ is_permanent kind }
{
    match kind {
        Some(ReplyKind::Completion) => false,
        Some(ReplyKind::Intermediate) => false,
        Some(ReplyKind::Transient) => false,
        Some(ReplyKind::Permanent) => true,
        None => false,
    }
}
