//! The verdicts of a record.
ghost use Rattle.std.specs.Prelude.{◌≡◌, ◌++◌, ◌∷◌, MatchOption, IfOk, IsErrOf, IsTrue, ◌↔◌};
ghost use Rattle.std.specs.List.{flat_map, AllPass};
ghost use Rattle.std.specs.Int.{is_in_range};
ghost use Rattle.relay_book.specs.Record.{IsRefusal, IsRuling, IsVerdict, counted, ruling_octets, verdict_octets};
ghost use Rattle.relay_book.specs.Fields.{HaveCount, AreSome, HasCount, HasNoCounted, HasNoRefusal, HasNoRow, HasNone};
ghost use Rattle.relay_book.specs.Fields.{refusal_octets};

use crate::change::{Ruling, Rulings, Verdict, Withdrawal};
use crate::fault::BookFault;
use crate::field::read_2;
use crate::limits::{REFUSAL_LIMIT, is_printable, is_reply_code};
use relay_octets::Octets;
use std::alloc::Global;

/// Returns a refusal's code and its text, and what follows them.
#[tactic(auto, using(crate::proofs::RefusalLemmas::malformed_refusals))]
fn read_refusal(text: &[u8]) -> Option<(u16, &[u8], &[u8])>
    ensures { MatchOption result (HasNoRefusal text.now)
        (λ parts. IsRefusal parts.0 parts.1.now
        × (text.now ≡ refusal_octets parts.0 parts.1.now ++ parts.2.now)) }
{
    let (code, after) = read_2(text)?;
    if !is_reply_code(code) {
        return None;
    }
    let (len, after) = after.split_first()?;
    let len = *len as usize;
    if len > after.len() {
        return None;
    }
    let (field, rest) = after.split_at(len);
    if len > REFUSAL_LIMIT || !is_printable(field) {
        return None;
    }
    Some((code, field, rest))
}

/// Returns a verdict, and what follows it.
#[tactic(auto, using(crate::proofs::RefusalLemmas::malformed_verdicts))]
fn read_verdict(alloc: Global, text: &[u8]) -> Result<(Verdict, &[u8]), BookFault>
    ensures verdict { IfOk result (λ parts.
        IsVerdict parts.0 × (text.now ≡ verdict_octets parts.0 ++ parts.1.now)) }
    ensures bad { IsErrOf result BookFault.BadRecord → HasNone IsVerdict verdict_octets text.now }
{
    let Some((number, rest)) = text.split_first() else {
        return Err(BookFault::BadRecord);
    };
    match *number {
        1 => Ok((Verdict::Taken { dsn: true }, rest)),
        2 => Ok((Verdict::Taken { dsn: false }, rest)),
        3 => read_refused(alloc, rest),
        4 => Ok((Verdict::Later, rest)),
        5 => Ok((Verdict::CantSend, rest)),
        6 => Ok((Verdict::NoRoute, rest)),
        7 => Ok((Verdict::Withdrawn(Withdrawal::Return), rest)),
        8 => Ok((Verdict::Withdrawn(Withdrawal::Discard), rest)),
        _ => Err(BookFault::BadRecord),
    }
}

/// Returns a refusal with a copy of its text, and what follows it.
fn read_refused(alloc: Global, text: &[u8]) -> Result<(Verdict, &[u8]), BookFault>
    ensures verdict { IfOk result (λ parts.
        IsVerdict parts.0 × (3 ∷ text.now ≡ verdict_octets parts.0 ++ parts.1.now)) }
    ensures bad { IsErrOf result BookFault.BadRecord → HasNoRefusal text.now }
{
    let Some((code, field, rest)) = read_refusal(text) else {
        return Err(BookFault::BadRecord);
    };
    let text = Octets::from_slice(alloc, field)?;
    Ok((Verdict::Refused { code, text }, rest))
}

/// Returns a place and its verdict, and what follows them.
#[tactic(auto, using(crate::proofs::RefusalLemmas::no_place, crate::proofs::RefusalLemmas::no_verdict))]
fn read_ruling(alloc: Global, text: &[u8]) -> Result<(Ruling, &[u8]), BookFault>
    ensures ruling { IfOk result (λ parts.
        IsRuling parts.0 × (text.now ≡ ruling_octets parts.0 ++ parts.1.now)) }
    ensures bad { IsErrOf result BookFault.BadRecord → HasNone IsRuling ruling_octets text.now }
{
    let Some((place, after)) = text.split_first() else {
        return Err(BookFault::BadRecord);
    };
    let (verdict, rest) = read_verdict(alloc, after)?;
    Ok((
        Ruling {
            place: *place,
            verdict,
        },
        rest,
    ))
}

/// Returns this many verdicts, and what follows them.
fn read_row(alloc: Global, count: u8, text: &[u8]) -> Result<(Rulings, &[u8]), BookFault>
    ensures row { IfOk result (λ parts. HaveCount IsRuling count parts.0
        × (text.now ≡ flat_map ruling_octets parts.0 ++ parts.1.now)) }
    ensures bad { IsErrOf result BookFault.BadRecord → HasNoRow IsRuling ruling_octets count text.now }
{
    let mut rulings = Rulings::new(alloc);
    let mut rest = text;
    for index in 0..count {
        match read_ruling(alloc, rest) {
            Err(fault) => return Err(fault),
            Ok((ruling, after)) => {
                rulings.push(ruling)?;
                rest = after;
            }
        }
    }
    Ok((rulings, rest))
}

/// 1 to 100 verdicts after their count, and what follows them.
#[tactic(auto, using(crate::proofs::RowLemmas::counted_rows, crate::proofs::BeginLemmas::has_count))]
pub(crate) fn read_rulings(alloc: Global, text: &[u8]) -> Result<(Rulings, &[u8]), BookFault>
    ensures counted { IfOk result (λ parts. AreSome IsRuling parts.0
        × (text.now ≡ counted ruling_octets parts.0 ++ parts.1.now)) }
    ensures bad { IsErrOf result BookFault.BadRecord → HasNoCounted IsRuling ruling_octets text.now }
    ensures memory { IsErrOf result BookFault.NoMemory → HasCount text.now }
{
    let Some((count, rest)) = text.split_first() else {
        return Err(BookFault::BadRecord);
    };
    if *count < 1 || *count > 100 {
        return Err(BookFault::BadRecord);
    }
    read_row(alloc, *count, rest)
}
