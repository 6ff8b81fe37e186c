//! The outcome of replies that are made and written, or read.
ghost use Rattle.std.specs.Prelude.{◌≡◌, ◌≢◌, ◌<◌, ◌≤◌, ◌++◌, codes, length, take, IfOk, IfErr, OnOk, OnErr};
ghost use Rattle.relay_lines.specs.ReplySteps.{HasFailed};
ghost use Rattle.relay_rows_tests.specs.PlayOutcome.{IsLastLineOutcome, IsRepliesOutcome, IsReplyOutcome};
ghost use Rattle.relay_rows_tests.specs.PlayOutcome.{reply_fault_word};
ghost use Rattle.relay_rows_tests.specs.Steps.{FindsFault, ReadsSome};

use crate::pieces::next_piece;
use relay_lines::{Reply, ReplyFault, ReplyReader, write_line};
use relay_octets::Octets;
use std::alloc::{AllocError, Global};

/// Returns a reply of this code and these texts, written after another, or that they make none.
pub fn reply_outcome(alloc: Global, code: u16, texts: &[Octets]) -> Result<Octets, AllocError>
    ensures { IfOk result (IsReplyOutcome code texts.now) }
{
    let lines = copied(alloc, texts)?;
    let Some(reply) = Reply::new(code, lines) else {
        return Octets::from_slice(alloc, b"no reply");
    };
    let mut out = Vec::from_slice(alloc, b"220 ready\r\n")?;
    reply.write(&mut out)?;
    Ok(Octets::new(out))
}

/// Returns the same texts.
fn copied(alloc: Global, texts: &[Octets]) -> Result<Vec<Octets>, AllocError>
    ensures { IfOk result (λ copy. copy.items ≡ texts.now) }
{
    let mut copy = Vec::new(alloc);
    for text in texts {
        copy.push(Octets::from_slice(alloc, text.as_slice())?)?;
    }
    Ok(copy)
}

/// Returns the last line of a reply with this text, in two parts.
pub fn last_line_outcome(
    alloc: Global,
    code: u16,
    front: &[u8],
    back: &[u8],
) -> Result<Octets, AllocError>
    ensures { IfOk result (IsLastLineOutcome code front.now back.now) }
{
    if code >= 1000 {
        return Octets::from_slice(alloc, b"no code");
    }
    let mut out = Vec::new(alloc);
    write_line(&mut out, code, front, back)?;
    Ok(Octets::new(out))
}

/// Returns the replies that are cut from the octets, as they are written, and then what follows: "more" where the rest
/// isn't whole, or the words of its fault and of what is answered after it.
pub fn replies_outcome(alloc: Global, octets: &[u8], size: usize) -> Result<Octets, AllocError>
    requires { 0 < size }
    ensures { IfOk result (IsRepliesOutcome octets.now) }
{
    let mut reader = ReplyReader::new(alloc);
    let mut out = Vec::new(alloc);
    let mut rest = octets;
    while !rest.is_empty() {
        match read_some(&mut reader, &mut out, next_piece(rest, size)) {
            Ok(used) => rest = &rest[used..],
            Err(fault) => {
                push_fault(&mut reader, &mut out, fault)?;
                return Ok(Octets::new(out));
            }
        }
    }
    out.extend_from_slice(b"more")?;
    Ok(Octets::new(out))
}

/// Reads the piece up to the end of a reply, which it writes, or all of the piece. It gives how
/// many octets it has used.
fn read_some(reader: &mut ReplyReader, out: &mut Vec<u8>, piece: &[u8]) -> Result<usize, ReplyFault>
    requires { 0 < length piece.now }
    ensures reads { IfOk result (λ used.
        ReadsSome reader.old reader.new out.old.items out.new.items (take used piece.now)) }
    ensures within { IfOk result (λ used. (0 < used) × (used ≤ length piece.now)) }
    ensures faults { IfErr result (λ fault. FindsFault reader.old reader.new piece.now fault) }
    ensures stays { OnErr result (out.new.items ≡ out.old.items) }
{
    let cut = reader.feed(piece)?;
    let used = cut.used;
    match cut.reply {
        Some(reply) => {
            reply.write(out)?;
            Ok(used)
        }
        None => Ok(used),
    }
}

/// Writes the words of a fault and of what is answered after it. Lack of memory is no fault of a row.
fn push_fault(
    reader: &mut ReplyReader,
    out: &mut Vec<u8>,
    fault: ReplyFault,
) -> Result<(), AllocError>
    ensures memory { OnOk result (fault ≢ ReplyFault.NoMemory) }
    ensures words { OnOk result (HasFailed reader.old
        → out.new.items ≡ out.old.items ++ reply_fault_word fault ++ codes ", " ++ codes "BadLine") }
{
    if fault == ReplyFault::NoMemory {
        return Err(AllocError);
    }
    let after = text_after(reader);
    out.extend_from_slice(text_of(fault))?;
    out.extend_from_slice(b", ")?;
    out.extend_from_slice(after)?;
    Ok(())
}

/// Returns the word of what is answered after a fault.
fn text_after(reader: &mut ReplyReader) -> &'static [u8]
    ensures { HasFailed reader.old → result.now ≡ reply_fault_word ReplyFault.BadLine }
{
    match reader.feed(b"250 a\r\n") {
        Ok(_) => b"read on",
        Err(fault) => text_of(fault),
    }
}

/// Returns the word of a fault.
fn text_of(fault: ReplyFault) -> &'static [u8]
    ensures { result.now ≡ reply_fault_word fault }
{
    match fault {
        ReplyFault::BadLine => b"BadLine",
        ReplyFault::MixedCodes => b"MixedCodes",
        ReplyFault::TooLong => b"TooLong",
        ReplyFault::NoMemory => b"NoMemory",
    }
}
