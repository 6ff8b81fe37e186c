ghost use Rattle.std.specs.Prelude.{◌≡◌, ◌<◌, ◌≤◌, ℕ, List, [], ◌++◌, take, length, Some, None, OnErr, IfOk, MatchBool};
ghost use Rattle.std.specs.Prelude.{false, true};
ghost use Rattle.relay_envelope.specs.declared.envelope.Envelope.{Envelope};
ghost use Rattle.relay_course.specs.Course.{IsCourse};
ghost use Rattle.relay_course.specs.Progress.{Delivery};
ghost use Rattle.relay_course.specs.Settling.{Settles};
ghost use Rattle.relay_book.specs.declared.change.Verdict.{Verdict};
ghost use Rattle.relay_client.specs.Conversation.{IsDeliveryOf};
ghost use Rattle.relay_client.specs.Attempt.{Follows, FollowsOn, HasFailed, KeepsOn, KeepsTo, Turns, places_of};
ghost use Rattle.relay_client.specs.Attempt.{stage_by};
ghost use Rattle.relay_course.specs.VerdictTable.{all_later};

use crate::conversation::Conversation;
use crate::mail_object::MailObject;
use crate::verdicts::Verdicts;
use relay_lines::{ReplyFault, ReplyReader};
use std::alloc::{AllocError, Global};

/// What a feed has done.
#[derive(Drop)]
pub struct Driven {
    /// How many octets of the piece it has used: all, unless the attempt ends.
    pub used: usize,
    /// The octets for the server.
    pub out: Vec<u8>,
    /// The verdicts of the places in order, where the attempt has ended.
    pub verdicts: Option<Verdicts>,
}

/// What one reply, or a part of one, has done.
#[derive(Drop)]
struct Step {
    used: usize,
    verdicts: Option<Verdicts>,
}

/// The state of an attempt.
#[derive(Clone, Copy)]
enum Stage {
    /// It waits for replies.
    Running,
    /// It has given its verdicts.
    Ended,
    /// Memory ran out.
    Failed,
}

/// The client's end of one connection: an attempt to relay a message to some of its recipients (RFC 5321, section 3.3).
/// It holds nothing of the message, which each feed borrows.
pub struct Attempt {
    reader: ReplyReader,
    talk: Conversation,
    stage: Stage,
}

// Written out, so that the proof of a caller that drops an attempt stops at this function.
impl Drop for Attempt {
    fn drop(self) {
        let Attempt {
            reader: _reader,
            talk: _talk,
            stage: _,
        } = self;
    }
}

impl Attempt {
    /// An attempt of this host that waits for the greeting of a server, for these places of a message, from 0, each at
    /// most once. Fails if memory runs out.
    pub fn begin(alloc: Global, host: &[u8], places: Vec<u8>) -> Result<Self, AllocError>
        ensures follows { IfOk result (λ attempt. (envelope : Envelope) (text : List ℕ)
            → Follows attempt host.now envelope text places.items [] []) }
        ensures places { IfOk result (λ attempt. places_of attempt ≡ places.items) }
    {
        Ok(Attempt {
            reader: ReplyReader::new(alloc),
            talk: Conversation::begin(alloc, host, places)?,
            stage: Stage::Running,
        })
    }

    /// Uses the next piece of what the server wrote, to the attempt's end or all of it, and writes what the replies in
    /// it lead to. The message is the same at each call. If octets are no reply, all places may be tried again, and the
    /// whole piece is used. After its end an attempt uses and writes nothing.
    ///
    /// Fails if memory runs out, and from then on each call does.
    pub fn feed(&mut self, mail: &MailObject<'_>, piece: &[u8]) -> Result<Driven, AllocError>
        ensures follows { IfOk result (λ driven. (host places input output : List ℕ)
            → Follows self.old host mail.now.envelope.now mail.now.stored_text.now places input output
            → FollowsOn self.new host mail.now.envelope.now mail.now.stored_text.now places
            (input ++ take driven.used piece.now) (output ++ driven.out.items) driven.verdicts) }
        ensures settled { IfOk result (λ driven. (host places input output : List ℕ) (verdicts : List Verdict)
            → Follows self.old host mail.now.envelope.now mail.now.stored_text.now places input output
            → driven.verdicts ≡ Some verdicts
            → Settles mail.now.stored_text.now places (input ++ take driven.used piece.now) false verdicts) }
        ensures turns { IfOk result (λ driven. Turns self.old self.new driven (length piece.now)) }
        ensures within { IfOk result (λ driven. driven.used ≤ length piece.now) }
        ensures failed { OnErr result (HasFailed self.new) }
    {
        match self.stage {
            Stage::Running => {
                self.stage = Stage::Failed;
                let driven = self.drive(mail, piece)?;
                self.stage = stage_after(&driven);
                Ok(driven)
            }
            Stage::Ended => Ok(Driven {
                used: 0,
                out: Vec::new(self.talk.alloc),
                verdicts: None,
            }),
            Stage::Failed => Err(AllocError),
        }
    }

    /// The verdicts where the connection is lost: each place may be tried again. Fails if memory runs out.
    ///
    /// It asks nothing of the stage. An attempt that has ended, or failed, answers as one that runs: Later
    /// for each of its places, whatever verdicts it has given. So what was given at the end stands, and a
    /// loss told after it says nothing of the places.
    pub fn broken(&self) -> Result<Verdicts, AllocError>
        ensures lost { IfOk result (λ verdicts.
            (host text places input output : List ℕ) (envelope : Envelope)
            → Follows self.now host envelope text places input output
            → IsCourse host envelope text places input true output (Some verdicts)) }
        ensures later { IfOk result (λ verdicts. verdicts ≡ all_later (places_of self.now)) }
    {
        self.talk.all_later()
    }

    /// Uses the piece up to the attempt's end, or all of it.
    fn drive(&mut self, mail: &MailObject<'_>, piece: &[u8]) -> Result<Driven, AllocError>
        ensures keeps { IfOk result (λ driven. (delivery : Delivery) (input output : List ℕ)
            → IsDeliveryOf delivery mail.now
            → KeepsTo self.old.reader self.old.talk delivery input output
            → KeepsOn self.new.reader self.new.talk delivery (input ++ take driven.used piece.now)
            (output ++ driven.out.items) driven.verdicts) }
        ensures whole { IfOk result (λ driven. driven.verdicts ≡ None → driven.used ≡ length piece.now) }
        ensures within { IfOk result (λ driven. driven.used ≤ length piece.now) }
        ensures stage { self.new.stage ≡ self.old.stage }
    {
        let mut out = Vec::new(self.talk.alloc);
        let mut used = 0;
        while used < piece.len() {
            let step = self.step(mail, &piece[used..], &mut out)?;
            used += step.used;
            if let Some(verdicts) = step.verdicts {
                return Ok(Driven {
                    used,
                    out,
                    verdicts: Some(verdicts),
                });
            }
        }
        Ok(Driven {
            used,
            out,
            verdicts: None,
        })
    }

    /// Uses the octets up to the end of a reply and does what it asks for, or uses all of them.
    fn step(
        &mut self,
        mail: &MailObject<'_>,
        rest: &[u8],
        out: &mut Vec<u8>,
    ) -> Result<Step, AllocError>
        requires { 0 < length rest.now }
        ensures keeps { IfOk result (λ step. (delivery : Delivery) (input output : List ℕ)
            → IsDeliveryOf delivery mail.now
            → KeepsTo self.old.reader self.old.talk delivery input (output ++ out.old.items)
            → KeepsOn self.new.reader self.new.talk delivery (input ++ take step.used rest.now)
            (output ++ out.new.items) step.verdicts) }
        ensures within { IfOk result (λ step. (0 < step.used) × (step.used ≤ length rest.now)) }
        ensures stage { self.new.stage ≡ self.old.stage }
    {
        match self.reader.feed(rest) {
            Ok(cut) => {
                let used = cut.used;
                if let Some(reply) = cut.reply {
                    let verdicts = self.talk.answer(mail, reply, out)?;
                    return Ok(Step { used, verdicts });
                }
                Ok(Step {
                    used,
                    verdicts: None,
                })
            }
            Err(fault) => {
                if is_no_memory(fault) {
                    return Err(AllocError);
                }
                let verdicts = self.talk.all_later()?;
                Ok(Step {
                    used: rest.len(),
                    verdicts: Some(verdicts),
                })
            }
        }
    }
}

/// The stage of an attempt that was running and has done this.
fn stage_after(driven: &Driven) -> Stage
    ensures { result ≡ stage_by driven.now.verdicts }
{
    match &driven.verdicts {
        Some(_) => Stage::Ended,
        None => Stage::Running,
    }
}

/// Returns whether the fault is that memory ran out.
fn is_no_memory(fault: ReplyFault) -> bool
    ensures { MatchBool result (fault ≡ ReplyFault.NoMemory) (¬ (fault ≡ ReplyFault.NoMemory)) }
{
    match fault {
        ReplyFault::NoMemory => true,
        ReplyFault::BadLine => false,
        ReplyFault::MixedCodes => false,
        ReplyFault::TooLong => false,
    }
}
