ghost use Rattle.std.specs.Prelude.{◌≡◌, ◌<◌, ◌^◌, ◌⊎◌, length, IfOk, IfErr, Err};
ghost use Rattle.relay_node.specs.Node.{HasHistory, SessionHasSaid};
ghost use Rattle.relay_node.specs.Room.{ComesToOffer};
ghost use Rattle.relay_node.specs.Speaking.{IsSpoken, Speaks};
ghost use Rattle.relay_server.specs.Dialogue.{Said};
ghost use Rattle.relay_server.specs.Setup.{setup_for};

use crate::intake::{Intake, Taken};
use crate::listen::{End, Listened};
use relay_records::NodeFault;
use relay_server::{Answer, Session};
use std::alloc::Global;

/// The result of a client's octets, with the reply to an offer that there is room for.
#[derive(Drop)]
pub(crate) struct Spoken {
    /// How many octets of the piece are used.
    pub(crate) used: usize,
    /// The replies, that to the offer which is taken among them.
    pub(crate) out: Vec<u8>,
    /// The connection is to be closed.
    pub(crate) close: bool,
    /// The accept of the offer that comes last, and that there is room for.
    pub(crate) taken: Option<Taken>,
}

impl Intake<'_> {
    /// Uses octets of a piece up to a close or to an offer that there is room for, or all of them. That offer
    /// is answered by this intake's number, before its change is made: whoever calls this makes the change
    /// under that number, and hands the reply out after it. The faults are those of [`Intake::listen`].
    pub(crate) fn speak(
        &self,
        alloc: Global,
        session: &mut Session,
        piece: &[u8],
    ) -> Result<Spoken, NodeFault>
        requires { HasHistory self.now.config.now self.now.peer session.old }
        ensures speaks { IfOk result (λ spoken. (said : Said)
            → SessionHasSaid (setup_for self.now.config.now self.now.peer) session.old said
            → Speaks self.now said piece.now session.new spoken) }
        ensures spoken { IfOk result (IsSpoken self.now (length piece.now) session.new) }
        ensures full { result ≡ Err NodeFault.Full → 2 ^ 62 < self.now.number }
        ensures comes { result ≡ Err NodeFault.Full → (said : Said)
            → SessionHasSaid (setup_for self.now.config.now self.now.peer) session.old said
            → ComesToOffer (setup_for self.now.config.now self.now.peer) said piece.now }
        ensures refused { IfErr result (λ fault. (fault ≡ NodeFault.NoMemory) ⊎ (fault ≡ NodeFault.Full)) }
    {
        let Listened { used, mut out, end } = self.listen(alloc, session, piece)?;
        match end {
            End::More => Ok(Spoken {
                used,
                out,
                close: false,
                taken: None,
            }),
            End::Close => Ok(Spoken {
                used,
                out,
                close: true,
                taken: None,
            }),
            End::Taken(taken) => {
                session.reply(Answer::Queued(self.number), &mut out)?;
                Ok(Spoken {
                    used,
                    out,
                    close: false,
                    taken: Some(taken),
                })
            }
        }
    }
}
