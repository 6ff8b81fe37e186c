ghost use Rattle.std.specs.Prelude.{◌≡◌, ◌<◌, ◌^◌, ◌⊎◌, [], take, IfOk, IfErr, Err};
ghost use Rattle.relay_node.specs.Listening.{Ends, HasListened};
ghost use Rattle.relay_node.specs.Room.{ComesToOffer};
ghost use Rattle.relay_server.specs.Dialogue.{Said};
ghost use Rattle.relay_server.specs.Session.{Stands, open_offers};
ghost use Rattle.relay_server.specs.Setup.{setup_for};

use crate::intake::{Intake, Taken};
use relay_records::NodeFault;
use relay_server::{Answer, Next, Session};
use std::alloc::Global;

/// Why a node has stopped listening.
#[derive(Drop)]
pub(crate) enum End {
    /// All are used, and more may come.
    More,
    /// The connection is to be closed.
    Close,
    /// An offer is open, and there is room for it.
    Taken(Taken),
}

/// The result of a client's octets.
#[derive(Drop)]
pub(crate) struct Listened {
    /// How many octets of the piece are used.
    pub(crate) used: usize,
    /// The replies so far.
    pub(crate) out: Vec<u8>,
    pub(crate) end: End,
}

impl Intake<'_> {
    /// Uses octets of a piece up to a close or to an offer that there is room for, or all of them. Each offer before is
    /// refused. Returns `Full` where an offer came and changes have no numbers any more, and else fails if memory runs
    /// out.
    pub(crate) fn listen(
        &self,
        alloc: Global,
        session: &mut Session,
        piece: &[u8],
    ) -> Result<Listened, NodeFault>
        requires settled { open_offers session.old ≡ [] }
        requires history { (said : Said) × Stands (setup_for self.now.config.now self.now.peer) session.old said }
        ensures listens { IfOk result (λ listened. (said : Said)
            → Stands (setup_for self.now.config.now self.now.peer) session.old said
            → HasListened self.now said session.new (take listened.used piece.now) listened.out.items) }
        ensures ends { IfOk result (Ends self.now session.new piece.now) }
        ensures full { result ≡ Err NodeFault.Full → 2 ^ 62 < self.now.number }
        ensures comes { result ≡ Err NodeFault.Full → (said : Said)
            → Stands (setup_for self.now.config.now self.now.peer) session.old said
            → ComesToOffer (setup_for self.now.config.now self.now.peer) said piece.now }
        ensures refused { IfErr result (λ fault. (fault ≡ NodeFault.NoMemory) ⊎ (fault ≡ NodeFault.Full)) }
    {
        let table = self.config.accepted_table(self.peer);
        let mut used = 0;
        let mut out = Vec::new(alloc);
        'rounds: loop {
            match session.hear(table, piece, &mut used, &mut out)? {
                Next::More => {
                    return Ok(Listened {
                        used,
                        out,
                        end: End::More,
                    });
                }
                Next::Close => {
                    return Ok(Listened {
                        used,
                        out,
                        end: End::Close,
                    });
                }
                Next::Offer => match self.consider(alloc, session)? {
                    Some(taken) => {
                        return Ok(Listened {
                            used,
                            out,
                            end: End::Taken(taken),
                        });
                    }
                    None => session.reply(Answer::Full, &mut out)?,
                },
            }
        }
    }
}
