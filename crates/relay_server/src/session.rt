ghost use Rattle.relay_server.specs.Bounds.{IsHeldAt};

mod reading;
mod transaction;

use crate::offer::{Answer, Offer};
use crate::reply_table::Row;
use crate::server::{Server, row_of_answer};
use crate::stage::Stage;
use crate::state::CommandState;
use relay_lines::LineBuffer;
use relay_routes::{Config, Table};
use std::alloc::{AllocError, Global};
use std::mem;

/// What the caller does next.
#[derive(Clone, Copy, Drop, PartialEq, Eq)]
pub enum Next {
    /// Feeds the next octets, once they have come.
    More,
    /// Takes the offer, and answers it.
    Offer,
    /// Writes what there is to write, and closes the connection.
    Close,
}

/// What a feed has done.
#[derive(Drop)]
pub struct Fed {
    /// How many octets of the piece it has used.
    pub used: usize,
    /// The octets for the client.
    pub out: Vec<u8>,
    /// What the caller does next.
    pub next: Next,
}

/// The server's end of one connection.
pub struct Session {
    server: Server,
    /// The outcome of a command line, and nothing while mail data or a chunk comes.
    line: LineBuffer,
    stage: Stage,
    ghost bounded: { IsHeldAt server.max_content stage },
}

// Written out, so that a crate that drops a session calls this, and doesn't look into each stage
// where it drops one.
impl Drop for Session {
    fn drop(self) {
        let Session {
            server: _server,
            line: _line,
            stage: _stage,
        } = self;
    }
}

impl Session {
    ghost use Rattle.std.specs.Prelude.{◌≡◌, [], ◌∷◌, ◌≤◌, length, take, slice_range};
    ghost use Rattle.std.specs.Prelude.{IfOk, OnOk, OnErr, IsErr, MatchOption};
    ghost use Rattle.relay_routes.specs.Accepted.{accepted_paths};
    ghost use Rattle.relay_server.specs.Dialogue.{Said, more_said};
    ghost use Rattle.relay_server.specs.Session.{Answered, HasFailed, HasOffer, Hears, Stands, UsesPiece, Waits};
    ghost use Rattle.relay_server.specs.Session.{next_of};
    ghost use Rattle.relay_server.specs.Session.{offered, offers_since, open_offers};
    ghost use Rattle.relay_server.specs.Setup.{Setup};

    /// Makes a session with the client at this address, and the greeting for it. Fails if memory runs out.
    pub fn new(
        alloc: Global,
        config: &Config,
        client: [u8; 4],
    ) -> Result<(Self, Vec<u8>), AllocError>
        ensures stands { IfOk result (λ made. (setup : Setup) → setup.host ≡ config.now.host
            → setup.max_content ≡ config.now.max_content → setup.bare_newlines ≡ config.now.bare_newlines
            → setup.routed_paths ≡ accepted_paths config.now client
            → Stands setup made.0
            (record { input = []; answers = []; output = made.1.items; offers = [] })) }
        ensures settled { IfOk result (λ made. open_offers made.0 ≡ []) }
    {
        let mut greeting = Vec::new(alloc);
        Row::Greeting.write(config.host.as_slice(), &mut greeting)?;
        let session = Session {
            server: Server {
                alloc,
                host: config.host.copy(alloc)?,
                max_content: config.max_content,
                bare_newlines: config.bare_newlines,
                routed_paths: config.accepted_paths(client),
            },
            line: LineBuffer::new(),
            stage: Stage::Command(CommandState::Fresh),
        };
        Ok((session, greeting))
    }

    /// Uses octets of a piece up to an offer or a close, or all of them. The table says which
    /// recipients have a next hop; `<Postmaster>` (RFC 5321, section 4.5.1) is routed as the
    /// table's host, in a configuration the session's own.
    pub fn feed(&mut self, table: &Table, piece: &[u8]) -> Result<Fed, AllocError>
        ensures stands { IfOk result (λ fed. (setup : Setup) (said : Said)
            → setup.routes ≡ table.now → Stands setup self.old said
            → Stands setup self.new (more_said said (take fed.used piece.now) [] fed.out.items
            (offers_since self.old self.new))) }
        // All of it, unless it stops at an offer or a close; no offer opens without an octet.
        ensures used { IfOk result (λ fed. UsesPiece self.old fed.next (length piece.now) 0 fed.used) }
        ensures next { IfOk result (λ fed. fed.next ≡ next_of self.new) }
        // While an offer is open, and after a close, it uses nothing.
        ensures waits { Waits self.old → (self.new ≡ self.old)
            × IfOk result (λ fed. (fed.used ≡ 0) × (fed.out.items ≡ [])) }
        ensures failed { OnErr result (HasFailed self.new) }
        ensures again { HasFailed self.old → IsErr result }
    {
        let mut used = 0;
        let mut out = Vec::new(self.server.alloc);
        let next = self.hear(table, piece, &mut used, &mut out)?;
        Ok(Fed { used, out, next })
    }

    /// Feeds what is left of a piece after the octets that are used, counts those that it uses, and puts the replies
    /// after `out`: for a loop over a whole piece, which answers each offer on its way. Returns what the caller does
    /// next. If memory runs out, `out` may have lost its end.
    pub fn hear(
        &mut self,
        table: &Table,
        piece: &[u8],
        used: &mut usize,
        out: &mut Vec<u8>,
    ) -> Result<Next, AllocError>
        requires { used.old ≤ length piece.now }
        ensures hears { IfOk result (λ next. (setup : Setup) (said : Said)
            → setup.routes ≡ table.now → Stands setup self.old said
            → Hears setup said self.old self.new
            (slice_range piece.now used.old used.new) out.old.items out.new.items) }
        // All of it, unless it stops at an offer or a close; no offer opens without an octet.
        ensures used { IfOk result (λ next. UsesPiece self.old next (length piece.now) used.old used.new) }
        ensures next { IfOk result (λ next. next ≡ next_of self.new) }
        ensures waits { Waits self.old → (self.new ≡ self.old)
            × IfOk result (λ next. (used.new ≡ used.old) × (out.new.items ≡ out.old.items)) }
        ensures failed { OnErr result (HasFailed self.new) }
        ensures again { HasFailed self.old → IsErr result }
    {
        if let Stage::Failed = self.stage {
            return Err(AllocError);
        }
        *used += self.read(table, &piece[*used..], out)?;
        Ok(self.next())
    }

    /// Returns the offer that is open. Allocates nothing.
    pub fn offer(&self) -> Option<Offer<'_>>
        ensures { MatchOption result (open_offers self.now ≡ [])
            (λ offer. open_offers self.now ≡ offered offer ∷ []) }
    {
        match &self.stage {
            Stage::Offering(transaction, content) => Some(Offer {
                client: &transaction.client,
                envelope: &transaction.envelope,
                content: content.as_slice(),
            }),
            Stage::Command(_)
            | Stage::Receiving(_)
            | Stage::Chunk(_)
            | Stage::Skipping(_)
            | Stage::Closed
            | Stage::Failed => None,
        }
    }

    /// Answers the offer that is open, and gives what goes to the client. Fails if memory runs out.
    pub fn answer(&mut self, answer: Answer) -> Result<Vec<u8>, AllocError>
        requires { HasOffer self.old }
        ensures stands { IfOk result (λ out. (setup : Setup) (said : Said) → Stands setup self.old said
            → Stands setup self.new (more_said said [] (answer ∷ []) out.items [])) }
        ensures settled { IfOk result (λ out. open_offers self.new ≡ []) }
        ensures failed { OnErr result (HasFailed self.new) }
    {
        let mut out = Vec::new(self.server.alloc);
        self.reply(answer, &mut out)?;
        Ok(out)
    }

    /// Answers the offer that is open, and puts what goes to the client after `out`. If memory runs out, `out` may have
    /// lost its end.
    pub fn reply(&mut self, answer: Answer, out: &mut Vec<u8>) -> Result<(), AllocError>
        requires { HasOffer self.old }
        ensures answered { OnOk result ((setup : Setup) (said : Said) → Stands setup self.old said
            → Answered setup said self.new answer out.old.items out.new.items) }
        ensures settled { OnOk result (open_offers self.new ≡ []) }
        ensures next { OnOk result (next_of self.new ≡ Next.More) }
        ensures failed { OnErr result (HasFailed self.new) }
    {
        let Stage::Offering(transaction, _) = self.leave() else {
            unreachable!()
        };
        row_of_answer(answer).write(self.server.host.as_slice(), out)?;
        self.enter(Stage::Command(CommandState::Greeted(transaction.into_client())));
        Ok(())
    }

    /// Takes the stage out. Until it enters another, the session has failed.
    fn leave(&mut self) -> Stage
        ensures stage { result ≡ self.old.stage }
        ensures held { IsHeldAt self.new.server.max_content result }
        ensures failed { self.new.stage ≡ Stage.Failed }
        ensures same { (self.new.server ≡ self.old.server) × (self.new.line ≡ self.old.line) }
    {
        mem::replace(&mut self.stage, Stage::Failed)
    }

    /// Enters this stage.
    fn enter(&mut self, stage: Stage)
        requires { IsHeldAt self.old.server.max_content stage }
        ensures stage { self.new.stage ≡ stage }
        ensures same { (self.new.server ≡ self.old.server) × (self.new.line ≡ self.old.line) }
    {
        self.stage = stage;
    }

    /// Returns what the caller does next.
    fn next(&self) -> Next
        ensures { result ≡ next_of self.now }
    {
        match &self.stage {
            Stage::Command(_) | Stage::Receiving(_) | Stage::Chunk(_) | Stage::Skipping(_) => {
                Next::More
            }
            Stage::Offering(..) => Next::Offer,
            Stage::Closed | Stage::Failed => Next::Close,
        }
    }
}
