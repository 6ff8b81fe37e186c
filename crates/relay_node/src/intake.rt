ghost use Rattle.std.specs.Prelude.{◌≡◌, ◌↔◌, ◌<◌, ◌^◌, IfOk, IfErr, Err, ◌⊎◌, ◌∷◌, []};
ghost use Rattle.relay_node.specs.Acceptance.{IsStorable};
ghost use Rattle.relay_node.specs.Listening.{Considers, Weighs};
ghost use Rattle.relay_server.specs.Dialogue.{Offered};
ghost use Rattle.relay_server.specs.DialogueLaws.{MayBeStored};
ghost use Rattle.relay_server.specs.Session.{HasOffer, offered, open_offers};
ghost use Rattle.relay_server.specs.Setup.{setup_for};

use crate::accept::accept_of;
use relay_book::{Change, LAST_NUMBER, encode_change};
use relay_octets::Octets;
use relay_records::NodeFault;
use relay_routes::Config;
use relay_server::{Offer, Session};
use relay_spool::BODY_OVERHEAD;
use relay_trace::Moment;
use std::alloc::Global;

/// The values by which a node accepts mail in one call.
#[derive(Clone, Copy)]
pub(crate) struct Intake<'a> {
    pub(crate) config: &'a Config,
    /// The IPv4 address of the client.
    pub(crate) peer: [u8; 4],
    /// The number of the next change.
    pub(crate) number: u64,
    /// How many octets the spool takes.
    pub(crate) size: usize,
    /// When mail counts as accepted.
    pub(crate) at: Moment,
}

/// An accept that there is room for, and its record.
#[derive(Drop)]
pub(crate) struct Taken {
    pub(crate) change: Change,
    pub(crate) octets: Octets,
}

impl Intake<'_> {
    /// Returns the accept of the offer that is open, and none if its record would bring the spool past its limit.
    /// Returns `Full` exactly if changes have no numbers any more, and else fails if memory runs out.
    pub(crate) fn consider(
        &self,
        alloc: Global,
        session: &Session,
    ) -> Result<Option<Taken>, NodeFault>
        requires offer { HasOffer session.now }
        requires stored { (offer : Offered) → open_offers session.now ≡ offer ∷ []
            → MayBeStored (setup_for self.now.config.now self.now.peer) offer }
        ensures considers { IfOk result (Considers self.now session.now) }
        ensures full { (result ≡ Err NodeFault.Full) ↔ (2 ^ 62 < self.now.number) }
        ensures refused { IfErr result (λ fault. (fault ≡ NodeFault.NoMemory) ⊎ (fault ≡ NodeFault.Full)) }
    {
        let Some(offer) = session.offer() else {
            unreachable!()
        };
        self.weigh(alloc, &offer)
    }

    /// Returns the accept of an offer, and none if its record would bring the spool past its limit. Returns `Full`
    /// exactly if changes have no numbers any more, and else fails if memory runs out.
    pub(crate) fn weigh(&self, alloc: Global, offer: &Offer<'_>) -> Result<Option<Taken>, NodeFault>
        requires { IsStorable (offered offer.now) }
        ensures weighs { IfOk result (Weighs self.now (offered offer.now)) }
        ensures full { (result ≡ Err NodeFault.Full) ↔ (2 ^ 62 < self.now.number) }
        ensures refused { IfErr result (λ fault. (fault ≡ NodeFault.NoMemory) ⊎ (fault ≡ NodeFault.Full)) }
    {
        if self.number > LAST_NUMBER {
            return Err(NodeFault::Full);
        }
        let accept = accept_of(alloc, self.config, self.peer, self.number, self.at, offer)?;
        let change = Change::Accept(accept);
        let octets = Octets::new(encode_change(alloc, &change)?);
        let room = self.config.spool_limit.saturating_sub(self.size as u64);
        if room < (BODY_OVERHEAD + octets.len()) as u64 {
            return Ok(None);
        }
        Ok(Some(Taken { change, octets }))
    }
}
