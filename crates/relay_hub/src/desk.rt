//! What the lock of a hub guards.
ghost use Rattle.std.specs.Prelude.{◌≡◌, ◌+◌, List, vec_len, IfErr, IfOk, MatchResult};
ghost use Rattle.relay_book.specs.declared.change.Change.{Change};
ghost use Rattle.relay_hub.specs.Admission.{IsOfAdmission, Notes};
ghost use Rattle.relay_hub.specs.Hub.{Answers, HasGrown, IsFirst};
ghost use Rattle.relay_hub.specs.Receipts.{count_of};
ghost use Rattle.relay_records.specs.Records.{Keeps};
ghost use Rattle.relay_node.specs.Acceptance.{IsStorable};
ghost use Rattle.relay_server.specs.Session.{offered};

use crate::opening::Opening;
use crate::pass::{Pass, audit};
use crate::receipt::Receipt;
use relay_disk::Disk;
use relay_node::{Node, NodeFault};
use relay_server::{Answer, Offer};
use relay_trace::Moment;
use std::marker::Model;
use std::sync::ledger::{Book, Share};

/// A node, and a ledger of the messages that it queued since threads began to share it.
pub(crate) struct Desk<D: Disk, J: Opening> {
    node: Node<D>,
    /// The number of the first message that a thread can queue.
    first: u64,
    queued: Book<J>,
    /// What is left of the ledger's share after the passes took theirs: nothing.
    rest: Share<J>,
}

impl<D: Disk + Drop, J: Opening> Drop for Desk<D, J> {
    fn drop(self) {
        let Desk {
            node: _node,
            first: _,
            queued: _queued,
            rest: _rest,
        } = self;
    }
}

impl<D: Disk, J: Opening> Model for Desk<D, J> {
    ghost use Rattle.std.specs.Prelude.{◌≡◌};
    ghost use Rattle.relay_node.specs.Node.{NodeState};
    ghost use Rattle.relay_hub.specs.Hub.{Answers, HasGrown, IsFirst};

    ghost Value = { NodeState D };

    ghost view = { λ desk. desk.node };

    ghost invariant = { λ desk. HasGrown D.honest D.words J.starts desk.queued.total desk.node.records
        × IsFirst J.starts desk.first × (desk.rest.parts ≡ 0) × (desk.rest.amount ≡ 0)
        × Answers D.honest D.words J.starts desk.node.config J.has_answered };
}

impl<D: Disk, J: Opening> Desk<D, J> {
    /// Wraps a node for threads to share. The passes hold the whole share of the ledger.
    pub(crate) fn new(node: Node<D>, queued: Book<J>, rest: Share<J>) -> Desk<D, J>
        requires none { queued.total ≡ 0 }
        requires rest { (rest.parts ≡ 0) × (rest.amount ≡ 0) }
        requires starts { (changes : List Change) → J.starts changes
            → Keeps D.honest D.words node.records changes }
        requires answers { Answers D.honest D.words J.starts node.config J.has_answered }
        ensures { result ≡ node }
    {
        let first = node.next_number();
        Desk {
            node,
            first,
            queued,
            rest,
        }
    }

    /// Takes an offer into the node. Makes the receipt and reserves its room first, so that nothing can fail once the
    /// message is queued.
    pub(crate) fn admit(
        &mut self,
        pass: &mut Pass<J>,
        offer: &Offer<'_>,
        peer: [u8; 4],
        now: Moment,
    ) -> Result<Answer, NodeFault>
        requires { IsStorable (offered offer.now) }
        ensures notes { MatchResult result
            (λ answer. Notes (offered offer.now) peer now pass.old answer pass.new)
            (λ _. pass.new ≡ pass.old) }
        ensures answered { IfOk result (J.has_answered peer now (offered offer.now)) }
        ensures faults { IfErr result IsOfAdmission }
    {
        let accept = self.node.accept_next(offer, peer, now)?;
        let number = self.node.next_number();
        let receipt = Receipt {
            number,
            peer,
            accept,
        };
        pass.receipts.reserve(1)?;
        let answer = self.node.admit(offer, peer, now)?;
        match answer {
            Answer::Queued(number) => {
                self.queued.add(&mut pass.share, 1);
                let _pushed = pass.receipts.push(receipt);
                Ok(Answer::Queued(number))
            }
            Answer::Full => Ok(Answer::Full),
        }
    }

    /// Returns the node, and the number of the first message that a thread could queue. `passes` are all there are, so
    /// they hold as many receipts as the ledger has counted.
    pub(crate) fn close(self, passes: &mut Vec<Pass<J>>) -> (Node<D>, u64)
        requires { vec_len passes.old ≡ J.parts }
        ensures grown { HasGrown D.honest D.words J.starts (count_of passes.old.items) result.0.records }
        ensures first { IsFirst J.starts result.1 }
        ensures passes { passes.new.items ≡ passes.old.items }
    {
        let Desk {
            node,
            first,
            mut queued,
            mut rest,
        } = self;
        audit(&mut queued, &mut rest, passes.as_mut_slice());
        (node, first)
    }
}
