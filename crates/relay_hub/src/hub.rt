//! A node that threads share under a lock.
ghost use Rattle.std.specs.Prelude.{◌≡◌, ◌+◌, List, length, vec_len, IfErr, IfOk, MatchResult};
ghost use Rattle.relay_book.specs.declared.change.Change.{Change};
ghost use Rattle.relay_hub.specs.Admission.{IsOfAdmission, Notes};
ghost use Rattle.relay_hub.specs.Hub.{Answers, GrowsBy, HasTaken};
ghost use Rattle.relay_hub.specs.Receipts.{AreNew, AreReceipts, count_of};
ghost use Rattle.relay_records.specs.Records.{Keeps};
ghost use Rattle.relay_node.specs.Acceptance.{IsStorable};
ghost use Rattle.relay_server.specs.Session.{offered};

use crate::desk::Desk;
use crate::opening::Opening;
use crate::pass::Pass;
use crate::told::are_receipts;
use relay_disk::Disk;
use relay_node::{Node, NodeFault};
use relay_server::{Answer, Offer};
use relay_trace::Moment;
use std::alloc::{AllocError, Global};
use std::sync::ledger::{Blank, Share};
use std::sync::{Mutex, Wait};

/// A node that threads share: each call locks it.
#[derive(Drop)]
pub struct Hub<D: Disk, J: Opening> {
    desk: Mutex<Desk<D, J>>,
}

/// The threads' receipts disagree with what the node has accepted.
pub struct Mismatch<D: Disk, J: Opening> {
    pub node: Node<D>,
    pub passes: Vec<Pass<J>>,
}

// Written out, so that the proof of a caller that drops one stops at this function.
impl<D: Disk + Drop, J: Opening> Drop for Mismatch<D, J> {
    fn drop(self) {
        let Mismatch {
            node: _node,
            passes: _passes,
        } = self;
    }
}

impl<D: Disk, J: Opening> Mismatch<D, J> {
    /// Splits the mismatch into the node and the passes.
    pub fn into_parts(self) -> (Node<D>, Vec<Pass<J>>)
        ensures { (result.0 ≡ self.node) × (result.1.items ≡ self.passes.items) }
    {
        let Mismatch { node, passes } = self;
        (node, passes)
    }
}

impl<D: Disk, J: Opening> Hub<D, J> {
    /// Puts a node under a lock, and makes a pass for each of `threads` threads. The blank ledger must have that many
    /// parts. Returns the node if memory runs out.
    pub fn new(
        alloc: Global,
        node: Node<D>,
        blank: Blank,
        threads: u8,
    ) -> Result<(Hub<D, J>, Vec<Pass<J>>), Node<D>>
        requires name { blank.name ≡ J.name }
        requires parts { (blank.parts ≡ J.parts) × (blank.parts ≡ threads) }
        requires starts { (changes : List Change) → J.starts changes
            → Keeps D.honest D.words node.records changes }
        requires answers { Answers D.honest D.words J.starts node.config J.has_answered }
        ensures passes { IfOk result (λ made. AreNew threads made.1.items) }
        ensures refused { IfErr result (λ refused. refused ≡ node) }
    {
        let (queued, share) = blank.open::<J>();
        let Ok((passes, rest)) = passes_of(alloc, share, threads) else {
            return Err(node);
        };
        let desk = Desk::new(node, queued, rest);
        Ok((
            Hub {
                desk: Mutex::new(desk),
            },
            passes,
        ))
    }

    /// Takes an offer into the node. If the node queues the message, adds its receipt to the pass; the message then
    /// survives every stop. Fails if memory for the receipt runs out, before the node sees the offer.
    pub fn admit<R: Wait>(
        &self,
        rt: &R,
        pass: &mut Pass<J>,
        offer: &Offer<'_>,
        peer: [u8; 4],
        now: Moment,
    ) -> Result<Answer, NodeFault>
        requires { IsStorable (offered offer.now) }
        ensures notes { MatchResult result
            (λ answer. Notes (offered offer.now) peer now pass.old answer pass.new)
            (λ _. pass.new ≡ pass.old) }
        ensures answered { IfOk result (J.has_answered peer now (offered offer.now)) }
        ensures faults { IfErr result IsOfAdmission }
    {
        self.desk.lock(rt).admit(pass, offer, peer, now)
    }

    /// Takes the node back, live or stopped, together with all passes. The node has accepted exactly one message for
    /// each receipt since threads began to share it, under the receipt's number and with the receipt's content, and
    /// nothing else has changed. If the numbers or contents disagree, returns node and passes as a mismatch. Allocates
    /// nothing.
    pub fn close(self, passes: Vec<Pass<J>>) -> Result<(Node<D>, Vec<Pass<J>>), Mismatch<D, J>>
        requires { vec_len passes ≡ J.parts }
        ensures closed { (changes : List Change) → J.starts changes
            → IfOk result (λ closed. HasTaken D.honest D.words changes passes.items closed.0.records) }
        ensures mismatch { (changes : List Change) → J.starts changes → IfErr result (λ mismatch.
            AreReceipts (length changes + 1) mismatch.node.records.queue passes.items → ⊥) }
        ensures grown { (changes : List Change) → J.starts changes → IfErr result (λ mismatch.
            GrowsBy D.honest D.words changes (count_of passes.items) mismatch.node.records) }
        ensures passes { MatchResult result (λ closed. closed.1.items ≡ passes.items)
            (λ mismatch. mismatch.passes.items ≡ passes.items) }
    {
        let Hub { desk } = self;
        let mut passes = passes;
        let (node, first) = desk.into_inner().close(&mut passes);
        if are_receipts(&node, first, passes.as_slice()) {
            Ok((node, passes))
        } else {
            Err(Mismatch { node, passes })
        }
    }
}

/// Returns a pass for each of `threads` threads, and the rest of their share. Fails if memory runs out.
fn passes_of<J: Opening>(
    alloc: Global,
    share: Share<J>,
    threads: u8,
) -> Result<(Vec<Pass<J>>, Share<J>), AllocError>
    requires { (share.parts ≡ threads) × (share.amount ≡ 0) }
    ensures passes { IfOk result (λ made. AreNew threads made.0.items) }
    ensures rest { IfOk result (λ made. (made.1.parts ≡ 0) × (made.1.amount ≡ 0)) }
{
    let mut share = share;
    let mut passes = Vec::with_capacity(alloc, usize::from(threads))?;
    for _i in 0..threads {
        passes.push(Pass::new(alloc, share.split_off(1, 0)))?;
    }
    Ok((passes, share))
}
