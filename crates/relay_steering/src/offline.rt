//! Withdrawing mail from a spool on which no relay runs.
ghost use Rattle.std.specs.Prelude.{◌≡◌, ◌≤◌, [], IfErr, IfOk, OnOk, length, vec_capacity};
ghost use Rattle.relay_steering.specs.Withdrawing.{FailsAmong, FailsToWithdraw, HasOutcome, HaveOutcomes};

use relay_book::Withdrawal;
use relay_disk::Disk;
use relay_files::Fault;
use relay_node::{Node, NodeFault};
use relay_queue::Selected;
use relay_trace::Moment;

/// The outcome of withdrawing places of a message.
#[derive(Clone, Copy, PartialEq, Eq)]
pub(crate) enum Outcome {
    /// They have ended.
    Withdrawn,
    /// The message isn't queued, or one of them has ended before.
    Unknown,
    /// An attempt is being made for one of them.
    Busy,
    /// The spool has no room for the change.
    Full,
}

/// Withdraws the selected places of one message after the other, each in a change of its own, and adds the outcome of
/// each. Fails if memory runs out, or the device fails; the places of messages before that have ended then.
pub(crate) fn withdraw_each<D: Disk>(
    node: &mut Node<D>,
    messages: &[Selected],
    withdrawal: Withdrawal,
    now: Moment,
    outcomes: &mut Vec<Outcome>,
) -> Result<(), Fault>
    requires empty { outcomes.old.items ≡ [] }
    requires room { length messages.now ≤ vec_capacity outcomes.old }
    ensures have { OnOk result (HaveOutcomes D.honest D.words now withdrawal messages.now outcomes.new.items
        node.old node.new) }
    ensures failed { IfErr result (λ why. FailsAmong D.honest D.words now withdrawal messages.now outcomes.new.items
        why node.old node.new) }
{
    for selected in messages {
        outcomes.push_reserved(withdraw(node, selected, withdrawal, now)?);
    }
    Ok(())
}

/// Withdraws the selected places of a message. Fails if memory runs out, with nothing changed, or if the device fails.
fn withdraw<D: Disk>(
    node: &mut Node<D>,
    selected: &Selected,
    withdrawal: Withdrawal,
    now: Moment,
) -> Result<Outcome, Fault>
    ensures has { IfOk result (λ outcome. HasOutcome D.honest D.words now withdrawal outcome selected.now
        node.old node.new) }
    ensures failed { IfErr result (λ why. FailsToWithdraw D.honest D.words now withdrawal why selected.now
        node.old node.new) }
{
    match node.withdraw(
        selected.message,
        selected.places.as_slice(),
        withdrawal,
        now,
    ) {
        Ok(_) => Ok(Outcome::Withdrawn),
        Err(NodeFault::Unknown) => Ok(Outcome::Unknown),
        Err(NodeFault::Busy) => Ok(Outcome::Busy),
        Err(NodeFault::Full) => Ok(Outcome::Full),
        Err(NodeFault::Stopped) => Err(Fault::Device),
        // Memory ran out: there is no other fault.
        Err(_) => Err(Fault::NoMemory),
    }
}
