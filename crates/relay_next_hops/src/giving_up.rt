//! Giving up messages without a connection: those that no route leads on, and held ones whose time is over.
ghost use Rattle.std.specs.Prelude.{◌≡◌, ◌∷◌, [], ℕ, List, IfOk, Ok, OnOk, false};
ghost use Rattle.relay_connections.specs.Served.{LeavesClients};
ghost use Rattle.relay_next_hops.specs.Expiry.{EndsFirst};
ghost use Rattle.relay_next_hops.specs.Lanes.{KeepsCounts};
ghost use Rattle.relay_next_hops.specs.Starting.{IsGivenUp};

use crate::delivery::age_since;
use crate::expiry::{expire, over_delivery};
use crate::lanes::Lanes;
use crate::starting::accepted_at;
use relay_connections::Now;
use relay_disk::Disk;
use relay_files::Fault;
use relay_log::{Attempt, Log, Talk};
use relay_loop::Relay;
use relay_node::{NodeFault, Noted};

/// Gives up what it can by one change of the first message that is to be given up, if there is one: the held mail for one
/// of its next hops, if its time is over; else its places without a hop. Returns whether that was recorded.
pub(crate) fn give_up_next<D: Disk>(
    relay: &mut Relay<D>,
    lanes: &mut Lanes,
    now: &Now,
    log: &mut Log<'_, Vec<u8>>,
) -> Result<bool, Fault>
    ensures none { lanes.old.unroutable.items ≡ [] → (result ≡ Ok false) × (relay.new ≡ relay.old) }
    ensures first { (message : ℕ) (rest : List ℕ) → lanes.old.unroutable.items ≡ message ∷ rest
        → IfOk result (EndsFirst D.words now.now.moment message rest lanes.old.held relay.old relay.new lanes.new) }
    ensures counts { KeepsCounts lanes.old lanes.new }
    ensures tasks { (lanes.new.lanes ≡ lanes.old.lanes) × (lanes.new.is_open ≡ lanes.old.is_open) }
    ensures config { relay.new.node.config ≡ relay.old.node.config }
    ensures leaves { OnOk result (LeavesClients D.honest D.words relay.old relay.new) }
{
    match lanes.first_unroutable() {
        Some(message) => end_first(relay, lanes, message, now, log),
        None => Ok(false),
    }
}

/// Does the same for this message, which is the first. If there is no memory to look for held mail that is over, all due
/// mail is listed again.
fn end_first<D: Disk>(
    relay: &mut Relay<D>,
    lanes: &mut Lanes,
    message: u64,
    now: &Now,
    log: &mut Log<'_, Vec<u8>>,
) -> Result<bool, Fault>
    ensures ends { (rest : List ℕ) → lanes.old.unroutable.items ≡ message ∷ rest
        → IfOk result (EndsFirst D.words now.now.moment message rest lanes.old.held relay.old relay.new lanes.new) }
    ensures counts { KeepsCounts lanes.old lanes.new }
    ensures tasks { (lanes.new.lanes ≡ lanes.old.lanes) × (lanes.new.is_open ≡ lanes.old.is_open) }
    ensures config { relay.new.node.config ≡ relay.old.node.config }
    ensures leaves { OnOk result (LeavesClients D.honest D.words relay.old relay.new) }
{
    match over_delivery(relay, lanes, message, now) {
        Ok(Some(delivery)) => expire(relay, lanes, delivery, now, log),
        Ok(None) => {
            let _ = lanes.next_unroutable();
            give_up(relay, lanes, message, now, log)
        }
        Err(_) => {
            let _ = lanes.next_unroutable();
            lanes.list_anew();
            Ok(false)
        }
    }
}

/// Gives up the places of a message that have no hop. Returns whether that was recorded. If it wasn't, and they are
/// still due, all that is due is listed anew.
fn give_up<D: Disk>(
    relay: &mut Relay<D>,
    lanes: &mut Lanes,
    message: u64,
    now: &Now,
    log: &mut Log<'_, Vec<u8>>,
) -> Result<bool, Fault>
    ensures gives_up { IfOk result (IsGivenUp D.words now.now.moment message relay.old relay.new lanes.new) }
    ensures others { lanes.new.unroutable ≡ lanes.old.unroutable }
    ensures counts { KeepsCounts lanes.old lanes.new }
    ensures tasks { (lanes.new.lanes ≡ lanes.old.lanes) × (lanes.new.is_open ≡ lanes.old.is_open) }
    ensures config { relay.new.node.config ≡ relay.old.node.config }
    ensures leaves { OnOk result (LeavesClients D.honest D.words relay.old relay.new) }
{
    let talk = log.talk_of(relay.node().message(message));
    let age = age_since(accepted_at(relay, message), now);
    match relay.give_up_unroutable(message, now.moment) {
        Ok(_) => {
            let noted = relay.take_noted();
            tell_given_up(message, age, &talk, noted, log);
            Ok(true)
        }
        Err(fault) => match fault {
            NodeFault::Stopped => Err(Fault::Device),
            // Nothing of it is to be given up any more.
            NodeFault::Unknown | NodeFault::NotDue => Ok(false),
            // It stays due.
            _ => {
                lanes.list_anew();
                Ok(false)
            }
        },
    }
}

/// Tells that a message of this age was given up that has no hop.
fn tell_given_up(
    message: u64,
    age: Option<u64>,
    talk: &Talk,
    noted: Option<Noted>,
    log: &mut Log<'_, Vec<u8>>,
) {
    let attempt = Attempt {
        number: message,
        hop: None,
        at: None,
        age,
        loss: None,
        noted,
    };
    log.attempt(&attempt, talk);
}
