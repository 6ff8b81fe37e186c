//! Mail that the postmaster withdraws: it is returned to its senders, or discarded.
ghost use Rattle.std.specs.Prelude.{◌≡◌, ◌+◌, ◌≤◌, ◌++◌, [], IfErr, IfOk, OnErr, OnOk, length, map, vec_capacity};
ghost use Rattle.relay_loop.specs.Withdrawing.{choice_of};
ghost use Rattle.relay_run.specs.Withdrawing.{FailsAmong, HaveOutcomes, outcome_of, places_of};

use relay_book::Withdrawal;
use relay_connections::Now;
use relay_control::Named;
use relay_disk::Disk;
use relay_files::Fault;
use relay_log::{Attempt, Log, Talk};
use relay_loop::{Chosen, Relay, Withdrawn};
use relay_node::{NodeFault, Noted};
use std::alloc::{AllocError, Global};

/// The outcome of withdrawing places of a message.
#[derive(Clone, Copy)]
pub(crate) enum Outcome {
    /// They have ended.
    Withdrawn,
    /// The message isn't queued, or one of them has ended before.
    Unknown,
    /// An attempt is being made for one of them.
    Busy,
    /// The spool has no room for the change.
    Full,
}

/// What the log says of a message whose places are withdrawn.
#[derive(Drop)]
struct Entry {
    message: u64,
    /// How many seconds ago it was accepted, if it is queued.
    age: Option<u64>,
    talk: Talk,
}

/// Withdraws the named places of messages, one message after the other, and logs that; the changes of a group of
/// messages share one pair of syncs. Adds the outcome of each message. Ends early if memory runs out. Fails only if the
/// device has failed.
pub(crate) fn withdraw_each<D: Disk>(
    relay: &mut Relay<D>,
    names: &[Named],
    withdrawal: Withdrawal,
    outcomes: &mut Vec<Outcome>,
    now: &Now,
    log: &mut Log<'_, Vec<u8>>,
) -> Result<(), Fault>
    requires empty { outcomes.old.items ≡ [] }
    requires room { length names.now ≤ vec_capacity outcomes.old }
    ensures have { OnOk result (HaveOutcomes D.honest D.words now.now.moment withdrawal names.now outcomes.new.items
        relay.old relay.new) }
    ensures failed { OnErr result (FailsAmong D.honest D.words now.now.moment withdrawal names.now relay.old
        relay.new) }
    ensures fault { IfErr result (λ fault. fault ≡ Fault.Device) }
{
    let alloc = *outcomes.allocator();
    let Ok(chosen) = chosen_of(alloc, names) else {
        return Ok(());
    };
    let Ok(entries) = entries_of(alloc, relay, names, now, log) else {
        return Ok(());
    };
    while outcomes.len() < names.len() {
        let done = outcomes.len();
        match relay.withdraw_all(&chosen.as_slice()[done..], withdrawal, now.moment) {
            Ok(
                Withdrawn {
                    results,
                    notes,
                    is_short,
                },
            ) => {
                push_outcomes(outcomes, results.as_slice());
                tell_each(&entries.as_slice()[done..], results.as_slice(), notes, log);
                if is_short {
                    return Ok(());
                }
            }
            Err(NodeFault::Stopped) => return Err(Fault::Device),
            // Memory ran out: there is no other fault.
            Err(_) => return Ok(()),
        }
    }
    Ok(())
}

/// Returns the named places for the relay. Fails if memory runs out.
fn chosen_of(alloc: Global, names: &[Named]) -> Result<Vec<Chosen<'_>>, AllocError>
    ensures { IfOk result (λ chosen. map choice_of chosen.items ≡ map places_of names.now) }
{
    let mut chosen = Vec::with_capacity(alloc, names.len())?;
    for named in names {
        chosen.push(Chosen {
            message: named.message,
            places: named.places.as_slice(),
        })?;
    }
    Ok(chosen)
}

/// Returns what the log says of each of these messages, while they are queued. Fails if memory runs out.
fn entries_of<D: Disk>(
    alloc: Global,
    relay: &Relay<D>,
    names: &[Named],
    now: &Now,
    log: &Log<'_, Vec<u8>>,
) -> Result<Vec<Entry>, AllocError>
    ensures { IfOk result (λ entries. length entries.items ≡ length names.now) }
{
    let mut entries = Vec::with_capacity(alloc, names.len())?;
    for named in names {
        entries.push(Entry {
            message: named.message,
            age: age_of(relay, named.message, now),
            talk: log.talk_of(relay.node().message(named.message)),
        })?;
    }
    Ok(entries)
}

/// Returns how many seconds ago a message was accepted, if it is queued.
fn age_of<D: Disk>(relay: &Relay<D>, message: u64, now: &Now) -> Option<u64> {
    match relay.node().message(message) {
        Some(message) => {
            let accepted = message.accept.at.seconds();
            Some(now.moment.seconds().saturating_sub(accepted))
        }
        None => None,
    }
}

/// Adds the outcome of each result. There is room for them.
fn push_outcomes(outcomes: &mut Vec<Outcome>, results: &[Result<u64, NodeFault>])
    requires { length outcomes.old.items + length results.now ≤ vec_capacity outcomes.old }
    ensures items { outcomes.new.items ≡ outcomes.old.items ++ map outcome_of results.now }
    ensures capacity { vec_capacity outcomes.new ≡ vec_capacity outcomes.old }
{
    for each in results {
        outcomes.push_reserved(outcome_of(each));
    }
}

/// Returns the outcome of a message with this result.
fn outcome_of(answer: &Result<u64, NodeFault>) -> Outcome
    ensures { result ≡ outcome_of answer.now }
{
    match answer {
        Ok(_) => Outcome::Withdrawn,
        Err(NodeFault::Busy) => Outcome::Busy,
        Err(NodeFault::Full) => Outcome::Full,
        // There is no other fault.
        Err(_) => Outcome::Unknown,
    }
}

/// Logs each withdrawal that was recorded, with the note of its change.
fn tell_each(
    entries: &[Entry],
    results: &[Result<u64, NodeFault>],
    notes: Vec<Noted>,
    log: &mut Log<'_, Vec<u8>>,
) {
    let mut notes = notes.into_iter();
    for (entry, answer) in entries.iter().zip(results) {
        if answer.is_ok() {
            tell(entry, notes.next(), log);
        }
    }
}

/// Logs that places of a message were withdrawn.
fn tell(entry: &Entry, noted: Option<Noted>, log: &mut Log<'_, Vec<u8>>) {
    let attempt = Attempt {
        number: entry.message,
        hop: None,
        at: None,
        age: entry.age,
        loss: None,
        noted,
    };
    log.attempt(&attempt, &entry.talk);
}
