//! The queue of a node, in memory.
ghost use Rattle.std.specs.Prelude.{◌≡◌, ◌<◌, ◌≤◌, ◌+◌, ◌^◌, ◌++◌, ℕ, [], ◌∷◌, false, true, IfOk, IsErrOf, IsTrue, ◌↔◌};
ghost use Rattle.std.specs.Prelude.{OnErr, OnOk};
ghost use Rattle.std.specs.List.{Contains, flat_map, list_any};
ghost use Rattle.std.specs.Option.{option_copied, option_map_or};
ghost use Rattle.relay_book.specs.Book.{AllTold, AreTold, IsTold, Rise, is_held_until, marks_at};
ghost use Rattle.relay_book.specs.Marks.{place_steps};
ghost use Rattle.relay_book.specs.Queue.{FitsQueue, due_of, empty_queue, held_of, is_due_at, last_number, message_of};
ghost use Rattle.relay_book.specs.Queue.{ruled, step};
ghost use Rattle.relay_book.specs.Ready.{IsReady, entry_of, message_in};
ghost use Rattle.relay_book.specs.Record.{IsAccept};

mod decoded;
mod earliest;
mod entries;
mod first;
mod first_outline;
mod make;
mod numbers;
mod outlined;
mod questions;
mod read_blocks;
mod restored;
mod snapshot;
mod steps;

use crate::change::{Accept, Change, Outcome};
use crate::fate::PlaceStep;
use crate::fault::BookFault;
use crate::judge::{fits_message, is_accept, is_outcome};
use crate::limits::LAST_NUMBER;
use crate::message::{Message, Place};
use crate::ready::{Made, Ready};
use entries::{keep_queued, slot_after};
pub use first_outline::FirstOutline;
use indexmap::IndexMap;
use make::{accepted, made_of, moments_of, places_after};
use questions::{held_places, numbers_until, push_due};
use relay_trace::Moment;
use std::alloc::{AllocError, Global};
use std::collections::BTreeSet;
use std::marker::Model;
use std::mem;
use steps::place_steps_by;

/// The queue of a node: the messages with a held place, and when these are due.
#[derive(Drop)]
pub struct Book {
    next: u64,
    messages: IndexMap<u64, Option<Message>>,
    /// How many entries have ended: they are cleared away together, since one by one each would move all
    /// after it.
    ended: usize,
    /// When each held place is due, with its message's number. There may be more keys, so `due` asks the
    /// places themselves: those of a change that was made ready and isn't committed stay until the next
    /// `prepare`, and for good where another change is committed in between.
    waiting: BTreeSet<(u64, u64), Global>,
    /// The due times noted for a change that isn't committed. If it never is, the next change drops them.
    fresh: Vec<(u64, u64)>,
}

impl Model for Book {
    ghost use Rattle.indexmap.specs.IndexMap.{spare};
    ghost use Rattle.relay_book.specs.Book.{AllTold, Rise, Shown, live, shown};

    ghost Value = { Shown };

    ghost view = { λ book. shown book.next book.messages.entries (spare book.messages) book.waiting.keys };

    ghost invariant = { λ book. Rise 0 book.next book.messages.entries
        × AllTold book.waiting.keys (live book.messages.entries) };
}

impl Book {
    /// Makes a book without a message. Allocates nothing.
    pub fn new(alloc: Global) -> Self
        ensures { result.queue ≡ empty_queue }
    {
        Book {
            next: 1,
            messages: IndexMap::new(alloc),
            ended: 0,
            waiting: BTreeSet::new(alloc),
            fresh: Vec::new(alloc),
        }
    }

    /// Returns the number of the next change. Allocates nothing.
    pub fn next_number(&self) -> u64
        ensures { result ≡ self.now.queue.next }
    {
        self.next
    }

    /// States that the numbers of the messages rise, and are below the next. Does nothing.
    pub fn numbers_rise(&self)
        ensures { Rise 0 self.now.queue.next self.now.queue.messages }
    {
        let _next = self.next;
    }

    /// Returns the message of a number, while a place of it is held. Allocates nothing.
    #[tactic(auto, using(crate::proofs::LiveLemmas::live_lookup))]
    pub fn message(&self, number: u64) -> Option<&Message>
        ensures { option_copied result ≡ message_of self.now.queue.messages number }
    {
        match self.messages.get(&number) {
            Some(slot) => slot.as_ref(),
            None => None,
        }
    }

    /// Returns all held places, each with the number of its message, in order. Fails if memory runs out.
    pub fn held(&self, alloc: Global) -> Result<Vec<(u64, u8)>, AllocError>
        ensures { IfOk result (λ marks. marks.items ≡ held_of self.now.queue) }
    {
        held_places(alloc, &self.messages)
    }

    /// Returns the held places that are due at a time or before, each with the number of its message, in order. Fails
    /// if memory runs out.
    pub fn due(&self, alloc: Global, now: Moment) -> Result<Vec<(u64, u8)>, AllocError>
        ensures { IfOk result (λ marks. marks.items ≡ due_of now self.now.queue) }
    {
        let latest = now.seconds();
        let numbers = numbers_until(alloc, &self.waiting, latest)?;
        self.due_among(alloc, &numbers, latest)
    }

    /// Returns what a change makes of places: each that leaves, with its way, and each that is reported as delayed, in
    /// order. Fails if memory runs out.
    pub fn place_steps(
        &self,
        alloc: Global,
        change: &Change,
    ) -> Result<Vec<(u8, PlaceStep)>, AllocError>
        ensures { IfOk result (λ steps. steps.items ≡ place_steps self.now.queue change.now) }
    {
        match change {
            Change::Accept(_) => Ok(Vec::new(alloc)),
            Change::Outcome(outcome) => match self.message(outcome.message) {
                Some(message) => place_steps_by(alloc, message, outcome),
                None => Ok(Vec::new(alloc)),
            },
        }
    }

    /// Makes room for a change and makes ready what it queues, so that `commit` can't fail. Returns `BadRecord` exactly
    /// if the change doesn't fit, however little memory there is, and fails with `NoMemory` where a change that fits
    /// finds no memory. The queue is unchanged.
    pub fn prepare(&mut self, alloc: Global, change: Change) -> Result<Ready, BookFault>
        ensures queue { self.new.queue ≡ self.old.queue }
        ensures ready { IfOk result (λ ready. IsReady self.new ready) }
        ensures change { IfOk result (λ ready. ready.change ≡ change) }
        ensures bad { IsErrOf result BookFault.BadRecord → ¬ FitsQueue self.old.queue change }
        ensures memory { IsErrOf result BookFault.NoMemory → FitsQueue self.old.queue change }
    {
        self.forget_fresh(alloc);
        match change {
            Change::Accept(accept) => self.prepare_accept(alloc, accept),
            Change::Outcome(outcome) => self.prepare_outcome(alloc, outcome),
        }
    }

    /// Applies a change that is ready, to the book as `prepare` left it. Allocates nothing.
    pub fn commit(&mut self, ready: Ready)
        requires { IsReady self.old ready }
        ensures { self.new.queue ≡ step self.old.queue ready.change }
    {
        let Ready { made, were_due } = ready;
        match made {
            Made::Accepted(message) => self.add(Some(message)),
            Made::Ruled(outcome) => {
                let number = outcome.message;
                self.rule(&outcome);
                self.add(None);
                self.forget_all(number, were_due.as_slice());
            }
            Made::Reported(outcome, report) => {
                let number = outcome.message;
                self.rule(&outcome);
                self.add(Some(report));
                self.forget_all(number, were_due.as_slice());
            }
        }
    }

    /// Prepares a change and commits it. A fault is `prepare`'s, and leaves the queue unchanged.
    pub fn apply(&mut self, alloc: Global, change: Change) -> Result<(), BookFault>
        ensures ok { OnOk result (self.new.queue ≡ step self.old.queue change) }
        ensures err { OnErr result (self.new.queue ≡ self.old.queue) }
        ensures fits { OnOk result (FitsQueue self.old.queue change) }
        ensures bad { IsErrOf result BookFault.BadRecord → ¬ FitsQueue self.old.queue change }
        ensures memory { IsErrOf result BookFault.NoMemory → FitsQueue self.old.queue change }
    {
        let ready = self.prepare(alloc, change)?;
        self.commit(ready);
        Ok(())
    }

    /// Returns the places of these messages that are due by then, in order.
    #[tactic(auto, using(crate::proofs::DueLemmas::marks_next))]
    fn due_among(
        &self,
        alloc: Global,
        numbers: &BTreeSet<u64, Global>,
        latest: u64,
    ) -> Result<Vec<(u64, u8)>, AllocError>
        ensures { IfOk result (λ marks.
            marks.items ≡ flat_map (marks_at (is_due_at latest) self.now.queue.messages) numbers.now.keys) }
    {
        let mut marks = Vec::new(alloc);
        for number in numbers.iter() {
            if let Some(message) = self.message(*number) {
                push_due(&mut marks, *number, &message.places, latest)?;
            }
        }
        Ok(marks)
    }

    /// Judges an accept, and makes room for its message.
    fn prepare_accept(&mut self, alloc: Global, accept: Accept) -> Result<Ready, BookFault>
        ensures queue { self.new.queue ≡ self.old.queue }
        ensures ready { IfOk result (λ ready. IsReady self.new ready) }
        ensures change { IfOk result (λ ready. ready.change ≡ Change.Accept accept) }
        ensures bad { IsErrOf result BookFault.BadRecord → ¬ FitsQueue self.old.queue (Change.Accept accept) }
        ensures memory { IsErrOf result BookFault.NoMemory
            → FitsQueue self.old.queue (Change.Accept accept) }
    {
        if !is_accept(&accept) {
            return Err(BookFault::BadRecord);
        }
        self.ready_accept(alloc, accept)
    }

    /// Makes room for the message of an accept that may be stored.
    fn ready_accept(&mut self, alloc: Global, accept: Accept) -> Result<Ready, BookFault>
        requires { IsAccept accept }
        ensures queue { self.new.queue ≡ self.old.queue }
        ensures ready { IfOk result (λ ready. IsReady self.new ready) }
        ensures change { IfOk result (λ ready. ready.change ≡ Change.Accept accept) }
        ensures bad { IsErrOf result BookFault.BadRecord → ¬ FitsQueue self.old.queue (Change.Accept accept) }
        ensures memory { IsErrOf result BookFault.NoMemory
            → FitsQueue self.old.queue (Change.Accept accept) }
    {
        if self.next > LAST_NUMBER {
            return Err(BookFault::BadRecord);
        }
        let made = Made::Accepted(accepted(alloc, self.next, accept)?);
        self.tell_made(&made)?;
        self.reserve()?;
        Ok(Ready {
            made,
            were_due: Vec::new(alloc),
        })
    }

    /// Judges an outcome, and makes room for what it leaves.
    fn prepare_outcome(&mut self, alloc: Global, outcome: Outcome) -> Result<Ready, BookFault>
        ensures queue { self.new.queue ≡ self.old.queue }
        ensures ready { IfOk result (λ ready. IsReady self.new ready) }
        ensures change { IfOk result (λ ready. ready.change ≡ Change.Outcome outcome) }
        ensures bad { IsErrOf result BookFault.BadRecord
            → ¬ FitsQueue self.old.queue (Change.Outcome outcome) }
        ensures memory { IsErrOf result BookFault.NoMemory
            → FitsQueue self.old.queue (Change.Outcome outcome) }
    {
        if !self.fits(&outcome) {
            return Err(BookFault::BadRecord);
        }
        let Some(message) = self.message(outcome.message) else {
            return Err(BookFault::BadRecord);
        };
        let number = outcome.message;
        let were_due = moments_of(alloc, &message.places)?;
        let places = places_after(alloc, message, &outcome)?;
        let made = made_of(alloc, self.next, message, outcome)?;
        self.tell_all(number, places.as_slice())?;
        self.tell_made(&made)?;
        self.reserve()?;
        Ok(Ready { made, were_due })
    }

    /// Returns whether an outcome fits the queue.
    fn fits(&self, outcome: &Outcome) -> bool
        ensures { IsTrue result ↔ FitsQueue self.now.queue (Change.Outcome outcome.now) }
    {
        if self.next > LAST_NUMBER || !is_outcome(outcome) {
            return false;
        }
        match self.message(outcome.message) {
            Some(message) => fits_message(message, outcome),
            None => false,
        }
    }

    /// Notes when the places of a new message are due.
    fn tell_made(&mut self, made: &Made) -> Result<(), AllocError>
        ensures queue { self.new.queue ≡ self.old.queue }
        ensures room { self.new.room ≡ self.old.room }
        ensures told { OnOk result
            (AllTold self.new.told (entry_of self.new.queue.next (message_in made.now))) }
        ensures kept { (key : ℕ × ℕ) → Contains self.old.told key → Contains self.new.told key }
    {
        match made {
            Made::Accepted(message) => self.tell_all(self.next, message.places.as_slice()),
            Made::Ruled(_) => Ok(()),
            Made::Reported(_, report) => self.tell_all(self.next, report.places.as_slice()),
        }
    }

    /// Takes a number, for a message or for none. Allocates nothing.
    fn add(&mut self, message: Option<Message>)
        requires room { 0 < self.old.room }
        requires few { self.old.queue.next ≤ last_number }
        requires told { AllTold self.old.told (entry_of self.old.queue.next message) }
        ensures next { self.new.queue.next ≡ self.old.queue.next + 1 }
        ensures messages { self.new.queue.messages
            ≡ self.old.queue.messages ++ entry_of self.old.queue.next message }
    {
        self.keep_fresh();
        match message {
            Some(message) => self.push(message),
            None => self.pass(),
        }
    }

    /// Puts a message after the others. Allocates nothing.
    #[tactic(auto, using(crate::proofs::LiveLemmas::pushed_last, crate::proofs::ToldLemmas::all_told_last))]
    fn push(&mut self, message: Message)
        requires room { 0 < self.old.room }
        requires few { self.old.queue.next ≤ last_number }
        requires told { AreTold self.old.told self.old.queue.next message.places }
        ensures next { self.new.queue.next ≡ self.old.queue.next + 1 }
        ensures messages { self.new.queue.messages
            ≡ self.old.queue.messages ++ (self.old.queue.next, message) ∷ [] }
    {
        if let Ok(_) = self.messages.insert(self.next, Some(message)) {}
        self.next += 1;
    }

    /// Skips a number.
    #[tactic(auto, using(crate::proofs::LiveLemmas::rise_next))]
    fn pass(&mut self)
        requires few { self.old.queue.next ≤ last_number }
        ensures next { self.new.queue.next ≡ self.old.queue.next + 1 }
        ensures messages { self.new.queue.messages ≡ self.old.queue.messages }
    {
        self.next += 1;
    }

    /// Rules on a message. What has ended leaves its entry empty.
    #[tactic(auto, using(crate::proofs::LiveLemmas::ruled_entries, crate::proofs::ToldLemmas::all_told_as))]
    fn rule(&mut self, outcome: &Outcome)
        requires { AllTold self.old.told (ruled outcome.now self.old.queue.messages) }
        ensures next { self.new.queue.next ≡ self.old.queue.next }
        ensures room { self.new.room ≡ self.old.room }
        ensures told { self.new.told ≡ self.old.told }
        ensures messages { self.new.queue.messages ≡ ruled outcome.now self.old.queue.messages }
    {
        if let Some(slot) = self.messages.get_mut(&outcome.message) {
            *slot = slot_after(slot.take(), outcome);
        }
    }

    /// Clears away the entries that have ended.
    #[tactic(auto, using(crate::proofs::LiveLemmas::kept_entries, crate::proofs::ToldLemmas::all_told_as))]
    fn compact(&mut self)
        ensures queue { self.new.queue ≡ self.old.queue }
        ensures room { self.old.room ≤ self.new.room }
        ensures told { self.new.told ≡ self.old.told }
    {
        keep_queued(&mut self.messages);
        self.ended = 0;
    }

    /// Makes room in the map.
    fn reserve(&mut self) -> Result<(), AllocError>
        ensures queue { self.new.queue ≡ self.old.queue }
        ensures room { OnOk result (0 < self.new.room) }
        ensures told { self.new.told ≡ self.old.told }
        ensures all_told { AllTold self.new.told self.new.queue.messages }
    {
        self.messages.reserve(1)?;
        Ok(())
    }

    /// Notes that a place of a message is due.
    fn tell(&mut self, due: u64, number: u64) -> Result<(), AllocError>
        ensures queue { self.new.queue ≡ self.old.queue }
        ensures room { self.new.room ≡ self.old.room }
        ensures told { OnOk result (Contains self.new.told (due, number)) }
        ensures kept { (key : ℕ × ℕ) → Contains self.old.told key → Contains self.new.told key }
    {
        self.waiting.insert((due, number))?;
        Ok(())
    }

    /// Notes when a place is due.
    fn tell_place(&mut self, number: u64, place: Place) -> Result<(), AllocError>
        ensures queue { self.new.queue ≡ self.old.queue }
        ensures room { self.new.room ≡ self.old.room }
        ensures told { OnOk result (IsTold self.new.told number place) }
        ensures kept { (key : ℕ × ℕ) → Contains self.old.told key → Contains self.new.told key }
    {
        if place.held {
            self.note_fresh(place.due, number)?;
            self.tell(place.due, number)
        } else {
            Ok(())
        }
    }

    /// Notes when each held place is due.
    fn tell_all(&mut self, number: u64, places: &[Place]) -> Result<(), AllocError>
        ensures queue { self.new.queue ≡ self.old.queue }
        ensures room { self.new.room ≡ self.old.room }
        ensures told { OnOk result (AreTold self.new.told number places.now) }
        ensures kept { (key : ℕ × ℕ) → Contains self.old.told key → Contains self.new.told key }
    {
        for place in places {
            self.tell_place(number, *place)?;
        }
        Ok(())
    }

    /// Keeps the due times noted for a change that isn't committed.
    fn note_fresh(&mut self, due: u64, number: u64) -> Result<(), AllocError>
        ensures { self.new ≡ self.old }
    {
        self.fresh.push((due, number))?;
        Ok(())
    }

    /// The change is committed.
    fn keep_fresh(&mut self)
        ensures { self.new ≡ self.old }
    {
        self.fresh.clear();
    }

    /// Drops the due times noted for a change that was never committed.
    fn forget_fresh(&mut self, alloc: Global)
        ensures { self.new.queue ≡ self.old.queue }
    {
        if self.fresh.is_empty() {
            return;
        }
        let fresh = mem::replace(&mut self.fresh, Vec::new(alloc));
        for (due, number) in fresh.as_slice() {
            self.forget(*due, *number);
        }
    }

    /// Forgets that a place of a message was due, unless one still is. No clause says that its key is
    /// gone: a key that stays after costs memory, and a look at its message when it comes up, and makes
    /// no place due.
    fn forget(&mut self, due: u64, number: u64)
        ensures queue { self.new.queue ≡ self.old.queue }
        ensures room { self.new.room ≡ self.old.room }
    {
        if self.is_due_then(due, number) {
            return;
        }
        self.waiting.remove(&(due, number));
    }

    /// Returns whether a held place of this message is due then.
    fn is_due_then(&self, due: u64, number: u64) -> bool
        ensures { result
            ≡ option_map_or (λ message. list_any (is_held_until due) message.places)
            (message_of self.now.queue.messages number) false }
    {
        match self.message(number) {
            Some(message) => message.places.any_held_until(due),
            None => false,
        }
    }

    /// Forgets when places of a message were due, and clears away what has ended.
    fn forget_all(&mut self, number: u64, moments: &[u64])
        ensures { self.new.queue ≡ self.old.queue }
    {
        for due in moments {
            self.forget(*due, number);
        }
        self.clear_away(number);
    }

    /// Counts a message that has ended, and clears away the entries that have, once they are half of all.
    fn clear_away(&mut self, number: u64)
        ensures { self.new.queue ≡ self.old.queue }
    {
        if self.message(number).is_none() {
            self.count_ended();
        }
        if self.ended > self.messages.len() / 2 {
            self.compact();
        }
    }

    fn count_ended(&mut self)
        ensures { self.new.queue ≡ self.old.queue }
    {
        self.ended = self.ended.saturating_add(1);
    }
}
