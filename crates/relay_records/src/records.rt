//! The records of a node, and what they answer.
ghost use Rattle.std.specs.Prelude.{◌≡◌, ◌↔◌, ◌+◌, ◌≤◌, ◌^◌, ℕ, List, length, map, Option, None, Some, IfOk, IfSome};
ghost use Rattle.std.specs.Prelude.{IsTrue, MatchOption};
ghost use Rattle.std.specs.List.{Contains, filter};
ghost use Rattle.std.specs.Option.{option_copied, option_map};
ghost use Rattle.relay_disk.specs.Disks.{AddsNoImage, FailsNot, calls_left_of};
ghost use Rattle.relay_book.specs.declared.change.Change.{Change};
ghost use Rattle.relay_book.specs.Book.{Rise};
ghost use Rattle.relay_book.specs.Marks.{Held, IsQueuedAs};
ghost use Rattle.relay_book.specs.Moments.{IsLeastOf, moments_of};
ghost use Rattle.relay_book.specs.Queue.{due_of, held_of, message_of};
ghost use Rattle.relay_book.specs.Snapshot.{IsQueue};
ghost use Rattle.relay_records.specs.Records.{Halted, Keeps, Stays};
ghost use Rattle.relay_records.specs.HeldPlace.{IsWaiting, waiting_at};

use crate::noted::Noted;
use crate::place::{HeldPlace, held_place};
use relay_book::{Book, LAST_NUMBER, Message, PlaceQuestion, Question};
use relay_disk::{Disk, Disks, Reboot};
use relay_spool::Spool;
use relay_trace::Moment;
use std::alloc::{AllocError, Global};
use std::marker::Model;
use std::mem;

/// All that a change touches: the spool, the queue that its bodies leave, and the note of the last append
/// that was begun.
pub struct Records<D: Disk> {
    pub(crate) spool: Spool<D>,
    pub(crate) book: Book,
    pub(crate) noted: Option<Noted>,
}

// Written out, so that the proof of a caller that drops records stops at this function.
impl<D: Disk + Drop> Drop for Records<D> {
    fn drop(self) {
        let Records {
            spool: _spool,
            book: _book,
            noted: _noted,
        } = self;
    }
}

impl<D: Disk> Model for Records<D> {
    ghost use Rattle.relay_book.specs.Snapshot.{IsQueue};
    ghost use Rattle.relay_records.specs.Records.{Kept};

    ghost Value = { Kept D };

    ghost view = { λ r. record { spool = r.spool; queue = r.book.queue; noted = r.noted } };

    ghost invariant = { λ r. IsQueue r.book.queue };
}

impl<D: Disk> Records<D> {
    /// Returns the number of the next change, live or stopped. Allocates nothing.
    pub fn next_number(&self) -> u64
        ensures number { result ≡ self.now.queue.next }
        ensures kept { (changes : List Change) → Keeps D.honest D.words self.now changes
            → result ≡ length changes + 1 }
        ensures halted { (changes : List Change) (pending : Option Change)
            → Halted D.honest D.words self.now changes pending → result ≡ length changes + 1 }
    {
        self.book.next_number()
    }

    /// States that the numbers of the messages rise, and are below the next. Does nothing.
    pub fn numbers_rise(&self)
        ensures { Rise 0 self.now.queue.next self.now.queue.messages }
    {
        self.book.numbers_rise();
    }

    /// States that the queue may be stored. Does nothing.
    pub fn is_queue(&self)
        ensures { IsQueue self.now.queue }
    {
        let _is_noted = self.noted.is_some();
    }

    /// Returns whether another change can be numbered: numbers end at 2^62. Allocates nothing.
    pub fn has_number(&self) -> bool
        ensures { IsTrue result ↔ (self.now.queue.next ≤ 2 ^ 62) }
    {
        self.next_number() <= LAST_NUMBER
    }

    /// Returns whether no device call has failed. Allocates nothing.
    pub fn is_live(&self) -> bool
        ensures { result ≡ self.now.spool.live }
    {
        self.spool.is_live()
    }

    /// Returns how many octets the spool takes. Allocates nothing.
    pub fn size(&self) -> usize
        ensures size { result ≡ self.now.spool.size }
        ensures limit { result ≤ 2 ^ 40 }
    {
        self.spool.size()
    }

    /// Returns the message of a number, while a place of it is held. Allocates nothing.
    pub fn message(&self, number: u64) -> Option<&Message>
        ensures message { option_copied result ≡ message_of self.now.queue.messages number }
        ensures kept { (changes : List Change) → Keeps D.honest D.words self.now changes
            → IfSome result (λ message. IsQueuedAs changes number message.now) }
    {
        self.book.message(number)
    }

    /// Returns all held places, each with the number of its message, in order. Fails if memory runs out.
    pub fn held(&self, alloc: Global) -> Result<Vec<(u64, u8)>, AllocError>
        ensures held { IfOk result (λ marks. marks.items ≡ held_of self.now.queue) }
        ensures kept { (changes : List Change) → Keeps D.honest D.words self.now changes
            → IfOk result (λ marks. (number place : ℕ)
            → Contains {X = ℕ × ℕ} marks.items (number, place) ↔ Held changes number place) }
    {
        self.book.held(alloc)
    }

    /// Returns the numbers of the messages of which a question holds, in order. Fails if memory runs out.
    pub fn numbers_where<Q: Question>(
        &self,
        alloc: Global,
        question: &Q,
    ) -> Result<Vec<u64>, AllocError>
        ensures { IfOk result (λ numbers. numbers.items
            ≡ map (λ entry. entry.0) (filter (λ entry. Q.holds question.now entry.1) self.now.queue.messages)) }
    {
        self.book.numbers_where(alloc, question)
    }

    /// Returns the held places that are due at a time or before, each with the number of its message, in order. Fails
    /// if memory runs out.
    pub fn due(&self, alloc: Global, now: Moment) -> Result<Vec<(u64, u8)>, AllocError>
        ensures { IfOk result (λ marks. marks.items ≡ due_of now self.now.queue) }
    {
        self.book.due(alloc, now)
    }

    /// Returns the least time at which a held place is due of which a question holds, in seconds from 1970: it may pass
    /// the last time. None if the question holds of no held place. It asks of the places in the order of their times,
    /// and of none after the answer's, and takes no memory.
    pub fn first_due_where<Q: PlaceQuestion>(&self, question: &Q) -> Option<u64>
        ensures { IsLeastOf (moments_of (Q.holds question.now) self.now.queue.messages) result }
    {
        self.book.first_due_where(question)
    }

    /// Returns a place of a message, if it is held. Allocates nothing.
    pub fn place(&self, number: u64, place: u8) -> Option<HeldPlace<'_>>
        ensures place { MatchOption result (waiting_at self.now.queue number place ≡ None)
            (λ found. waiting_at self.now.queue number place ≡ Some (found.path.now, found.due)) }
        ensures kept { (changes : List Change) → Keeps D.honest D.words self.now changes
            → MatchOption result (Held changes number place → ⊥)
            (λ found. IsWaiting changes number place found.path.now found.due) }
    {
        match self.message(number) {
            Some(message) => held_place(message, place),
            None => None,
        }
    }

    /// Returns the last change whose append was begun, live or stopped. It is handed out once, and takes no memory.
    pub fn take_noted(&mut self) -> Option<Noted>
        ensures noted { result ≡ self.old.noted }
        ensures rest { self.new ≡ record self.old { noted = None } }
    {
        mem::replace(&mut self.noted, None)
    }

    /// Returns the disks, live or stopped. Allocates nothing.
    pub fn into_disk(self) -> Disks<D>
        ensures { result ≡ self.spool.disk }
    {
        let Records {
            spool,
            book: _book,
            noted: _noted,
        } = self;
        spool.into_disk()
    }
}

impl<D: Reboot> Records<D> {
    /// Sets the fuse of the disks: this many calls pass, and each later one fails. Nothing else changes.
    pub fn fuse(&mut self, calls: u64)
        ensures same { (self.new.spool.size ≡ self.old.spool.size)
            × (self.new.spool.live ≡ self.old.spool.live)
            × (self.new.queue ≡ self.old.queue) × (self.new.noted ≡ self.old.noted) }
        ensures kept { (changes : List Change) → Keeps D.Disk.honest D.Disk.words self.old changes
            → Stays D.Disk.honest D.Disk.words self.old self.new changes }
        ensures stop { D.Disk.honest → AddsNoImage D.Disk.words self.old.spool.disk self.new.spool.disk }
        ensures failures { FailsNot D.Disk.words self.old.spool.disk self.new.spool.disk }
        ensures fuse { calls_left_of D.Disk.words self.new.spool.disk ≡ Some calls }
    {
        self.spool.fuse(calls);
    }
}
