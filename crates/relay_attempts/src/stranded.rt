//! The messages with a held place that has no hop.
ghost use Rattle.std.specs.Prelude.{◌≡◌, ℕ, List, ◌<◌, ◌≤◌, ◌++◌, ◌∷◌, [], if◌then◌else◌, OnOk, vec_capacity, vec_len};
ghost use Rattle.relay_attempts.specs.Attempts.{Serves};
ghost use Rattle.relay_attempts.specs.Hops.{is_stranded_at, without};
ghost use Rattle.relay_book.specs.Book.{Rise};
ghost use Rattle.relay_book.specs.Queue.{Queue, step};
ghost use Rattle.relay_book.specs.declared.change.Accept.{Accept};
ghost use Rattle.relay_book.specs.declared.change.Change.TheVariants as Change;

use crate::attempts::Attempts;
use crate::hops::has_stranded;
use relay_book::{Message, Question};
use relay_disk::Disk;
use relay_records::Records;
use relay_routes::Table;
use std::alloc::AllocError;

impl Attempts {
    /// Makes room to note one message more. Nothing else changes.
    pub fn reserve(&mut self) -> Result<(), AllocError>
        ensures room { OnOk result (0 < self.new.room) }
        ensures rest { (self.new.runs ≡ self.old.runs) × (self.new.stranded ≡ self.old.stranded) }
    {
        self.stranded.reserve(1)
    }

    /// Notes the message that was accepted under this number, the last change of these records. Allocates nothing.
    pub fn accepted<D: Disk>(&mut self, table: &Table, records: &Records<D>, number: u64)
        requires { 0 < self.old.room }
        ensures serves { (host : List ℕ) (queue : Queue) (accept : Accept) → Rise 0 queue.next queue.messages
            → number ≡ queue.next → records.now.queue ≡ step queue (Change.Accept accept)
            → Serves host table.now self.old queue → Serves host table.now self.new records.now.queue }
        ensures runs { self.new.runs ≡ self.old.runs }
    {
        self.note(table, records, number);
    }

    /// Notes the message that was added under this number, where a held place of it has no hop. Allocates nothing.
    pub(crate) fn note<D: Disk>(&mut self, table: &Table, records: &Records<D>, number: u64)
        requires { 0 < self.old.room }
        ensures stranded { self.new.stranded ≡ self.old.stranded
            ++ (if is_stranded_at table.now records.now.queue.messages number then number ∷ [] else []) }
        ensures runs { self.new.runs ≡ self.old.runs }
    {
        if is_stranded_at(table, records, number) {
            if let Ok(()) = self.stranded.push(number) {}
        }
    }

    /// Forgets the message of this number, if none of its held places is without a hop. Allocates nothing.
    pub(crate) fn forget<D: Disk>(&mut self, table: &Table, records: &Records<D>, number: u64)
        ensures stranded { self.new.stranded
            ≡ (if is_stranded_at table.now records.now.queue.messages number then self.old.stranded
            else without number self.old.stranded) }
        ensures runs { self.new.runs ≡ self.old.runs }
        ensures room { self.old.room ≤ self.new.room }
    {
        if !is_stranded_at(table, records, number) {
            remove(&mut self.stranded, number);
        }
    }
}

/// Asks whether a held place of a message has no hop under this table.
#[derive(Drop)]
pub(crate) struct Stranded<'a> {
    pub(crate) table: &'a Table,
}

impl Question for Stranded<'_> {
    ghost use Rattle.relay_attempts.specs.Hops.{is_any, stranded_places};

    ghost holds = { λ stranded message. is_any (stranded_places stranded.table.now message) };

    fn holds(&self, message: &Message) -> bool {
        has_stranded(self.table, message)
    }
}

/// Returns whether a held place of the message of this number has no hop.
fn is_stranded_at<D: Disk>(table: &Table, records: &Records<D>, number: u64) -> bool
    ensures { result ≡ is_stranded_at table.now records.now.queue.messages number }
{
    match records.message(number) {
        Some(message) => has_stranded(table, message),
        None => false,
    }
}

/// Removes a number.
fn remove(numbers: &mut Vec<u64>, number: u64)
    ensures items { numbers.new.items ≡ without number numbers.old.items }
    ensures capacity { vec_capacity numbers.new ≡ vec_capacity numbers.old }
    ensures len { vec_len numbers.new ≤ vec_len numbers.old }
{
    numbers.retain(|other| *other != number);
}
