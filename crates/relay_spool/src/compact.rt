// Compaction: one body in place of all.
ghost use Rattle.std.specs.Prelude.{◌≡◌, ◌≢◌, ◌↔◌, ◌+◌, ◌≤◌, None, Err, length, vec_capacity, IfErr, OnOk, IsTrue};

use crate::link::BODY_OVERHEAD;
use crate::renewal::{renew, renewal_of};
use crate::spool::EMPTY_SIZE;
use crate::taken::{HeadGate, Taken};
use crate::{Spool, SpoolFault};
use relay_disk::Disk;

impl<D: Disk> Spool<D> {
    ghost use Rattle.relay_spool.specs.declared.fault.SpoolFault.TheVariants.{Full, NoMemory, NoSecond};
    ghost use Rattle.relay_spool.specs.Head.{renewal_calls};
    ghost use Rattle.relay_spool.specs.Pair.{HasBodies, IsTooMuch};
    ghost use Rattle.relay_spool.specs.Spool.{AtEachMoment, IsBeforeOrOne, IsCompacted, Makes, RefusesToCompact};

    /// Puts this one body in place of all. The spool is compacted on the disk that isn't taken, by five calls of the
    /// device, or by seven where its head is open: after `Ok` every stop leaves the one body. At `Device` the spool is
    /// spent, and a stop leaves the list as it was or the one body; at `NoMemory`, `NoSecond` and `Full` nothing has
    /// changed. `NoSecond` is searched for before `Full`. A body that isn't too long for one makes no spool of more
    /// than 2^40 octets. It is written out of the body's own memory, and asks for none if that has room for
    /// `RENEWAL_OVERHEAD` octets more.
    pub fn compact(&mut self, body: Vec<u8>) -> Result<(), SpoolFault>
        requires { IsTrue self.old.live }
        ensures compacted { OnOk result (IsCompacted D.honest D.words self.old body.items self.new) }
        ensures stop { D.honest → AtEachMoment D.words self.old.disk self.new.disk
            (HasBodies (IsBeforeOrOne self.old.bodies body.items)) }
        ensures refused { IfErr result (RefusesToCompact D.words self.old self.new) }
        ensures no_second { (result ≡ Err NoSecond) ↔ (self.old.taken.other ≡ None) }
        ensures full { (result ≡ Err Full)
            ↔ ((self.old.taken.other ≢ None) × IsTooMuch self.old.taken (length body.items)) }
        ensures room { length body.items + 14 ≤ vec_capacity body → result ≢ Err NoMemory }
        ensures calls { Makes D.words (renewal_calls self.old.taken.other) self.old.disk self.new.disk result }
    {
        let size = body.len();
        let gate = self.taken.gate_for(size)?;
        let generation = self.taken.generation + 1;
        let octets = renewal_of(generation, body)?;
        self.live = false;
        renew(&mut self.disk, self.taken, gate, &octets)?;
        self.taken = Taken {
            side: self.taken.side.turned(),
            generation,
            other: Some(HeadGate::Open),
        };
        self.size = EMPTY_SIZE + BODY_OVERHEAD + size;
        self.live = true;
        Ok(())
    }
}
