//! One event of a run.
ghost use Rattle.relay_events.specs.Happened.{HasHappened, HasHappenedFor};
ghost use Rattle.relay_events.specs.Relays.{AreInOrder, world_of};
ghost use Rattle.relay_events.specs.Step.{Steps};
ghost use Rattle.relay_events.specs.declared.event.Event.TheVariants.{Tick};

use crate::event::Event;
use crate::fault::PairFault;
use crate::relays::Relays;
use crate::seen::Seen;
use relay_disk::Reboot;
use relay_trace::Moment;
use relay_world::passing::runs_keep_all;

impl<D: Reboot + Drop> Relays<D> {
    /// Does one event. Fails with the event's first fault, or, before a node is called, if memory runs out; nothing
    /// changes then. A node that refuses its part, for lack of memory, room or change numbers, loses the session or the
    /// attempt, and the link breaks. If memory for a node's answer runs out, the node has still heard or read its
    /// octets; if memory for a new attempt runs out, the link to its hop was still opened; that link breaks too.
    pub fn step(&mut self, event: &Event) -> Result<Seen, PairFault>
        requires honest { D.Disk.honest }
        requires order { AreInOrder D.Disk.honest D.Disk.words self.old }
        ensures steps { Steps D.Disk.honest D.Disk.words (world_of self.old) event.now (world_of self.new) result }
        ensures happened { HasHappenedFor D.Disk.honest D.Disk.words event.now (world_of self.old)
            (world_of self.new) }
        ensures order { AreInOrder D.Disk.honest D.Disk.words self.new }
    {
        match event {
            Event::Connect(node) => self.connect(*node),
            Event::Carry { link, node, count } => self.carry(*link, *node, *count),
            Event::Tick(now) => self.tick(*now),
            Event::Give(node) => self.give(*node),
            Event::Compact(node) => self.compact(*node),
            Event::Withdraw {
                node,
                message,
                place,
                withdrawal,
            } => self.withdraw(*node, *message, *place, *withdrawal),
            Event::Break(link) => self.break_link(*link),
            Event::Send(link, octets) => self.send(*link, octets.as_slice()),
            Event::Stop { node, calls, pick } => self.stop(*node, *calls, *pick),
        }
    }

    /// Sets the clock.
    fn tick(&mut self, now: Moment) -> Result<Seen, PairFault>
        requires honest { D.Disk.honest }
        requires order { AreInOrder D.Disk.honest D.Disk.words self.old }
        ensures steps { Steps D.Disk.honest D.Disk.words (world_of self.old) (Tick now) (world_of self.new) result }
        ensures happened { HasHappened D.Disk.honest D.Disk.words (world_of self.old) (world_of self.new) }
        ensures order { AreInOrder D.Disk.honest D.Disk.words self.new }
    {
        runs_keep_all::<D>();
        self.clock = now;
        Ok(Seen::Set(now))
    }
}
