//! The connection to a next hop, and what a turn does with it.
ghost use Rattle.std.specs.Prelude.{◌≡◌, ◌≢◌, ◌⊎◌, ℕ, [], IfOk, List, None, Ok, OnOk, Some, false, min, true};
ghost use Rattle.relay_loop.specs.Outboxes.{unwritten_at};
ghost use Rattle.relay_connections.specs.Channel.{unread_of};
ghost use Rattle.relay_connections.specs.Served.{LeavesClients};
ghost use Rattle.relay_book.specs.Queue.{message_of};
ghost use Rattle.relay_trace.specs.DateTime.{last_second};
ghost use Rattle.relay_next_hops.specs.Deliveries.{KeepsDelivery, StartsFor, closes, last_due, starting_moment};
ghost use Rattle.relay_next_hops.specs.Greeting.{BeginsOrIsVoid, IsTurnedAway};
ghost use Rattle.relay_next_hops.specs.Hearing.{IsLate, hearing_of};
ghost use Rattle.relay_next_hops.specs.Telling.{HasTold, HasToldAll};
ghost use Rattle.relay_next_hops.specs.Waiting.{BeginsToWait, IsInTime, WaitsToConnect};
ghost use Rattle.relay_log.specs.Talk.{HasHeard};

use crate::delivery::{Aim, Course, Delivery};
use crate::heard::Heard;
use crate::phase::Phase;
use relay_book::Place;
use relay_connections::{Channel, Now, Stream};
use relay_disk::Disk;
use relay_files::Fault;
use relay_log::{Loss, Talk};
use relay_loop::Relay;
use relay_node::NodeFault;
use relay_routes::HostName;
use relay_trace::Moment;
use std::alloc::Global;

/// How many seconds a next hop may take for its answer, however often it sends an octet.
pub(crate) const ANSWER_SECONDS: u64 = 30 * 60;

/// The connection to a next hop for a message. Its attempt begins when the greeting arrives.
pub(crate) struct Hop<S> {
    pub(crate) channel: Channel<S>,
    pub(crate) aim: Aim,
    pub(crate) message: u64,
    pub(crate) name: HostName,
    pub(crate) attempt: Option<usize>,
    /// Whether the next hop has sent anything.
    pub(crate) has_spoken: bool,
    /// The first octet of the greeting, if it was read: the class of the reply (RFC 5321, section 4.2.1).
    greeting: Option<u8>,
    /// Whether octets were read that its attempt may hear.
    pub(crate) hears: bool,
    /// The replies, for the log.
    pub(crate) talk: Talk,
    /// The last reply of this turn, for the page.
    pub(crate) heard: Heard,
    /// What it waits for.
    pub(crate) phase: Phase,
    /// The tick at which it is lost, unless an octet is read or written before.
    pub(crate) idle_deadline: u64,
    /// The tick at which it is lost, unless an octet is written before.
    pub(crate) answer_deadline: u64,
}

// Written out, so that the proof of a caller that drops it stops at this function.
impl<S: Drop> Drop for Hop<S> {
    fn drop(self) {
        let Hop {
            channel: _channel,
            aim: _,
            message: _,
            name: _name,
            attempt: _,
            has_spoken: _,
            greeting: _,
            hears: _,
            talk: _talk,
            heard: _heard,
            phase: _,
            idle_deadline: _,
            answer_deadline: _,
        } = self;
    }
}

impl<S: Stream> Hop<S> {
    /// Makes a connection that is being opened for a message. If `tells` is set, keeps the next hop's replies for the
    /// log.
    pub(crate) fn new(
        alloc: Global,
        channel: Channel<S>,
        aim: Aim,
        message: u64,
        name: HostName,
        tells: bool,
        now: &Now,
    ) -> Self
        ensures channel { result.channel ≡ channel }
        ensures aim { result.aim ≡ aim }
        ensures delivery { (result.message ≡ message) × (result.name ≡ name) }
        ensures none { (result.attempt ≡ None) × (result.hears ≡ false) }
        ensures silent { HasHeard result.talk [] }
        ensures waits { BeginsToWait now.now.tick Phase.Connecting result }
    {
        Hop {
            channel,
            aim,
            message,
            name,
            attempt: None,
            has_spoken: false,
            greeting: None,
            hears: false,
            talk: Talk::new(alloc, tells),
            heard: Heard::new(alloc),
            phase: Phase::Connecting,
            idle_deadline: now.after(Phase::Connecting.seconds(false)),
            answer_deadline: now.after(ANSWER_SECONDS),
        }
    }

    /// Splits it into its connection and its delivery.
    pub(crate) fn into_parts(self) -> (Channel<S>, Delivery)
        ensures aim { result.1.aim ≡ self.aim }
        ensures delivery { (result.1.message ≡ self.message) × (result.1.name ≡ self.name) }
        ensures attempt { result.1.attempt ≡ self.attempt }
        ensures talk { result.1.talk ≡ Some self.talk }
        ensures closed { result.1.is_closed ≡ closes self }
    {
        let is_closed = self.closes();
        let Hop {
            channel,
            aim,
            message,
            name,
            attempt,
            has_spoken,
            greeting,
            hears: _,
            talk,
            heard: _heard,
            phase: _,
            idle_deadline: _,
            answer_deadline: _,
        } = self;
        let delivery = Delivery {
            aim,
            message,
            name,
            attempt,
            has_spoken,
            is_welcome: greeting == Some(b'2'),
            is_closed,
            talk: Some(talk),
        };
        (channel, delivery)
    }

    /// Returns whether the next hop has ended a mail transaction by 421: whether that is its last reply, and nothing
    /// follows it.
    fn closes(&self) -> bool
        ensures { result ≡ closes self.now }
    {
        self.channel.piece().is_empty() && self.phase.is_in_transaction() && self.heard.is_closing()
    }

    /// Returns whether it is for this message and next hop, in this lane.
    pub(crate) fn is_for(&self, message: u64, lane: usize, name: &HostName) -> bool
        ensures its { result ≡ true → (self.now.message ≡ message) × (self.now.aim.lane ≡ lane)
            × (self.now.name ≡ name.now) }
        ensures other { result ≡ false → self.now.message ≡ message → self.now.aim.lane ≡ lane
            → self.now.name ≢ name.now }
    {
        self.message == message && self.aim.lane == lane && self.name.as_slice() == name.as_slice()
    }

    /// Returns the tick at which it is lost as things are.
    pub(crate) fn deadline(&self) -> u64
        ensures { result ≡ min self.now.idle_deadline self.now.answer_deadline }
    {
        self.idle_deadline.min(self.answer_deadline)
    }

    /// Does one thing more: makes the connection, awaits the greeting, writes what waits, or reads what its attempt may
    /// hear then. An attempt that begins has `most` recipients at most. The next hop is shared where other connections
    /// to it stand, or stood when this one was begun.
    pub(crate) fn attend<D: Disk>(
        &mut self,
        relay: &mut Relay<D>,
        most: usize,
        is_shared: bool,
        now: &Now,
    ) -> Result<Course, Fault>
        ensures delivery { KeepsDelivery self.old self.new }
        ensures keeps { self.old.attempt ≢ None → self.new.attempt ≡ self.old.attempt }
        ensures told { (used : List ℕ) → HasToldAll self.old used → HasToldAll self.new used }
        ensures starts { self.old.attempt ≡ None → self.new.attempt ≢ None
            → StartsFor self.old.aim.early now.now.moment most self.old.message self.old.name self.new.attempt
            relay.old relay.new }
        ensures idle { self.old.attempt ≡ None → self.new.attempt ≡ None → relay.new ≡ relay.old }
        ensures turned { result ≡ Ok Course.TurnedAway → IsTurnedAway is_shared self.new }
        ensures in_time { result ≡ Ok Course.Stays → self.new.hears ≡ false → IsInTime now.now.tick self.new }
        ensures leaves { OnOk result (LeavesClients D.honest D.words relay.old relay.new) }
    {
        self.hears = false;
        self.heard.last = None;
        let course = self.go_on(relay, most, is_shared, now)?;
        if self.hears {
            return Ok(course);
        }
        Ok(self.unless_late(course, now))
    }

    /// Connects, waits for the greeting, writes, or reads.
    fn go_on<D: Disk>(
        &mut self,
        relay: &mut Relay<D>,
        most: usize,
        is_shared: bool,
        now: &Now,
    ) -> Result<Course, Fault>
        ensures delivery { KeepsDelivery self.old self.new }
        ensures keeps { self.old.attempt ≢ None → self.new.attempt ≡ self.old.attempt }
        ensures told { (used : List ℕ) → HasToldAll self.old used → HasToldAll self.new used }
        ensures starts { self.old.attempt ≡ None → self.new.attempt ≢ None
            → StartsFor self.old.aim.early now.now.moment most self.old.message self.old.name self.new.attempt
            relay.old relay.new }
        ensures idle { self.old.attempt ≡ None → self.new.attempt ≡ None → relay.new ≡ relay.old }
        ensures turned { result ≡ Ok Course.TurnedAway → IsTurnedAway is_shared self.new }
        ensures leaves { OnOk result (LeavesClients D.honest D.words relay.old relay.new) }
    {
        match self.attempt {
            Some(attempt) => Ok(self.exchange(relay, attempt, now)),
            None if self.phase == Phase::Connecting => Ok(self.connect(now)),
            None => self.await_greeting(relay, most, is_shared, now),
        }
    }

    /// Returns the attempt that may hear what was read, if there is something.
    pub(crate) fn hearing(&self) -> Option<usize>
        ensures { result ≡ hearing_of self.now }
    {
        if self.hears { self.attempt } else { None }
    }

    /// Returns its course, which is a loss if it has taken too long.
    pub(crate) fn unless_late(&self, course: Course, now: &Now) -> Course
        ensures stays { course ≡ Course.Stays
            → (result ≡ Course.Stays) ⊎ ((result ≡ Course.Lost Loss.Silent) × IsLate now.now.tick self.now) }
        ensures other { course ≢ Course.Stays → result ≡ course }
        ensures in_time { result ≡ Course.Stays → IsInTime now.now.tick self.now }
        ensures turned { result ≡ Course.TurnedAway → course ≡ Course.TurnedAway }
    {
        match course {
            Course::Stays if self.deadline() <= now.tick => Course::Lost(Loss::Silent),
            course => course,
        }
    }

    /// Returns whether something can be done with it at once.
    pub(crate) fn is_ready<D: Disk>(&self, relay: &Relay<D>) -> bool
        ensures { (attempt : ℕ) → self.now.attempt ≡ Some attempt → unread_of self.now.channel ≢ []
            → unwritten_at relay.now.hops attempt ≡ [] → result ≡ true }
    {
        match self.attempt {
            Some(attempt) => self.channel.is_ready(!relay.to_hop(attempt).is_empty()),
            None if self.phase == Phase::Connecting => self.channel.may_write(),
            None => self.channel.is_ready(false),
        }
    }

    /// Waits for the greeting, once it is connected.
    fn connect(&mut self, now: &Now) -> Course
        ensures delivery { KeepsDelivery self.old self.new }
        ensures attempt { self.new.attempt ≡ self.old.attempt }
        ensures talk { self.new.talk ≡ self.old.talk }
        ensures waits { WaitsToConnect now.now.tick self.old self.new }
        ensures turned { result ≢ Course.TurnedAway }
    {
        if !self.channel.may_write() {
            return Course::Stays;
        }
        match self.channel.has_connected() {
            Ok(true) => {
                self.phase = Phase::Command;
                self.idle_deadline = now.after(self.phase.seconds(false));
                self.answer_deadline = now.after(ANSWER_SECONDS);
                Course::Stays
            }
            Ok(false) => {
                self.channel.awaits_writing();
                Course::Stays
            }
            Err(error) => Course::Lost(Loss::of_connecting(&error)),
        }
    }

    /// Begins the attempt when the greeting arrives. A shared next hop that greets with 4yz, as 421 for too many
    /// connections, doesn't delay the message.
    fn await_greeting<D: Disk>(
        &mut self,
        relay: &mut Relay<D>,
        most: usize,
        is_shared: bool,
        now: &Now,
    ) -> Result<Course, Fault>
        ensures delivery { KeepsDelivery self.old self.new }
        ensures starts { self.old.attempt ≡ None → self.new.attempt ≢ None
            → StartsFor self.old.aim.early now.now.moment most self.old.message self.old.name self.new.attempt
            relay.old relay.new }
        ensures told { self.old.attempt ≡ None → HasHeard self.old.talk [] → HasToldAll self.new [] }
        ensures idle { self.old.attempt ≡ None → self.new.attempt ≡ None → relay.new ≡ relay.old }
        ensures turned { result ≡ Ok Course.TurnedAway → IsTurnedAway is_shared self.new }
        ensures deferred { self.old.attempt ≡ None → IsTurnedAway is_shared self.new → self.new.attempt ≡ None }
        ensures leaves { OnOk result (LeavesClients D.honest D.words relay.old relay.new) }
    {
        if !self.channel.fill() {
            return Ok(match self.channel.end() {
                Some(_) => Course::Lost(Loss::Cut),
                None => Course::Stays,
            });
        }
        self.has_spoken = true;
        self.greeting = self.channel.piece().first().copied();
        self.heard.hear(self.channel.piece());
        if is_shared && self.greeting == Some(b'4') {
            return Ok(Course::TurnedAway);
        }
        self.begin(relay, most, now)
    }

    /// Begins the attempt, for the first recipients of the message that are due by the moment at which it begins,
    /// `most` of them at most. It may hear what was read.
    fn begin<D: Disk>(
        &mut self,
        relay: &mut Relay<D>,
        most: usize,
        now: &Now,
    ) -> Result<Course, Fault>
        ensures delivery { KeepsDelivery self.old self.new }
        ensures starts { self.old.attempt ≡ None → self.new.attempt ≢ None
            → StartsFor self.old.aim.early now.now.moment most self.old.message self.old.name self.new.attempt
            relay.old relay.new }
        ensures told { self.old.attempt ≡ None → HasHeard self.old.talk [] → HasToldAll self.new [] }
        ensures begins { self.old.attempt ≡ None → IfOk result (BeginsOrIsVoid self.old.aim.early now.now.moment most
            self.old.message self.old.name self.new.attempt relay.old relay.new) }
        ensures idle { self.old.attempt ≡ None → self.new.attempt ≡ None → relay.new ≡ relay.old }
        ensures turned { result ≢ Ok Course.TurnedAway }
        ensures channel { self.new.channel ≡ self.old.channel }
        ensures leaves { OnOk result (LeavesClients D.honest D.words relay.old relay.new) }
    {
        let at = self.start_moment(relay, now);
        match relay.start_some(self.message, &self.name, most, at) {
            Ok(started) => {
                self.attempt = Some(started.attempt);
                self.wait_on(relay, started.attempt, now);
                self.talk.note_message(relay.node().message(self.message));
                self.talk.hear(self.channel.piece());
                self.hears = true;
                Ok(Course::Stays)
            }
            Err(NodeFault::Stopped) => Err(Fault::Device),
            Err(_) => Ok(Course::Void),
        }
    }

    /// Returns the moment by which its attempt begins: now. If it was asked for early, that is the last moment at which
    /// a held place of its message is due, if that is later. Its outcome is recorded by the clock.
    fn start_moment<D: Disk>(&self, relay: &Relay<D>, now: &Now) -> Moment
        ensures { result ≡ starting_moment self.now.aim.early
            (message_of relay.now.node.records.queue.messages self.now.message) now.now.moment }
    {
        match relay.node().message(self.message) {
            Some(message) if self.aim.early => last_due(message.places.as_slice(), now.moment),
            _ => now.moment,
        }
    }
}

/// Returns the last moment at which one of these places is due that is held, or now if that is later.
fn last_due(places: &[Place], now: Moment) -> Moment
    ensures { result ≡ min (last_due places.now now) last_second }
{
    let mut last = now.seconds();
    for place in places {
        if place.held {
            last = last.max(place.due);
        }
    }
    Moment::nearest(last)
}
