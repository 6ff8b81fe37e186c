//! A turn of the clients: their sessions hear what was read, all in one call, and the replies are written.
ghost use Rattle.std.specs.Global.{Global};
ghost use Rattle.std.specs.List.{zip};
ghost use Rattle.std.specs.Prelude.{◌≡◌, ◌≢◌, ◌<◌, ◌↔◌, ℕ, List, None, Ok, Some, Box, IfErr, IfOk, IfSome};
ghost use Rattle.std.specs.Prelude.{IsTrue, false, true};
ghost use Rattle.relay_book.specs.declared.change.Change.{Change};
ghost use Rattle.relay_slots.specs.Slots.{slot_at};
ghost use Rattle.relay_slots.specs.declared.slots.TheConstants.{SLOT_COUNT};
ghost use Rattle.relay_connections.specs.Carried.{Setting};
ghost use Rattle.relay_connections.specs.Hearing.{hears_at};
ghost use Rattle.relay_connections.specs.Hears.{AreToHear, HearsAll, HearsThemIf, IsToHear, LosesOne, MayHear};
ghost use Rattle.relay_connections.specs.Hears.{OneMayHear};
ghost use Rattle.relay_connections.specs.Leaving.{ClientsJoin, leavers_of};
ghost use Rattle.relay_connections.specs.Readiness.{clients_of};
ghost use Rattle.relay_connections.specs.Replies.{HearRepliesIf, LeavesMail};
ghost use Rattle.relay_connections.specs.Served.{ActsOn, AreServed, AreServedAfter, HasAnswered, HasNext};
ghost use Rattle.relay_connections.specs.Served.{HaveAnswered, HoldsAtMost, LeavesRest, Serves, WorksWith, address_of};
ghost use Rattle.relay_connections.specs.Sessions.{EndsCut, IsCutOffAfter};
ghost use Rattle.relay_loop.specs.declared.closing.Closing.{Closing};
ghost use Rattle.relay_connections.specs.Renewal.{AllWait};
ghost use Rattle.relay_connections.specs.Table.{count_of};
ghost use Rattle.relay_connections.specs.Welcome.{KeepsFull, KeepsRules, KeepsTurn};
ghost use Rattle.relay_connections.specs.declared.serving.TheConstants.{CROWD};

use crate::channel::End;
use crate::client::{Client, Intake, Next, was_full};
use crate::clients::Clients;
use crate::clocks::Now;
use crate::ending::{cut_off, drop_session};
use crate::hearing::{Answer, Hearing, Replied, client_at, hear_all};
use crate::leaving::Leaving;
use crate::stream::Stream;
use crate::table::{holds, turned};
use crate::turn::Turn;
use relay_disk::Disk;
use relay_log::{ClientEnd, Log};
use relay_loop::{Closing, Relay, ReplyPiece};
use relay_node::NodeFault;
use relay_slots::SLOT_COUNT;

/// The number of clients above which an idle one without accepted mail is cut off early.
const CROWD: usize = 48;

impl<S: Stream + Drop> Clients<S> {
    /// Serves each client once, beginning with another one each time. First reads a block from each client that has no
    /// unwritten octets. Then passes the octets to their sessions, all in one call. What follows a message in the same
    /// block is heard in a second call, because clients pipeline the commands of the next message (RFC 2920), and the
    /// replies to both go in one write. The replies of next hops are heard by their attempts in the first call, and
    /// their results are returned, unless memory ran out and nothing was heard. Fails only if the device has failed.
    pub fn serve<D: Disk>(
        &mut self,
        registry: &S::Registry,
        relay: &mut Relay<D>,
        replies: &[ReplyPiece<'_>],
        leaving: &mut Leaving<S>,
        now: &Now,
        log: &mut Log<'_, Vec<u8>>,
    ) -> Result<(Intake, Option<Replied>), NodeFault>
        ensures served { (changes : List Change) (setting : Setting)
            → AreServed D.honest D.words S.remaining S.contents changes setting (clients_of self.old) relay.old
            → IfOk result (λ _. AreServedAfter D.honest D.words S.remaining S.contents changes setting
            (clients_of self.new) relay.new
            × ClientsJoin S.remaining S.contents setting (leavers_of leaving.old) (leavers_of leaving.new)) }
        ensures heard { IfOk result (λ end. HearRepliesIf D.honest D.words replies.now now.now.moment relay.old
            relay.new end.1) }
        ensures hears { IfOk result (λ end. HearsThemIf D.honest D.words (clients_of self.old) (clients_of self.new)
            replies.now now.now.moment relay.old end.1) }
        ensures config { relay.new.node.config ≡ relay.old.node.config }
        ensures rules { KeepsRules self.old self.new }
        ensures crowd { IsTrue self.new.is_crowded ↔ CROWD < count_of (clients_of self.old) }
        ensures waits { IfOk result (λ _. AllWait now.now.tick self.old self.new) }
        ensures intake { IfOk result (λ end. end.0 ≡ self.new.intake) }
        ensures fault { IfErr result (λ fault. fault ≡ NodeFault.Stopped) }
    {
        let turn = Turn { registry, now };
        self.intake = Intake::none();
        self.is_crowded = CROWD < self.clients.count();
        let hears = self.read_each(turn, relay, leaving, log)?;
        if !hears && replies.is_empty() {
            self.first = turned(self.first, 1, SLOT_COUNT);
            return Ok((self.intake, None));
        }
        let (hears, replied) = self.hear(true, turn, relay, replies, leaving, log)?;
        if hears {
            let _none = self.hear(false, turn, relay, &[], leaving, log)?;
        }
        self.first = turned(self.first, 1, SLOT_COUNT);
        Ok((self.intake, replied))
    }

    /// Reads from each client without unwritten octets. Returns whether a session has octets to hear.
    fn read_each<D: Disk>(
        &mut self,
        turn: Turn<'_, S::Registry>,
        relay: &mut Relay<D>,
        leaving: &mut Leaving<S>,
        log: &mut Log<'_, Vec<u8>>,
    ) -> Result<bool, NodeFault>
        ensures served { (changes : List Change) (setting : Setting)
            → AreServed D.honest D.words S.remaining S.contents changes setting (clients_of self.old) relay.old
            → IfOk result (λ _. AreServed D.honest D.words S.remaining S.contents changes setting
            (clients_of self.new) relay.new
            × ClientsJoin S.remaining S.contents setting (leavers_of leaving.old) (leavers_of leaving.new)) }
        ensures hear { IfOk result (λ _. AreToHear relay.old (clients_of self.old) relay.new (clients_of self.new)) }
        ensures one { IfOk result (λ hears. OneMayHear relay.old (clients_of self.old) → hears ≡ true) }
        ensures none { IfOk result (λ _. (number : ℕ) → slot_at (clients_of self.old) number ≡ None
            → slot_at (clients_of self.new) number ≡ None) }
        ensures mail { LeavesMail relay.old relay.new }
        ensures turn { KeepsTurn self.old self.new }
        ensures waits { IfOk result (λ _. AllWait turn.entry.now.now.tick self.old self.new) }
        ensures fault { IfErr result (λ fault. fault ≡ NodeFault.Stopped) }
    {
        let mut hears = false;
        let first = turned(self.first, 0, SLOT_COUNT);
        let count = self.clients.standing().len();
        for step in 0..count {
            let number = turned(first, step, count);
            if holds(self.clients.standing(), number) {
                hears |= self.read_one(number, turn, relay, leaving, log)?;
            }
        }
        Ok(hears)
    }

    /// Passes octets to all sessions that may hear some, with the replies of next hops, and writes the sessions'
    /// replies, or holds them back if `holds` is set and a session has more to hear. Returns whether one has, and the
    /// results of the replies.
    fn hear<D: Disk>(
        &mut self,
        holds: bool,
        turn: Turn<'_, S::Registry>,
        relay: &mut Relay<D>,
        replies: &[ReplyPiece<'_>],
        leaving: &mut Leaving<S>,
        log: &mut Log<'_, Vec<u8>>,
    ) -> Result<(bool, Option<Replied>), NodeFault>
        ensures served { (changes : List Change) (setting : Setting)
            → AreServed D.honest D.words S.remaining S.contents changes setting (clients_of self.old) relay.old
            → IfOk result (λ _. AreServedAfter D.honest D.words S.remaining S.contents changes setting
            (clients_of self.new) relay.new
            × ClientsJoin S.remaining S.contents setting (leavers_of leaving.old) (leavers_of leaving.new)) }
        ensures heard { IfOk result (λ told. HearRepliesIf D.honest D.words replies.now turn.entry.now.now.moment
            relay.old relay.new told.1) }
        ensures all { IfOk result (λ told. IfSome told.1 (HearsAll D.honest D.words (clients_of self.old) replies.now
            turn.entry.now.now.moment relay.old)) }
        ensures closes { (number : ℕ) → hears_at (clients_of self.old) number ≡ true
            → IfOk result (λ told. told.1 ≡ None → LosesOne (clients_of self.old) (clients_of self.new)) }
        ensures nobody { IfOk result (λ told. told.1 ≡ None → told.0 ≡ false) }
        ensures config { relay.new.node.config ≡ relay.old.node.config }
        ensures turn { KeepsTurn self.old self.new }
        ensures waits { IfOk result (λ _. AllWait turn.entry.now.now.tick self.old self.new) }
        ensures full { KeepsFull self.old self.new }
        ensures fault { IfErr result (λ fault. fault ≡ NodeFault.Stopped) }
    {
        let clients = self.clients.standing();
        let first = turned(self.first, 0, SLOT_COUNT);
        let Some(
            Hearing {
                sessions,
                heard,
                replies,
            },
        ) = hear_all(self.alloc, clients, first, replies, relay, turn.now)?
        else {
            self.give_one_up(relay, turn.now, log)?;
            return Ok((false, None));
        };
        let hears = self.answer_each(sessions, heard, holds, turn, relay, leaving, log)?;
        Ok((hears, Some(replies)))
    }

    /// Takes the results of octets of these clients. Returns whether a session has more to hear.
    fn answer_each<D: Disk>(
        &mut self,
        sessions: Vec<usize>,
        heard: Vec<Answer>,
        holds: bool,
        turn: Turn<'_, S::Registry>,
        relay: &mut Relay<D>,
        leaving: &mut Leaving<S>,
        log: &mut Log<'_, Vec<u8>>,
    ) -> Result<bool, NodeFault>
        ensures served { (changes : List Change) (setting : Setting)
            → HaveAnswered D.honest D.words S.remaining S.contents changes setting (clients_of self.old) relay.old
            (zip sessions.items heard.items)
            → IfOk result (λ _. AreServed D.honest D.words S.remaining S.contents changes setting
            (clients_of self.new) relay.new
            × ClientsJoin S.remaining S.contents setting (leavers_of leaving.old) (leavers_of leaving.new)) }
        ensures mail { LeavesMail relay.old relay.new }
        ensures turn { KeepsTurn self.old self.new }
        ensures waits { IfOk result (λ _. AllWait turn.entry.now.now.tick self.old self.new) }
        ensures full { KeepsFull self.old self.new }
        ensures fault { IfErr result (λ fault. fault ≡ NodeFault.Stopped) }
    {
        let mut hears = false;
        for (session, heard) in sessions.into_iter().zip(heard) {
            hears |= self.answer_one(session, heard, holds, turn, relay, leaving, log)?;
        }
        Ok(hears)
    }

    /// Reads from the client of a number. Returns whether its session has octets to hear.
    fn read_one<D: Disk>(
        &mut self,
        number: usize,
        turn: Turn<'_, S::Registry>,
        relay: &mut Relay<D>,
        leaving: &mut Leaving<S>,
        log: &mut Log<'_, Vec<u8>>,
    ) -> Result<bool, NodeFault>
        ensures only { IfOk result (λ _. ActsOn number (clients_of self.old) (clients_of self.new)
            relay.old relay.new) }
        ensures serves { (changes : List Change) (setting : Setting) → WorksWith setting.setups relay.old
            → Serves S.remaining S.contents changes setting relay.old number (slot_at (clients_of self.old) number)
            → IfOk result (λ _. Serves S.remaining S.contents changes setting relay.new number
            (slot_at (clients_of self.new) number)
            × ClientsJoin S.remaining S.contents setting (leavers_of leaving.old) (leavers_of leaving.new)) }
        ensures hears { (client : Box (Client S) Global) → slot_at (clients_of self.old) number ≡ Some client
            → MayHear relay.old number client.value.channel
            → (result ≡ Ok true)
            × IsToHear number client.value.channel relay.old relay.new (clients_of self.new) }
        ensures none { slot_at (clients_of self.old) number ≡ None → slot_at (clients_of self.new) number ≡ None }
        ensures mail { LeavesMail relay.old relay.new }
        ensures turn { KeepsTurn self.old self.new }
        ensures waits { IfOk result (λ _. AllWait turn.entry.now.now.tick self.old self.new) }
        ensures fault { IfErr result (λ fault. fault ≡ NodeFault.Stopped) }
    {
        let Some(taken) = self.clients.take(number) else {
            return Ok(false);
        };
        let mut client = taken;
        let next = client.read(relay, number, self.timeout, turn.now)?;
        client.hears = next.is_none();
        let Some(next) = next else {
            self.clients.put(number, client);
            return Ok(true);
        };
        let end = read_end(&client);
        tell_end(&client, &next, end, end, turn.now, log);
        self.settle(number, client, next, turn, relay, leaving, log)?;
        Ok(false)
    }

    /// Takes the result of octets of the client of a number. Returns whether its session has more to hear.
    fn answer_one<D: Disk>(
        &mut self,
        number: usize,
        heard: Answer,
        holds: bool,
        turn: Turn<'_, S::Registry>,
        relay: &mut Relay<D>,
        leaving: &mut Leaving<S>,
        log: &mut Log<'_, Vec<u8>>,
    ) -> Result<bool, NodeFault>
        ensures only { IfOk result (λ _. ActsOn number (clients_of self.old) (clients_of self.new)
            relay.old relay.new) }
        ensures serves { (changes : List Change) (setting : Setting) → WorksWith setting.setups relay.old
            → HasAnswered S.remaining S.contents changes setting relay.old number
            (slot_at (clients_of self.old) number) heard
            → IfOk result (λ _. Serves S.remaining S.contents changes setting relay.new number
            (slot_at (clients_of self.new) number)
            × ClientsJoin S.remaining S.contents setting (leavers_of leaving.old) (leavers_of leaving.new)) }
        ensures mail { LeavesMail relay.old relay.new }
        ensures turn { KeepsTurn self.old self.new }
        ensures waits { IfOk result (λ _. AllWait turn.entry.now.now.tick self.old self.new) }
        ensures full { KeepsFull self.old self.new }
        ensures fault { IfErr result (λ fault. fault ≡ NodeFault.Stopped) }
    {
        let Some(taken) = self.clients.take(number) else {
            return Ok(false);
        };
        let mut client = taken;
        self.intake.was_full |= was_full(&heard, relay, number);
        let next = client.answer(relay, number, heard, holds, self.timeout, turn.now, log)?;
        let hears = client.has_more(relay, number);
        client.hears = hears;
        tell_end(
            &client,
            &next,
            ClientEnd::Quit,
            ClientEnd::NoMemory,
            turn.now,
            log,
        );
        self.settle(number, client, next, turn, relay, leaving, log)?;
        Ok(hears)
    }

    /// Closes the first client whose session has octets to hear, because memory ran out.
    fn give_one_up<D: Disk>(
        &mut self,
        relay: &mut Relay<D>,
        now: &Now,
        log: &mut Log<'_, Vec<u8>>,
    ) -> Result<(), NodeFault>
        ensures served { (changes : List Change) (setting : Setting)
            → AreServed D.honest D.words S.remaining S.contents changes setting (clients_of self.old) relay.old
            → IfOk result (λ _. AreServed D.honest D.words S.remaining S.contents changes setting
            (clients_of self.new) relay.new) }
        ensures closes { (number : ℕ) → hears_at (clients_of self.old) number ≡ true
            → IfOk result (λ _. LosesOne (clients_of self.old) (clients_of self.new)) }
        ensures mail { LeavesMail relay.old relay.new }
        ensures turn { KeepsTurn self.old self.new }
        ensures waits { IfOk result (λ _. AllWait now.now.tick self.old self.new) }
        ensures full { KeepsFull self.old self.new }
        ensures fault { IfErr result (λ fault. fault ≡ NodeFault.Stopped) }
    {
        let first = turned(self.first, 0, SLOT_COUNT);
        let count = self.clients.standing().len();
        for step in 0..count {
            let number = turned(first, step, count);
            match client_at(self.clients.standing(), number) {
                Some(client) if client.hears => {
                    log.client_ended(client.peer, &client.record, ClientEnd::NoMemory, now.tick);
                    let _client = self.clients.take(number);
                    let _gone = drop_session(relay, number)?;
                    self.intake.closed = true;
                    return Ok(());
                }
                _ => {}
            }
        }
        Ok(())
    }

    /// Puts a client back after a turn, into the table or among those that leave. Cuts a client off that is late.
    fn settle<D: Disk>(
        &mut self,
        number: usize,
        client: Box<Client<S>>,
        next: Next,
        turn: Turn<'_, S::Registry>,
        relay: &mut Relay<D>,
        leaving: &mut Leaving<S>,
        log: &mut Log<'_, Vec<u8>>,
    ) -> Result<(), NodeFault>
        ensures only { IfOk result (λ _. ActsOn number (clients_of self.old) (clients_of self.new)
            relay.old relay.new) }
        ensures serves { (changes : List Change) (setting : Setting) → WorksWith setting.setups relay.old
            → number < SLOT_COUNT → slot_at (clients_of self.old) number ≡ None
            → HasNext S.remaining S.contents changes setting relay.old number (address_of client.value)
            client.value.channel next
            → IfOk result (λ _. Serves S.remaining S.contents changes setting relay.new number
            (slot_at (clients_of self.new) number)
            × ClientsJoin S.remaining S.contents setting (leavers_of leaving.old) (leavers_of leaving.new)) }
        ensures mail { LeavesMail relay.old relay.new }
        ensures turn { KeepsTurn self.old self.new }
        ensures stands { IfOk result (λ _. slot_at (clients_of self.old) number ≡ None → number < SLOT_COUNT
            → HoldsAtMost client (slot_at (clients_of self.new) number)) }
        ensures full { self.new.intake.was_full ≡ self.old.intake.was_full }
        ensures fault { IfErr result (λ fault. fault ≡ NodeFault.Stopped) }
    {
        let next = self.cut_off_late(number, &client, next, relay, turn.now, log)?;
        match next {
            Next::Stays => self.clients.put(number, client),
            Next::Leaves(outbox) => {
                let channel = Box::into_inner(client).into_channel();
                leaving.take(turn.registry, channel, outbox, None, turn.now);
            },
            Next::Gone => self.intake.closed = true,
        }
        Ok(())
    }

    /// Cuts a client off that would stay, if there is a reason. Returns what happens to its connection.
    fn cut_off_late<D: Disk>(
        &self,
        number: usize,
        client: &Client<S>,
        next: Next,
        relay: &mut Relay<D>,
        now: &Now,
        log: &mut Log<'_, Vec<u8>>,
    ) -> Result<Next, NodeFault>
        ensures rest { IfOk result (λ _. LeavesRest number relay.old relay.new) }
        ensures next { (changes : List Change) (setting : Setting) → WorksWith setting.setups relay.old
            → HasNext S.remaining S.contents changes setting relay.old number (address_of client.now)
            client.now.channel next
            → IfOk result (HasNext S.remaining S.contents changes setting relay.new number (address_of client.now)
            client.now.channel) }
        ensures told { IfOk result (EndsCut self.now relay.old number client.now now.now.tick next) }
        ensures mail { LeavesMail relay.old relay.new }
        ensures fault { IfErr result (λ fault. fault ≡ NodeFault.Stopped) }
    {
        match next {
            Next::Stays => match self.reason_to_cut(number, client, relay, now) {
                Some(why) => self.cut(number, client, why, relay, now, log),
                None => Ok(Next::Stays),
            },
            next => Ok(next),
        }
    }

    /// Cuts a client off for this reason. Returns what happens to its connection.
    fn cut<D: Disk>(
        &self,
        number: usize,
        client: &Client<S>,
        why: Closing,
        relay: &mut Relay<D>,
        now: &Now,
        log: &mut Log<'_, Vec<u8>>,
    ) -> Result<Next, NodeFault>
        requires { why ≢ Closing.TooMany }
        ensures rest { IfOk result (λ _. LeavesRest number relay.old relay.new) }
        ensures next { (changes : List Change) (setting : Setting) → WorksWith setting.setups relay.old
            → HasNext S.remaining S.contents changes setting relay.old number (address_of client.now)
            client.now.channel Next.Stays
            → IfOk result (HasNext S.remaining S.contents changes setting relay.new number (address_of client.now)
            client.now.channel) }
        ensures told { IfOk result (IsCutOffAfter relay.old number client.now.channel why) }
        ensures mail { LeavesMail relay.old relay.new }
        ensures fault { IfErr result (λ fault. fault ≡ NodeFault.Stopped) }
    {
        log.client_ended(client.peer, &client.record, cut_end(why), now.tick);
        if client.channel.is_holding() {
            // The client takes nothing.
            drop_session(relay, number)
        } else {
            cut_off(self.alloc, relay, number, why)
        }
    }
}

/// Returns the end of a client that is cut off for this reason.
fn cut_end(why: Closing) -> ClientEnd {
    match why {
        Closing::Timeout => ClientEnd::Timeout,
        Closing::Stopping => ClientEnd::Stopping,
        Closing::TooMany => ClientEnd::Quit,
    }
}

/// Returns why the connection of a client has ended, unless something is left to be read.
fn read_end<S: Stream>(client: &Client<S>) -> ClientEnd {
    match client.channel.end() {
        Some(End::Broken) => ClientEnd::Reset,
        _ => ClientEnd::Closed,
    }
}

/// Logs the end of a client's connection, unless it stays: `leaves` is the reason if its last octets are still to be
/// written, else `gone`.
fn tell_end<S: Stream>(
    client: &Client<S>,
    next: &Next,
    leaves: ClientEnd,
    gone: ClientEnd,
    now: &Now,
    log: &mut Log<'_, Vec<u8>>,
) {
    match next {
        Next::Stays => {}
        Next::Leaves(_) => log.client_ended(client.peer, &client.record, leaves, now.tick),
        Next::Gone => log.client_ended(client.peer, &client.record, gone, now.tick),
    }
}
