//! What the connections to next hops are made for, and what becomes of them.
ghost use Rattle.std.specs.Prelude.{◌≡◌, ◌-◌, false, option_map};

use relay_connections::Now;
use relay_lanes::Task;
use relay_log::{Loss, Talk};
use relay_loop::Outbox;
use relay_node::Noted;
use relay_routes::HostName;
use relay_trace::Moment;
use std::net::SocketAddrV4;

/// Where a connection leads, and the age of its message.
#[derive(Clone, Copy)]
pub(crate) struct Aim {
    /// The number of the lane.
    pub(crate) lane: usize,
    /// The address of the lane.
    pub(crate) at: SocketAddrV4,
    /// Whether there were other connections to the address when it was begun.
    pub(crate) beside: bool,
    /// When the message was accepted, if that is known.
    pub(crate) accepted: Option<Moment>,
    /// Whether it was asked for early: its attempt begins even if the message isn't due there yet.
    pub(crate) early: bool,
}

impl Aim {
    /// Returns how many seconds ago the message was accepted, where that is known.
    pub(crate) fn age(&self, now: &Now) -> Option<u64>
        ensures { result ≡ option_map (λ accepted. now.now.moment - accepted) self.now.accepted }
    {
        age_since(self.accepted, now)
    }
}

/// Returns how many seconds ago a message was accepted, where it is known when that was.
pub(crate) fn age_since(accepted: Option<Moment>, now: &Now) -> Option<u64>
    ensures { result ≡ option_map (λ accepted. now.now.moment - accepted) accepted }
{
    match accepted {
        Some(moment) => Some(now.moment.seconds().saturating_sub(moment.seconds())),
        None => None,
    }
}

/// What a connection was made for, and how far it has come.
pub(crate) struct Delivery {
    pub(crate) aim: Aim,
    pub(crate) message: u64,
    pub(crate) name: HostName,
    /// The attempt's number, if the attempt has begun.
    pub(crate) attempt: Option<usize>,
    /// Whether the next hop has sent anything.
    pub(crate) has_spoken: bool,
    /// Whether the next hop has greeted with a 2yz reply.
    pub(crate) is_welcome: bool,
    /// Whether the next hop has ended its mail transaction by 421 (RFC 5321, section 3.8).
    pub(crate) is_closed: bool,
    /// What the next hop has replied, for the log, where a connection to it was begun.
    pub(crate) talk: Option<Talk>,
}

// Written out, so that the proof of a caller that drops it stops at this function.
impl Drop for Delivery {
    fn drop(self) {
        let Delivery {
            aim: _,
            message: _,
            name: _name,
            attempt: _,
            has_spoken: _,
            is_welcome: _,
            is_closed: _,
            talk: _talk,
        } = self;
    }
}

impl Delivery {
    /// Returns the task that it was made for.
    pub(crate) fn into_task(self) -> Task
        ensures { (result.message ≡ self.message) × (result.hop ≡ self.name) × (result.early ≡ self.aim.early) }
    {
        let Delivery {
            aim,
            message,
            name,
            attempt: _,
            has_spoken: _,
            is_welcome: _,
            is_closed: _,
            talk: _talk,
        } = self;
        Task {
            message,
            hop: name,
            early: aim.early,
        }
    }

    /// Returns a task for what its attempt has left of the message. It isn't asked for early, since what the attempt
    /// has just deferred isn't tried again at once.
    pub(crate) fn into_rest(self) -> Task
        ensures { (result.message ≡ self.message) × (result.hop ≡ self.name) × (result.early ≡ false) }
    {
        let mut task = self.into_task();
        task.early = false;
        task
    }
}

/// What happens to a connection to a next hop after a turn.
#[derive(Drop)]
pub(crate) enum Course {
    /// It stays open.
    Stays,
    /// Its attempt has ended, and these are its last octets, with the note of its outcome.
    Ended(Outbox, Option<Noted>),
    /// It is lost, for this reason.
    Lost(Loss),
    /// The next hop serves other connections, and accepts no more of them. The attempt hasn't begun.
    TurnedAway,
    /// The message isn't due there any more, or there is too little memory or no number for its outcome.
    Void,
}
