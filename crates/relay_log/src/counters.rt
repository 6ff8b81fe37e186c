//! Counters for monitoring.
ghost use Rattle.std.specs.Prelude.{◌≡◌, ◌+◌, ◌-◌, ◌^◌, min};

/// How often each thing was done since a relay began. Each count saturates at 2^64 - 1.
#[derive(Clone, Copy, Debug, PartialEq, Eq)]
pub struct Counters {
    /// Client connections that were served.
    pub connections: u64,
    /// Client connections that were closed with a 421 reply because there was no room for them.
    pub turned_away: u64,
    /// Client connections that were closed because the client wrote or read nothing for too long.
    pub timeouts: u64,
    /// Messages that were accepted.
    pub accepted: u64,
    /// Commands and mail data that got a 4yz or 5yz reply.
    pub rejected: Rejections,
    /// Recipients that a next hop has taken responsibility for.
    pub sent: u64,
    /// Recipients that an attempt left in the queue, once for each attempt.
    pub deferred: u64,
    /// Recipients that a next hop has refused, that couldn't be sent to it, or that no route leads to.
    pub failed: u64,
    /// Recipients that were given up because their message was too old.
    pub expired: u64,
    /// Delivery status notifications that were queued.
    pub reports: u64,
    /// How often a next hop was put on hold for a while, because it couldn't be reached.
    pub holds: u64,
    /// How often the spool was compacted.
    pub compactions: u64,
    /// How often the spool's device failed.
    pub device_failures: u64,
}

/// Refusals to clients, by reply and cause.
#[derive(Clone, Copy, Debug, PartialEq, Eq)]
pub struct Rejections {
    /// 550: no route leads to the recipient.
    pub no_route: u64,
    /// 553: the recipient's address names a further route, as in `user%domain`.
    pub routed_address: u64,
    /// 452: the spool is full.
    pub spool_full: u64,
    /// 452: the message has too many recipients.
    pub too_many_recipients: u64,
    /// 552: the mail data is too large.
    pub too_large: u64,
    /// 554: the mail data has a bare CR or LF, or NUL, or too many `Received:` fields.
    pub bad_content: u64,
    /// 503 and 554: the command is out of sequence, or no recipient was accepted before it.
    pub bad_sequence: u64,
    /// 500, 501 and 555: the relay doesn't know the command, its argument or a parameter.
    pub syntax: u64,
    /// 502: the relay knows the command but doesn't implement it.
    pub not_offered: u64,
    /// 421: the relay closes the connection of a client in a session.
    pub closing: u64,
    /// 554: the client may not connect.
    pub no_service: u64,
}

impl Counters {
    /// Returns counters at 0.
    pub fn new() -> Self {
        Counters {
            connections: 0,
            turned_away: 0,
            timeouts: 0,
            accepted: 0,
            rejected: Rejections::new(),
            sent: 0,
            deferred: 0,
            failed: 0,
            expired: 0,
            reports: 0,
            holds: 0,
            compactions: 0,
            device_failures: 0,
        }
    }
}

impl Rejections {
    /// Returns counters at 0.
    pub fn new() -> Self {
        Rejections {
            no_route: 0,
            routed_address: 0,
            spool_full: 0,
            too_many_recipients: 0,
            too_large: 0,
            bad_content: 0,
            bad_sequence: 0,
            syntax: 0,
            not_offered: 0,
            closing: 0,
            no_service: 0,
        }
    }

    /// Counts a refusal.
    pub(crate) fn count(&mut self, rejection: Rejection) {
        let count = match rejection {
            Rejection::NoRoute => &mut self.no_route,
            Rejection::RoutedAddress => &mut self.routed_address,
            Rejection::SpoolFull => &mut self.spool_full,
            Rejection::TooManyRecipients => &mut self.too_many_recipients,
            Rejection::TooLarge => &mut self.too_large,
            Rejection::BadContent => &mut self.bad_content,
            Rejection::BadSequence => &mut self.bad_sequence,
            Rejection::Syntax => &mut self.syntax,
            Rejection::NotOffered => &mut self.not_offered,
            Rejection::Closing => &mut self.closing,
        };
        add(count, 1);
    }
}

/// Why a client was refused what it asked for.
#[derive(Clone, Copy, PartialEq, Eq)]
pub enum Rejection {
    /// No route leads to the recipient.
    NoRoute,
    /// The recipient's address names a further route, as in `user%domain`.
    RoutedAddress,
    /// The spool is full.
    SpoolFull,
    /// The message has too many recipients.
    TooManyRecipients,
    /// The mail data is too large.
    TooLarge,
    /// The mail data has a bare CR or LF, or NUL, or too many `Received:` fields.
    BadContent,
    /// The command is out of sequence, or no recipient was accepted before it.
    BadSequence,
    /// The relay doesn't know the command, its argument or a parameter.
    Syntax,
    /// The relay knows the command but doesn't implement it.
    NotOffered,
    /// The relay closes the connection.
    Closing,
}

impl Rejection {
    /// Returns why a reply of the relay refuses something, if it does, by its code and the text that distinguishes
    /// replies with the same code.
    pub fn of_reply(line: &[u8]) -> Option<Self> {
        let (code, text) = line.split_at(line.len().min(3));
        match code {
            b"550" => Some(Rejection::NoRoute),
            b"553" => Some(Rejection::RoutedAddress),
            b"452" if text.starts_with(b" spool") => Some(Rejection::SpoolFull),
            b"452" => Some(Rejection::TooManyRecipients),
            b"552" => Some(Rejection::TooLarge),
            b"554" if text.starts_with(b" no") => Some(Rejection::BadSequence),
            b"554" => Some(Rejection::BadContent),
            b"503" => Some(Rejection::BadSequence),
            b"500" | b"501" | b"555" => Some(Rejection::Syntax),
            b"502" => Some(Rejection::NotOffered),
            b"421" => Some(Rejection::Closing),
            _ => None,
        }
    }
}

/// Adds to a count, which saturates.
pub(crate) fn add(count: &mut u64, more: u64)
    ensures { count.new ≡ min (count.old + more) (2 ^ 64 - 1) }
{
    *count = count.saturating_add(more);
}
