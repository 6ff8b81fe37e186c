use crate::client::Client;
use relay_envelope::Envelope;

/// A message that the session offers, with its whole mail data. Whoever answers that it is queued is responsible for
/// it.
#[derive(Clone, Copy)]
pub struct Offer<'a> {
    /// The client that offers it.
    pub client: &'a Client,
    /// The values of MAIL and of the accepted RCPTs: 1 to 100 recipients.
    pub envelope: &'a Envelope,
    /// The mail data as it came, without transparency.
    pub content: &'a [u8],
}

/// The answer to an offer.
#[derive(Clone, Copy, Drop, PartialEq, Eq)]
pub enum Answer {
    /// The message is queued, under this number.
    Queued(u64),
    /// There was no room for the message: it isn't queued.
    Full,
}
