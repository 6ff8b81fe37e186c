use crate::calls::first_moment;
use relay_book::{Accept, Change};
use relay_envelope::{Envelope, Recipient, read_mail, read_rcpt};
use relay_octets::Octets;
use relay_trace::Moment;
use std::alloc::Global;
use std::test::Fail;

/// When a message of a book comes, and what becomes of it.
pub const AT: u64 = 1_000;

/// Returns a message for this many recipients, of which a report returns the whole text.
pub fn envelope_of(alloc: Global, count: u8) -> Result<Envelope, Fail> {
    let mut envelope = Envelope::new(alloc, read_mail(b"<a@example.org> RET=FULL")?)?;
    for _ in 0..count {
        let recipient = Recipient::new(alloc, read_rcpt(b"<b@example.org>")?)?;
        envelope.recipients.push(recipient)?;
    }
    Ok(envelope)
}

/// A message for one recipient comes, with this text.
pub fn accept_of(alloc: Global, text: &[u8]) -> Result<Change, Fail> {
    Ok(Change::Accept(Accept {
        at: moment(AT),
        envelope: envelope_of(alloc, 1)?,
        stored_text: Octets::from_slice(alloc, text)?,
    }))
}

/// Returns the time of this many seconds, the first if there is none.
pub fn moment(seconds: u64) -> Moment {
    Moment::new(seconds).unwrap_or(first_moment())
}
