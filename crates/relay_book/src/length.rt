//! How many octets a message takes in a snapshot of the second version. 2^64 - 1 octets stand for as many and more.
ghost use Rattle.std.specs.Prelude.{◌≡◌, ◌+◌, ◌-◌, ◌^◌, length, min};
ghost use Rattle.relay_book.specs.Record.{written};
ghost use Rattle.relay_book.specs.SnapshotFields.{entry_length, row_length};

use crate::message::Message;
use relay_envelope::Recipient;

/// The octets of a message besides its texts and its recipients: its number, its time, RET, how many recipients, and
/// the lengths of three texts.
pub(crate) const ENTRY_HEAD: usize = 26;

/// The octets of a recipient and its place besides its texts.
const PLACED_HEAD: usize = 16;

/// Returns the octets that a message takes.
pub(crate) fn entry_length(message: &Message) -> usize
    ensures { result ≡ min (entry_length message.now) (2 ^ 64 - 1) }
{
    let envelope = &message.accept.envelope;
    let envid = match &envelope.envid {
        Some(envid) => envid.as_slice().len(),
        None => 0,
    };
    ENTRY_HEAD
        .saturating_add(envelope.reverse_path.as_slice().len())
        .saturating_add(envid)
        .saturating_add(row_length(envelope.recipients.as_slice()))
        .saturating_add(message.accept.stored_text.len())
}

/// Returns the octets that recipients take, each with its place.
fn row_length(recipients: &[Recipient]) -> usize
    ensures { result ≡ min (row_length recipients.now) (2 ^ 64 - 1) }
{
    match recipients {
        [] => 0,
        [recipient, others @ ..] => { placed_length(recipient).saturating_add(row_length(others)) }
    }
}

/// Returns the octets that a recipient takes with its place.
fn placed_length(recipient: &Recipient) -> usize
    ensures { result
        ≡ min (16 + length recipient.now.path + length (written recipient.now.orcpt)) (2 ^ 64 - 1) }
{
    let orcpt = match &recipient.orcpt {
        Some(orcpt) => orcpt.as_slice().len(),
        None => 0,
    };
    PLACED_HEAD
        .saturating_add(recipient.path.as_slice().len())
        .saturating_add(orcpt)
}
