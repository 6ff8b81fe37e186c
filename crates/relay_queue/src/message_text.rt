//! One message in full.
ghost use Rattle.std.specs.Prelude.{◌≡◌, ℕ, List, ◌++◌, IfOk, OnOk, Some, slice_get};
ghost use Rattle.std.specs.Option.{option_copied};
ghost use Rattle.relay_queue.specs.Message.{AddsRecipients, IsMessageText, accepted_line, envelope_lines, field_line};
ghost use Rattle.relay_queue.specs.Message.{given_text, mail_lines, next_hop_text, notify_text, number_line};
ghost use Rattle.relay_queue.specs.Message.{outcome_names, queued_text, rcpt_lines, recipient_lines, ret_text};
ghost use Rattle.relay_queue.specs.Message.{size_line, state_line, state_text, with_commas};

use crate::columns::push_left;
use crate::screen::Screen;
use crate::table::push_tries_in_words;
use crate::zone::Zone;
use relay_book::{Message, Place};
use relay_envelope::{Envelope, Notify, Outcomes, Recipient, Ret};
use relay_routes::{Hop, Table};
use relay_trace::Moment;
use std::alloc::{AllocError, Global};

/// The column, from 0, at which the values of fields begin.
const NAME_WIDTH: usize = 16;

/// The text for a parameter that wasn't given.
const NOT_GIVEN: &[u8] = b"-";

/// Returns the envelope of a message and the state of each of its recipients, then an empty line and the message's
/// text.
pub(crate) fn message_text(
    alloc: Global,
    message: &Message,
    table: &Table,
    zone: &Zone,
    now: Moment,
) -> Result<Screen, AllocError>
    ensures { IfOk result (IsMessageText now table.now message.now) }
{
    let mut screen = Screen::new(alloc);
    push_envelope(&mut screen, message, zone, now)?;
    push_recipients(alloc, &mut screen, message, table, zone)?;
    screen.end_line()?;
    let text = message.accept.stored_text.as_slice();
    screen.push_text(text)?;
    Ok(screen)
}

/// Adds the fields of the message itself.
fn push_envelope(
    screen: &mut Screen,
    message: &Message,
    zone: &Zone,
    now: Moment,
) -> Result<(), AllocError>
    ensures { OnOk result ((time : List ℕ) × (screen.new ≡ screen.old ++ envelope_lines now time message.now)) }
{
    push_number_line(screen, message.number)?;
    let time = zone.time(message.accept.at.seconds());
    push_accepted(screen, message.accept.at, now, &time)?;
    push_size_line(screen, message.accept.stored_text.len() as u64)?;
    push_mail(screen, &message.accept.envelope)
}

/// Adds the number of a message.
fn push_number_line(screen: &mut Screen, number: u64) -> Result<(), AllocError>
    ensures { OnOk result (screen.new ≡ screen.old ++ number_line number) }
{
    push_left(screen, b"message", NAME_WIDTH)?;
    screen.push_number(number)?;
    screen.end_line()
}

/// Adds when a message was accepted, as this text shows that time, and how long ago.
fn push_accepted(
    screen: &mut Screen,
    accepted: Moment,
    now: Moment,
    time: &[u8],
) -> Result<(), AllocError>
    ensures { OnOk result (screen.new ≡ screen.old ++ accepted_line now time.now accepted) }
{
    push_left(screen, b"accepted", NAME_WIDTH)?;
    screen.push(time)?;
    screen.push(b", ")?;
    screen.push_span(now.seconds().saturating_sub(accepted.seconds()))?;
    screen.push(b" ago")?;
    screen.end_line()
}

/// Adds the size of a message, in octets.
fn push_size_line(screen: &mut Screen, size: u64) -> Result<(), AllocError>
    ensures { OnOk result (screen.new ≡ screen.old ++ size_line size) }
{
    push_left(screen, b"size", NAME_WIDTH)?;
    screen.push_size(size)?;
    screen.end_line()
}

/// Adds the reverse path of a message and the parameters of its MAIL.
fn push_mail(screen: &mut Screen, envelope: &Envelope) -> Result<(), AllocError>
    ensures { OnOk result (screen.new ≡ screen.old ++ mail_lines envelope.now) }
{
    push_field(screen, b"reverse path", envelope.reverse_path.as_slice())?;
    push_field(screen, b"RET", ret_text(envelope.ret))?;
    push_field(screen, b"ENVID", envid_of(envelope))
}

fn envid_of(envelope: &Envelope) -> &[u8]
    ensures { result.now ≡ given_text envelope.now.envid }
{
    match &envelope.envid {
        Some(envid) => envid.as_slice(),
        None => NOT_GIVEN,
    }
}

fn ret_text(ret: Option<Ret>) -> &'static [u8]
    ensures { result.now ≡ ret_text ret }
{
    match ret {
        Some(Ret::Full) => b"FULL",
        Some(Ret::Hdrs) => b"HDRS",
        None => NOT_GIVEN,
    }
}

/// Adds the lines of all recipients.
fn push_recipients(
    alloc: Global,
    screen: &mut Screen,
    message: &Message,
    table: &Table,
    zone: &Zone,
) -> Result<(), AllocError>
    ensures { OnOk result (AddsRecipients table.now message.now screen.old screen.new) }
{
    for (index, recipient) in message
        .accept
        .envelope
        .recipients
        .as_slice()
        .iter()
        .enumerate()
    {
        let place = place_at(message, index);
        push_entry(alloc, screen, recipient, place, table, zone)?;
    }
    Ok(())
}

/// Returns a place of a message, if it has one of this number, from 0.
fn place_at(message: &Message, index: usize) -> Option<Place>
    ensures { result ≡ slice_get message.now.places index }
{
    message.places.as_slice().get(index).copied()
}

/// Adds the lines of the recipient at a place.
fn push_entry(
    alloc: Global,
    screen: &mut Screen,
    recipient: &Recipient,
    place: Option<Place>,
    table: &Table,
    zone: &Zone,
) -> Result<(), AllocError>
    ensures { OnOk result ((time : List ℕ)
        × (screen.new ≡ screen.old ++ recipient_lines table.now place (recipient.now, time))) }
{
    push_recipient(screen, recipient)?;
    push_state(alloc, screen, place, table.hop_at(&recipient.path), zone)
}

/// Adds the path and the parameters of a recipient.
fn push_recipient(screen: &mut Screen, recipient: &Recipient) -> Result<(), AllocError>
    ensures { OnOk result (screen.new ≡ screen.old ++ rcpt_lines recipient.now) }
{
    push_field(screen, b"recipient", recipient.path.as_slice())?;
    push_field(screen, b"  NOTIFY", notify_text(recipient.notify))?;
    push_field(screen, b"  ORCPT", orcpt_of(recipient))
}

fn orcpt_of(recipient: &Recipient) -> &[u8]
    ensures { result.now ≡ given_text recipient.now.orcpt }
{
    match &recipient.orcpt {
        Some(orcpt) => orcpt.as_slice(),
        None => NOT_GIVEN,
    }
}

fn notify_text(notify: Option<Notify>) -> &'static [u8]
    ensures { result.now ≡ notify_text notify }
{
    match notify {
        Some(Notify::Never) => b"NEVER",
        Some(Notify::On(outcomes)) => outcomes_text(outcomes),
        None => NOT_GIVEN,
    }
}

/// Returns the outcomes that are to be reported (RFC 3461, section 4.1), at least one.
fn outcomes_text(outcomes: Outcomes) -> &'static [u8]
    ensures { result.now ≡ with_commas (outcome_names outcomes) }
{
    match (outcomes.success, outcomes.failure, outcomes.delay) {
        (true, true, true) => b"SUCCESS,FAILURE,DELAY",
        (true, true, false) => b"SUCCESS,FAILURE",
        (true, false, true) => b"SUCCESS,DELAY",
        (true, false, false) => b"SUCCESS",
        (false, true, true) => b"FAILURE,DELAY",
        (false, true, false) => b"FAILURE",
        (false, false, true) => b"DELAY",
        (false, false, false) => NOT_GIVEN,
    }
}

/// Adds whether the recipient at a place is queued, with its next hop and when it is due.
fn push_state(
    alloc: Global,
    screen: &mut Screen,
    place: Option<Place>,
    hop: Option<&Hop>,
    zone: &Zone,
) -> Result<(), AllocError>
    ensures { OnOk result ((time : List ℕ)
        × (screen.new ≡ screen.old ++ state_line time (option_copied hop.entry) place)) }
{
    push_left(screen, b"  state", NAME_WIDTH)?;
    push_state_text(alloc, screen, place, hop, zone)?;
    screen.end_line()
}

/// Adds the same without the field's name.
fn push_state_text(
    alloc: Global,
    screen: &mut Screen,
    place: Option<Place>,
    hop: Option<&Hop>,
    zone: &Zone,
) -> Result<(), AllocError>
    ensures { OnOk result ((time : List ℕ)
        × (screen.new ≡ screen.old ++ state_text time (option_copied hop.entry) place)) }
{
    match place {
        Some(place) => {
            if place.held {
                let time = zone.time(place.due);
                return push_queued(alloc, screen, place, hop, &time);
            }
            screen.push(b"relayed, refused or expired")
        }
        None => screen.push(b"relayed, refused or expired"),
    }
}

/// Adds the next hop of a recipient, how often it was deferred, and when it is due, as this text shows that time.
fn push_queued(
    alloc: Global,
    screen: &mut Screen,
    place: Place,
    hop: Option<&Hop>,
    time: &[u8],
) -> Result<(), AllocError>
    ensures { OnOk result (screen.new ≡ screen.old ++ queued_text time.now (option_copied hop.entry) place) }
{
    screen.push(b"queued for ")?;
    push_hop(alloc, screen, hop)?;
    screen.push(b"; ")?;
    push_tries_in_words(screen, place.laters)?;
    screen.push(b", next ")?;
    screen.push(time)
}

/// Adds the name and the address of a next hop.
fn push_hop(alloc: Global, screen: &mut Screen, hop: Option<&Hop>) -> Result<(), AllocError>
    ensures { OnOk result (screen.new ≡ screen.old ++ next_hop_text (option_copied hop.entry)) }
{
    match hop {
        Some(hop) => push_name_and_address(alloc, screen, hop),
        None => screen.push(b"no next hop"),
    }
}

fn push_name_and_address(alloc: Global, screen: &mut Screen, hop: &Hop) -> Result<(), AllocError>
    ensures { OnOk result (screen.new ≡ screen.old ++ next_hop_text (Some hop.now)) }
{
    screen.push(hop.name.as_slice())?;
    screen.push(b" at ")?;
    let at = format!(in alloc; "{}", hop.at)?;
    screen.push(at.as_bytes())
}

/// Adds a field on a line of its own.
fn push_field(screen: &mut Screen, name: &[u8], text: &[u8]) -> Result<(), AllocError>
    ensures { OnOk result (screen.new ≡ screen.old ++ field_line name.now text.now) }
{
    push_left(screen, name, NAME_WIDTH)?;
    screen.push(text)?;
    screen.end_line()
}
