ghost use Rattle.std.specs.Prelude.{◌≡◌, None, Some, option_map};
ghost use Rattle.std.specs.Option.{option_copied};
ghost use Rattle.relay_outlines.specs.Look.{blank_as_told};
ghost use Rattle.relay_listing.specs.Row.{hop_name, queued_at, queued_in, said_by};

use relay_book::{Message, length_in};
use relay_envelope::PathBuf;
use relay_outlines::Look;
use relay_routes::Table;
use relay_trace::Moment;

/// A queued recipient, as a view shows it.
#[derive(Clone, Copy)]
pub struct Row<'a> {
    /// The number of its message.
    pub number: u64,
    /// Its place among the recipients of the message, from 0.
    pub place: u8,
    /// When the message was accepted.
    pub accepted: Moment,
    /// How many octets the message has.
    pub size: usize,
    /// The reverse path of the message.
    pub reverse_path: &'a [u8],
    /// The forward path of the recipient.
    pub path: &'a [u8],
    /// The name of the next hop, if a route leads to one.
    pub hop: Option<&'a [u8]>,
    /// How often it was deferred; 4 stands for four times and more.
    pub tries: u8,
    /// When it is due, in seconds since 1970. It may be later than the last time that a clock can show.
    pub due: u64,
}

/// Returns the recipient at a place of the message of this number, if it is queued. Allocates nothing.
pub fn row_at<'a>(look: &'a Look, table: &'a Table, number: u64, place: u8) -> Option<Row<'a>>
    ensures { option_map said_by result ≡ queued_at table.now look.now.queue (number, place) }
{
    match look.outline(number) {
        Some(outline) => row_as_told(table, number, place, outline),
        None => None,
    }
}

/// Returns the recipient at a place of an outlined message, with the size that the outline says.
fn row_as_told<'a>(
    table: &'a Table,
    number: u64,
    place: u8,
    outline: &'a Message,
) -> Option<Row<'a>>
    ensures { option_map said_by result ≡ queued_in table.now number place (blank_as_told outline.now) }
{
    match row_in(table, number, place, outline) {
        Some(row) => Some(Row {
            size: length_in(outline.accept.stored_text.as_slice()) as usize,
            ..row
        }),
        None => None,
    }
}

/// Returns the recipient at a place of a message, which has this number, if it is queued. Allocates nothing.
pub fn row_in<'a>(table: &'a Table, number: u64, place: u8, message: &'a Message) -> Option<Row<'a>>
    ensures { option_map said_by result ≡ queued_in table.now number place message.now }
{
    let index = usize::from(place);
    let waiting = message.places.as_slice().get(index)?;
    let recipient = message.accept.envelope.recipients.as_slice().get(index)?;
    if waiting.held {
        Some(Row {
            number,
            place,
            accepted: message.accept.at,
            size: message.accept.stored_text.len(),
            reverse_path: message.accept.envelope.reverse_path.as_slice(),
            path: recipient.path.as_slice(),
            hop: hop_name(table, &recipient.path),
            tries: waiting.laters,
            due: waiting.due,
        })
    } else {
        None
    }
}

/// Returns the name of the next hop of a path, if a route leads to one.
fn hop_name<'a>(table: &'a Table, path: &PathBuf) -> Option<&'a [u8]>
    ensures { option_copied result ≡ hop_name table.now path.now }
{
    match table.hop_at(path) {
        Some(hop) => Some(hop.name.as_slice()),
        None => None,
    }
}
