//! The queue as JSON, one object per line, with a last line if the list was cut.
ghost use Rattle.std.specs.Prelude.{◌≡◌, ◌++◌, [], OnOk};
ghost use Rattle.std.specs.Option.{option_map_or};
ghost use Rattle.relay_listing.specs.Object.{object_line};
ghost use Rattle.relay_listing.specs.Row.{queued_in, said_by};
ghost use Rattle.relay_page.specs.Listing.{cut_line};

use relay_book::Message;
use relay_listing::{Piece, Row, object_text, push_pieces, row_in};
use relay_routes::Table;
use relay_trace::Moment;
use std::alloc::{AllocError, Global};

/// The most recipients of a list.
pub const MOST_LISTED: usize = 500;

/// Adds the line of the recipient at a place of a message, which has this number, if it is still queued.
pub fn push_listed(
    alloc: Global,
    text: &mut Vec<u8>,
    table: &Table,
    number: u64,
    place: u8,
    message: &Message,
    now: Moment,
) -> Result<(), AllocError>
    ensures { OnOk result (text.new.items
        ≡ text.old.items ++ option_map_or (object_line now) (queued_in table.now number place message.now) []) }
{
    match row_in(table, number, place, message) {
        Some(row) => push_object(alloc, text, &row, now),
        None => Ok(()),
    }
}

/// Adds the line of a recipient.
fn push_object(
    alloc: Global,
    text: &mut Vec<u8>,
    row: &Row<'_>,
    now: Moment,
) -> Result<(), AllocError>
    ensures { OnOk result (text.new.items ≡ text.old.items ++ object_line now (said_by row.now)) }
{
    let object = object_text(alloc, row, now)?;
    text.extend_from_slice(object.as_bytes())?;
    text.push(b'\n')?;
    Ok(())
}

/// Adds the line that says that only the first `listed` of `queued` recipients are listed.
pub fn push_cut(text: &mut Vec<u8>, listed: u64, queued: u64) -> Result<(), AllocError>
    ensures { OnOk result (text.new.items ≡ text.old.items ++ cut_line listed queued) }
{
    push_pieces(
        text,
        &[
            Piece::Markup(b"{\"cut\":true,\"listed\":"),
            Piece::Number(listed),
            Piece::Markup(b",\"queued\":"),
            Piece::Number(queued),
            Piece::Markup(b"}\n"),
        ],
    )
}
