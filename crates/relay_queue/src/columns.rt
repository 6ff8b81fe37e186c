//! The cells of a table.
ghost use Rattle.std.specs.Prelude.{◌≡◌, ◌++◌, ◌-◌, length, OnOk};
ghost use Rattle.relay_queue.specs.Screen.{padding, shown};

use crate::screen::Screen;
use std::alloc::AllocError;

/// Adds escaped octets, padded with spaces on the right up to a width.
pub(crate) fn push_left(screen: &mut Screen, octets: &[u8], width: usize) -> Result<(), AllocError>
    ensures { OnOk result (screen.new ≡ screen.old ++ shown octets.now ++ padding (width - length octets.now)) }
{
    screen.push(octets)?;
    screen.push_spaces(width.saturating_sub(octets.len()))
}

/// Adds escaped octets, padded with spaces on the left up to a width.
pub(crate) fn push_right(screen: &mut Screen, octets: &[u8], width: usize) -> Result<(), AllocError>
    ensures { OnOk result (screen.new ≡ screen.old ++ padding (width - length octets.now) ++ shown octets.now) }
{
    screen.push_spaces(width.saturating_sub(octets.len()))?;
    screen.push(octets)
}
