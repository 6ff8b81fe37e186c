//! Laws of slots, whatever they hold.
ghost use Rattle.relay_slots.specs.Slots.{FreeHasPlaces};

/// A table of 64 free slots has least free number 0 and isn't full.
pub fn free_has_places<T>()
    ensures { FreeHasPlaces T }
{}
