//! The room that a relay keeps on its disk for the outcomes of attempts, and what it may do while it is short of room.
#![tactic(auto)]

mod ballast;
mod room_file;
mod standing;

pub use ballast::{ballast_size, give_up, test_room};
pub use room_file::RoomFile;
pub use standing::Standing;
