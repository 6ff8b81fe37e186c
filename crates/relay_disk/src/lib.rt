//! Disks: what a read gives, what a stop at any time may leave, and when a call fails.
#![tactic(auto)]

mod call;
mod disk;
mod disks;
mod file;
pub mod laws;
mod memory;
mod pick;

pub use disk::{Disk, DiskFault, Reboot};
pub use disks::{Disks, Side};
pub use file::FileDisk;
pub use memory::MemoryDisk;
