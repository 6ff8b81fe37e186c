use crate::answer::Answer;
use crate::disks::mount::{disk_of_text, turn_disk, turn_disks, turn_spool};
use relay_disk::{Disks, MemoryDisk};
use relay_pieces::Pieces;
use relay_spool::Spool;

/// A spool, and the bodies with which it was opened.
pub struct Mounted {
    pub spool: Spool<MemoryDisk>,
    pub bodies: Vec<Pieces>,
}

// Written out, as for what is held: where one is dropped, this is called.
impl Drop for Mounted {
    fn drop(self) {
        let Mounted {
            spool: _spool,
            bodies: _bodies,
        } = self;
    }
}

impl Mounted {
    /// Returns the disks of the spool.
    pub fn into_disks(self) -> Disks<MemoryDisk> {
        let Mounted { spool, bodies: _ } = self;
        spool.into_disk()
    }
}

/// What a step leaves to the next one.
pub enum Held {
    Nothing,
    Disk(MemoryDisk),
    Disks(Disks<MemoryDisk>),
    Spool(Mounted),
}

impl Drop for Held {
    fn drop(self) {
        match self {
            Held::Nothing => {}
            Held::Disk(_disk) => {}
            Held::Disks(_disks) => {}
            Held::Spool(_mounted) => {}
        }
    }
}

impl Held {
    /// Returns what becomes of the thing in hand by a step.
    pub fn turned(self, answer: &mut Answer, name: &str, text: &str, number: u64) -> Self {
        match self {
            Held::Nothing => {
                answer.say("ok");
                Held::Disk(disk_of_text(answer, text))
            }
            Held::Disk(disk) => turn_disk(answer, disk, name, text, number),
            Held::Disks(disks) => turn_disks(answer, disks, name, text, number),
            Held::Spool(mounted) => turn_spool(answer, mounted, name, text),
        }
    }
}
