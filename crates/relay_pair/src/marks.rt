//! The places that the nodes of a pair hold.
ghost use Rattle.std.specs.Prelude.{◌≡◌, ◌++◌, map, IfOk, OnOk};
ghost use Rattle.relay_pair.specs.Marks.{mark_of, marks_from};
ghost use Rattle.relay_events.specs.Relays.{AreBound, world_of};

use relay_disk::Disk;
use relay_events::Relays;
use std::alloc::{AllocError, Global};

/// Returns all held places of the nodes that are up, each with its node and the number of its message. Fails if memory
/// runs out.
pub(crate) fn held_marks<D: Disk>(
    relays: &Relays<D>,
    alloc: Global,
) -> Result<Vec<(usize, u64, u8)>, AllocError>
    requires { AreBound D.honest D.words (world_of relays.now) }
    ensures { IfOk result (λ marks. marks.items ≡ marks_from 0 relays.now.hosts.items) }
{
    let mut marks = Vec::new(alloc);
    for (node, host) in relays.hosts.iter().enumerate() {
        let held = match host.marks(alloc) {
            Ok(held) => held,
            Err(_) => return Err(AllocError),
        };
        push_marks(node, held.as_slice(), &mut marks)?;
    }
    Ok(marks)
}

/// Adds the held places of a node. Fails if memory runs out.
fn push_marks(
    node: usize,
    held: &[(u64, u8)],
    marks: &mut Vec<(usize, u64, u8)>,
) -> Result<(), AllocError>
    ensures { OnOk result (marks.new.items ≡ marks.old.items ++ map (mark_of node) held.now) }
{
    for (number, place) in held {
        marks.push((node, *number, *place))?;
    }
    Ok(())
}
