//! Whether a node that was opened has the undecided change.
ghost use Rattle.std.specs.Prelude.{◌≡◌, [], ◌∷◌, vec_capacity, vec_len};
ghost use Rattle.relay_hosts.specs.Crash.{Decided};
ghost use Rattle.relay_hosts.specs.Host.{OwesWithin, count_some, notes_of};

use crate::host::{Host, HostState, Undecided};
use relay_disk::Disk;
use relay_node::Node;
use relay_octets::Octets;
use std::alloc::Global;
use std::mem;

/// Returns the host of a node that was opened, with the undecided change if the node has it. It does exactly if its
/// next number is greater than the change's own.
pub(crate) fn decide<D: Disk>(
    alloc: Global,
    node: Node<D>,
    undecided: Option<Undecided>,
    records: Vec<Octets>,
    owed: usize,
    pick: u64,
) -> (Host<D>, Option<Undecided>)
    requires idle { notes_of node ≡ 0 }
    requires room { OwesWithin (count_some (undecided ∷ [])) (vec_len records) (vec_capacity records) owed }
    ensures { Decided node records.items undecided result.0 result.1 }
{
    let Some(undecided) = undecided else {
        return (
            Host {
                state: HostState::Up(node),
                records,
                owed,
                pick,
            },
            None,
        );
    };
    if node.next_number() <= undecided.note.number {
        return (
            Host {
                state: HostState::Up(node),
                records,
                owed,
                pick,
            },
            None,
        );
    }
    let mut undecided = undecided;
    let mut records = records;
    let octets = mem::replace(&mut undecided.note.octets, Octets::new(Vec::new(alloc)));
    records.push(octets).unwrap();
    (
        Host {
            state: HostState::Up(node),
            records,
            owed: owed - 1,
            pick,
        },
        Some(undecided),
    )
}
