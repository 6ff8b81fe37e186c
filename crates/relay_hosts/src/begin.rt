//! A new node.
ghost use Rattle.std.specs.Prelude.{IfOk};
ghost use Rattle.relay_hosts.specs.Begin.{IsMadeOf, IsNew};

use crate::host::{Host, HostState};
use relay_disk::{Disk, Disks};
use relay_node::{Node, NotOpened};
use relay_routes::Config;
use std::alloc::Global;

impl<D: Disk> Host<D> {
    /// Makes a node on two empty disks. Fails if memory runs out, or if a disk fails or isn't empty.
    pub fn create(alloc: Global, config: Config, disk: Disks<D>) -> Result<Self, NotOpened<D>>
        ensures new { IfOk result (IsNew D.honest D.words config) }
        ensures calls { IfOk result (λ host. IsMadeOf D.words disk host.state) }
    {
        match Node::create(alloc, config, disk) {
            Ok(node) => Ok(Host {
                state: HostState::Up(node),
                records: Vec::new(alloc),
                owed: 0,
                pick: 0,
            }),
            Err(refused) => Err(refused),
        }
    }
}
