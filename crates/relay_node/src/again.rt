//! A node that is opened again under the same configuration.
ghost use Rattle.std.specs.Prelude.{◌≡◌, IfErr, IfOk, MatchResult, None};
ghost use Rattle.relay_disk.specs.Disks.{FailsNot, seen_of};
ghost use Rattle.relay_node.specs.Node.{IsIdle};
ghost use Rattle.relay_records.specs.Open.{FailsFor, Opens, RefusesImage};
ghost use Rattle.relay_records.specs.declared.fault.Cause.TheVariants.{Spool};
ghost use Rattle.relay_spool.specs.Spool.{OnlyReads, PassesAny};
ghost use Rattle.relay_spool.specs.declared.fault.SpoolFault.TheVariants.{NoMemory};

use crate::node::{Node, out_of_memory};
use relay_attempts::Attempts;
use relay_disk::{Disk, Disks};
use relay_records::{NotOpened, Records};
use relay_routes::Config;
use relay_slots::Slots;
use std::alloc::Global;

/// A disk that wasn't opened, with the reason, and the configuration under which it was to be.
#[derive(Drop)]
pub struct NotReopened<D> {
    pub config: Config,
    pub refused: NotOpened<D>,
}

impl<D: Disk> Node<D> {
    /// As [`Node::open`]; the configuration comes back with a disk that is refused.
    pub fn open_again(alloc: Global, config: Config, disk: Disks<D>) -> Result<Self, NotReopened<D>>
        ensures opens { IfOk result (λ node. Opens D.honest D.words disk node.records) }
        ensures idle { IfOk result (IsIdle config) }
        ensures config { IfErr result (λ not. not.config ≡ config) }
        ensures refused { IfErr result
            (λ not. RefusesImage D.honest (seen_of D.words disk) not.refused.cause) }
        ensures keeps { D.honest → MatchResult result
            (λ node. OnlyReads D.words disk node.records.spool.disk)
            (λ not. OnlyReads D.words disk not.refused.disk) }
        ensures failures { MatchResult result (λ node. FailsNot D.words disk node.records.spool.disk)
            (λ not. FailsFor D.words disk not.refused.disk not.refused.cause) }
        ensures calls { IfErr result (λ not. PassesAny D.words disk not.refused.disk) }
    {
        match Records::open(alloc, disk) {
            Ok(records) => Node::of_records(alloc, config, records),
            Err(refused) => Err(NotReopened { config, refused }),
        }
    }

    /// Returns a node of these records, on which nothing has been noted, without a session and without an attempt. If
    /// memory runs out, their disks come back.
    fn of_records(
        alloc: Global,
        config: Config,
        records: Records<D>,
    ) -> Result<Self, NotReopened<D>>
        requires { records.noted ≡ None }
        ensures records { IfOk result (λ node. node.records ≡ records) }
        ensures idle { IfOk result (IsIdle config) }
        ensures refused { IfErr result (λ not. (not.config ≡ config) × (not.refused.disk ≡ records.spool.disk)
            × (not.refused.cause ≡ Spool NoMemory)) }
    {
        let Ok(seats) = Slots::new(alloc) else {
            return Err(NotReopened {
                config,
                refused: out_of_memory(records.into_disk()),
            });
        };
        let Ok(attempts) = Attempts::new(alloc, &config.routes, &records) else {
            return Err(NotReopened {
                config,
                refused: out_of_memory(records.into_disk()),
            });
        };
        Ok(Node {
            alloc,
            config,
            seats,
            attempts,
            records,
        })
    }
}
