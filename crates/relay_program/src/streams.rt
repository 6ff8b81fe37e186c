ghost use Rattle.std.specs.Prelude.{◌≡◌, [], IfOk, OnErr, OnOk};
ghost use Rattle.relay_disk.specs.Memory.{memory_words};
ghost use Rattle.relay_records.specs.Records.{Keeps};
ghost use Rattle.relay_program.specs.Session.{IsBegun, IsOpened, IsServed};
ghost use Rattle.relay_program.specs.Setup.{IsProfile};

use crate::setup::{ADDRESS, configuration, moment};
use relay_disk::{Disks, MemoryDisk};
use relay_files::Fault;
use relay_links::serve_link;
use relay_node::{Connected, Node};
use std::alloc::Global;
use std::io::{Read, Write};

/// Runs one SMTP session over a node whose spool is in memory and is gone when the program ends: reads commands and
/// mail from `reader`, and writes the replies to `writer`. Returns when the session closes or the input ends. After a
/// fault a prefix of the replies was written.
pub fn session<R: Read, W: Write>(
    alloc: Global,
    reader: &mut R,
    writer: &mut W,
) -> Result<(), Fault>
    ensures served { OnOk result (IsServed (R.remaining reader.old) (R.remaining reader.new)
        (W.contents writer.old) (W.contents writer.new)) }
    ensures begun { OnErr result (IsBegun (R.remaining reader.old) (R.remaining reader.new)
        (W.contents writer.old) (W.contents writer.new)) }
{
    let (node, connected) = open_session(alloc)?;
    let mut node = node;
    match serve_link(alloc, &mut node, connected, reader, writer, moment()) {
        Ok(()) => Ok(()),
        Err(fault) => Err(Fault::from(fault)),
    }
}

/// Returns a new node over memory, with one session.
fn open_session(alloc: Global) -> Result<(Node<MemoryDisk>, Connected), Fault>
    ensures { IfOk result (λ opened. IsOpened opened.0 opened.1) }
{
    let config = configuration(alloc)?;
    let disks = Disks {
        first: MemoryDisk::new(alloc),
        second: MemoryDisk::new(alloc),
    };
    match Node::create(alloc, config, disks) {
        Ok(node) => connect(node),
        Err(refused) => Err(Fault::from(refused.cause)),
    }
}

/// Opens a session at a node.
fn connect(node: Node<MemoryDisk>) -> Result<(Node<MemoryDisk>, Connected), Fault>
    requires keeps { Keeps (Unit {0}) memory_words node.records [] }
    requires size { node.records.spool.size ≡ 18 }
    requires profile { IsProfile node.config }
    ensures { IfOk result (λ opened. IsOpened opened.0 opened.1) }
{
    let mut node = node;
    let connected = node.connect(ADDRESS)?;
    Ok((node, connected))
}
