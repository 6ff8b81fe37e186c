//! Compaction of the spool after a round.
ghost use Rattle.std.specs.Prelude.{◌≡◌, List, None, MatchResult};
ghost use Rattle.relay_book.specs.declared.change.Change.{Change};
ghost use Rattle.relay_disk.specs.File.{file_words};
ghost use Rattle.relay_records.specs.Records.{Halted, Keeps};
ghost use Rattle.relay_service.specs.Compacting.{Shrinks};

use relay_disk::FileDisk;
use relay_files::Fault;
use relay_limits::is_worth_compacting;
use relay_log::Log;
use relay_node::{Node, NodeFault};
use std::io::Write;

/// Compacts the spool if that is worth it, as `is_worth_compacting` says. Leaves the spool unchanged if it has no
/// second file or holds too much, or if memory runs out.
pub(crate) fn compact_after<E: Write>(
    node: &mut Node<FileDisk>,
    was_full: bool,
    log: &mut Log<'_, E>,
) -> Result<(), Fault>
    ensures kept { (changes : List Change) → Keeps ⊥ file_words node.old.records changes
        → MatchResult result (λ _. Keeps ⊥ file_words node.new.records changes)
        (λ fault. (fault ≡ Fault.Device) × Halted ⊥ file_words node.new.records changes None) }
    ensures shrinks { Shrinks file_words node.old node.new was_full result }
{
    let limit = node.config().spool_limit;
    if !is_worth_compacting(node.size(), node.compacted_size(), limit, was_full) {
        return Ok(());
    }
    match node.compact() {
        Ok((before, after)) => {
            log.compacted(before, after);
            Ok(())
        }
        Err(NodeFault::Stopped) => Err(Fault::Device),
        Err(_) => Ok(()),
    }
}
