//! What sessions and attempts hear in a turn.
ghost use Rattle.std.specs.Prelude.{◌≡◌, IfErr, IfOk, List, OnOk, []};
ghost use Rattle.relay_book.specs.declared.change.Change.{Change};
ghost use Rattle.relay_connections.specs.Carried.{Setting};
ghost use Rattle.relay_connections.specs.Readiness.{clients_of};
ghost use Rattle.relay_connections.specs.Replies.{HearRepliesIf};
ghost use Rattle.relay_connections.specs.Served.{AreServed, AreServedAfter};
ghost use Rattle.relay_connections.specs.Welcome.{KeepsRules};

use relay_connections::{Clients, Intake, Leaving, Now, Replied, Stream};
use relay_disk::Disk;
use relay_log::Log;
use relay_loop::{Relay, ReplyPiece};
use relay_node::NodeFault;
use std::alloc::AllocError;

/// Passes what was read to sessions and attempts, in one call. If there was no memory to gather the replies, they wait,
/// or one of their attempts is given up if no client was heard either.
pub(crate) fn hear<S: Stream + Drop, D: Disk>(
    gathered: Result<Vec<ReplyPiece<'_>>, AllocError>,
    clients: &mut Clients<S>,
    registry: &S::Registry,
    relay: &mut Relay<D>,
    leaving: &mut Leaving<S>,
    now: &Now,
    log: &mut Log<'_, Vec<u8>>,
) -> Result<(Intake, Option<Replied>), NodeFault>
    ensures heard { IfOk gathered.entry (λ replies. IfOk result (λ end. HearRepliesIf D.honest D.words replies.items
        now.now.moment relay.old relay.new end.1)) }
    ensures unheard { IfErr gathered.entry (λ _. IfOk result (λ end. HearRepliesIf D.honest D.words []
        now.now.moment relay.old relay.new end.1)) }
    ensures config { relay.new.node.config ≡ relay.old.node.config }
    ensures rules { KeepsRules clients.old clients.new }
    ensures served { (changes : List Change) (setting : Setting)
        → AreServed D.honest D.words S.remaining S.contents changes setting (clients_of clients.old) relay.old
        → OnOk result (AreServedAfter D.honest D.words S.remaining S.contents changes setting
        (clients_of clients.new) relay.new) }
{
    match gathered {
        Ok(replies) => { clients.serve(registry, relay, replies.as_slice(), leaving, now, log) }
        Err(_) => clients.serve(registry, relay, &[], leaving, now, log),
    }
}
