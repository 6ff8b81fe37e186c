//! Whether a session is in the middle of a mail transaction.
ghost use Rattle.std.specs.Prelude.{◌≡◌};
ghost use Rattle.relay_server.specs.Session.{has_transaction, in_transaction};

use super::Session;
use crate::stage::Stage;
use crate::state::CommandState;

impl Session {
    /// Returns whether a mail transaction of the client is open (RFC 5321, section 3.3): its MAIL was accepted, and
    /// what becomes of the mail isn't answered yet. Allocates nothing.
    pub fn is_in_transaction(&self) -> bool
        ensures { result ≡ in_transaction self.now }
    {
        match &self.stage {
            Stage::Command(state) => has_transaction(state),
            Stage::Skipping(skipped) => has_transaction(&skipped.state),
            Stage::Receiving(_) | Stage::Chunk(_) | Stage::Offering(..) => true,
            Stage::Closed | Stage::Failed => false,
        }
    }
}

/// Returns whether a mail transaction is open while a command is awaited.
fn has_transaction(state: &CommandState) -> bool
    ensures { result ≡ has_transaction state.now }
{
    match state {
        CommandState::Open(_) | CommandState::Gathering(_) => true,
        CommandState::Fresh | CommandState::Greeted(_) | CommandState::Spent(_) => false,
    }
}
