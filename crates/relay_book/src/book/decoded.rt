//! Changes that were decoded, which may be stored: they aren't judged again.
ghost use Rattle.std.specs.Prelude.{◌≡◌, IfOk, IsErrOf, OnErr, OnOk};
ghost use Rattle.relay_book.specs.Queue.{FitsQueue, step};
ghost use Rattle.relay_book.specs.Ready.{IsReady};
ghost use Rattle.relay_book.specs.Record.{IsChange};

use crate::book::Book;
use crate::change::Change;
use crate::fault::BookFault;
use crate::ready::Ready;
use std::alloc::Global;

impl Book {
    /// Applies a change that may be stored by its fields alone, as `apply` does any.
    pub fn apply_decoded(&mut self, alloc: Global, change: Change) -> Result<(), BookFault>
        requires { IsChange change }
        ensures ok { OnOk result (self.new.queue ≡ step self.old.queue change) }
        ensures err { OnErr result (self.new.queue ≡ self.old.queue) }
        ensures fits { OnOk result (FitsQueue self.old.queue change) }
        ensures bad { IsErrOf result BookFault.BadRecord → ¬ FitsQueue self.old.queue change }
        ensures memory { IsErrOf result BookFault.NoMemory → FitsQueue self.old.queue change }
    {
        let ready = self.prepare_decoded(alloc, change)?;
        self.commit(ready);
        Ok(())
    }

    /// Makes room for a change that may be stored, as `prepare` does for any.
    fn prepare_decoded(&mut self, alloc: Global, change: Change) -> Result<Ready, BookFault>
        requires { IsChange change }
        ensures queue { self.new.queue ≡ self.old.queue }
        ensures ready { IfOk result (λ ready. IsReady self.new ready) }
        ensures change { IfOk result (λ ready. ready.change ≡ change) }
        ensures bad { IsErrOf result BookFault.BadRecord → ¬ FitsQueue self.old.queue change }
        ensures memory { IsErrOf result BookFault.NoMemory → FitsQueue self.old.queue change }
    {
        self.forget_fresh(alloc);
        match change {
            Change::Accept(accept) => self.ready_accept(alloc, accept),
            Change::Outcome(outcome) => self.prepare_outcome(alloc, outcome),
        }
    }
}
