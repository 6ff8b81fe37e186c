//! A thread's right to give mail to a hub.
ghost use Rattle.std.specs.Prelude.{◌≡◌, ◌+◌, length};
ghost use Rattle.relay_hub.specs.Receipts.{count_of};

use crate::opening::Opening;
use crate::receipt::Receipt;
use std::alloc::{AllocError, Global};
use std::marker::Model;
use std::sync::ledger::{Book, Share};

/// A thread's right to give mail to a hub, with the receipts of that mail. Contracts see the receipts; the share of the
/// ledger counts them.
pub struct Pass<J: Opening> {
    pub(crate) receipts: Vec<Receipt>,
    pub(crate) share: Share<J>,
}

// Written out, so that the proof of a caller that drops a pass stops at this function.
impl<J: Opening> Drop for Pass<J> {
    fn drop(self) {
        let Pass {
            receipts: _receipts,
            share: _share,
        } = self;
    }
}

impl<J: Opening> Model for Pass<J> {
    ghost use Rattle.std.specs.Prelude.{List, ◌≡◌, length};
    ghost use Rattle.relay_hub.specs.declared.receipt.Receipt.{Receipt};

    ghost Value = { List Receipt };

    ghost view = { λ pass. pass.receipts.items };

    ghost invariant = { λ pass. (pass.share.parts ≡ 1) × (pass.share.amount ≡ length pass.receipts.items) };
}

impl<J: Opening> Pass<J> {
    ghost use Rattle.std.specs.Prelude.{◌≡◌, [], length};

    pub(crate) fn new(alloc: Global, share: Share<J>) -> Pass<J>
        requires { (share.parts ≡ 1) × (share.amount ≡ 0) }
        ensures { result ≡ [] }
    {
        Pass {
            receipts: Vec::new(alloc),
            share,
        }
    }

    /// Returns the receipts, in the order in which the mail was queued. Allocates nothing.
    pub fn receipts(&self) -> &[Receipt]
        ensures { result.now ≡ self.now }
    {
        self.receipts.as_slice()
    }

    /// Consumes the pass and returns its receipts. Allocates nothing.
    pub fn into_receipts(self) -> Vec<Receipt>
        ensures { result.items ≡ self }
    {
        let Pass {
            receipts,
            share: _share,
        } = self;
        receipts
    }
}

/// States that the ledger has counted as many messages as the passes have receipts, if these passes and the shares in
/// `seen` are all there are. Does nothing.
#[cycle(audit)]
pub(crate) fn audit<J: Opening>(book: &mut Book<J>, seen: &mut Share<J>, passes: &mut [Pass<J>])
    requires parts { seen.old.parts + length passes.old ≡ J.parts }
    requires backed { seen.old.parts ≡ 0 → seen.old.amount ≡ 0 }
    ensures total { book.old.total ≡ seen.old.amount + count_of passes.old }
    ensures book { book.new.total ≡ book.old.total }
    ensures seen { (seen.new.parts ≡ seen.old.parts) × (seen.new.amount ≡ seen.old.amount) }
    ensures passes { passes.new ≡ passes.old }
{
    match passes.split_first_mut() {
        None => book.audit(seen),
        Some((pass, rest)) => lend(book, seen, pass, rest),
    }
}

/// States the same of a pass and the rest; `seen` borrows the pass's share while the rest are audited.
#[cycle(audit)]
fn lend<J: Opening>(
    book: &mut Book<J>,
    seen: &mut Share<J>,
    pass: &mut Pass<J>,
    rest: &mut [Pass<J>],
)
    requires parts { seen.old.parts + 1 + length rest.old ≡ J.parts }
    requires backed { seen.old.parts ≡ 0 → seen.old.amount ≡ 0 }
    ensures total { book.old.total ≡ seen.old.amount + length pass.old + count_of rest.old }
    ensures book { book.new.total ≡ book.old.total }
    ensures seen { (seen.new.parts ≡ seen.old.parts) × (seen.new.amount ≡ seen.old.amount) }
    ensures passes { (pass.new ≡ pass.old) × (rest.new ≡ rest.old) }
{
    let count = pass.receipts.len() as u64;
    pass.share.give(seen, 1, count);
    audit(book, seen, rest);
    seen.give(&mut pass.share, 1, count);
}
