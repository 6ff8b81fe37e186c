//! Compares receipts with what a node has accepted. Allocates nothing.
ghost use Rattle.std.specs.Prelude.{◌≡◌, ◌↔◌, ◌+◌, ◌≤◌, ◌<◌, ℕ, IsTrue, if◌then◌else◌};
ghost use Rattle.std.specs.List.{AllByRecursion};
ghost use Rattle.relay_hub.specs.Receipts.{AreReceipts, AreTrueOf, IsRising, IsTrueOf, Rise, times, times_in};

use crate::opening::Opening;
use crate::pass::Pass;
use crate::receipt::Receipt;
use crate::same::is_same_accept;
use relay_disk::Disk;
use relay_node::Node;

/// Returns whether the numbers of the receipts rise strictly, from `least` or more, and stay below `bound`.
fn rise(receipts: &[Receipt], least: u64, bound: u64) -> bool
    ensures { IsTrue result ↔ Rise least bound receipts.now }
{
    let mut least = least;
    for receipt in receipts {
        if receipt.number < least || receipt.number >= bound {
            return false;
        }
        least = receipt.number + 1;
    }
    true
}

/// Returns whether one of the receipts has this number. Their numbers rise strictly; the search is by halves.
fn has_number(receipts: &[Receipt], number: u64) -> bool
    requires { IsRising receipts.now }
    ensures { times_in number receipts.now ≡ (if result then 1 else 0) }
{
    receipts
        .binary_search_by_key(&number, |receipt| receipt.number)
        .is_ok()
}

/// Returns whether exactly one receipt of all passes has this number. The numbers of each pass rise.
fn comes_once<J: Opening>(passes: &[Pass<J>], number: u64) -> bool
    requires { AllByRecursion IsRising passes.now }
    ensures { IsTrue result ↔ (times number passes.now ≡ 1) }
{
    let mut found = false;
    for pass in passes {
        if has_number(pass.receipts(), number) {
            if found {
                return false;
            }
            found = true;
        }
    }
    found
}

/// Returns whether exactly one receipt of all passes has each number from `first` on and below `bound`. The numbers of
/// each pass rise.
fn each_comes_once<J: Opening>(passes: &[Pass<J>], first: u64, bound: u64) -> bool
    requires { AllByRecursion IsRising passes.now }
    ensures { IsTrue result ↔ ((number : ℕ) → first ≤ number → number < bound → times number passes.now ≡ 1) }
{
    for number in first..bound {
        if !comes_once(passes, number) {
            return false;
        }
    }
    true
}

/// Returns whether the node has a message of the receipt's number, accepted as the receipt records.
fn is_true<D: Disk>(node: &Node<D>, receipt: &Receipt) -> bool
    ensures { IsTrue result ↔ IsTrueOf node.now.records.queue receipt.now }
{
    match node.message(receipt.number) {
        Some(message) => is_same_accept(&message.accept, &receipt.accept),
        None => false,
    }
}

/// Returns whether all receipts of a pass agree with the node, as [`is_true`] says.
fn are_true<D: Disk>(node: &Node<D>, receipts: &[Receipt]) -> bool
    ensures { IsTrue result ↔ AreTrueOf node.now.records.queue receipts.now }
{
    for receipt in receipts {
        if !is_true(node, receipt) {
            return false;
        }
    }
    true
}

/// Returns whether the receipts of all passes agree with the node.
fn are_all_true<D: Disk, J: Opening>(node: &Node<D>, passes: &[Pass<J>]) -> bool
    ensures { IsTrue result
        ↔ AllByRecursion (λ receipts. AreTrueOf node.now.records.queue receipts) passes.now }
{
    for pass in passes {
        if !are_true(node, pass.receipts()) {
            return false;
        }
    }
    true
}

/// Returns whether the numbers of each pass rise, from `least` or more, and stay below `bound`.
fn each_rises<J: Opening>(passes: &[Pass<J>], least: u64, bound: u64) -> bool
    ensures { IsTrue result ↔ AllByRecursion (λ receipts. Rise least bound receipts) passes.now }
{
    for pass in passes {
        if !rise(pass.receipts(), least, bound) {
            return false;
        }
    }
    true
}

/// Returns whether the receipts of all passes are exactly the node's messages from number `first` on, each once, and
/// the numbers of each pass rise.
pub(crate) fn are_receipts<D: Disk, J: Opening>(
    node: &Node<D>,
    first: u64,
    passes: &[Pass<J>],
) -> bool
    ensures { IsTrue result ↔ AreReceipts first node.now.records.queue passes.now }
{
    let next = node.next_number();
    // The search by halves needs rising numbers.
    if !each_rises(passes, first, next) {
        return false;
    }
    are_all_true(node, passes) && each_comes_once(passes, first, next)
}
