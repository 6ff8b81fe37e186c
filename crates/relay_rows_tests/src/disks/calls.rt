//! Calls of a spool that may be spent. Each stands here alone, in a function without clauses: what calls these sees
//! none of their contracts.
use relay_disk::MemoryDisk;
use relay_spool::{Spool, SpoolFault};

/// Appends a body. It answers nothing if the spool is spent, or the body too long for any.
pub fn append(spool: &mut Spool<MemoryDisk>, body: &[u8]) -> Option<Result<(), SpoolFault>> {
    if !spool.is_live() || u32::try_from(body.len()).is_err() {
        return None;
    }
    Some(spool.append(body))
}

/// Puts a body in place of all. It answers nothing if the spool is spent.
pub fn compact(spool: &mut Spool<MemoryDisk>, body: Vec<u8>) -> Option<Result<(), SpoolFault>> {
    if !spool.is_live() {
        return None;
    }
    Some(spool.compact(body))
}
