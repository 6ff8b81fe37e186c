//! The buffer that a link reads into.
ghost use Rattle.std.specs.Prelude.{◌≡◌, ◌<◌, length, IfOk};

use std::alloc::{AllocError, Global};

/// How many octets one read takes at most.
const BLOCK: usize = 65_536;

/// Returns a block for the reads of a link. Fails if memory runs out.
pub fn read_block(alloc: Global) -> Result<Vec<u8>, AllocError>
    ensures { IfOk result (λ block. 0 < length block.items) }
{
    zeros(alloc, BLOCK)
}

/// Returns this many zeros. A proof of the block alone would write out each of them.
fn zeros(alloc: Global, count: usize) -> Result<Vec<u8>, AllocError>
    ensures { IfOk result (λ zeros. length zeros.items ≡ count) }
{
    vec![in alloc; 0; count]
}
