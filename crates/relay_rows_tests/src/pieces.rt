ghost use Rattle.std.specs.Prelude.{◌≡◌, ◌<◌, ◌≤◌, length, min, take};

/// Returns the next piece of octets, in pieces of a length.
pub fn next_piece(rest: &[u8], size: usize) -> &[u8]
    requires { (0 < length rest.now) × (0 < size) }
    ensures piece { result.now ≡ take (min (length rest.now) size) rest.now }
    ensures some { 0 < length result.now }
    ensures within { length result.now ≤ length rest.now }
{
    &rest[..rest.len().min(size)]
}
