ghost use Rattle.std.specs.Prelude.{◌≡◌, ◌<◌, ◌≤◌, length, IsErr, OnOk, OnErr};
ghost use Rattle.relay_disk.specs.Device.{written};

use std::alloc::AllocError;

/// A stored call of a memory disk.
#[derive(Drop)]
pub(crate) enum Call {
    /// A write that was done.
    Write { place: usize, octets: Vec<u8> },
    /// A write that failed: a read gives what it gave before, and a stop may have changed the range.
    FailedWrite { place: usize, count: usize },
    Cut { size: usize },
    Sync,
}

impl Call {
    ghost use Rattle.std.specs.Prelude.{◌≡◌, ◌∷◌, [], true, OnOk};
    ghost use Rattle.relay_disk.specs.MayLeave.{seen_after, are_within};
    ghost use Rattle.relay_disk.specs.Pick.{is_sync, range_of};

    pub(crate) fn is_sync(&self) -> bool
        ensures { result ≡ is_sync self.now }
    {
        matches!(self, Call::Sync)
    }

    /// Returns the place and the count of a write's range. That of another call is empty.
    pub(crate) fn range(&self) -> (usize, usize)
        ensures { result ≡ range_of self.now }
    {
        match self {
            Call::Write { place, octets } => (*place, octets.len()),
            Call::FailedWrite { place, count } => (*place, *count),
            Call::Cut { .. } | Call::Sync => (0, 0),
        }
    }

    /// Applies the call to an image.
    pub(crate) fn replay(&self, image: &mut Vec<u8>) -> Result<(), AllocError>
        requires { are_within image.old.items (self.now ∷ []) ≡ true }
        ensures { OnOk result (image.new.items ≡ seen_after image.old.items (self.now ∷ [])) }
    {
        match self {
            Call::Write { place, octets } => overwrite(image, *place, octets),
            Call::Cut { size } => {
                image.truncate(*size);
                Ok(())
            }
            Call::FailedWrite { .. } | Call::Sync => Ok(()),
        }
    }
}

/// Overwrites the octets from `place` on, and extends the image if needed.
pub(crate) fn overwrite(image: &mut Vec<u8>, place: usize, octets: &[u8]) -> Result<(), AllocError>
    requires { place ≤ length image.old.items }
    ensures ok { OnOk result (image.new.items ≡ written image.old.items place octets.now) }
    ensures err { OnErr result (image.new.items ≡ image.old.items) }
    ensures cause { IsErr result → 0 < length octets.now }
{
    let room = image.len() - place;
    if octets.len() <= room {
        image[place..place + octets.len()].copy_from_slice(octets);
        return Ok(());
    }
    image.extend_from_slice(&octets[room..])?;
    image[place..place + room].copy_from_slice(&octets[..room]);
    Ok(())
}
