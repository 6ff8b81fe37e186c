ghost use Rattle.std.specs.Option.{ForSome};
ghost use Rattle.std.specs.Prelude.{◌≤◌, length};

use relay_octets::Octets;
use std::alloc::{AllocError, Global};
use thiserror::Error;

/// The result of a content that has come whole.
#[derive(Drop)]
pub enum Gathered {
    /// The content, which is within the limit.
    Whole(Octets),
    /// The content passed the limit, and none of it was kept.
    TooLarge,
}

/// Why a reader of a body fails.
#[derive(Clone, Copy, Debug, PartialEq, Eq, Error)]
pub enum BodyFault {
    /// Memory ran out. Every later call of the reader returns this.
    #[error("no memory")]
    NoMemory,
}

impl From<AllocError> for BodyFault {
    ghost use Rattle.std.specs.Prelude.{◌≡◌};
    ghost use Rattle.relay_body.specs.declared.gathered.BodyFault.TheVariants.{NoMemory};

    ghost from_gives = { λ _ fault. fault ≡ NoMemory };

    fn from(_fault: AllocError) -> BodyFault {
        BodyFault::NoMemory
    }
}

/// A content that is coming in: kept up to a limit, and dropped once it passes that.
pub(crate) struct Gathering {
    /// The greatest length, in octets, of a content that is kept.
    limit: usize,
    /// The content so far, or `None` if it has passed the limit.
    kept: Option<Octets>,
    ghost within_limit: { ForSome kept (λ octets. length octets ≤ limit) },
}

// Written out, so that the proof of a caller that drops a content on its way stops at this function.
impl Drop for Gathering {
    fn drop(self) {
        let Gathering {
            limit: _,
            kept: _kept,
        } = self;
    }
}

impl Gathering {
    ghost use Rattle.std.specs.Prelude.{◌≡◌, ℕ, List, [], ◌++◌, false, nat_lt, IsSome, OnOk};
    ghost use Rattle.relay_body.specs.Gathering.{IsWithin, KeepsContent, gathered_of};

    /// Begins a content. Allocates nothing.
    pub(crate) fn new(alloc: Global, limit: usize) -> Self
        ensures { KeepsContent result limit [] }
    {
        Gathering {
            limit,
            kept: Some(Octets::new(Vec::new(alloc))),
        }
    }

    /// Adds octets to the content, or drops it if they pass the limit.
    pub(crate) fn keep(&mut self, more: &[u8]) -> Result<(), AllocError>
        ensures keeps { OnOk result ((limit : ℕ) (content : List ℕ)
            → KeepsContent self.old limit content
            → KeepsContent self.new limit (content ++ more.now)) }
        ensures limit { self.new.limit ≡ self.old.limit }
    {
        match &mut self.kept {
            None => Ok(()),
            Some(octets) => {
                if more.len() <= self.limit - octets.len() {
                    octets.push_slice(more)?;
                    Ok(())
                } else {
                    self.kept = None;
                    Ok(())
                }
            }
        }
    }

    /// Returns whether the content so far passes the limit.
    pub(crate) fn is_too_large(&self) -> bool
        ensures passes { (limit : ℕ) (content : List ℕ)
            → KeepsContent self.now limit content → result ≡ nat_lt limit (length content) }
        ensures kept { result ≡ false → IsSome self.now.kept }
    {
        self.kept.is_none()
    }

    /// Returns the content, once it has come whole. Allocates nothing.
    pub(crate) fn finish(self) -> Gathered
        ensures content { (limit : ℕ) (content : List ℕ)
            → KeepsContent self limit content → result ≡ gathered_of limit content }
        ensures within { IsWithin self.limit result }
    {
        let Gathering { limit: _, kept } = self;
        match kept {
            Some(octets) => Gathered::Whole(octets),
            None => Gathered::TooLarge,
        }
    }
}
