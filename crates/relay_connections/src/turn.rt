use crate::clocks::Now;
use std::alloc::AllocError;

/// What stays the same through a turn: what streams are registered at, and the times of both clocks.
pub struct Turn<'a, R> {
    pub registry: &'a R,
    pub now: &'a Now,
}

// Written out, since the registry itself need not be copied.
impl<R> Clone for Turn<'_, R> {
    fn clone(&self) -> Result<Self, AllocError> {
        Ok(*self)
    }
}

impl<R> Copy for Turn<'_, R> {}
