//! Which mail a request is about.
ghost use Rattle.std.specs.Prelude.{◌≡◌, ◌++◌, IfOk, MatchOption, OnOk};
ghost use Rattle.relay_control.specs.Request.{HasNoScope, IsScopeText, scope_text};

use crate::front::after;
use crate::number::{push_number, read_number};
use relay_routes::HostName;
use std::alloc::{AllocError, Global};

/// Which mail a request is about.
#[derive(Drop)]
pub enum Scope {
    /// The mail of the next hop of this name.
    Hop(HostName),
    /// The message of this number.
    Message(u64),
}

/// Reads `hop NAME` or `message NUMBER`: `None` where the text is neither. Fails if memory runs out.
pub(crate) fn read_scope(alloc: Global, text: &[u8]) -> Result<Option<Scope>, AllocError>
    ensures { IfOk result (λ found. MatchOption found (HasNoScope text.now) (IsScopeText text.now)) }
{
    if let Some(name) = after(text, b"hop ") {
        return match HostName::read(alloc, name)? {
            Some(name) => Ok(Some(Scope::Hop(name))),
            None => Ok(None),
        };
    }
    let Some(digits) = after(text, b"message ") else {
        return Ok(None);
    };
    match read_number(digits) {
        Some(number) => Ok(Some(Scope::Message(number))),
        None => Ok(None),
    }
}

/// Adds a scope as requests write it. Fails if memory runs out.
pub(crate) fn push_scope(text: &mut Vec<u8>, scope: &Scope) -> Result<(), AllocError>
    ensures { OnOk result (text.new.items ≡ text.old.items ++ scope_text scope.now) }
{
    match scope {
        Scope::Hop(name) => {
            text.extend_from_slice(b"hop ")?;
            text.extend_from_slice(name.as_slice())
        }
        Scope::Message(number) => {
            text.extend_from_slice(b"message ")?;
            push_number(text, *number)
        }
    }
}
