//! Requests to return or discard mail, none longer than the control socket takes.
ghost use Rattle.std.specs.Prelude.{◌≡◌, ◌≤◌, IfOk, length, map};
ghost use Rattle.relay_control.specs.Named.{content_of};
ghost use Rattle.relay_steering.specs.Requests.{IsShort, NameAll, named_in};
ghost use Rattle.relay_queue.specs.Selection.{group_of};

use relay_arguments::Removal;
use relay_control::{MOST_NAMED, Named, Request};
use relay_queue::Selected;
use std::alloc::{AllocError, Global};
use std::mem;

/// The most octets of the names in a request: a request has at most 4,096 octets, with its verb, a space and its LF.
const MOST_OCTETS: usize = 4_096 - 9;

/// Returns requests to withdraw these places, each message in one of them, in the same order. Fails if memory runs out.
pub(crate) fn requests_of(
    alloc: Global,
    removal: Removal,
    messages: &[Selected],
) -> Result<Vec<Request>, AllocError>
    ensures { IfOk result (λ requests. NameAll removal messages.now requests.items) }
{
    let mut requests = Vec::new(alloc);
    let mut names = Vec::new(alloc);
    let mut octets = 0_usize;
    for selected in messages {
        let size = most_octets_of(selected);
        if MOST_NAMED <= names.len() || MOST_OCTETS < octets.saturating_add(size) {
            requests.push(request_of(removal, mem::replace(&mut names, Vec::new(alloc))))?;
            octets = 0;
        }
        names.push(named_of(alloc, selected)?)?;
        octets = octets.saturating_add(size);
    }
    if !names.is_empty() {
        requests.push(request_of(removal, names))?;
    }
    Ok(requests)
}

/// Returns the request to withdraw the places that are named.
fn request_of(removal: Removal, names: Vec<Named>) -> Request
    requires { length names.items ≤ 64 }
    ensures named { named_in removal result ≡ map content_of names.items }
    ensures short { IsShort removal result }
{
    match removal {
        Removal::Return => Request::Return(names),
        Removal::Discard => Request::Discard(names),
    }
}

/// Returns the selected places of a message as a request names them. Fails if memory runs out.
fn named_of(alloc: Global, selected: &Selected) -> Result<Named, AllocError>
    ensures { IfOk result (λ named. content_of named ≡ group_of selected.now) }
{
    Ok(Named {
        message: selected.message,
        places: Vec::from_slice(alloc, selected.places.as_slice())?,
    })
}

/// Returns how many octets the places of a message take at most in a request: a number of 20 digits and a colon, places
/// of two digits, each with a comma or a space after it.
fn most_octets_of(selected: &Selected) -> usize {
    selected.places.len().saturating_mul(3).saturating_add(21)
}
