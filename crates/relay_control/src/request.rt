//! Requests of the control socket.
ghost use Rattle.std.specs.Prelude.{◌≡◌, ◌++◌, ◌∷◌, [], IfOk, OnOk, Some};
ghost use Rattle.relay_control.specs.Named.{names_text};
ghost use Rattle.relay_control.specs.Request.{ReadsRequest, line_text, request_text, scope_text, verb_text};

use crate::arguments::request_of;
use crate::front::cut;
use crate::named::{Named, push_names};
use crate::number::push_number;
use crate::refusal::Refusal;
use crate::scope::{Scope, push_scope};
use crate::verb::Verb;
use std::alloc::{AllocError, Global};

/// What a postmaster asks of a running relay.
#[derive(Drop)]
pub enum Request {
    /// This mail, or all that is queued, is tried now.
    Flush(Option<Scope>),
    /// No attempt begins for this mail.
    Hold(Scope),
    /// Attempts for this mail may begin again.
    Release(Scope),
    /// These recipients are returned to the sender: no attempt is made for them any more, and a report is owed.
    Return(Vec<Named>),
    /// These recipients are dropped: no attempt is made for them any more, and nobody is told.
    Discard(Vec<Named>),
    /// The configuration is read again.
    Reload,
    /// The relay begins nothing more, and stops once its attempts have ended or this many seconds have passed.
    Drain { seconds: u16 },
}

/// Reads the line of a request, without its LF. Fails if memory runs out.
pub fn read_request(alloc: Global, line: &[u8]) -> Result<Result<Request, Refusal>, AllocError>
    ensures { IfOk result (ReadsRequest line.now) }
{
    let (word, arguments) = cut(line, b' ');
    let Some(verb) = Verb::of(word) else {
        return Ok(Err(Refusal::Unknown));
    };
    match request_of(alloc, verb, arguments)? {
        Some(request) => Ok(Ok(request)),
        None => Ok(Err(Refusal::Usage(verb))),
    }
}

/// Returns the octets of a request, with the LF that ends its line. Fails if memory runs out.
pub fn write_request(alloc: Global, request: &Request) -> Result<Vec<u8>, AllocError>
    ensures { IfOk result (λ octets. octets.items ≡ request_text request.now ++ 10 ∷ []) }
{
    let mut octets = Vec::new(alloc);
    push_request(&mut octets, request)?;
    octets.push(b'\n')?;
    Ok(octets)
}

/// Adds the line of a request, without its LF. Fails if memory runs out.
fn push_request(line: &mut Vec<u8>, request: &Request) -> Result<(), AllocError>
    ensures { OnOk result (line.new.items ≡ line.old.items ++ request_text request.now) }
{
    match request {
        Request::Flush(None) => line.extend_from_slice(Verb::Flush.text()),
        Request::Flush(Some(scope)) => push_scoped(line, Verb::Flush, scope),
        Request::Hold(scope) => push_scoped(line, Verb::Hold, scope),
        Request::Release(scope) => push_scoped(line, Verb::Release, scope),
        Request::Return(names) => push_named(line, Verb::Return, names.as_slice()),
        Request::Discard(names) => push_named(line, Verb::Discard, names.as_slice()),
        Request::Reload => line.extend_from_slice(Verb::Reload.text()),
        Request::Drain { seconds } => {
            line.extend_from_slice(Verb::Drain.text())?;
            line.extend_from_slice(b" ")?;
            push_number(line, u64::from(*seconds))
        }
    }
}

/// Adds a verb and the mail that it is about. Fails if memory runs out.
fn push_scoped(line: &mut Vec<u8>, verb: Verb, scope: &Scope) -> Result<(), AllocError>
    ensures { OnOk result (line.new.items
        ≡ line.old.items ++ line_text (verb_text verb) (Some (scope_text scope.now))) }
{
    line.extend_from_slice(verb.text())?;
    line.extend_from_slice(b" ")?;
    push_scope(line, scope)
}

/// Adds a verb and the recipients that it is about. Fails if memory runs out.
fn push_named(line: &mut Vec<u8>, verb: Verb, names: &[Named]) -> Result<(), AllocError>
    ensures { OnOk result (line.new.items
        ≡ line.old.items ++ line_text (verb_text verb) (Some (names_text names.now))) }
{
    line.extend_from_slice(verb.text())?;
    line.extend_from_slice(b" ")?;
    push_names(line, names)
}
