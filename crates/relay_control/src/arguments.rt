//! What follows the verb of a request.
ghost use Rattle.std.specs.Prelude.{IfOk, MatchOption, option_map};
ghost use Rattle.relay_control.specs.Request.{AsksNothingOf, AsksOf};

use crate::named::read_names;
use crate::number::read_seconds;
use crate::request::Request;
use crate::scope::{Scope, read_scope};
use crate::verb::Verb;
use std::alloc::{AllocError, Global};

/// Returns the request of this verb with these arguments. Fails if memory runs out.
pub(crate) fn request_of(
    alloc: Global,
    verb: Verb,
    arguments: Option<&[u8]>,
) -> Result<Option<Request>, AllocError>
    ensures { IfOk result (λ found. MatchOption found
        (AsksNothingOf verb (option_map (λ text. text.now) arguments.entry))
        (AsksOf verb (option_map (λ text. text.now) arguments.entry))) }
{
    match (verb, arguments) {
        (Verb::Flush, None) => Ok(Some(Request::Flush(None))),
        (Verb::Flush, Some(text)) => match read_scope(alloc, text)? {
            Some(scope) => Ok(Some(Request::Flush(Some(scope)))),
            None => Ok(None),
        },
        (Verb::Hold, Some(text)) => match read_scope(alloc, text)? {
            Some(scope) => Ok(Some(Request::Hold(scope))),
            None => Ok(None),
        },
        (Verb::Release, Some(text)) => match read_scope(alloc, text)? {
            Some(scope) => Ok(Some(Request::Release(scope))),
            None => Ok(None),
        },
        (Verb::Return, Some(text)) => match read_names(alloc, text)? {
            Some(names) => Ok(Some(Request::Return(names))),
            None => Ok(None),
        },
        (Verb::Discard, Some(text)) => match read_names(alloc, text)? {
            Some(names) => Ok(Some(Request::Discard(names))),
            None => Ok(None),
        },
        (Verb::Reload, None) => Ok(Some(Request::Reload)),
        (Verb::Drain, Some(text)) => match read_seconds(text) {
            Some(seconds) => Ok(Some(Request::Drain { seconds })),
            None => Ok(None),
        },
        (Verb::Hold | Verb::Release | Verb::Return | Verb::Discard | Verb::Drain, None)
        | (Verb::Reload, Some(_)) => Ok(None),
    }
}
