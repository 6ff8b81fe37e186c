//! The callers of the control socket.
ghost use Rattle.std.specs.Prelude.{◌≡◌, IfOk};
ghost use Rattle.relay_control.specs.Answer.{error_text, refusal_text};
ghost use Rattle.relay_control.specs.Caller.{Says};

use crate::answer::{End, push_end};
use crate::line::judge;
use crate::refusal::Refusal;
use crate::request::Request;
use mio::net::UnixStream;
use relay_callers::{Heard, Question};
use std::alloc::{AllocError, Global};

/// The callers of the control socket.
pub type Callers = relay_callers::Callers<UnixStream, Request>;

impl Question for Request {
    ghost says = { Says };

    fn judge(alloc: Global, octets: &[u8]) -> Result<Heard<Request>, AllocError> {
        match judge(alloc, octets)? {
            None => Ok(Heard::More),
            Some(Ok(request)) => Ok(Heard::Asks(request)),
            Some(Err(refusal)) => Ok(Heard::Refused(refusal_answer(alloc, refusal)?)),
        }
    }
}

/// Returns the answer to a refused request. Fails if memory runs out.
fn refusal_answer(alloc: Global, refusal: Refusal) -> Result<Vec<u8>, AllocError>
    ensures { IfOk result (λ answer. answer.items ≡ error_text (refusal_text refusal)) }
{
    let mut answer = Vec::new(alloc);
    push_end(&mut answer, End::Refused(refusal.text()))?;
    Ok(answer)
}
