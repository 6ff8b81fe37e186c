//! The visitors of the page.
ghost use Rattle.relay_page.specs.Visitor.{Says};

use crate::request::{Asked, judge};
use crate::response::{code_of, refusal_octets};
use mio::net::TcpStream;
use relay_callers::{Callers, Heard, Question};
use std::alloc::{AllocError, Global};

/// The visitors of the page.
pub type Visitors = Callers<TcpStream, Asked>;

impl Question for Asked {
    ghost says = { Says };

    fn judge(alloc: Global, octets: &[u8]) -> Result<Heard<Asked>, AllocError> {
        match judge(octets) {
            None => Ok(Heard::More),
            Some(Ok(asked)) => Ok(Heard::Asks(asked)),
            Some(Err(refusal)) => {
                // A response to HEAD has no body (RFC 9110, section 9.3.2).
                let has_body = !octets.starts_with(b"HEAD ");
                let response = refusal_octets(alloc, code_of(refusal), has_body)?;
                Ok(Heard::Refused(response))
            }
        }
    }
}
