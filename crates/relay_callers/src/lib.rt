//! The callers of a local listener: each sends one bounded request, is answered, and is closed by a deadline.
#![tactic(auto)]

mod caller;
mod callers;
mod question;
mod stream;

pub use caller::{CALL_TIME, MOST_OCTETS, MOST_WRITTEN};
pub use callers::{Callers, MOST_CALLERS};
pub use question::{Heard, Question};
pub use stream::CallerStream;
