//! The control socket of a running relay: the requests that steer it, their answers, and who sends them.
#![tactic(auto)]

mod answer;
mod arguments;
mod callers;
mod front;
mod held;
mod held_file;
pub mod laws;
mod line;
mod named;
mod number;
mod refusal;
mod request;
mod scope;
mod verb;

pub use answer::{End, Reply, push_end, push_line, read_answer};
pub use callers::Callers;
pub use held::Held;
pub use held_file::{HeldFault, read_held, write_held};
pub use line::judge;
pub use named::{MOST_NAMED, Named};
pub use refusal::Refusal;
pub use relay_callers::{MOST_CALLERS, MOST_OCTETS};
pub use request::{Request, read_request, write_request};
pub use scope::Scope;
pub use verb::Verb;
