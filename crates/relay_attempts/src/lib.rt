//! The attempts of a node to relay its mail (RFC 5321, sections 4.5.4.1 and 6.1): which work there is, and the attempts
//! that are running.
#![tactic(auto)]

mod attempts;
mod conclude;
mod gathering;
mod give_up;
mod hear;
mod hops;
mod next;
mod outcome;
mod reply;
mod runs;
mod start;
mod stranded;
mod withdraw;
mod withdraw_into;
mod work;

pub use attempts::Attempts;
pub use reply::Replied;
pub use start::Started;
pub use withdraw_into::WithdrawnPlaces;
pub use work::Work;
