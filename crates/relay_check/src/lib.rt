//! Errors and risks of a configuration: each finding with its place in the file, the value in question, and what to
//! write instead.
#![tactic(auto)]

mod checking;
mod document;
mod findings;
mod known_keys;
mod networks;
mod position;
mod risks;
mod route;
mod routes;
mod shown;
mod values;

pub use checking::{check, warn};
pub use route::show_route;
