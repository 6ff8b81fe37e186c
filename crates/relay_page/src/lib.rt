//! A page that shows a relay's state to a browser on the same machine, and its metrics for Prometheus.
#![tactic(auto)]

mod history;
mod host;
mod listing;
mod page;
mod plot;
mod request;
mod response;
mod rows;
mod style;
mod survey;
mod visitors;

pub use history::{History, MINUTES, Minute};
pub use listing::{MOST_LISTED, push_cut, push_listed};
pub use page::{MOST_HOPS, Totals, View, page_text};
pub use relay_callers::{MOST_CALLERS as MOST_VISITORS, MOST_OCTETS};
pub use relay_listing::{Course, push_alone, push_head, push_labelled, push_loads, push_sample};
pub use request::{Asked, Refusal, Target, judge};
pub use response::{Code, Kind, refusal_octets, response_octets};
pub use rows::{LastReply, Waiting};
pub use survey::{Mark, PART, Survey};
pub use visitors::Visitors;
