//! What bounds a relay that serves many clients at once: how many sessions and attempts it has, how long it waits, when
//! a next hop is on hold, and when its spool is compacted.
#![tactic(auto)]

mod allowed_clients;
mod balancers;
mod compacting;
mod control;
mod limit;
mod limits;
mod log_form;
mod pace;
mod port;

pub use allowed_clients::AllowedClients;
pub use balancers::Balancers;
pub use compacting::is_worth_compacting;
pub use control::{control_group, control_path};
pub use limit::Limit;
pub use limits::Limits;
pub use log_form::LogForm;
pub use pace::{Outage, Pace};
