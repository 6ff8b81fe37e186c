//! Steers a relay from the command line: the clients of the control socket of one that runs, and the withdrawal of mail
//! on a spool on which none runs.
#![tactic(auto)]

mod control_client;
mod exchange;
mod lines;
mod offline;
mod report;
mod requests;
mod saving;
mod steering;
mod steering_fault;
mod withdrawing;

pub use saving::{SaveFault, save};
pub use steering::steer;
pub use steering_fault::SteeringFault;
pub use withdrawing::{Asked, withdraw};
