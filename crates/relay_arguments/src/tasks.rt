//! The subcommands that work on the files of a configuration.
use crate::looks::Listing;
use crate::steering::Steering;
use crate::withdrawing::{Choice, Removal};

/// What the program shall do with the files of a configuration.
#[derive(Clone, Copy, Drop)]
pub enum Task<'a> {
    /// Make a spool, with the configuration in this file.
    Init(&'a str),
    /// Compact the spool, with the configuration in this file.
    Compact(&'a str),
    /// Check a configuration.
    Check {
        /// The configuration file.
        file: &'a str,
        /// The address to find the next hop of, instead of the check.
        route: Option<&'a str>,
    },
    /// Look at the queue.
    Look(Look<'a>),
    /// Serve clients and relay mail.
    Relay(Relaying<'a>),
    /// Steer a running relay, or work on queued mail by hand.
    Control(Control<'a>),
}

/// A look at the queue.
#[derive(Clone, Copy, Drop)]
pub enum Look<'a> {
    /// List the spool, with the configuration in this file.
    List(&'a str),
    /// List queued recipients in detail.
    Listing {
        /// The configuration file.
        file: &'a str,
        /// Which recipients, and how.
        asked: Listing<'a>,
    },
    /// Show a message.
    Show {
        /// The configuration file.
        file: &'a str,
        /// The number of the message.
        number: u64,
        /// Whether to write only its text, octet by octet.
        raw: bool,
    },
    /// Sum up the queue by next hop.
    Status {
        /// The configuration file.
        file: &'a str,
        /// Whether to write metrics for Prometheus.
        prometheus: bool,
    },
}

/// How clients are served and mail is relayed.
#[derive(Clone, Copy, Drop)]
pub enum Relaying<'a> {
    /// Serve clients and relay mail, until the process is stopped.
    Run {
        /// The configuration file.
        file: &'a str,
        /// Whether to log nothing.
        quiet: bool,
    },
    /// Serve clients in rounds, and relay mail after each.
    Serve {
        /// The configuration file.
        file: &'a str,
        /// How many rounds of connections are served, 1 to 1,000,000.
        rounds: u32,
        /// How many connections a round takes, 1 to 64.
        workers: u8,
        /// Whether to log to standard error.
        log: bool,
    },
    /// Relay due mail once.
    Push {
        /// The configuration file.
        file: &'a str,
        /// Whether to log to standard error.
        log: bool,
    },
}

/// What is done with a running relay and with queued mail by hand.
#[derive(Clone, Copy, Drop)]
pub enum Control<'a> {
    /// Send a request to a running relay.
    Steer {
        /// The configuration file.
        file: &'a str,
        /// The request.
        asked: Steering<'a>,
    },
    /// Withdraw queued mail.
    Withdraw {
        /// The configuration file.
        file: &'a str,
        /// How it is withdrawn.
        removal: Removal,
        /// Which mail is withdrawn.
        choice: Choice<'a>,
        /// The folder in which each of the messages is saved before that, if any.
        folder: Option<&'a str>,
        /// Whether to withdraw it, instead of printing what would be withdrawn.
        yes: bool,
    },
    /// Save the text of a message to a new file.
    Save {
        /// The configuration file.
        file: &'a str,
        /// The number of the message.
        number: u64,
        /// The file to make.
        into: &'a str,
    },
}
