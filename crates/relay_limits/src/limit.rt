ghost use Rattle.std.specs.Prelude.{◌≡◌, ◌<◌};
ghost use Rattle.relay_limits.specs.Limits.{default_of, limit_text, most_of};

use std::fmt;

/// A key of a configuration that only a relay which stays up reads, in the order in which they are checked.
#[derive(Clone, Copy, Debug, Drop, PartialEq, Eq)]
pub enum Limit {
    /// The most sessions of one client's address at a time.
    SessionsPerClient,
    /// The most attempts at one next hop's address at a time.
    AttemptsPerHop,
    /// The most recipients of one message in an attempt.
    RecipientsPerAttempt,
    /// How long a client is waited for, in seconds (RFC 5321, 4.5.3.2.7).
    ClientTimeout,
    /// Where the page that shows the relay's state listens.
    StatusListen,
    /// How the lines of the log are written.
    Log,
    /// The networks of balancers.
    Balancers,
    /// The networks of the clients that may connect.
    Clients,
    /// The path of the control socket.
    Control,
    /// The group that may use the control socket.
    ControlGroup,
}

impl Limit {
    /// Returns the key as a document has it.
    pub fn text(self) -> &'static str
        ensures { result.now ≡ limit_text self }
    {
        match self {
            Limit::SessionsPerClient => "sessions_per_client",
            Limit::AttemptsPerHop => "attempts_per_hop",
            Limit::RecipientsPerAttempt => "recipients_per_attempt",
            Limit::ClientTimeout => "client_timeout",
            Limit::StatusListen => "status_listen",
            Limit::Log => "log",
            Limit::Balancers => "balancers",
            Limit::Clients => "clients",
            Limit::Control => "control",
            Limit::ControlGroup => "control_group",
        }
    }

    /// Returns the most that it may be, if it is a number; the least is 1.
    pub(crate) fn most(self) -> u16
        ensures most { result ≡ most_of self }
    {
        match self {
            Limit::SessionsPerClient | Limit::AttemptsPerHop => 64,
            Limit::RecipientsPerAttempt => 100,
            Limit::ClientTimeout => 3_600,
            Limit::StatusListen
            | Limit::Log
            | Limit::Balancers
            | Limit::Clients
            | Limit::Control
            | Limit::ControlGroup => 0,
        }
    }

    /// Returns what it is where a document says nothing of it, if it is a number.
    pub(crate) fn default(self) -> u16
        ensures default { result ≡ default_of self }
    {
        match self {
            Limit::SessionsPerClient => 32,
            Limit::AttemptsPerHop => 20,
            Limit::RecipientsPerAttempt => 15,
            Limit::ClientTimeout => 300,
            Limit::StatusListen
            | Limit::Log
            | Limit::Balancers
            | Limit::Clients
            | Limit::Control
            | Limit::ControlGroup => 0,
        }
    }
}

impl fmt::Display for Limit {
    ghost use Rattle.std.specs.Prelude.{Some};

    ghost output = { λ limit. Some (limit_text limit) };

    fn fmt<W: fmt::Write>(&self, f: &mut fmt::Formatter<W>) -> fmt::Result {
        f.write_str(self.text())
    }
}
