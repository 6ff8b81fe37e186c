//! How long to wait for a next hop, by what was sent last (RFC 5321, section 4.5.3.2).
ghost use Rattle.std.specs.Prelude.{◌≡◌};
ghost use Rattle.relay_next_hops.specs.Phases.{is_in_transaction, patience};

/// How many seconds connecting may take.
const CONNECT_SECONDS: u64 = 30;

/// How many seconds the greeting, and the reply to EHLO, MAIL or RCPT may take (sections 4.5.3.2.1 to 4.5.3.2.3).
const COMMAND_SECONDS: u64 = 300;

/// How many seconds the reply to DATA may take (section 4.5.3.2.4).
const DATA_SECONDS: u64 = 120;

/// How many seconds a next hop may take no octet of the mail data (section 4.5.3.2.5).
const BLOCK_SECONDS: u64 = 180;

/// How many seconds the reply to complete mail data may take (section 4.5.3.2.6).
const CONTENT_SECONDS: u64 = 600;

/// How the commands before RCPT begin.
const COMMANDS: [&[u8]; 3] = [b"EHLO ", b"HELO ", b"MAIL FROM:"];

/// What is waited for.
#[derive(Clone, Copy, PartialEq, Eq)]
pub(crate) enum Phase {
    /// The connection.
    Connecting,
    /// The greeting, or the reply to EHLO, HELO or MAIL.
    Command,
    /// The reply to RCPT.
    Recipient,
    /// The reply to DATA.
    Data,
    /// The transfer of the mail data, and the reply to it.
    Content,
}

impl Phase {
    /// Returns what is waited for after these octets were sent: the reply to the last of their commands, or to the mail
    /// data after them. DATA and mail data are sent once all earlier commands are answered. A next hop that replies too
    /// early gets several commands at once; it has answered all but the last of them.
    pub(crate) fn after(self, octets: &[u8]) -> Self {
        let mut phase = self;
        for line in octets.split_inclusive(|octet| *octet == b'\n') {
            phase = phase.after_line(line);
            if phase == Phase::Content {
                return phase;
            }
        }
        phase
    }

    /// Returns what is waited for after a line was sent. Mail data begins with a trace field, with a line of a report,
    /// or with the BDAT line of its chunk. Nothing is waited for after QUIT.
    fn after_line(self, line: &[u8]) -> Self {
        if line == b"QUIT\r\n".as_slice() {
            self
        } else if line == b"DATA\r\n".as_slice() {
            Phase::Data
        } else if line.starts_with(b"RCPT TO:") {
            Phase::Recipient
        } else if COMMANDS.iter().any(|verb| line.starts_with(verb)) {
            Phase::Command
        } else {
            Phase::Content
        }
    }

    /// Returns whether recipients of a mail transaction were sent, or more of it (RFC 5321, section 3.3).
    pub(crate) fn is_in_transaction(self) -> bool
        ensures { result ≡ is_in_transaction self }
    {
        match self {
            Phase::Connecting | Phase::Command => false,
            Phase::Recipient | Phase::Data | Phase::Content => true,
        }
    }

    /// Returns how many seconds may pass without an octet; `writes` says whether octets are still to be written.
    pub(crate) fn seconds(self, writes: bool) -> u64
        ensures { result ≡ patience self writes }
    {
        match self {
            Phase::Connecting => CONNECT_SECONDS,
            Phase::Command | Phase::Recipient => COMMAND_SECONDS,
            Phase::Data => DATA_SECONDS,
            Phase::Content if writes => BLOCK_SECONDS,
            Phase::Content => CONTENT_SECONDS,
        }
    }
}
