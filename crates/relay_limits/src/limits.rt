ghost use Rattle.std.specs.Prelude.{◌≡◌, ◌≤◌, Ok, Err, IfOk, IfErr, Some, option_map};
ghost use Rattle.toml.specs.Data.{string};
ghost use Rattle.toml.specs.View.{table_view, view};
ghost use Rattle.relay_limits.specs.Limits.{FirstFault, ReadsLimit, ReadsLogForm, ReadsPort, Says, most_of, value_of};

use crate::limit::Limit;
use crate::log_form::LogForm;
use crate::port::port_in;
use toml::Value;

/// What bounds a relay that serves many clients at once.
#[derive(Clone, Copy, Debug, Drop, PartialEq, Eq)]
pub struct Limits {
    /// The most sessions of one client's address at a time, 1 to 64.
    pub sessions_per_client: u8,
    /// The most attempts at one next hop's address at a time, 1 to 64.
    pub attempts_per_hop: u8,
    /// The most recipients of one message in an attempt, 1 to 100.
    pub recipients_per_attempt: u8,
    /// How long a client is waited for, in seconds, 1 to 3,600.
    pub client_timeout: u16,
    /// The port of this machine's own address 127.0.0.1 at which the page listens that shows the relay's state, 1 to
    /// 65,535; none if there is no such page.
    pub status_port: Option<u16>,
    /// How the lines of the log are written.
    pub log: LogForm,
}

impl Limits {
    /// Returns the limits that a document says, or the first of them, in the order of [`Limit`], whose value may not
    /// stand there: the first four are integers from 1 to their most, `status_listen` is a text `127.0.0.1:` and a
    /// port, and `log` is `text` or `json`. If they are missing, `sessions_per_client` is 32, `attempts_per_hop` 20,
    /// `recipients_per_attempt` 15 and `client_timeout` 300, there is no page, and the log is text; other keys are
    /// ignored. Allocates nothing.
    pub fn of_document(document: &toml::Table) -> Result<Limits, Limit>
        ensures ok { IfOk result (Says (table_view document.now)) }
        ensures err { IfErr result (FirstFault (table_view document.now)) }
    {
        let sessions_per_client = read_limit(document, Limit::SessionsPerClient)?;
        let attempts_per_hop = read_limit(document, Limit::AttemptsPerHop)?;
        let recipients_per_attempt = read_limit(document, Limit::RecipientsPerAttempt)?;
        let client_timeout = read_limit(document, Limit::ClientTimeout)?;
        let status_port = read_status_port(document)?;
        let log = read_log_form(document)?;
        Ok(Limits {
            sessions_per_client: sessions_per_client as u8,
            attempts_per_hop: attempts_per_hop as u8,
            recipients_per_attempt: recipients_per_attempt as u8,
            client_timeout,
            status_port,
            log,
        })
    }
}

/// Returns the number that a document says of a limit: what it is otherwise where nothing is said.
fn read_limit(document: &toml::Table, limit: Limit) -> Result<u16, Limit>
    ensures reads { ReadsLimit limit (value_of limit (table_view document.now)) result }
    ensures within { IfOk result (λ number. number ≤ most_of limit) }
{
    match member(document, limit) {
        None => Ok(limit.default()),
        Some(value) => match value.as_integer() {
            Some(number) if 1 <= number && number <= limit.most() as i64 => Ok(number as u16),
            _ => Err(limit),
        },
    }
}

/// Returns the port that a document says of the page; none if nothing is said.
fn read_status_port(document: &toml::Table) -> Result<Option<u16>, Limit>
    ensures { ReadsPort (value_of Limit.StatusListen (table_view document.now)) result }
{
    match member(document, Limit::StatusListen) {
        None => Ok(None),
        Some(value) => match value.as_str() {
            Some(text) => read_port(text.as_bytes()),
            None => Err(Limit::StatusListen),
        },
    }
}

/// Returns the port that a text says of the page.
fn read_port(text: &[u8]) -> Result<Option<u16>, Limit>
    ensures { ReadsPort (Some (string text.now)) result }
{
    match port_in(text) {
        Some(port) => Ok(Some(port)),
        None => Err(Limit::StatusListen),
    }
}

/// Returns the form that a document says of the log's lines; text where nothing is said.
fn read_log_form(document: &toml::Table) -> Result<LogForm, Limit>
    ensures { ReadsLogForm (value_of Limit.Log (table_view document.now)) result }
{
    let Some(value) = member(document, Limit::Log) else {
        return Ok(LogForm::Text);
    };
    let Some(text) = value.as_str() else {
        return Err(Limit::Log);
    };
    match LogForm::read(text) {
        Some(form) => Ok(form),
        None => Err(Limit::Log),
    }
}

/// Returns the value of a limit's key.
pub(crate) fn member(document: &toml::Table, limit: Limit) -> Option<&Value>
    ensures { value_of limit (table_view document.now) ≡ option_map (λ value. view value.now) result }
{
    document.get(limit.text())
}
