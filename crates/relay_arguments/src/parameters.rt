//! The parameters of the subcommands.
use crate::steering::MOST_SECONDS;
use crate::syntax::{Form, Parameter, Takes};
use crate::words::{MOST_ROUNDS, MOST_WORKERS};

pub(crate) const FILE: Parameter = Parameter {
    name: "config",
    form: Form::Required,
    takes: Takes::Text("FILE"),
    help: "The configuration file",
};

pub(crate) const DEFAULT_FILE: Parameter = Parameter {
    name: "config",
    form: Form::Optional,
    takes: Takes::Text("FILE"),
    help: "The configuration file [default: /etc/relayd.toml]",
};

pub(crate) const LONG: Parameter = Parameter {
    name: "long",
    form: Form::Optional,
    takes: Takes::Nothing,
    help: "Print a table, oldest messages first",
};

pub(crate) const JSON: Parameter = Parameter {
    name: "json",
    form: Form::Optional,
    takes: Takes::Nothing,
    help: "Print a JSON object a line",
};

pub(crate) const LISTED_HOP: Parameter = Parameter {
    name: "hop",
    form: Form::Optional,
    takes: Takes::Text("NAME"),
    help: "List what this next hop gets",
};

pub(crate) const LISTED_FROM: Parameter = Parameter {
    name: "from",
    form: Form::Optional,
    takes: Takes::Text("PATH"),
    help: "List messages with this reverse path",
};

pub(crate) const LISTED_TO: Parameter = Parameter {
    name: "to",
    form: Form::Optional,
    takes: Takes::Text("PATH"),
    help: "List recipients with this path",
};

pub(crate) const OLDER: Parameter = Parameter {
    name: "older",
    form: Form::Optional,
    takes: Takes::Text("AGE"),
    help: "List messages of this age and older, as 90s, 30m, 4h or 2d",
};

pub(crate) const NUMBER: Parameter = Parameter {
    name: "number",
    form: Form::Positional,
    takes: Takes::Number("NUMBER", 1, u64::MAX),
    help: "The number of the message",
};

pub(crate) const RAW: Parameter = Parameter {
    name: "raw",
    form: Form::Optional,
    takes: Takes::Nothing,
    help: "Write the text alone, octet by octet",
};

pub(crate) const PROMETHEUS: Parameter = Parameter {
    name: "prometheus",
    form: Form::Optional,
    takes: Takes::Nothing,
    help: "Print metrics in Prometheus' text format",
};

pub(crate) const ROUTE: Parameter = Parameter {
    name: "route",
    form: Form::Optional,
    takes: Takes::Text("ADDRESS"),
    help: "Print the next hop of this address instead: its name and address",
};

pub(crate) const QUIET: Parameter = Parameter {
    name: "quiet",
    form: Form::Optional,
    takes: Takes::Nothing,
    help: "Log nothing but a fault on standard error",
};

pub(crate) const ROUNDS: Parameter = Parameter {
    name: "rounds",
    form: Form::Optional,
    takes: Takes::Number("N", 1, MOST_ROUNDS),
    help: "How many rounds of clients to serve, 1 to 1,000,000 [default: 1]",
};

pub(crate) const WORKERS: Parameter = Parameter {
    name: "workers",
    form: Form::Optional,
    takes: Takes::Number("W", 1, MOST_WORKERS),
    help: "How many clients to wait for and serve at once in a round, 1 to 64 [default: 1]",
};

pub(crate) const LOG: Parameter = Parameter {
    name: "log",
    form: Form::Optional,
    takes: Takes::Nothing,
    help: "Log on standard error what is done",
};

pub(crate) const STEERED_HOP: Parameter = Parameter {
    name: "hop",
    form: Form::Optional,
    takes: Takes::Text("NAME"),
    help: "The mail of this next hop",
};

pub(crate) const STEERED_MESSAGE: Parameter = Parameter {
    name: "message",
    form: Form::Optional,
    takes: Takes::Number("NUMBER", 1, u64::MAX),
    help: "The message of this number",
};

pub(crate) const SECONDS: Parameter = Parameter {
    name: "seconds",
    form: Form::Optional,
    takes: Takes::Number("N", 0, MOST_SECONDS),
    help: "Cut the attempts that have not ended after N seconds, 0 to 65,535 [default: 60]",
};

pub(crate) const CHOSEN_MESSAGES: Parameter = Parameter {
    name: "message",
    form: Form::Optional,
    takes: Takes::Text("NUMBERS"),
    help: "Only the messages with these numbers, as 15,16",
};

pub(crate) const CHOSEN_HOP: Parameter = Parameter {
    name: "hop",
    form: Form::Optional,
    takes: Takes::Text("NAME"),
    help: "Only recipients of this next hop",
};

pub(crate) const CHOSEN_FROM: Parameter = Parameter {
    name: "from",
    form: Form::Optional,
    takes: Takes::Text("PATH"),
    help: "Only messages with this reverse path",
};

pub(crate) const CHOSEN_TO: Parameter = Parameter {
    name: "to",
    form: Form::Optional,
    takes: Takes::Text("PATH"),
    help: "Only recipients with this path",
};

pub(crate) const SAVE: Parameter = Parameter {
    name: "save",
    form: Form::Optional,
    takes: Takes::Text("FOLDER"),
    help: "First save each message in this folder, to a new file named by its number, as 7.eml",
};

pub(crate) const YES: Parameter = Parameter {
    name: "yes",
    form: Form::Optional,
    takes: Takes::Nothing,
    help: "Withdraw the mail; without this, only print what would be withdrawn",
};

pub(crate) const FILE_TO_MAKE: Parameter = Parameter {
    name: "file",
    form: Form::Positional,
    takes: Takes::Text("FILE"),
    help: "The file to make; it must not exist",
};
