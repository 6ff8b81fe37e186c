//! Judges command lines by the reply table. Nothing is written here.
ghost use Rattle.std.specs.Prelude.{◌≡◌, ℕ, Ok, IfOk};
ghost use Rattle.relay_lines.specs.Command as line;
ghost use Rattle.relay_lines.specs.Command.{reading_of};
ghost use Rattle.relay_envelope.specs.Mail.{mail_reading, rcpt_reading, rcpt_value};
ghost use Rattle.relay_server.specs.Bounds.{IsHeld};
ghost use Rattle.relay_server.specs.ReplyTable.{Replies, course_of_data, course_of_mail, course_of_rcpt};
ghost use Rattle.relay_server.specs.ReplyTable.{row_of_envelope_fault, row_of_fault, row_of_hello, state_after_fault};
ghost use Rattle.relay_server.specs.ReplyTable.{without_transaction};
ghost use Rattle.relay_server.specs.Setup.{setup_of};
ghost use Rattle.relay_server.specs.State as standing;
ghost use Rattle.relay_server.specs.State.{client_of};
ghost use Rattle.relay_server.specs.Values.{IsChunked, IsJudged, IsReplied, IsReplyHeld, command_state_of};

use crate::client::Client;
use crate::reply_table::Row;
use crate::server::Server;
use crate::state::{CommandState, State, Transaction};
use relay_body::ChunkReader;
use relay_envelope::{Envelope, EnvelopeFault, Mail, Rcpt, Recipient, read_mail, read_rcpt};
use relay_lines::{BdatArgument, Command, LineFault};
use relay_routes::Table;
use relay_trace::Protocol;
use std::alloc::AllocError;

/// The most recipients of a transaction. RFC 5321, 4.5.3.1.8, asks for at least as many.
const RECIPIENT_LIMIT: usize = 100;

/// The result of a command line.
pub(crate) enum Judged {
    /// The row that answers it, and the state after it.
    Replied(Row, State),
    /// A chunk, which the reader awaits, and whether it ends the content.
    Gathers(Transaction, ChunkReader, bool),
    /// A chunk of this many octets that is refused: the row that answers it, and the state after it.
    Refuses(Row, CommandState, u32),
}

/// Returns what a command line leads to. Faults of a line come before its place in the order of commands is checked.
pub(crate) fn judge(
    server: &Server,
    table: &Table,
    text: &[u8],
    state: CommandState,
) -> Result<Judged, AllocError>
    requires { IsHeld server.now.max_content state }
    ensures { IfOk result (IsJudged (setup_of server.now table.now) (reading_of text.now)
        (command_state_of state)) }
{
    match Command::parse(text) {
        Err(fault) => Ok(judge_fault(fault, state)),
        Ok(command) => judge_command(server, table, command, state),
    }
}

/// Judges a command.
fn judge_command(
    server: &Server,
    table: &Table,
    command: Command<'_>,
    state: CommandState,
) -> Result<Judged, AllocError>
    requires { IsHeld server.now.max_content state }
    ensures { IfOk result (IsJudged (setup_of server.now table.now) (Ok (line.value_of command.entry))
        (command_state_of state)) }
{
    match command {
        Command::Helo(word) => greet(server, word, Protocol::Smtp),
        Command::Ehlo(word) => greet(server, word, Protocol::Esmtp),
        Command::Mail(text) => judge_mail(server, read_mail(text), state),
        Command::Rcpt(text) => judge_rcpt(server, table, read_rcpt(text), state),
        Command::Data => Ok(judge_data(state)),
        Command::Bdat(argument) => Ok(judge_bdat(server, argument, state)),
        Command::Rset => Ok(Judged::Replied(Row::Done, State::Command(reset(state)))),
        Command::Noop => Ok(Judged::Replied(Row::Done, State::Command(state))),
        Command::Vrfy => Ok(Judged::Replied(Row::NotVerified, State::Command(state))),
        Command::Help => Ok(Judged::Replied(Row::SeeStandard, State::Command(state))),
        Command::Quit => Ok(Judged::Replied(Row::Closing, State::Closed)),
    }
}

/// Answers a fault of a line. After a bad chunk size nobody knows what follows, so the connection closes.
fn judge_fault(fault: LineFault, state: CommandState) -> Judged
    ensures course { IsReplied (Replies (row_of_fault fault) (state_after_fault fault
        (command_state_of state))) result }
    ensures held { (limit : ℕ) → IsHeld limit state → IsReplyHeld limit result }
{
    match fault {
        LineFault::Unknown => Judged::Replied(Row::UnknownCommand, State::Command(state)),
        LineFault::BadByte => Judged::Replied(Row::BadOctet, State::Command(state)),
        LineFault::BadArgument => Judged::Replied(Row::BadArgument, State::Command(state)),
        LineFault::NotOffered => Judged::Replied(Row::NotOffered, State::Command(state)),
        LineFault::BadChunkSize => Judged::Replied(Row::BadChunkSize, State::Closed),
    }
}

/// HELO and EHLO greet the client, and give an open transaction up (RFC 5321, section 4.1.4).
fn greet(server: &Server, word: &[u8], protocol: Protocol) -> Result<Judged, AllocError>
    ensures course { IfOk result (IsReplied
        (Replies (row_of_hello protocol) (standing.Command (standing.Greeted (client_of word.now protocol))))) }
    ensures held { IfOk result (IsReplyHeld server.now.max_content) }
{
    let client = Client::new(server.alloc, word, protocol)?;
    let row = match protocol {
        Protocol::Smtp => Row::Hello,
        Protocol::Esmtp => Row::Extensions,
    };
    Ok(Judged::Replied(row, State::Command(CommandState::Greeted(client))))
}

/// MAIL opens a transaction where the client is greeted and none is open.
fn judge_mail(
    server: &Server,
    mail: Result<Mail<'_>, EnvelopeFault>,
    state: CommandState,
) -> Result<Judged, AllocError>
    requires { IsHeld server.now.max_content state }
    ensures course { IfOk result (IsReplied (course_of_mail (mail_reading mail.entry)
        (command_state_of state))) }
    ensures held { IfOk result (IsReplyHeld server.now.max_content) }
{
    let mail = match mail {
        Err(fault) => {
            let row = row_of_envelope_fault(fault);
            return Ok(Judged::Replied(row, State::Command(state)));
        }
        Ok(mail) => mail,
    };
    match state {
        CommandState::Greeted(client) => {
            let envelope = Envelope::new(server.alloc, mail)?;
            let transaction = Transaction { client, envelope };
            Ok(Judged::Replied(
                Row::SenderOk,
                State::Command(CommandState::Open(transaction)),
            ))
        }
        state => Ok(out_of_sequence(state)),
    }
}

/// RCPT adds a recipient.
fn judge_rcpt(
    server: &Server,
    table: &Table,
    rcpt: Result<Rcpt<'_>, EnvelopeFault>,
    state: CommandState,
) -> Result<Judged, AllocError>
    requires { IsHeld server.now.max_content state }
    ensures course { IfOk result (IsReplied
        (course_of_rcpt (setup_of server.now table.now) (rcpt_reading rcpt.entry) (command_state_of state))) }
    ensures held { IfOk result (IsReplyHeld server.now.max_content) }
{
    let rcpt = match rcpt {
        Err(fault) => {
            let row = row_of_envelope_fault(fault);
            return Ok(Judged::Replied(row, State::Command(state)));
        }
        Ok(rcpt) => rcpt,
    };
    match state {
        CommandState::Open(transaction) => add(server, table, rcpt, transaction),
        state => Ok(out_of_sequence(state)),
    }
}

/// A recipient is added if there is room, its path isn't refused, and a hop takes its domain.
fn add(
    server: &Server,
    table: &Table,
    rcpt: Rcpt<'_>,
    mut transaction: Transaction,
) -> Result<Judged, AllocError>
    ensures course { IfOk result (IsReplied
        (course_of_rcpt (setup_of server.now table.now) (Ok (rcpt_value rcpt.entry))
        (standing.Open transaction.client transaction.envelope))) }
    ensures held { IfOk result (IsReplyHeld server.now.max_content) }
{
    if transaction.envelope.recipients.len() >= RECIPIENT_LIMIT {
        return Ok(Judged::Replied(
            Row::TooManyRecipients,
            State::Command(CommandState::Open(transaction)),
        ));
    }
    if server.routed_paths.refuses(&rcpt.path) {
        return Ok(Judged::Replied(
            Row::RoutedAddress,
            State::Command(CommandState::Open(transaction)),
        ));
    }
    if table.hop(&rcpt.path).is_none() {
        return Ok(Judged::Replied(
            Row::NoRoute,
            State::Command(CommandState::Open(transaction)),
        ));
    }
    let recipient = Recipient::new(server.alloc, rcpt)?;
    transaction.envelope.recipients.push(recipient)?;
    Ok(Judged::Replied(
        Row::RecipientOk,
        State::Command(CommandState::Open(transaction)),
    ))
}

/// DATA begins the mail data of a transaction with a recipient.
fn judge_data(state: CommandState) -> Judged
    ensures course { IsReplied (course_of_data (command_state_of state)) result }
    ensures held { (limit : ℕ) → IsHeld limit state → IsReplyHeld limit result }
{
    match state {
        CommandState::Open(transaction) => {
            if transaction.envelope.recipients.is_empty() {
                Judged::Replied(
                    Row::NoValidRecipients,
                    State::Command(CommandState::Open(transaction)),
                )
            } else {
                Judged::Replied(Row::StartMailInput, State::Receiving(transaction))
            }
        }
        state => out_of_sequence(state),
    }
}

/// BDAT begins a chunk of a transaction with a recipient. The octets of another are dropped.
fn judge_bdat(server: &Server, argument: BdatArgument, state: CommandState) -> Judged
    requires { IsHeld server.now.max_content state }
    ensures { IsChunked server.now.max_content argument (command_state_of state) result }
{
    let BdatArgument { size, last } = argument;
    match state {
        CommandState::Open(transaction) => {
            if transaction.envelope.recipients.is_empty() {
                let spent = CommandState::Spent(transaction.into_client());
                return Judged::Refuses(Row::NoValidRecipients, spent, size);
            }
            let mut reader = ChunkReader::new(server.alloc, server.max_content);
            reader.begin(size);
            Judged::Gathers(transaction, reader, last)
        }
        CommandState::Gathering(gathering) => {
            let (transaction, mut reader) = gathering.into_parts();
            reader.begin(size);
            Judged::Gathers(transaction, reader, last)
        }
        state => Judged::Refuses(Row::BadSequence, state, size),
    }
}

/// The command may not come here, and changes nothing.
fn out_of_sequence(state: CommandState) -> Judged
    ensures { result ≡ Judged.Replied Row.BadSequence (State.Command state) }
{
    Judged::Replied(Row::BadSequence, State::Command(state))
}

/// RSET gives the transaction up.
fn reset(state: CommandState) -> CommandState
    ensures state { command_state_of result ≡ without_transaction (command_state_of state) }
    ensures held { (limit : ℕ) → IsHeld limit result }
{
    match state {
        CommandState::Fresh => CommandState::Fresh,
        CommandState::Greeted(client) => CommandState::Greeted(client),
        CommandState::Open(transaction) => CommandState::Greeted(transaction.into_client()),
        CommandState::Gathering(gathering) => CommandState::Greeted(gathering.into_client()),
        CommandState::Spent(client) => CommandState::Greeted(client),
    }
}

/// Returns the row of a fault after a colon.
fn row_of_envelope_fault(fault: EnvelopeFault) -> Row
    ensures { result ≡ row_of_envelope_fault fault }
{
    match fault {
        EnvelopeFault::BadPath => Row::BadPath,
        EnvelopeFault::BadValue => Row::BadValue,
        EnvelopeFault::Repeated => Row::Repeated,
        EnvelopeFault::UnknownParameter => Row::UnknownParameter,
    }
}
