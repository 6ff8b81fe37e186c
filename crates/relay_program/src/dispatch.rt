ghost use Rattle.std.specs.Prelude.{◌≡◌, ◌≢◌, ◌⊎◌, [], ◌∷◌, map, OnOk};
ghost use Rattle.std.specs.IoError.{error_kind};
ghost use Rattle.clap.specs.Words.{kind_of};
ghost use Rattle.relay_arguments.specs.Arguments.{AreWrong, AskForPlay, AskForSession, faults_in};
ghost use Rattle.relay_program.specs.Play.{IsPlayedWhole};
ghost use Rattle.relay_program.specs.Session.{EndsAs};

use crate::statuses::{DONE, WRONG_ARGUMENTS, ended, fail};
use crate::streams::session;
use crate::tasks::carry_out;
use clap::Error;
use clap::error::ErrorKind;
use relay_arguments::{Subcommand, arguments};
use relay_play::{PlayFault, play};
use std::alloc::Global;
use std::convert::AsStr;
use std::fs::File;
use std::io::{self, ErrorKind as IoErrorKind, Read, Write};
use std::net::{Net, TcpListener, TcpStream};
use std::rt::{Clock, Env, Files};
use std::sync::Wait;
use std::thread::Threads;

/// Runs the subcommand that the arguments name, the first of which is the program's name. Returns the exit status: 0
/// for success; 1 for a fault, which gets a line on `errors`, or if `check` finds an error; 2 for wrong arguments, with
/// the argument parser's text on `errors`. `--help` and `--version` write that parser's text to `writer`, and succeed:
/// the second is the program's name and `version`. `run` logs to `log` from a thread of its own: `log` and `errors` are
/// two writers of one stream.
pub fn command<
    S: AsStr,
    F: Files<File = File>
        + Env
        + Clock
        + AllocGlobal
        + Net<Listener = TcpListener, Stream = TcpStream>
        + Threads
        + Wait
        + Sync
        + Send
        + Copy
        + 'static,
    R: Read,
    W: Write,
    E: Write,
    L: Write + Send + Drop + 'static,
>(
    alloc: Global,
    system: &F,
    version: &str,
    words: &[S],
    reader: &mut R,
    writer: &mut W,
    errors: &mut E,
    log: L,
) -> u8
    ensures session { AskForSession (map S.text words.now)
        → EndsAs result (R.remaining reader.old) (R.remaining reader.new) (W.contents writer.old)
        (W.contents writer.new) }
    ensures play { AskForPlay (map S.text words.now) → result ≡ 0
        → IsPlayedWhole (R.remaining reader.old) (R.remaining reader.new) }
    ensures status { faults_in (map S.text words.now) ≡ [] → (result ≡ 0) ⊎ (result ≡ 1) }
    ensures wrong { AreWrong (faults_in (map S.text words.now))
        → ((result ≡ 1) ⊎ (result ≡ 2)) × (W.contents writer.new ≡ W.contents writer.old) }
    ensures help { (faults_in (map S.text words.now) ≡ ErrorKind.DisplayHelp ∷ [])
        ⊎ (faults_in (map S.text words.now) ≡ ErrorKind.DisplayVersion ∷ []) → (result ≡ 0) ⊎ (result ≡ 1) }
    ensures unread { ¬ AskForSession (map S.text words.now) → ¬ AskForPlay (map S.text words.now)
        → R.remaining reader.new ≡ R.remaining reader.old }
{
    match arguments(alloc, version, words) {
        Ok(Subcommand::Session) => ended(session(alloc, reader, writer), errors),
        Ok(Subcommand::Play) => ended(play_script(alloc, reader, writer), errors),
        Ok(Subcommand::Task(task)) => carry_out(alloc, system, task, writer, errors, log),
        Err(error) => explain(&error, writer, errors),
    }
}

/// Plays a script to its end, and drops its relays.
fn play_script<R: Read, W: Write>(
    alloc: Global,
    reader: &mut R,
    writer: &mut W,
) -> Result<(), PlayFault>
    ensures { OnOk result (IsPlayedWhole (R.remaining reader.old) (R.remaining reader.new)) }
{
    let _pair = play(alloc, reader, writer)?;
    Ok(())
}

/// Returns the exit status if the arguments can't be read: 1 if memory ran out, else 2, because one isn't UTF-8. Writes
/// a line to `errors`.
pub fn refuse_words<E: Write>(error: &io::Error, errors: &mut E) -> u8
    ensures memory { error_kind error.now ≡ IoErrorKind.OutOfMemory → result ≡ 1 }
    ensures wrong { error_kind error.now ≢ IoErrorKind.OutOfMemory → result ≡ 2 }
{
    match error.kind() {
        IoErrorKind::OutOfMemory => fail(errors, "no memory"),
        _ => {
            // If this line can't be written, nothing is left to do: the exit status reports the fault.
            let _ = writeln!(errors, "relayd: an argument is not UTF-8");
            WRONG_ARGUMENTS
        }
    }
}

/// Returns the exit status if the standard streams can't be opened, and writes a line to `errors`.
pub fn refuse_streams<E: Write>(errors: &mut E) -> u8
    ensures { result ≡ 1 }
{
    fail(errors, "standard streams")
}

/// Writes the argument parser's text to its stream, and returns the exit status.
fn explain<W: Write, E: Write>(error: &Error, writer: &mut W, errors: &mut E) -> u8
    ensures help { (kind_of error.now ≡ ErrorKind.DisplayHelp) ⊎ (kind_of error.now ≡ ErrorKind.DisplayVersion)
        → (result ≡ 0) ⊎ (result ≡ 1) }
    ensures status { kind_of error.now ≢ ErrorKind.DisplayHelp → kind_of error.now ≢ ErrorKind.DisplayVersion
        → (result ≡ 1) ⊎ (result ≡ 2) }
    ensures memory { kind_of error.now ≡ ErrorKind.OutOfMemory → result ≡ 1 }
    ensures wrong { kind_of error.now ≢ ErrorKind.DisplayHelp → kind_of error.now ≢ ErrorKind.DisplayVersion
        → kind_of error.now ≢ ErrorKind.OutOfMemory → result ≡ 2 }
    ensures writer { kind_of error.now ≢ ErrorKind.DisplayHelp → kind_of error.now ≢ ErrorKind.DisplayVersion
        → writer.new ≡ writer.old }
{
    match error.kind() {
        ErrorKind::DisplayHelp | ErrorKind::DisplayVersion => {
            match write!(writer, "{error}").and_then(|()| writer.flush()) {
                Ok(()) => DONE,
                Err(_) => fail(errors, "output"),
            }
        }
        ErrorKind::OutOfMemory => fail(errors, "no memory"),
        _ => {
            // If this text can't be written, nothing is left to do: the exit status reports the fault.
            let _ = write!(errors, "{error}");
            WRONG_ARGUMENTS
        }
    }
}
