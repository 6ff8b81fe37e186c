//! The subcommands that serve clients and relay mail.
ghost use Rattle.std.specs.Prelude.{◌≡◌, ◌⊎◌};

use crate::statuses::{DONE, ended_alone, fail_with_advice};
use relay_arguments::Relaying;
use relay_backlog::LogWriter;
use relay_check::{check, warn};
use relay_files::Fault;
use relay_run::run;
use relay_service::{ServeOptions, push, serve};
use std::alloc::{AllocError, Global};
use std::fs::File;
use std::io::Write;
use std::net::{Net, TcpListener, TcpStream};
use std::rt::{Clock, Files};
use std::sync::Wait;
use std::thread::Threads;
use std::time::Duration;

/// How many seconds `run` may take at its end to write the log lines that are left.
const LOG_SECONDS: u64 = 1;

/// Serves clients and relays mail in the way that is asked for. Returns the exit status.
pub(crate) fn relay<
    F: Files<File = File>
        + Clock
        + Net<Listener = TcpListener, Stream = TcpStream>
        + Threads
        + Wait
        + Sync
        + Send
        + Copy
        + 'static,
    W: Write,
    E: Write,
    L: Write + Send + Drop + 'static,
>(alloc: Global, system: &F, asked: Relaying<'_>, writer: &mut W, errors: &mut E, log: L) -> u8
    ensures { (result ≡ 0) ⊎ (result ≡ 1) }
{
    match asked {
        Relaying::Run { file, quiet } => run_apart_from_its_log(
            alloc, system, file, quiet, writer, errors, log,
        ),
        Relaying::Serve {
            file,
            rounds,
            workers,
            log,
        } => {
            let options = ServeOptions {
                rounds,
                workers,
                log,
            };
            ended_alone(serve(alloc, system, file, options, writer, errors), errors)
        }
        Relaying::Push { file, log } => {
            ended_alone(push(alloc, system, file, writer, errors, log), errors)
        }
    }
}

/// Runs the relay while another thread writes its log lines to `log`, including the line of its fault, so that a
/// stalled reader of the log doesn't stop the relay. At the end writes the lines that are left, for at most a second.
/// If no thread is available, all lines go to `errors` from this one.
fn run_apart_from_its_log<
    F: Files<File = File>
        + Clock
        + Net<Listener = TcpListener, Stream = TcpStream>
        + Threads
        + Wait
        + Send
        + Copy
        + 'static,
    W: Write,
    E: Write,
    L: Write + Send + Drop + 'static,
>(alloc: Global, system: &F, file: &str, quiet: bool, writer: &mut W, errors: &mut E, log: L) -> u8
    ensures { (result ≡ 0) ⊎ (result ≡ 1) }
{
    match LogWriter::start(alloc, *system, log) {
        Ok(mut lines) => {
            let status = run_checked(alloc, system, file, quiet, writer, &mut lines);
            lines.finish(Duration::from_secs(LOG_SECONDS));
            status
        }
        Err(AllocError) => run_checked(alloc, system, file, quiet, writer, errors),
    }
}

/// Runs the relay until it is drained, or fails. Unless it is quiet, first writes the findings in its configuration to
/// `errors`.
fn run_checked<
    F: Files<File = File>
        + Clock
        + Net<Listener = TcpListener, Stream = TcpStream>
        + Wait
        + Send
        + Copy
        + 'static,
    W: Write,
    E: Write,
>(alloc: Global, system: &F, file: &str, quiet: bool, writer: &mut W, errors: &mut E) -> u8
    ensures { (result ≡ 0) ⊎ (result ≡ 1) }
{
    if !quiet {
        // A relay runs even if these can't be written.
        let _ = warn(alloc, system, file, errors);
    }
    match run(alloc, system, file, quiet, writer, errors) {
        Ok(()) => DONE,
        Err(fault) => fail_to_run(alloc, system, file, fault, errors),
    }
}

/// Writes the line of a fault that ended `run`, and then what helps: the errors of the configuration, how to make a
/// spool, or the advice on the fault. Returns the exit status.
fn fail_to_run<F: Files<File = File>, E: Write>(
    alloc: Global,
    system: &F,
    file: &str,
    fault: Fault,
    errors: &mut E,
) -> u8
    ensures { result ≡ 1 }
{
    let status = fail_with_advice(errors, fault);
    // If this can't be written, nothing is left to do: the line of the fault was.
    match fault {
        Fault::Config(_) | Fault::Limit(_) => {
            let _ = check(alloc, system, file, errors);
        }
        Fault::NotASpool => {
            let _ = writeln!(errors, "relayd: run \"relayd init --config {file}\" once");
        }
        _ => {}
    }
    status
}
