//! The subcommands that work on the files of a configuration.
ghost use Rattle.std.specs.Prelude.{◌≡◌, ◌⊎◌};

use crate::looks::look;
use crate::relaying::relay;
use crate::statuses::{answered, ended, ended_alone};
use relay_arguments::{Control, Task};
use relay_check::{check, show_route};
use relay_files::{Fault, compact, init};
use relay_steering::{Asked, save, steer, withdraw};
use std::alloc::Global;
use std::fs::File;
use std::io::Write;
use std::net::{Net, TcpListener, TcpStream};
use std::rt::{Clock, Env, Files};
use std::sync::Wait;
use std::thread::Threads;

/// Carries out a task, and returns the exit status: 0 for success; 1 for a fault, which gets a line on `errors`, or if
/// `check` finds an error. `run` logs to `log` from a thread of its own.
pub(crate) fn carry_out<
    F: Files<File = File>
        + Env
        + Clock
        + AllocGlobal
        + Net<Listener = TcpListener, Stream = TcpStream>
        + Threads
        + Wait
        + Sync
        + Send
        + Copy
        + 'static,
    W: Write,
    E: Write,
    L: Write + Send + Drop + 'static,
>(alloc: Global, system: &F, task: Task<'_>, writer: &mut W, errors: &mut E, log: L) -> u8
    ensures { (result ≡ 0) ⊎ (result ≡ 1) }
{
    match task {
        Task::Init(file) => ended(init(alloc, system, file), errors),
        Task::Compact(file) => ended_alone(compact(alloc, system, file, writer), errors),
        Task::Check { file, route } => {
            answered(look_into(alloc, system, file, route, writer), errors)
        }
        Task::Look(asked) => ended(look(alloc, system, asked, writer), errors),
        Task::Relay(asked) => relay(alloc, system, asked, writer, errors, log),
        Task::Control(asked) => control(alloc, system, asked, writer, errors),
    }
}

/// Checks a configuration, or writes the next hop of an address. Returns whether a relay can run with it, or whether
/// there is a next hop.
fn look_into<F: Files<File = File>, W: Write>(
    alloc: Global,
    system: &F,
    file: &str,
    route: Option<&str>,
    writer: &mut W,
) -> Result<bool, Fault> {
    match route {
        Some(address) => show_route(alloc, system, file, address, writer),
        None => check(alloc, system, file, writer),
    }
}

/// Steers a running relay, or works on queued mail by hand. Returns the exit status.
fn control<F: Files<File = File> + Env + Clock + AllocGlobal + Net, W: Write, E: Write>(
    alloc: Global,
    system: &F,
    asked: Control<'_>,
    writer: &mut W,
    errors: &mut E,
) -> u8
    ensures { (result ≡ 0) ⊎ (result ≡ 1) }
{
    match asked {
        Control::Steer { file, asked } => ended(steer(alloc, system, file, asked, writer), errors),
        Control::Withdraw {
            file,
            removal,
            choice,
            folder,
            yes,
        } => {
            let asked = Asked {
                removal,
                choice,
                folder,
                confirmed: yes,
            };
            ended(
                withdraw(alloc, system, file, &asked, writer, errors),
                errors,
            )
        }
        Control::Save { file, number, into } => {
            ended(save(alloc, system, file, number, into), errors)
        }
    }
}
