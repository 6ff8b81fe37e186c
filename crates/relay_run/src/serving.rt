use crate::acceptor::Acceptor;
use crate::control::ControlSocket;
use crate::journal::Journal;
use crate::shell::{Shell, SystemShell};
use crate::source::Source;
use crate::start::{
    Settings, kept_file, locked_relay, log_form, open_listener, open_page, open_steering,
    read_settings, say_ready,
};
use crate::system::SystemWatch;
use crate::turns::Surroundings;
use mio::Poll;
use relay_files::Fault;
use relay_next_hops::{Sockets, SpareDescriptors};
use relay_slots::SLOT_COUNT;
use relay_status::StatusPage;
use std::alloc::Global;
use std::fs::File;
use std::io::Write;
use std::net::{Net, TcpListener, TcpStream};
use std::rt::{Clock, Files};

/// The most events of one wait: one for each connection and each connection whose header isn't read yet, one for the
/// listener, and those of the page and of the control socket.
const EVENT_COUNT: usize = 4 * SLOT_COUNT + 1 + StatusPage::TOKENS + ControlSocket::TOKENS;

/// Serves clients and relays their mail, in one thread, with up to 64 sessions and 64 attempts at a time. Returns after
/// it has drained, which is asked for by the control socket, or with a fault; the process may be stopped at any time.
/// Faults at the start are checked in this order: the configuration file, its content, its limits, the spool, the
/// listener, the page's listener, the control socket, the file of held mail. If this machine doesn't have the
/// listener's address yet, waits for it for a minute. Then writes a line `ready HOST ADDRESS` to `writer`, and, unless
/// `quiet` is set, logs to `errors`, with the time of each line, in the configured format.
///
/// A broken connection ends alone. If the device fails, all connections end, and the spool is opened again when there
/// may be room. Only a failed sync, or too little memory or too few file descriptors before the first client, end the
/// relay.
pub fn run<
    R: Files<File = File> + Clock + Net<Listener = TcpListener, Stream = TcpStream>,
    W: Write,
    E: Write,
>(
    alloc: Global,
    rt: &R,
    path: &str,
    quiet: bool,
    writer: &mut W,
    errors: &mut E,
) -> Result<(), Fault> {
    let Settings {
        config,
        limits,
        balancers,
        allowed,
        control,
        control_group,
    } = read_settings(alloc, rt, path)?;
    let at = config.listen;
    let form = log_form(quiet, &limits);
    let source = Source {
        path: path.to_string(alloc)?,
        quiet,
        control,
        control_group,
        status_port: limits.status_port,
    };
    let (relay, room) = locked_relay(alloc, rt, config)?;
    let dial = Sockets::new(rt, SpareDescriptors::new(alloc, kept_file(rt, path)?)?);
    let Ok(poll) = Poll::new(rt) else {
        return Err(Fault::Socket);
    };
    let listener = open_listener(alloc, rt, poll.registry(), at, form, errors)?;
    let page = open_page(alloc, rt, poll.registry(), &limits, &relay)?;
    let steering = open_steering(alloc, rt, poll.registry(), source, &relay)?;
    let acceptor = Acceptor::new(alloc, balancers)?;
    let mut shell: SystemShell = Shell::new(
        alloc, relay, acceptor, room, steering, &limits, allowed,
    )?;
    let held = shell.steering.held_mail.read(rt)?;
    shell.next_hops.set_held(held);
    shell.next_hops.prepare(&shell.relay)?;
    let watch = SystemWatch::new(alloc, rt, poll, page, EVENT_COUNT)?;
    let mut journal = Journal::new(alloc, rt, errors);
    journal.form = form;
    journal.listens(at);
    say_ready(alloc, &shell.relay, at, writer)?;
    let mut surroundings = Surroundings {
        clock: rt,
        listener,
        dial,
        watch,
    };
    let _drained = shell.serve(&mut surroundings, &mut journal)?;
    journal.drained();
    Ok(())
}
