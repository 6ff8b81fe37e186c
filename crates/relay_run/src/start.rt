//! The start of a relay.
use crate::acceptor::Acceptor;
use crate::control::ControlSocket;
use crate::device::Device;
use crate::held_mail::HeldMail;
use crate::known::Known;
use crate::listen::listener_at;
use crate::reopening::open_bounded;
use crate::room::{Ballast, Room};
use crate::source::Source;
use crate::steering::Steering;
use mio::Registry;
use mio::net::TcpListener;
use relay_disk::FileDisk;
use relay_files::{Fault, configuration_text, locked_node};
use relay_limits::{
    AllowedClients, Balancers, Limit, Limits, LogForm, control_group, control_path,
};
use relay_log::{Counters, Form, Log, RejectionMinutes};
use relay_loop::Relay;
use relay_node::Node;
use relay_routes::{Config, ConfigFault};
use relay_status::StatusPage;
use relay_trace::clock_moment;
use std::alloc::Global;
use std::fs::File;
use std::io::{self, ErrorKind, Write};
use std::net::{Net, SocketAddrV4};
use std::rt::{Clock, Files};
use std::time::Duration;

/// How many seconds to wait for an address that this machine doesn't have yet, as during boot. It is tried once per
/// second.
const ADDRESS_SECONDS: u64 = 60;

/// The token of the page's listener; those of its visitors follow.
pub(crate) const PAGE_TOKEN: usize = Acceptor::TOKEN + 1;

/// What the configuration's file says.
#[derive(Drop)]
pub struct Settings {
    /// The configuration of the node.
    pub config: Config,
    /// The limits of a running relay.
    pub limits: Limits,
    /// The addresses whose connections begin with a PROXY protocol header.
    pub balancers: Balancers,
    /// The clients that may connect.
    pub allowed: AllowedClients,
    /// The path of the control socket, if there is one.
    pub(crate) control: Option<String>,
    /// The number of the group that may use the control socket, if any.
    pub(crate) control_group: Option<u32>,
}

impl Settings {
    /// Returns what a configuration's text says. Faults are checked in this order: the configuration, the limits, the
    /// balancers, the clients that may connect, the control socket, its group.
    pub fn read(alloc: Global, text: &str) -> Result<Self, Fault> {
        let document = document(alloc, text)?;
        let config = Config::of_document(alloc, &document)?;
        let limits = Limits::of_document(&document)?;
        let Some(balancers) = Balancers::of_document(alloc, &document)? else {
            return Err(Fault::Limit(Limit::Balancers));
        };
        let Some(allowed) = AllowedClients::of_document(alloc, &document)? else {
            return Err(Fault::Limit(Limit::Clients));
        };
        let Some(control) = control_path(alloc, &document)? else {
            return Err(Fault::Limit(Limit::Control));
        };
        let Some(control_group) = control_group(&document) else {
            return Err(Fault::Limit(Limit::ControlGroup));
        };
        Ok(Settings {
            config,
            limits,
            balancers,
            allowed,
            control,
            control_group,
        })
    }
}

/// Returns what the file at this path says. Fails first if it can't be read, and then as [`Settings::read`] does.
pub(crate) fn read_settings<F: Files<File = File>>(
    alloc: Global,
    files: &F,
    path: &str,
) -> Result<Settings, Fault> {
    let text = configuration_text(alloc, files, path)?;
    Settings::read(alloc, text.as_str())
}

/// Returns the format of the log; `None` if nothing is logged.
pub(crate) fn log_form(quiet: bool, limits: &Limits) -> Option<Form> {
    if quiet {
        return None;
    }
    match limits.log {
        LogForm::Text => Some(Form::Text),
        LogForm::Json => Some(Form::Json),
    }
}

/// Returns an open file that can be duplicated: the configuration file, because it exists.
pub(crate) fn kept_file<F: Files<File = File>>(files: &F, path: &str) -> Result<File, Fault> {
    match File::open(files, path) {
        Ok(file) => Ok(file),
        Err(error) => Err(Fault::of_input(&error)),
    }
}

fn document(alloc: Global, text: &str) -> Result<toml::Table, Fault> {
    match toml::table_from_str(alloc, text) {
        Ok(document) => Ok(document),
        Err(fault) if fault.is_memory() => Err(Fault::NoMemory),
        Err(_) => Err(Fault::Config(ConfigFault::NotToml)),
    }
}

/// Returns the relay of the spool that the configuration names, whose files are locked for this process, and the room
/// beside it.
pub(crate) fn locked_relay<F: Files<File = File>>(
    alloc: Global,
    files: &F,
    config: Config,
) -> Result<(Relay<FileDisk>, Room), Fault> {
    let node = locked_node(alloc, files, config)?;
    let room = Room::open(alloc, files, node.config())?;
    relay_beside(alloc, node, room)
}

/// Returns the relay of a node, and the room beside its spool. If there is little room, the spool's limit is below the
/// configured one.
pub(crate) fn relay_beside<D: Device + Drop, F: Ballast + Drop>(
    alloc: Global,
    node: Node<D>,
    room: Room<F>,
) -> Result<(Relay<D>, Room<F>), Fault> {
    let mut room = room;
    room.test(node.size());
    let Ok(relay) = Relay::new(alloc, node) else {
        return Err(Fault::NoMemory);
    };
    if room.is_short() {
        let known = Known::of(&relay);
        let relay = open_bounded(alloc, relay, known, &mut room)?;
        return Ok((relay, room));
    }
    Ok((relay, room))
}

/// Returns the listener at the configured address. Logs a line if it waits for the address.
pub(crate) fn open_listener<R: Clock + Net, E: Write>(
    alloc: Global,
    rt: &R,
    registry: &Registry,
    at: SocketAddrV4,
    form: Option<Form>,
    errors: &mut E,
) -> Result<TcpListener, Fault> {
    for second in 0..ADDRESS_SECONDS {
        match listener_at(rt, registry, at) {
            Ok(listener) => return Ok(listener),
            Err(error) if error.kind() == ErrorKind::AddrNotAvailable => {
                if second == 0 {
                    let (mut counters, mut minutes) = (Counters::new(), RejectionMinutes::new());
                    let now = clock_moment(rt);
                    let mut log = Log::stamped(
                        alloc,
                        errors,
                        form,
                        now,
                        &mut counters,
                        &mut minutes,
                    );
                    log.awaits_address(at, ADDRESS_SECONDS);
                }
                rt.sleep(Duration::from_secs(1));
            }
            Err(error) if error.kind() == ErrorKind::OutOfMemory => return Err(Fault::NoMemory),
            Err(_) => return Err(Fault::Socket),
        }
    }
    Err(Fault::Socket)
}

/// Returns the page at the configured port, if there is one.
pub(crate) fn open_page<R: Clock + Net>(
    alloc: Global,
    rt: &R,
    registry: &Registry,
    limits: &Limits,
    relay: &Relay<FileDisk>,
) -> Result<StatusPage, Fault> {
    let next_number = relay.node().next_number();
    let since = clock_moment(rt);
    match StatusPage::open(
        alloc,
        rt,
        registry,
        PAGE_TOKEN,
        limits.status_port,
        next_number,
        since,
    ) {
        Ok(page) => Ok(page),
        Err(error) if error.kind() == ErrorKind::OutOfMemory => Err(Fault::NoMemory),
        Err(_) => Err(Fault::Socket),
    }
}

/// Opens the control socket at the configured path, if there is one, and the file of held mail.
pub(crate) fn open_steering<R: Files<File = File> + Net>(
    alloc: Global,
    rt: &R,
    registry: &Registry,
    source: Source,
    relay: &Relay<FileDisk>,
) -> Result<Steering, Fault> {
    let held_mail = HeldMail::beside(alloc, relay.node().config().spool.as_str())?;
    let path = match &source.control {
        Some(path) => Some(path.as_str()),
        None => None,
    };
    match ControlSocket::open(alloc, rt, registry, path, source.control_group) {
        Ok(socket) => Ok(Steering::new(alloc, socket, held_mail, source)),
        Err(error) if error.kind() == ErrorKind::OutOfMemory => Err(Fault::NoMemory),
        Err(_) => Err(Fault::Socket),
    }
}

/// Writes the line `ready HOST ADDRESS`: clients may connect.
pub(crate) fn say_ready<W: Write>(
    alloc: Global,
    relay: &Relay<FileDisk>,
    at: SocketAddrV4,
    writer: &mut W,
) -> Result<(), Fault> {
    match write_ready(alloc, relay.node().config().host.as_slice(), at, writer) {
        Ok(()) => Ok(()),
        Err(error) => Err(Fault::of_output(&error)),
    }
}

fn write_ready<W: Write>(
    alloc: Global,
    host: &[u8],
    at: SocketAddrV4,
    writer: &mut W,
) -> io::Result<()> {
    let mut line = Vec::new(alloc);
    line.extend_from_slice(b"ready ")?;
    line.extend_from_slice(host)?;
    writeln!(line, " {at}")?;
    writer.write_all(line.as_slice())?;
    writer.flush()
}
