ghost use Rattle.std.specs.Prelude.{◌≡◌, None, Ok, Err, IfOk, IfErr, IsTrue, MatchOption, ◌⊎◌, ◌↔◌};
ghost use Rattle.relay_routes.specs.Settings.{IsConfig};
ghost use Rattle.relay_routes.specs.Trusted.{IsTrusting};

use crate::bare_newlines::BareNewlines;
use crate::document::{
    CONTENT_LIMIT, SPOOL_LIMIT, read_bare_newlines, read_host, read_listen, read_max_content,
    read_reports, read_routed_paths, read_routes, read_spool, read_spool_limit,
    read_trusted_clients,
};
use crate::fault::ConfigFault;
use crate::host_name::HostName;
use crate::report_form::ReportForm;
use crate::routed_paths::RoutedPaths;
use crate::spool_path::SpoolPath;
use crate::table::Table;
use crate::trusted_clients::TrustedClients;
use std::alloc::Global;
use std::net::SocketAddrV4;

/// The configuration of a relay.
#[derive(Debug)]
pub struct Config {
    /// The name of this host, as replies give it.
    pub host: HostName,
    /// Where it listens.
    pub listen: SocketAddrV4,
    /// The file of its spool.
    pub spool: SpoolPath,
    /// The most octets of a message's content, 1 to 16,777,216.
    pub max_content: usize,
    /// The most octets of the spool, 1 to 549,755,813,888.
    pub spool_limit: u64,
    /// The rule for a content with a bare CR or LF.
    pub bare_newlines: BareNewlines,
    /// Where mail goes.
    pub routes: Table,
    /// The clients that may send to every route; `None` if all may.
    pub trusted_clients: Option<TrustedClients>,
    /// The rule for routed paths of clients that `trusted_clients` doesn't name.
    pub routed_paths: RoutedPaths,
    /// How a delivery status notification is written.
    pub reports: ReportForm,
    pub ghost valid: { IsConfig host max_content spool_limit routes },
    pub ghost trusting: { IsTrusting routes trusted_clients },
}

// Written out, so that the proof of a caller that drops a configuration stops at this function.
impl Drop for Config {
    fn drop(self) {
        let Config {
            host: _host,
            listen: _,
            spool: _spool,
            max_content: _,
            spool_limit: _,
            bare_newlines: _,
            routes: _routes,
            trusted_clients: _trusted_clients,
            routed_paths: _,
            reports: _,
        } = self;
    }
}

impl Config {
    ghost use Rattle.toml.specs.View.{table_view};
    ghost use Rattle.relay_routes.specs.Accepted.{accepted_paths, accepted_table};
    ghost use Rattle.relay_routes.specs.Config.{ReadsConfig, ReadsDocument};
    ghost use Rattle.relay_routes.specs.Trusted.{is_listed};

    /// Makes a configuration of these values, or returns `None` if `max_content` or `spool_limit` is out of range or
    /// the routes are of another host. Every client may send to every route, also by routed paths. Allocates nothing.
    pub fn new(
        host: HostName,
        listen: SocketAddrV4,
        spool: SpoolPath,
        max_content: usize,
        spool_limit: u64,
        bare_newlines: BareNewlines,
        routes: Table,
    ) -> Option<Self>
        ensures { MatchOption result (¬ IsConfig host max_content spool_limit routes) (λ config.
            (config.host ≡ host) × (config.listen ≡ listen) × (config.spool ≡ spool)
            × (config.max_content ≡ max_content) × (config.spool_limit ≡ spool_limit)
            × (config.bare_newlines ≡ bare_newlines) × (config.routes ≡ routes)
            × (config.trusted_clients ≡ None) × (config.routed_paths ≡ RoutedPaths.Pass)
            × (config.reports ≡ ReportForm.Plain)) }
    {
        if is_config(&host, max_content, spool_limit, &routes) {
            Some(Config {
                host,
                listen,
                spool,
                max_content,
                spool_limit,
                bare_newlines,
                routes,
                trusted_clients: None,
                routed_paths: RoutedPaths::Pass,
                reports: ReportForm::Plain,
            })
        } else {
            None
        }
    }

    /// Returns the configuration that a text in TOML says. Keys are checked in the order of [`Key`](crate::Key), and
    /// the first fault is answered; other keys are ignored. If they are missing, `max_content` is 1,048,576,
    /// `spool_limit` 67,108,864, `bare_newlines` says that content is taken as it came, `trusted_clients` that every
    /// client may send to every route, `routed_paths` that a routed path is taken as any other, and `reports` that a
    /// report is plain.
    pub fn read(alloc: Global, text: &str) -> Result<Self, ConfigFault>
        ensures ok { IfOk result (λ config. ReadsConfig text.now (Ok config)) }
        ensures err { IfErr result (λ fault. (fault ≡ ConfigFault.NoMemory)
            ⊎ ReadsConfig text.now (Err fault)) }
    {
        match toml::table_from_str(alloc, text) {
            Ok(document) => Config::of_document(alloc, &document),
            Err(fault) if fault.is_memory() => Err(ConfigFault::NoMemory),
            Err(_) => Err(ConfigFault::NotToml),
        }
    }

    /// Returns the configuration that a document says, as [`Config::read`].
    pub fn of_document(alloc: Global, document: &toml::Table) -> Result<Self, ConfigFault>
        ensures ok { IfOk result (λ config. ReadsDocument (table_view document.now) (Ok config)) }
        ensures err { IfErr result (λ fault. (fault ≡ ConfigFault.NoMemory)
            ⊎ ReadsDocument (table_view document.now) (Err fault)) }
    {
        let host = read_host(alloc, document)?;
        let listen = read_listen(document)?;
        let spool = read_spool(alloc, document)?;
        let max_content = read_max_content(document)?;
        let spool_limit = read_spool_limit(document)?;
        let routes = read_routes(alloc, document, host.copy(alloc)?)?;
        let bare_newlines = read_bare_newlines(document)?;
        let trusted_clients = read_trusted_clients(alloc, document, &routes)?;
        let routed_paths = read_routed_paths(document)?;
        let reports = read_reports(document)?;
        Ok(Config {
            host,
            listen,
            spool,
            max_content,
            spool_limit,
            bare_newlines,
            routes,
            trusted_clients,
            routed_paths,
            reports,
        })
    }

    /// Returns the table by which a client's recipients are accepted: all routes for one that may send to each of them,
    /// else those of the domains that are named. Allocates nothing.
    pub fn accepted_table(&self, client: [u8; 4]) -> &Table
        ensures { result.now ≡ accepted_table self.now client }
    {
        match &self.trusted_clients {
            Some(trusted) => {
                if trusted.contains(client) {
                    &self.routes
                } else {
                    trusted.named()
                }
            }
            None => &self.routes,
        }
    }

    /// What is done with this client's routed paths: one that `trusted_clients` names may send them, and for all others
    /// `routed_paths` says it.
    pub fn accepted_paths(&self, client: [u8; 4]) -> RoutedPaths
        ensures { result ≡ accepted_paths self.now client }
    {
        if self.is_listed(client) {
            RoutedPaths::Pass
        } else {
            self.routed_paths
        }
    }

    /// Returns whether a client is in one of the networks that `trusted_clients` names. If none are named, nobody is.
    fn is_listed(&self, client: [u8; 4]) -> bool
        ensures { result ≡ is_listed client self.now.trusted_clients }
    {
        match &self.trusted_clients {
            Some(trusted) => trusted.contains(client),
            None => false,
        }
    }
}

/// Returns whether the sizes lie in their ranges, and the routes are those of this host, which is named.
fn is_config(host: &HostName, max_content: usize, spool_limit: u64, routes: &Table) -> bool
    ensures { IsTrue result ↔ IsConfig host.now max_content spool_limit routes.now }
{
    (1..=CONTENT_LIMIT as usize).contains(&max_content)
        && (1..=SPOOL_LIMIT).contains(&spool_limit)
        && routes.host().as_slice() == host.as_slice()
}
