ghost use Rattle.std.specs.Prelude.{◌≡◌, IfOk};
ghost use Rattle.std.specs.List.{list_any};
ghost use Rattle.relay_routes.specs.Network.{is_in};
ghost use Rattle.relay_routes.specs.Routes.{without_wildcard};

use crate::network::Network;
use crate::table::Table;
use std::alloc::{AllocError, Global};
use std::marker::Model;

/// The clients that may send to every route, by their networks, and the routes to which all others may send.
#[derive(Debug)]
pub struct TrustedClients {
    networks: Vec<Network>,
    named: Table,
}

// Written out, so that the proof of a caller that drops a configuration stops at this function.
impl Drop for TrustedClients {
    fn drop(self) {
        let TrustedClients {
            networks: _networks,
            named: _named,
        } = self;
    }
}

impl Model for TrustedClients {
    ghost use Rattle.relay_routes.specs.Trusted.{Trusted};

    ghost Value = { Trusted };

    ghost view = { λ trusted. record { networks = trusted.networks.items; named = trusted.named } };
}

impl TrustedClients {
    /// Clients in these networks may send to every route, and all others to the domains that the routes name. Fails if
    /// memory runs out.
    pub fn new(alloc: Global, networks: Vec<Network>, routes: &Table) -> Result<Self, AllocError>
        ensures networks { IfOk result (λ trusted. trusted.networks ≡ networks.items) }
        ensures named { IfOk result (λ trusted. trusted.named ≡ without_wildcard routes.now) }
    {
        let named = routes.without_wildcard(alloc)?;
        Ok(TrustedClients { networks, named })
    }

    /// Returns whether a client may send to every route.
    pub fn contains(&self, client: [u8; 4]) -> bool
        ensures { result ≡ list_any (is_in client) self.now.networks }
    {
        self.networks.iter().any(|network| network.contains(client))
    }

    /// Returns the routes to which all other clients may send: those of domains that are named.
    pub fn named(&self) -> &Table
        ensures { result.now ≡ self.now.named }
    {
        &self.named
    }
}
