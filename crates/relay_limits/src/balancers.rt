ghost use Rattle.std.specs.List.{list_any};
ghost use Rattle.std.specs.Net.Addr.{ipv4_octets};
ghost use Rattle.std.specs.Prelude.{◌≡◌, [], IfOk};
ghost use Rattle.toml.specs.View.{table_view};
ghost use Rattle.relay_limits.specs.Balancers.{ReadsBalancers};
ghost use Rattle.relay_limits.specs.Limits.{value_of};
ghost use Rattle.relay_limits.specs.declared.limit.Limit.{Limit};
ghost use Rattle.relay_routes.specs.Network.{is_in};

use crate::limit::Limit;
use crate::limits::member;
use relay_routes::{Network, read_networks};
use std::alloc::{AllocError, Global};
use std::marker::Model;
use std::net::Ipv4Addr;
use toml::Value;

/// The networks of balancers: each connection from there begins with a header of the PROXY protocol, which says whose
/// it is.
#[derive(Debug)]
pub struct Balancers {
    networks: Vec<Network>,
}

// Written out, so that the proof of a caller that drops them stops at this function.
impl Drop for Balancers {
    fn drop(self) {
        let Balancers {
            networks: _networks,
        } = self;
    }
}

impl Model for Balancers {
    ghost use Rattle.std.specs.Prelude.{List};
    ghost use Rattle.relay_routes.specs.declared.network.Network.{Network};

    ghost Value = { List Network };

    ghost view = { λ balancers. balancers.networks.items };
}

impl Balancers {
    /// No balancer.
    pub fn none(alloc: Global) -> Self
        ensures { result ≡ [] }
    {
        Balancers {
            networks: Vec::new(alloc),
        }
    }

    /// Returns the networks that a document names at `balancers`, an array; no balancer where nothing is said, and none
    /// of this where a value is no network. Fails if memory runs out.
    pub fn of_document(alloc: Global, document: &toml::Table) -> Result<Option<Self>, AllocError>
        ensures { IfOk result (ReadsBalancers (value_of Limit.Balancers (table_view document.now))) }
    {
        let Some(value) = member(document, Limit::Balancers) else {
            return Ok(Some(Balancers::none(alloc)));
        };
        let Value::Array(values) = value else {
            return Ok(None);
        };
        match read_networks(alloc, values.as_slice())? {
            Some(networks) => Ok(Some(Balancers { networks })),
            None => Ok(None),
        }
    }

    /// Returns whether an address is a balancer's.
    pub fn contains(&self, address: Ipv4Addr) -> bool
        ensures { result ≡ list_any (is_in (ipv4_octets address)) self.now }
    {
        let client = address.octets();
        self.networks.iter().any(|network| network.contains(client))
    }
}
