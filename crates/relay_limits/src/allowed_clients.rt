ghost use Rattle.std.specs.List.{list_any};
ghost use Rattle.std.specs.Net.Addr.{ipv4_octets};
ghost use Rattle.std.specs.Prelude.{◌≡◌, IfOk, None};
ghost use Rattle.toml.specs.View.{table_view};
ghost use Rattle.relay_limits.specs.AllowedClients.{ReadsClients, may_connect};
ghost use Rattle.relay_limits.specs.Limits.{value_of};
ghost use Rattle.relay_limits.specs.declared.limit.Limit.{Limit};
ghost use Rattle.relay_routes.specs.Network.{is_in};

use crate::limit::Limit;
use crate::limits::member;
use relay_routes::{Network, read_networks};
use std::alloc::{AllocError, Global};
use std::marker::Model;
use std::net::Ipv4Addr;
use toml::Value;

/// The networks of the clients that may connect.
#[derive(Debug)]
pub struct AllowedClients {
    /// `None`: every client may.
    networks: Option<Vec<Network>>,
}

// Written out, so that the proof of a caller that drops them stops at this function.
impl Drop for AllowedClients {
    fn drop(self) {
        let AllowedClients {
            networks: _networks,
        } = self;
    }
}

impl Model for AllowedClients {
    ghost use Rattle.std.specs.Prelude.{List, Option, option_map};
    ghost use Rattle.relay_routes.specs.declared.network.Network.{Network};

    ghost Value = { Option (List Network) };

    ghost view = { λ clients. option_map (λ networks. networks.items) clients.networks };
}

impl AllowedClients {
    /// Every client may connect.
    pub fn everybody() -> Self
        ensures { result ≡ None }
    {
        AllowedClients { networks: None }
    }

    /// Returns the networks that a document names at `clients`, an array: every client may connect where nothing is
    /// said, and there is none of this where a value is no network. Fails if memory runs out.
    pub fn of_document(alloc: Global, document: &toml::Table) -> Result<Option<Self>, AllocError>
        ensures { IfOk result (ReadsClients (value_of Limit.Clients (table_view document.now))) }
    {
        let Some(value) = member(document, Limit::Clients) else {
            return Ok(Some(AllowedClients::everybody()));
        };
        let Value::Array(values) = value else {
            return Ok(None);
        };
        match read_networks(alloc, values.as_slice())? {
            Some(networks) => Ok(Some(AllowedClients {
                networks: Some(networks),
            })),
            None => Ok(None),
        }
    }

    /// Returns whether the client at this address may connect.
    pub fn may_connect(&self, client: Ipv4Addr) -> bool
        ensures { result ≡ may_connect self.now (ipv4_octets client) }
    {
        match &self.networks {
            Some(networks) => is_in_one(networks.as_slice(), client.octets()),
            None => true,
        }
    }
}

/// Returns whether the client at this address is in one of the networks.
fn is_in_one(networks: &[Network], client: [u8; 4]) -> bool
    ensures { result ≡ list_any (is_in client) networks.now }
{
    networks.iter().any(|network| network.contains(client))
}
