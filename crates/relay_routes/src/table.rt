ghost use Rattle.std.specs.Prelude.{◌≡◌, ◌↔◌, ◌≤◌, ◌<◌, [], None, Some, IsTrue, IfErr, IfOk};
ghost use Rattle.std.specs.Prelude.{OnOk};
ghost use Rattle.std.specs.Prelude.{OnErr, MatchBool, length, option_copied};
ghost use Rattle.relay_envelope.specs.Path.{value_of};
ghost use Rattle.relay_routes.specs.Routes.{AllAgree, HasNoOtherPlace, HasOtherPlace, IsRouteDomain, MayBeAdded};
ghost use Rattle.relay_routes.specs.Routes.{RefusesRoute, entry_of, hop_at, hop_for, hop_of, place_of, with_lowered};
ghost use Rattle.relay_routes.specs.Routes.{with_route, without_wildcard};

use crate::fault::RouteFault;
use crate::hop::Hop;
use crate::host_name::HostName;
use indexmap::IndexMap;
use relay_envelope::{Path, PathBuf, domain_in, domain_of, is_domain};
use std::alloc::{AllocError, Global};
use std::marker::Model;
use std::net::SocketAddrV4;

/// The most octets of a path (RFC 5321, 4.5.3.1.3), and so of its domain.
const PATH_LIMIT: usize = 256;

/// The routes of a relay.
#[derive(Debug)]
pub struct Table {
    host: HostName,
    /// By domain in lower case, or `*`.
    hops: IndexMap<Vec<u8>, Hop>,
    /// Where each name is, which `hops` say too: a name has one place.
    places: IndexMap<Vec<u8>, SocketAddrV4>,
}

// Written out, so that the proof of a caller that drops a table stops at this function.
impl Drop for Table {
    fn drop(self) {
        let Table {
            host: _host,
            hops: _hops,
            places: _places,
        } = self;
    }
}

impl Model for Table {
    ghost use Rattle.relay_routes.specs.Routes.{RouteTable};
    ghost use Rattle.relay_routes.specs.Indexed.{IsIndexed, routes_of};

    ghost Value = { RouteTable };

    ghost view = { λ table. record { host = table.host; routes = routes_of table.hops.entries } };

    ghost invariant = { λ table. IsIndexed (routes_of table.hops.entries) table.places.entries };
}

impl Table {
    /// Makes a table without routes, for the relay of this name. Allocates nothing.
    pub fn new(alloc: Global, host: HostName) -> Self
        ensures host { result.host ≡ host }
        ensures empty { result.routes ≡ [] }
    {
        Table {
            host,
            hops: IndexMap::new(alloc),
            places: IndexMap::new(alloc),
        }
    }

    /// Returns the relay's name.
    pub fn host(&self) -> &HostName
        ensures { result.now ≡ self.now.host }
    {
        &self.host
    }

    /// Adds a route for a domain, which is compared without letter case, or for each that has none of its own (`*`).
    /// The first fault in the order of [`RouteFault`] is answered, and nothing is added then.
    pub fn add(&mut self, alloc: Global, domain: &[u8], hop: Hop) -> Result<(), RouteFault>
        ensures added { OnOk result (MayBeAdded self.old.routes domain.now hop
            × (self.new ≡ with_route self.old domain.now hop)) }
        ensures unchanged { OnErr result (self.new ≡ self.old) }
        ensures refused { IfErr result (λ fault. RefusesRoute fault self.old.routes domain.now hop) }
    {
        if !is_route_domain(domain) {
            return Err(RouteFault::BadDomain);
        }
        let mut key = Vec::from_slice(alloc, domain)?;
        key.as_mut_slice().make_ascii_lowercase();
        if self.entry(key.as_slice()).is_some() {
            return Err(RouteFault::Repeated);
        }
        if self.has_other_place(&hop) {
            return Err(RouteFault::SecondPlace);
        }
        self.insert(alloc, key, hop)?;
        Ok(())
    }

    /// Returns the next hop of a path: the route of its domain, in any letter case, else that of `*`. `<>` has none,
    /// and `<Postmaster>` is routed as the relay's own name. Allocates nothing.
    pub fn hop(&self, path: &Path<'_>) -> Option<&Hop>
        ensures { option_copied result ≡ hop_of self.now (value_of path.now) }
    {
        match path {
            Path::Null => None,
            Path::Postmaster(_) => self.hop_for(self.host.as_slice()),
            Path::Mailbox(_) => self.hop_for(domain_of(path)?),
        }
    }

    /// The next hop of a path as it is stored: that of [`Table::hop`] for the path. Allocates nothing.
    pub fn hop_at(&self, path: &PathBuf) -> Option<&Hop>
        ensures { option_copied result ≡ hop_at self.now path.now }
    {
        let text = path.as_slice();
        if text == b"<>".as_slice() {
            return None;
        }
        match domain_in(text) {
            Some(domain) => self.hop_for(domain),
            None => self.hop_for(self.host.as_slice()),
        }
    }

    /// Returns where the hop of this name is: one name has one place. Allocates nothing.
    pub fn place_of(&self, name: &[u8]) -> Option<SocketAddrV4>
        ensures value { result ≡ place_of self.now.routes name.now }
        ensures agree { AllAgree self.now.routes }
    {
        match self.places.get(name) {
            Some(place) => Some(*place),
            None => None,
        }
    }

    /// Returns the same routes again but for that of `*`: where mail goes for the domains that are named. Fails if
    /// memory runs out.
    pub fn without_wildcard(&self, alloc: Global) -> Result<Table, AllocError>
        ensures { IfOk result (λ table. table ≡ without_wildcard self.now) }
    {
        let mut table = Table::new(alloc, self.host.copy(alloc)?);
        'routes: for (domain, hop) in self.hops.iter() {
            if domain.as_slice() != b"*".as_slice() {
                let domain = Vec::from_slice(alloc, domain.as_slice())?;
                table.insert(alloc, domain, hop.copy(alloc)?)?;
            }
        }
        Ok(table)
    }

    /// Adds a route that agrees with the others. If memory runs out, none is added.
    fn insert(&mut self, alloc: Global, domain: Vec<u8>, hop: Hop) -> Result<(), AllocError>
        requires domain { entry_of self.old.routes domain.items ≡ None }
        requires place { HasNoOtherPlace self.old.routes hop }
        ensures added { OnOk result (self.new ≡ with_lowered self.old domain.items hop) }
        ensures unchanged { OnErr result (self.new ≡ self.old) }
    {
        let name = Vec::from_slice(alloc, hop.name.as_slice())?;
        let at = hop.at;
        self.places.reserve(1)?;
        self.hops.insert(domain, hop)?;
        self.places.insert(name, at)?;
        Ok(())
    }

    /// Returns whether there is a route to this hop's name at another place.
    fn has_other_place(&self, hop: &Hop) -> bool
        ensures { MatchBool result (HasOtherPlace self.now.routes hop.now)
            (HasNoOtherPlace self.now.routes hop.now) }
    {
        match self.place_of(hop.name.as_slice()) {
            Some(place) => place != hop.at,
            None => false,
        }
    }

    /// Returns the hop of a domain in any letter case, else that of `*`.
    fn hop_for(&self, domain: &[u8]) -> Option<&Hop>
        requires { length domain.now ≤ 256 }
        ensures { option_copied result ≡ hop_for self.now.routes domain.now }
    {
        let mut octets = [0; PATH_LIMIT];
        let lowered = &mut octets[..domain.len()];
        lowered.copy_from_slice(domain);
        lowered.make_ascii_lowercase();
        match self.entry(lowered) {
            Some(hop) => Some(hop),
            None => self.entry(b"*"),
        }
    }

    /// Returns the hop of the route of this domain, which is in lower case.
    fn entry(&self, domain: &[u8]) -> Option<&Hop>
        ensures { option_copied result ≡ entry_of self.now.routes domain.now }
    {
        self.hops.get(domain)
    }
}

/// Returns whether a route may be for this: `*`, or a domain.
pub(crate) fn is_route_domain(domain: &[u8]) -> bool
    ensures { IsTrue result ↔ IsRouteDomain domain.now }
{
    domain == b"*".as_slice() || is_domain(domain)
}
