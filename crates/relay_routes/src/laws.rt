//! Laws of configurations and routes, whoever reads them.
ghost use Rattle.relay_routes.specs.AcceptedLaws.{AcceptedIsRouted, AllAreTrusted, NobodyIsListed};
ghost use Rattle.relay_routes.specs.ConfigLaws.{OneReading};
ghost use Rattle.relay_routes.specs.RoutedPath.{RoutedIsNamed};
ghost use Rattle.relay_routes.specs.Routes.{HopAtIsHopOf, HopHasItsPlace};
ghost use Rattle.relay_routes.specs.Settings.{ConfigIsNamed};

/// A text says one configuration, or has one first fault, and not both.
pub fn one_reading()
    ensures { OneReading }
{}

/// A configuration names its host.
pub fn config_is_named()
    ensures { ConfigIsNamed }
{}

/// The hop of a path as it is stored is the path's.
pub fn hop_at_is_hop_of()
    ensures { HopAtIsHopOf }
{}

/// One name has one place: that of each hop with this name.
pub fn hop_has_its_place()
    ensures { HopHasItsPlace }
{}

/// Where no trusted clients are named, every client may send to every route.
pub fn all_are_trusted()
    ensures { AllAreTrusted }
{}

/// Where no trusted clients are named, what the configuration says of routed paths holds for every client.
pub fn nobody_is_listed()
    ensures { NobodyIsListed }
{}

/// A path that is accepted of a client has its next hop in the whole table too, and it is the same.
pub fn accepted_is_routed()
    ensures { AcceptedIsRouted }
{}

/// A mailbox is routed exactly if it has a source route, or its local part names a further host.
pub fn routed_is_named()
    ensures { RoutedIsNamed }
{}
