//! Laws of paths, whoever reads them.
ghost use Rattle.relay_envelope.specs.Path.{DomainInIsDomainOf, PathIsOne};

/// A text begins with at most one path, and one rest follows it.
pub fn path_is_one()
    ensures { PathIsOne }
{}

/// The domain in a path as it is stored is the path's.
pub fn domain_in_is_domain_of()
    ensures { DomainInIsDomainOf }
{}
