ghost use Rattle.std.specs.Prelude.{◌≡◌, ◌≢◌, MatchOption};
ghost use Rattle.relay_envelope.specs.Path.{value_of};
ghost use Rattle.relay_routes.specs.RoutedPath.{is_routed, refuses_path};
ghost use Rattle.relay_routes.specs.Value.{routed_paths_text};

use memchr::memchr3;
use relay_envelope::{Path, domain_of};

/// The rule for routed paths: those with a source route (RFC 5321, section 4.1.2), or with `%`, `!` or `@` in the local
/// part.
#[derive(Clone, Copy, Debug, Drop, PartialEq, Eq)]
pub enum RoutedPaths {
    /// The recipient is accepted like any other.
    Pass,
    /// The recipient is refused: a next hop that trusts this relay might relay the mail to a host that no route names.
    Refuse,
}

impl RoutedPaths {
    /// Returns what a configuration's text names, and none if it names nothing.
    pub(crate) fn read(text: &str) -> Option<Self>
        ensures { MatchOption result ((other : RoutedPaths) → text.now ≢ routed_paths_text other)
            (λ found. text.now ≡ routed_paths_text found) }
    {
        match text {
            "pass" => Some(RoutedPaths::Pass),
            "refuse" => Some(RoutedPaths::Refuse),
            _ => None,
        }
    }

    /// Returns whether a recipient of this path is refused. Allocates nothing.
    pub fn refuses(self, path: &Path<'_>) -> bool
        ensures { result ≡ refuses_path self (value_of path.now) }
    {
        match self {
            RoutedPaths::Pass => false,
            RoutedPaths::Refuse => is_routed(path),
        }
    }
}

/// Returns whether a path names a further host: by a source route, or in its local part.
fn is_routed(path: &Path<'_>) -> bool
    ensures { result ≡ is_routed (value_of path.now) }
{
    let Some(domain) = domain_of(path) else {
        return false;
    };
    let text = path.text();
    // Before the `@` of the domain stand `<`, a source route and the local part, and `>` is after the domain.
    let (front, _) = text.split_at(text.len() - domain.len() - 2);
    memchr3(b'%', b'!', b'@', front).is_some()
}
