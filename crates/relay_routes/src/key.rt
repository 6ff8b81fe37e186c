ghost use Rattle.std.specs.Prelude.{◌≡◌};
ghost use Rattle.relay_routes.specs.Document.{key_text};

use std::fmt;

/// A key of a configuration, in the order in which they are checked.
#[derive(Clone, Copy, Debug, Drop, PartialEq, Eq)]
pub enum Key {
    /// The name of the relay.
    Host,
    /// Where it listens.
    Listen,
    /// The file of its spool.
    Spool,
    /// The most octets of a content.
    MaxContent,
    /// The most octets of the spool.
    SpoolLimit,
    /// Where mail goes.
    Routes,
    /// The rule for a content with a bare CR or LF.
    BareNewlines,
    /// The clients that may send to every route.
    TrustedClients,
    /// The rule for routed paths.
    RoutedPaths,
    /// How a delivery status notification is written.
    Reports,
}

impl Key {
    /// The key's name in a document.
    pub fn text(self) -> &'static str
        ensures { result.now ≡ key_text self }
    {
        match self {
            Key::Host => "host",
            Key::Listen => "listen",
            Key::Spool => "spool",
            Key::MaxContent => "max_content",
            Key::SpoolLimit => "spool_limit",
            Key::Routes => "routes",
            Key::BareNewlines => "bare_newlines",
            Key::TrustedClients => "trusted_clients",
            Key::RoutedPaths => "routed_paths",
            Key::Reports => "reports",
        }
    }
}

impl fmt::Display for Key {
    ghost use Rattle.std.specs.Prelude.{Some};

    ghost output = { λ key. Some (key_text key) };

    fn fmt<W: fmt::Write>(&self, f: &mut fmt::Formatter<W>) -> fmt::Result {
        f.write_str(self.text())
    }
}
