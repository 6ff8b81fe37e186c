ghost use Rattle.std.specs.Prelude.{◌≡◌, ◌≢◌, MatchOption};
ghost use Rattle.relay_routes.specs.Value.{bare_newlines_text};

/// The rule for a content with a bare CR or LF (RFC 5321, section 2.3.8).
#[derive(Clone, Copy, Debug, Drop, PartialEq, Eq)]
pub enum BareNewlines {
    /// It is accepted unchanged.
    Pass,
    /// It is refused: a next hop may take a line that ends so for the end of the mail data, and what follows for
    /// commands.
    Refuse,
}

impl BareNewlines {
    /// Returns what a configuration's text names, and none if it names nothing.
    pub(crate) fn read(text: &str) -> Option<Self>
        ensures { MatchOption result ((other : BareNewlines) → text.now ≢ bare_newlines_text other)
            (λ found. text.now ≡ bare_newlines_text found) }
    {
        match text {
            "pass" => Some(BareNewlines::Pass),
            "refuse" => Some(BareNewlines::Refuse),
            _ => None,
        }
    }
}
