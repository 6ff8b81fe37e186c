//! The first word of a request.
ghost use Rattle.std.specs.Prelude.{◌≡◌, MatchOption};
ghost use Rattle.relay_control.specs.Request.{HasNoVerb, verb_text};

/// What a request asks for.
#[derive(Clone, Copy, Drop, PartialEq, Eq)]
pub enum Verb {
    /// `flush`: queued mail is tried now.
    Flush,
    /// `hold`: no attempt begins for this mail.
    Hold,
    /// `release`: attempts for this mail may begin again.
    Release,
    /// `return`: recipients are returned to the sender.
    Return,
    /// `discard`: recipients are dropped, and nobody is told.
    Discard,
    /// `reload`: the configuration is read again.
    Reload,
    /// `drain`: the relay stops once its attempts have ended.
    Drain,
}

impl Verb {
    /// Returns the word of a request.
    pub(crate) fn text(self) -> &'static [u8]
        ensures { result.now ≡ verb_text self }
    {
        match self {
            Verb::Flush => b"flush",
            Verb::Hold => b"hold",
            Verb::Release => b"release",
            Verb::Return => b"return",
            Verb::Discard => b"discard",
            Verb::Reload => b"reload",
            Verb::Drain => b"drain",
        }
    }

    /// Returns the verb of this word.
    pub(crate) fn of(word: &[u8]) -> Option<Verb>
        ensures { MatchOption result (HasNoVerb word.now) (λ verb. word.now ≡ verb_text verb) }
    {
        match word {
            b"flush" => Some(Verb::Flush),
            b"hold" => Some(Verb::Hold),
            b"release" => Some(Verb::Release),
            b"return" => Some(Verb::Return),
            b"discard" => Some(Verb::Discard),
            b"reload" => Some(Verb::Reload),
            b"drain" => Some(Verb::Drain),
            _ => None,
        }
    }
}
