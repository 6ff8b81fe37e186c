ghost use Rattle.std.specs.Prelude.{◌≡◌, ◌≢◌, MatchOption};
ghost use Rattle.relay_limits.specs.Limits.{log_form_text};

/// How the lines of the log are written.
#[derive(Clone, Copy, Debug, Drop, PartialEq, Eq)]
pub enum LogForm {
    /// An event and `key=value` fields.
    Text,
    /// An object of JSON (RFC 8259).
    Json,
}

impl LogForm {
    /// Returns the form that a configuration's text names, and none if it names nothing.
    pub(crate) fn read(text: &str) -> Option<Self>
        ensures { MatchOption result ((other : LogForm) → text.now ≢ log_form_text other)
            (λ form. text.now ≡ log_form_text form) }
    {
        match text {
            "text" => Some(LogForm::Text),
            "json" => Some(LogForm::Json),
            _ => None,
        }
    }
}
