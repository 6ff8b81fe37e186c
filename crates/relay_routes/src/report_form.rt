ghost use Rattle.std.specs.Prelude.{◌≡◌, ◌≢◌, MatchOption};
ghost use Rattle.relay_routes.specs.Value.{report_form_text};

/// How a delivery status notification is written.
#[derive(Clone, Copy, Debug, Drop, PartialEq, Eq)]
pub enum ReportForm {
    /// Each line is one word and a path, and each failure that a next hop answered has the same status code.
    Plain,
    /// It says in sentences what happened and what follows, with the status code that the next hop gave (RFC 3463).
    Rich,
}

impl ReportForm {
    /// Returns what a configuration's text names, and none if it names nothing.
    pub(crate) fn read(text: &str) -> Option<Self>
        ensures { MatchOption result ((other : ReportForm) → text.now ≢ report_form_text other)
            (λ found. text.now ≡ report_form_text found) }
    {
        match text {
            "plain" => Some(ReportForm::Plain),
            "rich" => Some(ReportForm::Rich),
            _ => None,
        }
    }
}
