use thiserror::Error;

/// Why the text after the colon of MAIL or RCPT is refused: the first fault from left to right. In a parameter an
/// unknown keyword comes before one given twice, and that before a bad value.
#[derive(Clone, Copy, Debug, Drop, PartialEq, Eq, Error)]
pub enum EnvelopeFault {
    /// No path that may stand there begins the text, or what follows touches it.
    #[error("bad path")]
    BadPath,
    /// A parameter has a value that its keyword doesn't take.
    #[error("bad parameter value")]
    BadValue,
    /// A parameter is given twice.
    #[error("parameter given twice")]
    Repeated,
    /// The command doesn't have this keyword.
    #[error("unknown parameter")]
    UnknownParameter,
}
