//! How the lines of a log begin.
use relay_backlog::{Form, LogLine};
use relay_trace::Moment;
use std::alloc::Global;
use std::io;
use std::net::SocketAddrV4;

/// What all lines of one call share.
#[derive(Clone, Copy, Debug)]
pub(crate) struct Head {
    pub(crate) alloc: Global,
    pub(crate) form: Form,
    /// The time of the lines, if they have one.
    pub(crate) moment: Option<Moment>,
}

impl Head {
    /// Returns a line that begins with this event.
    pub(crate) fn line(&self, event: &[u8]) -> io::Result<LogLine> {
        LogLine::new(self.alloc, self.form, self.moment, event)
    }

    /// Adds an address and its port to a line.
    pub(crate) fn add_address(
        &self,
        line: &mut LogLine,
        key: &[u8],
        at: SocketAddrV4,
    ) -> io::Result<()> {
        let text = format!(in self.alloc; "{at}")?;
        line.octets(key, text.as_bytes())?;
        Ok(())
    }
}
