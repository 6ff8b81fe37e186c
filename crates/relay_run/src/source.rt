//! Where a running relay reads its configuration, and the places that it keeps as long as it runs.
ghost use Rattle.std.specs.Prelude.{◌≡◌, ◌↔◌, IsTrue, option_map, string_bytes};
ghost use Rattle.relay_run.specs.Answers.{IsError};
ghost use Rattle.relay_run.specs.Reloading.{KeepsPlaces};

use crate::answers::{Answer, refused};
use crate::start::Settings;
use relay_routes::Config;
use std::alloc::{AllocError, Global};

/// The file of the configuration, and what was read there at the start that isn't kept elsewhere.
pub(crate) struct Source {
    /// The path of the file.
    pub(crate) path: String,
    /// Whether nothing is logged, whatever the file says.
    pub(crate) quiet: bool,
    /// The path of the control socket, if there is one.
    pub(crate) control: Option<String>,
    /// The number of the group that may use the control socket, if any.
    pub(crate) control_group: Option<u32>,
    /// The port of the page, if there is one.
    pub(crate) status_port: Option<u16>,
}

// Written out, so that what drops it calls this, and doesn't look into its parts.
impl Drop for Source {
    fn drop(self) {
        let Source {
            path: _path,
            quiet: _,
            control: _control,
            control_group: _,
            status_port: _,
        } = self;
    }
}

impl Source {
    /// Returns whether new settings change none of the places that a relay of this configuration keeps.
    pub(crate) fn keeps_places(&self, config: &Config, settings: &Settings) -> bool
        ensures { IsTrue result ↔ KeepsPlaces self.now config.now settings.now }
    {
        config.host.as_slice() == settings.config.host.as_slice()
            && config.listen == settings.config.listen
            && config.spool.as_str() == settings.config.spool.as_str()
            && is_same_path(&self.control, &settings.control)
            && self.control_group == settings.control_group
            && self.status_port == settings.limits.status_port
    }
}

/// Returns whether two paths, or none, are the same.
fn is_same_path(one: &Option<String>, other: &Option<String>) -> bool
    ensures { IsTrue result ↔ (option_map string_bytes other.now ≡ option_map string_bytes one.now) }
{
    match (one, other) {
        (Some(one), Some(other)) => one.as_str() == other.as_str(),
        (None, None) => true,
        (Some(_), None) | (None, Some(_)) => false,
    }
}

/// Returns the answer to a reload that would change a place: the keys that need a restart.
pub(crate) fn restart_answer(
    alloc: Global,
    source: &Source,
    config: &Config,
    settings: &Settings,
) -> Answer
    ensures { IsError result }
{
    let mut line = Vec::new(alloc);
    line.extend_from_slice(b"restart the relay to change")?;
    let new = &settings.config;
    let has_host = config.host.as_slice() == new.host.as_slice();
    name_unless(&mut line, has_host, b" host")?;
    name_unless(&mut line, config.listen == new.listen, b" listen")?;
    let has_spool = config.spool.as_str() == new.spool.as_str();
    name_unless(&mut line, has_spool, b" spool")?;
    let has_control = is_same_path(&source.control, &settings.control);
    name_unless(&mut line, has_control, b" control")?;
    let has_group = source.control_group == settings.control_group;
    name_unless(&mut line, has_group, b" control_group")?;
    let has_page = source.status_port == settings.limits.status_port;
    name_unless(&mut line, has_page, b" status_listen")?;
    refused(alloc, line.as_slice())
}

/// Adds the name of a key, unless its value is the same.
fn name_unless(line: &mut Vec<u8>, is_same: bool, name: &[u8]) -> Result<(), AllocError> {
    if is_same {
        Ok(())
    } else {
        line.extend_from_slice(name)
    }
}
