//! The version of the program. `make relayd` names the commit and the toolchain, in a copy of this file.

/// What `relayd --version` prints after the program's name.
pub(crate) const VERSION: &str = "1.0.0 (unknown commit)";
