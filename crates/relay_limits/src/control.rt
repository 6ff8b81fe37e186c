//! Where a running relay takes requests that steer it.
ghost use Rattle.std.specs.Prelude.{IfOk, option_map, string_bytes};
ghost use Rattle.toml.specs.View.{table_view};
ghost use Rattle.relay_limits.specs.Control.{ReadsControl, ReadsControlGroup};
ghost use Rattle.relay_limits.specs.Limits.{value_of};
ghost use Rattle.relay_limits.specs.declared.limit.Limit.{Limit};

use crate::limit::Limit;
use crate::limits::member;
use std::alloc::{AllocError, Global};

/// The most octets of the path of a Unix domain socket on Linux.
const MOST_PATH: usize = 107;

/// The largest number of a group; the next one asks the system for no change.
const MOST_GROUP: i64 = 4_294_967_294;

/// Returns the path of the control socket that a document names at `control`, a text of 1 to 107 octets; `Some(None)`
/// where nothing is said, and `None` where the value is no such text. Fails if memory runs out.
pub fn control_path(
    alloc: Global,
    document: &toml::Table,
) -> Result<Option<Option<String>>, AllocError>
    ensures { IfOk result (λ found. ReadsControl (value_of Limit.Control (table_view document.now))
        (option_map (option_map string_bytes) found)) }
{
    let Some(value) = member(document, Limit::Control) else {
        return Ok(Some(None));
    };
    match value.as_str() {
        Some(path) if 1 <= path.len() && path.len() <= MOST_PATH => {
            Ok(Some(Some(String::from_str(alloc, path)?)))
        }
        _ => Ok(None),
    }
}

/// Returns the number of the group that may use the control socket, which a document gives at `control_group`, from 0
/// to 4,294,967,294; `Some(None)` where nothing is said, and `None` where the value is no such number.
pub fn control_group(document: &toml::Table) -> Option<Option<u32>>
    ensures { ReadsControlGroup (value_of Limit.ControlGroup (table_view document.now)) result }
{
    let Some(value) = member(document, Limit::ControlGroup) else {
        return Some(None);
    };
    match value.as_integer() {
        Some(number) if 0 <= number && number <= MOST_GROUP => Some(Some(number as u32)),
        _ => None,
    }
}
