//! Parts of a configuration's document.
use toml::{Table, Value};

/// Returns the members of `routes`, if it is a table.
pub(crate) fn routes_of(document: &Table) -> Option<&Table> {
    document.get("routes")?.as_table()
}

/// Returns the string at a key, if it is one.
pub(crate) fn text_at<'a>(members: &'a Table, key: &str) -> Option<&'a str> {
    members.get(key)?.as_str()
}
