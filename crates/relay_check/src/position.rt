//! Places in a text. The TOML reader gives places only for syntax errors, so a key is found by its name at the start of
//! a line.

/// A place in a text: its line, and its column in characters, both from 1.
#[derive(Clone, Copy, Drop, PartialEq, Eq, PartialOrd, Ord)]
pub(crate) struct Position {
    pub line: usize,
    pub column: usize,
}

/// The start of a text.
const BEGINNING: Position = Position { line: 1, column: 1 };

/// What a finding is about.
#[derive(Clone, Copy, Drop)]
pub(crate) enum Place<'a> {
    /// The text as a whole.
    Whole,
    /// The octet at this offset.
    Octet(usize),
    /// A key of the document, or the header of its table.
    Key(&'a str),
    /// The route of a domain.
    Route(&'a str),
}

/// The table to which the keys of a line belong.
#[derive(Clone, Copy, Drop)]
enum Section {
    Document,
    Routes,
    Other,
}

/// Returns the position of a place in a text, or the text's start if it isn't found.
pub(crate) fn position_of(text: &str, place: Place<'_>) -> Position {
    match place {
        Place::Whole => BEGINNING,
        Place::Octet(index) => position_at(text, index),
        Place::Key(_) => find(text, place).unwrap_or(BEGINNING),
        Place::Route(_) => match find(text, place) {
            Some(position) => position,
            None => find(text, Place::Key("routes")).unwrap_or(BEGINNING),
        },
    }
}

fn position_at(text: &str, index: usize) -> Position {
    let mut position = BEGINNING;
    for (place, character) in text.char_indices() {
        if place >= index {
            break;
        }
        position = if character == '\n' {
            Position {
                line: position.line.saturating_add(1),
                column: 1,
            }
        } else {
            Position {
                line: position.line,
                column: position.column.saturating_add(1),
            }
        };
    }
    position
}

/// Returns the position of the first line that a place refers to.
fn find(text: &str, place: Place<'_>) -> Option<Position> {
    let mut section = Section::Document;
    for (index, line) in text.lines().enumerate() {
        let written = line.trim_start();
        if is_at(written, section, place) {
            return Some(Position {
                line: index.saturating_add(1),
                column: line.len().saturating_sub(written.len()).saturating_add(1),
            });
        }
        section = match written.strip_prefix('[') {
            Some(header) => section_of(header),
            None => section,
        };
    }
    None
}

/// Returns whether a line of this section, without leading blanks, is the one that a place refers to.
fn is_at(line: &str, section: Section, place: Place<'_>) -> bool {
    let (path, section) = match line.strip_prefix('[') {
        Some(header) => (header, Section::Document),
        None => (line, section),
    };
    match (place, section) {
        (Place::Key(key), Section::Document) => begins_with_key(path, key),
        (Place::Route(domain), Section::Document) => match after_key(path, "routes") {
            Some(rest) => rest.starts_with('.')
                && begins_with_key(rest.trim_start_matches('.'), domain),
            None => false,
        },
        (Place::Route(domain), Section::Routes) => begins_with_key(path, domain),
        _ => false,
    }
}

/// Returns the section that a table header begins.
fn section_of(header: &str) -> Section {
    match after_key(header, "routes") {
        Some(rest) if rest.starts_with(']') => Section::Routes,
        _ => Section::Other,
    }
}

/// Returns whether a text begins with this key, and not with a longer one.
fn begins_with_key(text: &str, key: &str) -> bool {
    match after_key(text, key) {
        Some(rest) => rest.starts_with('=') || rest.starts_with('.') || rest.starts_with(']'),
        None => false,
    }
}

/// Returns what follows a key, bare or in quotes, at the start of a text, without surrounding blanks.
fn after_key<'a>(text: &'a str, key: &str) -> Option<&'a str> {
    let text = text.trim_start();
    let rest = if let Some(quoted) = text.strip_prefix('"') {
        quoted.strip_prefix(key)?.strip_prefix('"')?
    } else if let Some(quoted) = text.strip_prefix('\'') {
        quoted.strip_prefix(key)?.strip_prefix('\'')?
    } else {
        text.strip_prefix(key)?
    };
    Some(rest.trim_start())
}
