//! The words of a line.
use std::alloc::Global;
use std::io::{self, Error, ErrorKind};
use std::net::SocketAddrV4;
use std::str::FromStr;

/// Returns the first word of a line, and what follows it.
pub fn first_word(line: &str) -> (&str, &str) {
    line.split_once(' ').unwrap_or((line, ""))
}

/// Returns the value that a word spells. Fails if it spells none.
pub fn value_of<T: FromStr + Drop>(word: &str) -> io::Result<T>
where
    T::Err: Drop,
{
    match word.parse::<T>() {
        Ok(value) => Ok(value),
        Err(_) => Err(unread()),
    }
}

/// Returns the address that a word spells.
pub fn address_of(word: &str) -> io::Result<SocketAddrV4> {
    value_of(word)
}

/// Returns the octets that a word spells in hexadecimal; none for `-`.
pub fn octets_of(alloc: Global, word: &str) -> io::Result<Vec<u8>> {
    if word == "-" {
        return Ok(Vec::new(alloc));
    }
    match hex::decode(alloc, word) {
        Ok(octets) => Ok(octets),
        Err(_) => Err(unread()),
    }
}

/// The error of a line that can't be read.
pub fn unread() -> Error {
    Error::from(ErrorKind::InvalidInput)
}
