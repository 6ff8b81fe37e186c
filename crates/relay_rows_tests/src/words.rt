/// The words of a row, or of an event, that aren't read yet, with a space between each two.
#[derive(Clone, Copy)]
pub struct Words<'a> {
    pub rest: &'a str,
}

/// One that a node talks to.
#[derive(Clone, Copy)]
pub enum Peer {
    /// The client of the session of this number.
    Client(usize),
    /// The next hop of the attempt of this number.
    Hop(usize),
}

impl<'a> Words<'a> {
    /// Returns the next word; an empty one if there is none.
    pub fn word(&mut self) -> &'a str {
        let (word, rest) = self.rest.split_once(' ').unwrap_or((self.rest, ""));
        self.rest = rest;
        word
    }

    /// Returns the next word as a number, the greatest where it is none.
    pub fn number(&mut self) -> u64 {
        self.number_or(u64::MAX)
    }

    /// Returns the next word as a number, and this one where it is none.
    pub fn number_or(&mut self, other: u64) -> u64 {
        self.word().parse::<u64>().unwrap_or(other)
    }

    /// Returns the text up to the next bar, or all that is left.
    pub fn field(&mut self) -> &'a str {
        let (field, rest) = self.rest.split_once('|').unwrap_or((self.rest, ""));
        self.rest = rest;
        field
    }

    /// Returns the peer that the next two words name: `client 0`, `hop 0`.
    pub fn peer(&mut self) -> Peer {
        let is_client = self.word() == "client";
        let number = self.number() as usize;
        if is_client {
            Peer::Client(number)
        } else {
            Peer::Hop(number)
        }
    }
}
