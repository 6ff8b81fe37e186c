//! The receipt for a message that a thread queued.
use relay_book::Accept;

/// A queued message, as the thread that gave it knows it.
pub struct Receipt {
    /// The message's number.
    pub number: u64,
    /// The IPv4 address of the client that gave it.
    pub peer: [u8; 4],
    /// Its time, envelope and stored text.
    pub accept: Accept,
}

// Written out, so that the proof of a caller that drops a receipt stops at this function.
impl Drop for Receipt {
    fn drop(self) {
        let Receipt {
            number: _,
            peer: _,
            accept: _accept,
        } = self;
    }
}
