/// What waits for a reply (RFC 5321, section 3.1; RFC 2920, section 3.1): each reply answers the earliest of these.
#[derive(Clone, Copy, PartialEq, Eq)]
pub enum Awaited {
    /// The greeting: the server speaks first.
    Greeting,
    /// EHLO was written.
    Ehlo,
    /// HELO was written, since EHLO was refused.
    Helo,
    /// MAIL was written.
    Mail,
    /// The RCPT of this place was written, from 0.
    Rcpt(u8),
    /// DATA was written, without mail data after it.
    Data,
    /// The content was written: mail data after DATA, or the last chunk with its BDAT.
    Content,
}
