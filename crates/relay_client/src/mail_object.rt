use relay_envelope::Envelope;

/// A mail object (RFC 5321, section 2.3.1), of which an attempt relays what never changes.
#[derive(Clone, Copy)]
pub struct MailObject<'a> {
    /// Who sent it to whom, and with which parameters.
    pub envelope: &'a Envelope,
    /// The content after its time stamp line, as it is relayed.
    pub stored_text: &'a [u8],
}
