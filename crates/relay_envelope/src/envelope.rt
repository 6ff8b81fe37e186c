ghost use Rattle.std.specs.Prelude.{◌≡◌, ◌≤◌, ℕ, List, [], ◌∷◌, ◌++◌, length, IfOk, OnOk, OnErr, IsTrue, ◌↔◌};
ghost use Rattle.std.specs.Option.{option_copied};
ghost use Rattle.relay_envelope.specs.Path.{path_text, value_of};
ghost use Rattle.relay_envelope.specs.Parameters.{address_of, address_type_of};
ghost use Rattle.relay_envelope.specs.Mail.{mail_value, rcpt_value};
ghost use Rattle.relay_envelope.specs.Envelope.{envelope_from, recipient_from};

use crate::mail::Mail;
use crate::parameters::{Notify, Ret, type_and_address};
use crate::path::Path;
use crate::rcpt::Rcpt;
use crate::xtext::Xtext;
use relay_octets::Octets;
use std::alloc::{AllocError, Global};
use std::marker::Model;

/// A copy of a path as it came, with its brackets.
#[derive(Debug)]
pub struct PathBuf {
    text: Octets,
}

// Written out, so that the proof of a caller that drops a path stops at this function.
impl Drop for PathBuf {
    fn drop(self) {
        let PathBuf { text: _text } = self;
    }
}

impl Model for PathBuf {
    ghost use Rattle.std.specs.Prelude.{◌≤◌, List, ℕ, length};

    ghost Value = { List ℕ };

    ghost view = { λ path. path.text };

    ghost invariant = { λ path. length path.text ≤ 256 };
}

impl PathBuf {
    /// Copies a path. Fails if memory runs out.
    pub fn new(alloc: Global, path: Path<'_>) -> Result<Self, AllocError>
        ensures { IfOk result (λ copy. copy ≡ path_text (value_of path.entry)) }
    {
        Ok(PathBuf {
            text: Octets::from_slice(alloc, path.text())?,
        })
    }

    /// Returns the path with its brackets.
    pub fn as_slice(&self) -> &[u8]
        ensures value { result.now ≡ self.now }
        ensures within { length self.now ≤ 256 }
    {
        self.text.as_slice()
    }

    /// Returns another copy of the path. Fails if memory runs out.
    pub fn copy(&self, alloc: Global) -> Result<Self, AllocError>
        ensures { IfOk result (λ copy. copy ≡ self.now) }
    {
        Ok(PathBuf {
            text: Octets::from_slice(alloc, self.as_slice())?,
        })
    }
}

/// ORCPT as it was written (RFC 3461, section 4.2): a type, `;` and xtext.
#[derive(Debug)]
pub struct Orcpt {
    written: Octets,
}

// Written out, so that the proof of a caller that drops an ORCPT stops at this function.
impl Drop for Orcpt {
    fn drop(self) {
        let Orcpt { written: _written } = self;
    }
}

impl Model for Orcpt {
    ghost use Rattle.std.specs.Prelude.{List, ℕ};

    ghost Value = { List ℕ };

    ghost view = { λ orcpt. orcpt.written };
}

impl Orcpt {
    /// A copy of an ORCPT as it was written. Fails if memory runs out.
    pub fn new(alloc: Global, text: &[u8]) -> Result<Self, AllocError>
        ensures { IfOk result (λ copy. copy ≡ text.now) }
    {
        Ok(Orcpt {
            written: Octets::from_slice(alloc, text)?,
        })
    }

    /// The text as it was written.
    pub fn as_slice(&self) -> &[u8]
        ensures { result.now ≡ self.now }
    {
        self.written.as_slice()
    }

    /// Returns the type of the address: the text before the first `;`.
    pub fn address_type(&self) -> &[u8]
        ensures { result.now ≡ address_type_of self.now }
    {
        let (address_type, _) = type_and_address(self.as_slice());
        address_type
    }

    /// Returns the address, which is xtext: the text after the first `;`.
    pub fn address(&self) -> &[u8]
        ensures { result.now ≡ address_of self.now }
    {
        let (_, address) = type_and_address(self.as_slice());
        address
    }
}

/// Returns a copy of ENVID, if it was given.
fn copy_envid(alloc: Global, envid: Option<&[u8]>) -> Result<Option<Xtext>, AllocError>
    ensures { IfOk result (λ copy. copy ≡ option_copied envid.entry) }
{
    match envid {
        Some(text) => Ok(Some(Xtext::written(alloc, text)?)),
        None => Ok(None),
    }
}

/// Returns a copy of ORCPT, if it was given.
fn copy_orcpt(alloc: Global, orcpt: Option<&[u8]>) -> Result<Option<Orcpt>, AllocError>
    ensures { IfOk result (λ copy. copy ≡ option_copied orcpt.entry) }
{
    match orcpt {
        Some(text) => Ok(Some(Orcpt::new(alloc, text)?)),
        None => Ok(None),
    }
}

/// One accepted RCPT.
#[derive(Debug)]
pub struct Recipient {
    /// The forward path.
    pub path: PathBuf,
    /// When to report, if given.
    pub notify: Option<Notify>,
    /// The original recipient, if given.
    pub orcpt: Option<Orcpt>,
}

// Written out, so that the proof of a caller that drops a recipient stops at this function.
impl Drop for Recipient {
    fn drop(self) {
        let Recipient {
            path: _path,
            notify: _,
            orcpt: _orcpt,
        } = self;
    }
}

impl Recipient {
    /// Copies the values of RCPT. Fails if memory runs out.
    pub fn new(alloc: Global, rcpt: Rcpt<'_>) -> Result<Self, AllocError>
        ensures { IfOk result (λ recipient. recipient ≡ recipient_from (rcpt_value rcpt.entry)) }
    {
        Ok(Recipient {
            path: PathBuf::new(alloc, rcpt.path)?,
            notify: rcpt.notify,
            orcpt: copy_orcpt(alloc, rcpt.orcpt)?,
        })
    }

    /// Returns a copy of the recipient. Fails if memory runs out.
    pub fn copy(&self, alloc: Global) -> Result<Self, AllocError>
        ensures { IfOk result (λ copy. copy ≡ self.now) }
    {
        Ok(Recipient {
            path: self.path.copy(alloc)?,
            notify: self.notify,
            orcpt: copy_orcpt(alloc, self.orcpt.as_ref().map(|orcpt| orcpt.as_slice()))?,
        })
    }
}

/// The recipients of a message in the order of their RCPTs. One given twice is there twice.
#[derive(Debug)]
pub struct Recipients {
    items: Vec<Recipient>,
}

// Written out, so that the proof of a caller that drops recipients stops at this function.
impl Drop for Recipients {
    fn drop(self) {
        let Recipients { items: _items } = self;
    }
}

impl Model for Recipients {
    ghost use Rattle.std.specs.Prelude.{List};
    ghost use Rattle.relay_envelope.specs.declared.envelope.Recipient.{Recipient};

    ghost Value = { List Recipient };

    ghost view = { λ recipients. recipients.items.items };
}

impl Recipients {
    /// Makes an empty list. Allocates nothing.
    pub fn new(alloc: Global) -> Self
        ensures { result ≡ [] }
    {
        Recipients {
            items: Vec::new(alloc),
        }
    }

    /// Makes an empty list with room for exactly `count` recipients. Fails if memory runs out.
    pub fn with_capacity(alloc: Global, count: usize) -> Result<Self, AllocError>
        ensures { IfOk result (λ recipients. recipients ≡ []) }
    {
        Ok(Recipients {
            items: Vec::with_capacity(alloc, count)?,
        })
    }

    /// Returns how many recipients there are.
    pub fn len(&self) -> usize
        ensures { result ≡ length self.now }
    {
        self.items.len()
    }

    /// Returns whether there is no recipient.
    pub fn is_empty(&self) -> bool
        ensures { IsTrue result ↔ (self.now ≡ []) }
    {
        self.items.is_empty()
    }

    /// Returns the recipients.
    pub fn as_slice(&self) -> &[Recipient]
        ensures { result.now ≡ self.now }
    {
        self.items.as_slice()
    }

    /// Appends a recipient. If memory runs out, none is added.
    pub fn push(&mut self, recipient: Recipient) -> Result<(), AllocError>
        ensures ok { OnOk result (self.new ≡ self.old ++ recipient ∷ []) }
        ensures err { OnErr result (self.new ≡ self.old) }
    {
        self.items.push(recipient)?;
        Ok(())
    }

    /// Returns a copy of the recipients. Fails if memory runs out.
    pub fn copy(&self, alloc: Global) -> Result<Self, AllocError>
        ensures { IfOk result (λ copy. copy ≡ self.now) }
    {
        let mut copy = Recipients::with_capacity(alloc, self.len())?;
        for recipient in self.as_slice() {
            copy.push(recipient.copy(alloc)?)?;
        }
        Ok(copy)
    }
}

/// The envelope of a mail transaction (RFC 5321, section 2.3.1).
#[derive(Debug)]
pub struct Envelope {
    /// Where reports go, `<>` for none.
    pub reverse_path: PathBuf,
    /// How much of the message a report returns, if given.
    pub ret: Option<Ret>,
    /// The envelope's name for its sender, if given.
    pub envid: Option<Xtext>,
    /// Who gets the message.
    pub recipients: Recipients,
}

// Written out, so that the proof of a caller that drops an envelope stops at this function.
impl Drop for Envelope {
    fn drop(self) {
        let Envelope {
            reverse_path: _reverse_path,
            ret: _,
            envid: _envid,
            recipients: _recipients,
        } = self;
    }
}

impl Envelope {
    /// Copies the values of MAIL into an envelope without recipients. Fails if memory runs out.
    pub fn new(alloc: Global, mail: Mail<'_>) -> Result<Self, AllocError>
        ensures { IfOk result (λ envelope. envelope ≡ envelope_from (mail_value mail.entry)) }
    {
        Ok(Envelope {
            reverse_path: PathBuf::new(alloc, mail.reverse_path)?,
            ret: mail.ret,
            envid: copy_envid(alloc, mail.envid)?,
            recipients: Recipients::new(alloc),
        })
    }

    /// Returns a copy of the envelope. Fails if memory runs out.
    pub fn copy(&self, alloc: Global) -> Result<Self, AllocError>
        ensures { IfOk result (λ copy. copy ≡ self.now) }
    {
        Ok(Envelope {
            reverse_path: self.reverse_path.copy(alloc)?,
            ret: self.ret,
            envid: copy_envid(alloc, self.envid.as_ref().map(|envid| envid.as_slice()))?,
            recipients: self.recipients.copy(alloc)?,
        })
    }
}
