ghost use Rattle.std.specs.Prelude.{◌≡◌, [], map, IfOk, OnOk, None};
ghost use Rattle.relay_course.specs.Progress.{Delivery, Progress, after_answer, after_hello, after_reply, ended_by};
ghost use Rattle.relay_course.specs.Progress.{with_command};
ghost use Rattle.relay_course.specs.VerdictTable.{all_later, content_verdict_by, kind_of, refusal};
ghost use Rattle.relay_course.specs.WrittenLine.{ehlo_line, helo_line};
ghost use Rattle.relay_client.specs.Action.{done_by};
ghost use Rattle.relay_client.specs.Conversation.{Does, Holds, IsAtGreeting, IsDeliveryOf, SettlesOne};

use crate::action::{Action, action_after};
use crate::command::{write_dot_text, write_ehlo, write_helo, write_quit};
use crate::mail_object::MailObject;
use crate::settled::Settled;
use crate::verdict::{content_verdict, refusal};
use crate::verdicts::Verdicts;
use crate::waits::Waits;
use relay_body::ends_in_line_end;
use relay_book::Verdict;
use relay_course::{Awaited, Extensions, ReplyKind, extensions_of, kind_of};
use relay_lines::Reply;
use relay_octets::Octets;
use std::alloc::{AllocError, Global};

/// An attempt without its reader: what must be known of the replies that have come. To each reply it writes what the
/// table says, and at the end it gives the verdicts.
pub(crate) struct Conversation {
    pub(crate) alloc: Global,
    /// Our host's name.
    pub(crate) host: Octets,
    /// The places to try, in order.
    pub(crate) places: Vec<u8>,
    pub(crate) waits: Waits,
    /// Of how many places the RCPT was written.
    pub(crate) asked: usize,
    /// What the server offers.
    pub(crate) extensions: Extensions,
    pub(crate) settled: Settled,
}

// Written out, so that the proof of a caller that drops a conversation stops at this function.
impl Drop for Conversation {
    fn drop(self) {
        let Conversation {
            alloc: _,
            host: _host,
            places: _places,
            waits: _waits,
            asked: _,
            extensions: _,
            settled: _settled,
        } = self;
    }
}

impl Conversation {
    /// Nothing is read or written yet, and the greeting is awaited. Fails if memory runs out.
    pub(crate) fn begin(alloc: Global, host: &[u8], places: Vec<u8>) -> Result<Self, AllocError>
        ensures { IfOk result (IsAtGreeting host.now places.items) }
    {
        let mut waits = Waits::new(alloc);
        waits.push(Awaited::Greeting)?;
        Ok(Conversation {
            alloc,
            host: Octets::from_slice(alloc, host)?,
            places,
            waits,
            asked: 0,
            extensions: Extensions {
                pipelining: false,
                chunking: false,
                dsn: false,
            },
            settled: Settled::new(alloc),
        })
    }

    /// A reply answers what waits first. The verdicts are given where the attempt ends by it. Fails if memory runs out.
    pub(crate) fn answer(
        &mut self,
        mail: &MailObject<'_>,
        reply: Reply,
        out: &mut Vec<u8>,
    ) -> Result<Option<Verdicts>, AllocError>
        ensures { IfOk result (λ ended. (delivery : Delivery) (old : Progress)
            → Holds self.old delivery old → IsDeliveryOf delivery mail.now
            → Does delivery old (after_reply delivery old reply) self.new ended out.old.items out.new.items) }
    {
        let Some(waited) = self.waits.take_first() else {
            return Ok(None);
        };
        self.settle(waited, &reply)?;
        self.after_answer(mail, waited, &reply, out)
    }

    /// Keeps what a RCPT's reply says of its place.
    fn settle(&mut self, waited: Awaited, reply: &Reply) -> Result<(), AllocError>
        ensures { OnOk result (SettlesOne self.old self.new waited self.old.waits reply.now) }
    {
        match waited {
            Awaited::Rcpt(_) => self.settled.push(self.alloc, reply),
            Awaited::Greeting => Ok(()),
            Awaited::Ehlo => Ok(()),
            Awaited::Helo => Ok(()),
            Awaited::Mail => Ok(()),
            Awaited::Data => Ok(()),
            Awaited::Content => Ok(()),
        }
    }

    /// What the table says of the reply is done.
    fn after_answer(
        &mut self,
        mail: &MailObject<'_>,
        waited: Awaited,
        reply: &Reply,
        out: &mut Vec<u8>,
    ) -> Result<Option<Verdicts>, AllocError>
        ensures { IfOk result (λ ended. (delivery : Delivery) (old : Progress)
            → Holds self.old delivery old → IsDeliveryOf delivery mail.now
            → Does delivery old (after_answer delivery waited (kind_of reply.now.code) reply.now old)
            self.new ended out.old.items out.new.items) }
    {
        let action = action_after(waited, kind_of(reply.code()));
        self.act(action, mail, reply, out)
    }

    /// Does this.
    fn act(
        &mut self,
        action: Action,
        mail: &MailObject<'_>,
        reply: &Reply,
        out: &mut Vec<u8>,
    ) -> Result<Option<Verdicts>, AllocError>
        ensures { IfOk result (λ ended. (delivery : Delivery) (old : Progress)
            → Holds self.old delivery old → IsDeliveryOf delivery mail.now
            → Does delivery old (done_by delivery action reply.now old) self.new ended out.old.items out.new.items) }
    {
        match action {
            Action::Greet => self.greet(out),
            Action::TakeOffer => self.take_offer(mail, reply, out),
            Action::GreetPlainly => self.greet_plainly(out),
            Action::Begin => self.after_hello(mail, out),
            Action::GoOn => self.go_on(mail, out),
            Action::SendText => self.send_text(mail, out),
            Action::EndAfterContent(kind) => self.end_after_content(kind, reply, out),
            Action::PutOff => self.put_off(out),
            Action::Refuse => self.refuse(reply, out),
        }
    }

    /// EHLO.
    fn greet(&mut self, out: &mut Vec<u8>) -> Result<Option<Verdicts>, AllocError>
        ensures { IfOk result (λ ended. (delivery : Delivery) (old : Progress) → Holds self.old delivery old
            → Does delivery old (with_command (ehlo_line delivery.host) Awaited.Ehlo old)
            self.new ended out.old.items out.new.items) }
    {
        write_ehlo(out, self.host.as_slice())?;
        self.waits.push(Awaited::Ehlo)?;
        Ok(None)
    }

    /// HELO, since EHLO was refused (RFC 5321, section 3.2).
    fn greet_plainly(&mut self, out: &mut Vec<u8>) -> Result<Option<Verdicts>, AllocError>
        ensures { IfOk result (λ ended. (delivery : Delivery) (old : Progress) → Holds self.old delivery old
            → Does delivery old (with_command (helo_line delivery.host) Awaited.Helo old)
            self.new ended out.old.items out.new.items) }
    {
        write_helo(out, self.host.as_slice())?;
        self.waits.push(Awaited::Helo)?;
        Ok(None)
    }

    /// What the server offers is kept, and the transaction begins.
    fn take_offer(
        &mut self,
        mail: &MailObject<'_>,
        reply: &Reply,
        out: &mut Vec<u8>,
    ) -> Result<Option<Verdicts>, AllocError>
        ensures { IfOk result (λ ended. (delivery : Delivery) (old : Progress)
            → Holds self.old delivery old → IsDeliveryOf delivery mail.now
            → Does delivery old (after_answer delivery Awaited.Ehlo ReplyKind.Completion reply.now old)
            self.new ended out.old.items out.new.items) }
    {
        self.extensions = extensions_of(reply);
        self.after_hello(mail, out)
    }

    /// The server is greeted: a text that doesn't end in CR LF needs CHUNKING.
    fn after_hello(
        &mut self,
        mail: &MailObject<'_>,
        out: &mut Vec<u8>,
    ) -> Result<Option<Verdicts>, AllocError>
        ensures { IfOk result (λ ended. (delivery : Delivery) (old : Progress)
            → Holds self.old delivery old → IsDeliveryOf delivery mail.now
            → Does delivery old (after_hello delivery old) self.new ended out.old.items out.new.items) }
    {
        if ends_in_line_end(mail.stored_text) || self.extensions.chunking {
            self.ask_mail(mail, out)?;
            Ok(None)
        } else {
            Ok(Some(self.end(&Verdict::CantSend, out)?))
        }
    }

    /// Returns the text, after a server's leave to send it.
    fn send_text(
        &mut self,
        mail: &MailObject<'_>,
        out: &mut Vec<u8>,
    ) -> Result<Option<Verdicts>, AllocError>
        ensures { IfOk result (λ ended. (delivery : Delivery) (old : Progress)
            → Holds self.old delivery old → IsDeliveryOf delivery mail.now
            → Does delivery old (with_command delivery.dot_text Awaited.Content old)
            self.new ended out.old.items out.new.items) }
    {
        write_dot_text(out, mail.stored_text)?;
        self.waits.push(Awaited::Content)?;
        Ok(None)
    }

    /// Ends by the reply to the content.
    fn end_after_content(
        &mut self,
        kind: ReplyKind,
        reply: &Reply,
        out: &mut Vec<u8>,
    ) -> Result<Option<Verdicts>, AllocError>
        ensures { IfOk result (λ ended. (delivery : Delivery) (old : Progress) → Holds self.old delivery old
            → Does delivery old (ended_by delivery (content_verdict_by old.extensions.dsn kind reply.now) old)
            self.new ended out.old.items out.new.items) }
    {
        let last = content_verdict(self.alloc, self.extensions.dsn, kind, reply)?;
        Ok(Some(self.end(&last, out)?))
    }

    /// Ends by a reply that refuses for good.
    fn refuse(&mut self, reply: &Reply, out: &mut Vec<u8>) -> Result<Option<Verdicts>, AllocError>
        ensures { IfOk result (λ ended. (delivery : Delivery) (old : Progress) → Holds self.old delivery old
            → Does delivery old (ended_by delivery (refusal reply.now) old)
            self.new ended out.old.items out.new.items) }
    {
        let last = refusal(self.alloc, reply)?;
        Ok(Some(self.end(&last, out)?))
    }

    /// Ends by a reply after which it may be tried again.
    fn put_off(&mut self, out: &mut Vec<u8>) -> Result<Option<Verdicts>, AllocError>
        ensures { IfOk result (λ ended. (delivery : Delivery) (old : Progress) → Holds self.old delivery old
            → Does delivery old (ended_by delivery Verdict.Later old)
            self.new ended out.old.items out.new.items) }
    {
        Ok(Some(self.end(&Verdict::Later, out)?))
    }

    /// QUIT, and the verdicts.
    pub(crate) fn end(&mut self, last: &Verdict, out: &mut Vec<u8>) -> Result<Verdicts, AllocError>
        ensures { IfOk result (λ verdicts. (delivery : Delivery) (old : Progress) → Holds self.old delivery old
            → Does delivery old (ended_by delivery last.now old) self.new (Some verdicts)
            out.old.items out.new.items) }
    {
        write_quit(out)?;
        self.settled
            .verdicts(self.alloc, self.places.as_slice(), last)
    }

    /// Later for each place. Fails if memory runs out.
    pub(crate) fn all_later(&self) -> Result<Verdicts, AllocError>
        ensures { IfOk result (λ verdicts. verdicts ≡ all_later self.now.places.items) }
    {
        let mut verdicts = Verdicts::with_capacity(self.alloc, self.places.len())?;
        for _ in self.places.as_slice() {
            verdicts.push(Verdict::Later)?;
        }
        Ok(verdicts)
    }
}
