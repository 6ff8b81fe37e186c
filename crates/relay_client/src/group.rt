//! The commands of a mail transaction, alone or in groups (RFC 5321, section 3.3; RFC 2920, section 3.1).
ghost use Rattle.std.specs.Prelude.{◌≡◌, ◌<◌, ◌+◌, ℕ, List, ◌∷◌, drop, length, IfOk, OnOk, None, Some};
ghost use Rattle.relay_course.specs.Progress.{Delivery, Progress, after_rcpts, gone_on, with_command, with_content};
ghost use Rattle.relay_course.specs.Progress.{with_mail, with_rcpt, with_rcpts};
ghost use Rattle.relay_course.specs.WrittenLine.{mail_line};
ghost use Rattle.relay_client.specs.Conversation.{Does, Holds, IsDeliveryOf};

use crate::command::{write_data, write_last_chunk, write_mail_line, write_rcpt_at};
use crate::conversation::Conversation;
use crate::mail_object::MailObject;
use crate::verdicts::Verdicts;
use relay_body::ends_in_line_end;
use relay_book::Verdict;
use relay_course::Awaited;
use std::alloc::AllocError;

impl Conversation {
    /// MAIL, and the RCPTs in one group with it where PIPELINING is offered.
    pub(crate) fn ask_mail(
        &mut self,
        mail: &MailObject<'_>,
        out: &mut Vec<u8>,
    ) -> Result<(), AllocError>
        ensures { OnOk result ((delivery : Delivery) (old : Progress)
            → Holds self.old delivery old → IsDeliveryOf delivery mail.now
            → Does delivery old (with_mail delivery old) self.new None out.old.items out.new.items) }
    {
        self.ask_mail_alone(mail, out)?;
        if self.extensions.pipelining {
            self.ask_rcpts(mail, out)
        } else {
            Ok(())
        }
    }

    /// MAIL.
    fn ask_mail_alone(&mut self, mail: &MailObject<'_>, out: &mut Vec<u8>) -> Result<(), AllocError>
        ensures { OnOk result ((delivery : Delivery) (old : Progress)
            → Holds self.old delivery old → IsDeliveryOf delivery mail.now
            → Does delivery old (with_command (mail_line old.extensions.dsn delivery.envelope) Awaited.Mail old)
            self.new None out.old.items out.new.items) }
    {
        write_mail_line(self.alloc, out, self.extensions.dsn, mail.envelope)?;
        self.waits.push(Awaited::Mail)?;
        Ok(())
    }

    /// Returns the RCPTs of the places whose RCPT wasn't written yet.
    fn ask_rcpts(&mut self, mail: &MailObject<'_>, out: &mut Vec<u8>) -> Result<(), AllocError>
        ensures { OnOk result ((delivery : Delivery) (old : Progress)
            → Holds self.old delivery old → IsDeliveryOf delivery mail.now
            → Does delivery old (with_rcpts delivery old.unasked old) self.new None out.old.items out.new.items) }
    {
        while self.asked < self.places.len() {
            let place = self.places[self.asked];
            self.ask_rcpt(mail, place, out)?;
        }
        Ok(())
    }

    /// Returns the RCPT of the next place.
    fn ask_rcpt(
        &mut self,
        mail: &MailObject<'_>,
        place: u8,
        out: &mut Vec<u8>,
    ) -> Result<(), AllocError>
        requires { self.old.asked < length self.old.places.items }
        ensures does { OnOk result ((delivery : Delivery) (old : Progress) (more : List ℕ)
            → Holds self.old delivery old → IsDeliveryOf delivery mail.now
            → drop self.old.asked self.old.places.items ≡ place ∷ more
            → Does delivery old (with_rcpt delivery place more old) self.new None out.old.items out.new.items) }
        ensures asked { OnOk result (self.new.asked ≡ self.old.asked + 1) }
        ensures places { self.new.places ≡ self.old.places }
    {
        let recipients = mail.envelope.recipients.as_slice();
        write_rcpt_at(
            self.alloc,
            out,
            self.extensions.dsn,
            recipients,
            place as usize,
        )?;
        self.asked += 1;
        self.waits.push(Awaited::Rcpt(place))?;
        Ok(())
    }

    /// After a reply to MAIL or to a RCPT: where nothing waits the next RCPT, and after the last one the content.
    pub(crate) fn go_on(
        &mut self,
        mail: &MailObject<'_>,
        out: &mut Vec<u8>,
    ) -> Result<Option<Verdicts>, AllocError>
        ensures { IfOk result (λ ended. (delivery : Delivery) (old : Progress)
            → Holds self.old delivery old → IsDeliveryOf delivery mail.now
            → Does delivery old (gone_on delivery old) self.new ended out.old.items out.new.items) }
    {
        if !self.waits.is_empty() {
            return Ok(None);
        }
        if self.asked < self.places.len() {
            let place = self.places[self.asked];
            self.ask_rcpt(mail, place, out)?;
            return Ok(None);
        }
        self.after_rcpts(mail, out)
    }

    /// All RCPTs are answered: the content where a place is left, and else the end.
    fn after_rcpts(
        &mut self,
        mail: &MailObject<'_>,
        out: &mut Vec<u8>,
    ) -> Result<Option<Verdicts>, AllocError>
        ensures { IfOk result (λ ended. (delivery : Delivery) (old : Progress)
            → Holds self.old delivery old → IsDeliveryOf delivery mail.now
            → Does delivery old (after_rcpts delivery old) self.new ended out.old.items out.new.items) }
    {
        if self.settled.has_open() {
            self.ask_content(mail, out)?;
            Ok(None)
        } else {
            Ok(Some(self.end(&Verdict::Later, out)?))
        }
    }

    /// DATA where the text ends in CR LF, and else the text as a chunk.
    fn ask_content(&mut self, mail: &MailObject<'_>, out: &mut Vec<u8>) -> Result<(), AllocError>
        ensures { OnOk result ((delivery : Delivery) (old : Progress)
            → Holds self.old delivery old → IsDeliveryOf delivery mail.now
            → Does delivery old (with_content delivery old) self.new None out.old.items out.new.items) }
    {
        if ends_in_line_end(mail.stored_text) {
            write_data(out)?;
            self.waits.push(Awaited::Data)
        } else {
            write_last_chunk(out, mail.stored_text)?;
            self.waits.push(Awaited::Content)
        }
    }
}
