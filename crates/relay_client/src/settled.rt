ghost use Rattle.std.specs.Prelude.{◌≡◌, ℕ, [], ◌++◌, ◌∷◌, drop, slice_get, IfOk, OnOk, None, Some};
ghost use Rattle.relay_course.specs.VerdictTable.{rcpt_verdict, refusal};
ghost use Rattle.relay_client.specs.Conversation.{has_open, verdicts_from};
ghost use Rattle.relay_client.specs.Settled.{has_accepted, settled_of, size_by, verdict_by};

use crate::verdict::{RcptAnswer, copy_of, kept_text, rcpt_answer};
use crate::verdicts::Verdicts;
use relay_book::Verdict;
use relay_lines::Reply;
use relay_octets::Octets;
use std::alloc::{AllocError, Global};
use std::marker::Model;

/// The result of a RCPT by its reply, in four octets: a waiting attempt may hold one for each of 100 places.
#[derive(Clone, Copy)]
enum Said {
    /// The RCPT was accepted.
    Accepted,
    /// It may be tried again.
    Delayed,
    /// It was refused for good.
    Rejected {
        /// The reply's code.
        code: u16,
        /// How many octets its text has.
        size: u8,
    },
}

/// The results of the RCPTs, in the order of the places: the verdict of a place, or none if its RCPT was accepted.
#[derive(Drop)]
pub(crate) struct Settled {
    said: Vec<Said>,
    /// The texts of the refusals, one after another.
    texts: Vec<u8>,
}

impl Model for Settled {
    ghost use Rattle.std.specs.Prelude.{◌≡◌, List, Option, length};
    ghost use Rattle.relay_book.specs.declared.change.Verdict.{Verdict};
    ghost use Rattle.relay_client.specs.Settled.{settled_of, text_sizes};

    ghost Value = { List (Option Verdict) };

    ghost view = { λ settled. settled_of settled.said.items settled.texts.items };

    ghost invariant = { λ settled. length settled.texts.items ≡ text_sizes settled.said.items };
}

impl Settled {
    /// No RCPT is answered. Allocates nothing.
    pub(crate) fn new(alloc: Global) -> Self
        ensures { result ≡ [] }
    {
        Settled {
            said: Vec::new(alloc),
            texts: Vec::new(alloc),
        }
    }

    /// The RCPT of the next place is answered. Fails if memory runs out.
    pub(crate) fn push(&mut self, alloc: Global, reply: &Reply) -> Result<(), AllocError>
        ensures { OnOk result (self.new ≡ self.old ++ rcpt_verdict reply.now ∷ []) }
    {
        match rcpt_answer(reply) {
            RcptAnswer::Accepts => self.accept(),
            RcptAnswer::Delays => self.delay(),
            RcptAnswer::Rejects => self.reject(alloc, reply),
        }
    }

    /// The next RCPT was accepted.
    fn accept(&mut self) -> Result<(), AllocError>
        ensures { OnOk result (self.new ≡ self.old ++ None ∷ []) }
    {
        self.said.push(Said::Accepted)?;
        Ok(())
    }

    /// The next RCPT may be tried again.
    fn delay(&mut self) -> Result<(), AllocError>
        ensures { OnOk result (self.new ≡ self.old ++ Some Verdict.Later ∷ []) }
    {
        self.said.push(Said::Delayed)?;
        Ok(())
    }

    /// The next RCPT was refused by this reply.
    fn reject(&mut self, alloc: Global, reply: &Reply) -> Result<(), AllocError>
        ensures { OnOk result (self.new ≡ self.old ++ Some (refusal reply.now) ∷ []) }
    {
        let kept = kept_text(alloc, reply)?;
        let text = kept.as_slice();
        let size = text.len() as u8;
        // With room for it the second push doesn't fail, and the text goes with it.
        self.said.reserve(1)?;
        self.texts.extend_from_slice(text)?;
        self.said.push(Said::Rejected {
            code: reply.code(),
            size,
        })?;
        Ok(())
    }

    /// Returns whether a RCPT was accepted.
    #[tactic(auto, using(crate::proofs::SettledLemmas::open_accepted))]
    pub(crate) fn has_open(&self) -> bool
        ensures { result ≡ has_open self.now }
    {
        has_accepted(self.said.as_slice())
    }

    /// Returns the verdict of each of the places: what its RCPT's reply said, or the last one. Fails if memory runs
    /// out.
    pub(crate) fn verdicts(
        &self,
        alloc: Global,
        places: &[u8],
        last: &Verdict,
    ) -> Result<Verdicts, AllocError>
        ensures { IfOk result (λ verdicts. verdicts ≡ verdicts_from places.now self.now last.now) }
    {
        verdicts_of(
            alloc,
            places,
            self.said.as_slice(),
            self.texts.as_slice(),
            last,
        )
    }
}

/// Returns whether one of them was accepted.
fn has_accepted(said: &[Said]) -> bool
    ensures { result ≡ has_accepted said.now }
{
    for one in said {
        if matches!(one, Said::Accepted) {
            return true;
        }
    }
    false
}

/// Returns the verdict of each of the places by what was said of it: the last one where its RCPT was accepted, or isn't
/// answered. The texts are those of the refusals.
fn verdicts_of(
    alloc: Global,
    places: &[u8],
    said: &[Said],
    texts: &[u8],
    last: &Verdict,
) -> Result<Verdicts, AllocError>
    ensures { IfOk result (λ verdicts. verdicts
        ≡ verdicts_from places.now (settled_of said.now texts.now) last.now) }
{
    let mut verdicts = Verdicts::with_capacity(alloc, places.len())?;
    let mut texts = texts;
    for index in 0..places.len() {
        let one = said_at(said, index);
        verdicts.push(verdict_by(alloc, one, texts, last)?)?;
        texts = after_text(one, texts);
    }
    Ok(verdicts)
}

/// Returns what was said at this index, if anything.
#[tactic(auto, using(crate::proofs::SettledLemmas::said_within, crate::proofs::SettledLemmas::said_past))]
fn said_at(said: &[Said], index: usize) -> Option<Said>
    ensures { result ≡ slice_get said.now index }
{
    if index < said.len() {
        Some(said[index])
    } else {
        None
    }
}

/// Returns the verdict by what was said, whose text begins the texts. Fails if memory runs out.
#[tactic(auto, using(std::proofs::lemmas::List::take_min))]
fn verdict_by(
    alloc: Global,
    one: Option<Said>,
    texts: &[u8],
    last: &Verdict,
) -> Result<Verdict, AllocError>
    ensures { IfOk result (λ verdict. verdict ≡ verdict_by one texts.now last.now) }
{
    match one {
        Some(Said::Rejected { code, size }) => {
            let end = usize::from(size).min(texts.len());
            Ok(Verdict::Refused {
                code,
                text: Octets::from_slice(alloc, &texts[..end])?,
            })
        }
        Some(Said::Delayed) => Ok(Verdict::Later),
        Some(Said::Accepted) => copy_of(alloc, last),
        None => copy_of(alloc, last),
    }
}

/// Returns the texts after the text of this one.
#[tactic(auto, using(std::proofs::lemmas::List::drop_min))]
fn after_text(one: Option<Said>, texts: &[u8]) -> &[u8]
    ensures { result.now ≡ drop (size_by one) texts.now }
{
    match one {
        Some(Said::Rejected { code: _, size }) => &texts[usize::from(size).min(texts.len())..],
        Some(Said::Delayed) => texts,
        Some(Said::Accepted) => texts,
        None => texts,
    }
}
