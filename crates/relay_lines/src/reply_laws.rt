//! Laws of replies, whoever reads or writes them.
ghost use Rattle.relay_lines.specs.ReplyLaws.{BeginningIsCut, BeginningIsUnfinished, CutGoesOn, CutIsOne, CutStays};
ghost use Rattle.relay_lines.specs.ReplyLaws.{FaultIsOne, FaultStays, HeldIsUnfinished, NoReplyBeginsAnother};
ghost use Rattle.relay_lines.specs.ReplyLaws.{ReadIsCut, ReplyHasNoFault, UnfinishedHasNoFault, UnfinishedHasNoReply};
ghost use Rattle.relay_lines.specs.ReplyLaws.{WrittenIsRead};

/// What is written is read again as the same reply.
pub fn written_is_read()
    ensures { WrittenIsRead }
{}

/// No reply begins another, and octets are one reply at most.
pub fn no_reply_begins_another()
    ensures { NoReplyBeginsAnother }
{}

/// If octets are a prefix of written replies, the replies cut from them are a prefix of those, and the rest has no
/// fault.
pub fn beginning_is_cut()
    ensures { BeginningIsCut }
{}

/// What a reader has used is cut into all its whole replies, and its rest is what it holds.
pub fn read_is_cut()
    ensures { ReadIsCut }
{}

/// Octets are cut into all their whole replies in one way.
pub fn cut_is_one()
    ensures { CutIsOne }
{}

/// What comes after replies comes after their rest.
pub fn cut_goes_on()
    ensures { CutGoesOn }
{}

/// Replies that were cut stay when more octets come: the further replies are those of the rest and these octets.
pub fn cut_stays()
    ensures { CutStays }
{}

/// Octets that begin with a reply have no fault.
pub fn reply_has_no_fault()
    ensures { ReplyHasNoFault }
{}

/// An unfinished rest has no fault.
pub fn unfinished_has_no_fault()
    ensures { UnfinishedHasNoFault }
{}

/// An unfinished rest begins with no reply.
pub fn unfinished_has_no_reply()
    ensures { UnfinishedHasNoReply }
{}

/// A proper prefix of a reply is an unfinished rest.
pub fn beginning_is_unfinished()
    ensures { BeginningIsUnfinished }
{}

/// A fault stays one, whatever comes after.
pub fn fault_stays()
    ensures { FaultStays }
{}

/// Octets have one fault at most.
pub fn fault_is_one()
    ensures { FaultIsOne }
{}

/// A reader holds an unfinished rest.
pub fn held_is_unfinished()
    ensures { HeldIsUnfinished }
{}
