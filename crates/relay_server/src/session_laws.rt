//! What a session tells its caller, and what may be said of it after each call.
ghost use Rattle.relay_server.specs.SessionLaws.{AnsweredIsSettled, ClosedIsADialogue, CloseIsClosed, ContentIsWithin};
ghost use Rattle.relay_server.specs.SessionLaws.{MoreIsMore, NoneElseIsOpen, OfferIsTold, OfferIsWithin};
ghost use Rattle.relay_server.specs.SessionLaws.{OffersAreAnswered};
ghost use Rattle.relay_server.specs.SessionLaws.{OpenIsNew, OpenMayBeStored, PieceGoesOn};

/// The caller is told to take an offer exactly if one is open.
pub fn offer_is_told()
    ensures { OfferIsTold }
{}

/// If the caller isn't told to take an offer, none is open: at most one offer is open.
pub fn none_else_is_open()
    ensures { NoneElseIsOpen }
{}

/// After no open offer the new ones are those that are open.
pub fn open_is_new()
    ensures { OpenIsNew }
{}

/// Each offer but the open one is answered.
pub fn offers_are_answered()
    ensures { OffersAreAnswered }
{}

/// Where as many answers were said as offers, none is open.
pub fn answered_is_settled()
    ensures { AnsweredIsSettled }
{}

/// A session whose caller is told to close is closed.
pub fn close_is_closed()
    ensures { CloseIsClosed }
{}

/// After a close what was said is a closed dialogue, and unread octets are its rest.
pub fn closed_is_a_dialogue()
    ensures { ClosedIsADialogue }
{}

/// The open offer of a session may be stored.
pub fn open_may_be_stored()
    ensures { OpenMayBeStored }
{}

/// A session holds no more octets of content than its configuration allows, whatever it has answered.
pub fn content_is_within()
    ensures { ContentIsWithin }
{}

/// An open offer's content is no longer than the session's configuration allows, whatever it has answered.
pub fn offer_is_within()
    ensures { OfferIsWithin }
{}

/// What was said in two steps was said in one.
pub fn more_is_more()
    ensures { MoreIsMore }
{}

/// What was said of a piece, and then of the octets after, was said of both.
pub fn piece_goes_on()
    ensures { PieceGoesOn }
{}
