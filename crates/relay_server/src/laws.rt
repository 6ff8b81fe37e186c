//! Laws of dialogues, whatever session holds them.
ghost use Rattle.relay_server.specs.DialogueLaws.{NoUnitIsEmpty, NoUnitBeginsAnother, RunsCompose};
ghost use Rattle.relay_server.specs.DialogueLaws.{WhatStandsIsADialogue, RowIsFixed, OutputIsFixed};
ghost use Rattle.relay_server.specs.DialogueLaws.{BeginningsHaveBeginnings, OnlyContentIsOffered, OnlyQueuedIsPositive};
ghost use Rattle.relay_server.specs.DialogueLaws.{RepliesAreWellFormed, OffersMayBeStored, RecipientsAreTaken};

/// No unit is empty.
pub fn no_unit_is_empty()
    ensures { NoUnitIsEmpty }
{}

/// Octets begin with at most one unit of a state, and one rest follows it.
pub fn no_unit_begins_another()
    ensures { NoUnitBeginsAnother }
{}

/// Turns, and further turns from the state that they lead to, are turns together.
pub fn runs_compose()
    ensures { RunsCompose }
{}

/// Whatever was said in a session is a dialogue.
pub fn what_stands_is_a_dialogue()
    ensures { WhatStandsIsADialogue }
{}

/// State, unit and answer fix the reply, the offer and the next state.
pub fn row_is_fixed()
    ensures { RowIsFixed }
{}

/// The input and the answers of a dialogue fix its output and its offers.
pub fn output_is_fixed()
    ensures { OutputIsFixed }
{}

/// If the input and the output of a dialogue are prefixes of another's, so are its answers and its offers.
pub fn beginnings_have_beginnings()
    ensures { BeginningsHaveBeginnings }
{}

/// Of all replies to mail data and to a last chunk only the one to a queued message is positive.
pub fn only_queued_is_positive()
    ensures { OnlyQueuedIsPositive }
{}

/// Nothing is offered but mail data that has ended, and chunks of which the last has come.
pub fn only_content_is_offered()
    ensures { OnlyContentIsOffered }
{}

/// The greeting and every reply are well formed, for a host name and numbers of 64 bits.
pub fn replies_are_well_formed()
    ensures { RepliesAreWellFormed }
{}

/// Whatever is offered may be stored: a host word, a whole envelope of 1 to 100 recipients, a
/// content within the limit with at most 99 `Received:` fields.
pub fn offers_may_be_stored()
    ensures { OffersMayBeStored }
{}

/// Whoever is a recipient of an offer has a next hop, and a path that isn't refused.
pub fn recipients_are_taken()
    ensures { RecipientsAreTaken }
{}
