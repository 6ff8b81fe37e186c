//! Laws of two relays that meet.
ghost use Rattle.relay_meeting.specs.Joined.{ChildHoldsItsPlaces, OfferHoldsItsPlaces, TwoRelaysEnd, TwoRelaysMeet};
ghost use Rattle.relay_meeting.specs.Joined.{WhatRelaysSay};
ghost use Rattle.relay_meeting.specs.Meeting.{Meeting};
ghost use Rattle.relay_meeting.specs.Script.{ClientWrites, EachPlaceIsTried, ScriptIsServers};

/// Of a client that writes a script, and a server that has read a prefix of what it wrote, the turns are of the script.
pub fn meeting()
    ensures { Meeting }
{}

/// Each place of a valid envelope is tried as the server's table says.
pub fn each_place_is_tried()
    ensures { EachPlaceIsTried }
{}

/// The script of a delivery is what the server makes of its commands.
pub fn script_is_servers()
    ensures { ScriptIsServers }
{}

/// A client of the delivery writes the script.
pub fn client_writes()
    ensures { ClientWrites }
{}

/// Two relays of which each has read a prefix of what the other wrote have said turns of the script.
pub fn two_relays_meet()
    ensures { TwoRelaysMeet }
{}

/// An attempt that the replies of a relay ended has the verdicts of its table, and Taken where the offer was queued.
pub fn two_relays_end()
    ensures { TwoRelaysEnd }
{}

/// Where a relay has made an offer, the client has read the replies to all RCPTs.
pub fn offer_holds_its_places()
    ensures { OfferHoldsItsPlaces }
{}

/// Where a relay has made an offer, it is one, of the recipients whose RCPTs the client has read to be accepted.
pub fn child_holds_its_places()
    ensures { ChildHoldsItsPlaces }
{}

/// What two relays have said to each other of a valid delivery, all of it.
pub fn what_relays_say()
    ensures { WhatRelaysSay }
{}
