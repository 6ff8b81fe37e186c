//! A stopping node lets go of its ends of links: its sessions are gone, its attempts dropped, and the links broken.
ghost use Rattle.std.specs.Prelude.{◌≡◌, map};
ghost use Rattle.relay_world.specs.Crashes.{has_end_of, is_tried_for, let_go_link, serves_for};
ghost use Rattle.relay_world.specs.HangUp.{dropped, hung_up_attempt, hung_up_end, hung_up_link};

use crate::links::break_off;
use relay_world::{Attempt, Fate, Link, ServerEnd};

/// Breaks each link that has an end at the node, and ends the node's session there.
pub fn let_go_links(links: &mut [Link], attempts: &[Attempt], node: usize)
    ensures { links.new ≡ map (let_go_link node attempts.now) links.old }
{
    for place in 0..links.len() {
        let_go_one(&mut links[place], attempts, node);
    }
}

/// Breaks a link if it has an end at the node, and ends the node's session there.
fn let_go_one(link: &mut Link, attempts: &[Attempt], node: usize)
    ensures { link.new ≡ let_go_link node attempts.now link.old }
{
    if has_end_of(link, attempts, node) {
        hang_up_link(link, node);
        break_off(link);
    }
}

/// Returns whether a link has an end at the node.
fn has_end_of(link: &Link, attempts: &[Attempt], node: usize) -> bool
    ensures { result ≡ has_end_of node attempts.now link.now }
{
    if serves_for(&link.server, node) {
        return true;
    }
    is_tried_for(link.client, attempts, node)
}

/// Returns whether a server end belongs to the node.
pub fn serves_for(server: &Option<ServerEnd>, node: usize) -> bool
    ensures { result ≡ serves_for node server.now }
{
    match server {
        Some(end) => end.node == node,
        None => false,
    }
}

/// Returns whether a client end is an attempt of the node.
pub fn is_tried_for(client: Option<usize>, attempts: &[Attempt], node: usize) -> bool
    ensures { result ≡ is_tried_for node attempts.now client }
{
    let Some(place) = client else {
        return false;
    };
    match attempts.get(place) {
        Some(attempt) => attempt.node == node,
        None => false,
    }
}

/// Ends the node's session at the server end of a link, if there is one.
fn hang_up_link(link: &mut Link, node: usize)
    ensures { link.new ≡ hung_up_link node link.old }
{
    if let Some(end) = &mut link.server {
        hang_up_end(end, node);
    }
}

/// Ends the session of a server end, if it belongs to the node.
fn hang_up_end(end: &mut ServerEnd, node: usize)
    ensures { end.new ≡ hung_up_end node end.old }
{
    if end.node == node {
        end.session = None;
    }
}

/// Drops all running attempts of the node.
pub fn hang_up_attempts(attempts: &mut [Attempt], node: usize)
    ensures { attempts.new ≡ map (hung_up_attempt node) attempts.old }
{
    for place in 0..attempts.len() {
        hang_up_attempt(&mut attempts[place], node);
    }
}

/// Drops an attempt, if it runs at the node.
fn hang_up_attempt(attempt: &mut Attempt, node: usize)
    ensures { attempt.new ≡ hung_up_attempt node attempt.old }
{
    if attempt.node == node {
        attempt.fate = dropped(attempt.fate);
    }
}

/// Returns the state of an attempt after it was dropped: unchanged if it had ended.
fn dropped(fate: Fate) -> Fate
    ensures { result ≡ dropped fate }
{
    match fate {
        Fate::Running(_) => Fate::Dropped,
        Fate::Replied(number) => Fate::Replied(number),
        Fate::Lost(number) => Fate::Lost(number),
        Fate::Dropped => Fate::Dropped,
    }
}
