//! One link, the state of its ends, and its changes.
ghost use Rattle.std.specs.Prelude.{◌≡◌, ◌+◌, ◌<◌, ◌≤◌, suc, None, Some, drop, length, MatchOption};
ghost use Rattle.relay_world.specs.HangUp.{broken_link};
ghost use Rattle.relay_world.specs.World.{link_at};
ghost use Rattle.relay_hosts.specs.Links.{client_closed, client_idles, has_outside, hears_on, is_nil, is_running};
ghost use Rattle.relay_hosts.specs.Links.{is_untold, server_closed, server_idles, tries_on, whole_link};

use relay_world::{Attempt, Fate, Link, ServerEnd};

/// Returns the index of the link of a number. Numbers count from 1.
pub fn place_of(links: &[Link], number: usize) -> Option<usize>
    ensures { MatchOption result (link_at links.now number ≡ None)
        (λ place. (number ≡ suc place) × (place < length links.now)) }
{
    if number == 0 || links.len() < number {
        return None;
    }
    Some(number - 1)
}

/// Returns the link of a number, unless it is broken.
pub fn whole_link(links: &[Link], number: usize) -> Option<&Link>
    ensures { MatchOption result (whole_link links.now number ≡ None)
        (λ link. whole_link links.now number ≡ Some link.now) }
{
    let place = place_of(links, number)?;
    let link = &links[place];
    if link.broken {
        return None;
    }
    Some(link)
}

/// Returns whether an attempt is running.
pub(crate) fn is_running(fate: Fate) -> bool
    ensures { result ≡ is_running fate }
{
    match fate {
        Fate::Running(_) => true,
        Fate::Replied(_) => false,
        Fate::Lost(_) => false,
        Fate::Dropped => false,
    }
}

/// Returns whether the attempt of a client end is running.
pub(crate) fn tries_on(attempts: &[Attempt], client: Option<usize>) -> bool
    ensures { result ≡ tries_on attempts.now client }
{
    let Some(place) = client else {
        return false;
    };
    match attempts.get(place) {
        Some(attempt) => is_running(attempt.fate),
        None => false,
    }
}

/// Returns whether a session is running at a server end.
pub fn hears_on(server: &Option<ServerEnd>) -> bool
    ensures { result ≡ hears_on server.now }
{
    match server {
        Some(end) => end.session.is_some(),
        None => false,
    }
}

/// Returns whether the attempt of a client end has ended.
fn client_closed(attempts: &[Attempt], client: Option<usize>) -> bool
    ensures { result ≡ client_closed attempts.now client }
{
    if client.is_none() {
        return false;
    }
    !tries_on(attempts, client)
}

/// Returns whether the session of a server end has ended.
fn server_closed(server: &Option<ServerEnd>) -> bool
    ensures { result ≡ server_closed server.now }
{
    match server {
        Some(end) => end.session.is_none(),
        None => false,
    }
}

/// Returns whether outside has an end of a link.
pub fn has_outside(link: &Link) -> bool
    ensures { result ≡ has_outside link.now }
{
    if link.client.is_none() {
        return true;
    }
    link.server.is_none()
}

/// Returns whether a node at an end of a link hasn't noticed yet that the link is broken.
pub fn is_untold(attempts: &[Attempt], link: &Link) -> bool
    ensures { result ≡ is_untold attempts.now link.now }
{
    if !link.broken {
        return false;
    }
    if hears_on(&link.server) {
        return true;
    }
    tries_on(attempts, link.client)
}

/// Returns whether there is nothing to carry to the server end of a link: it has closed, or there are no unread octets
/// and the other end hasn't closed.
pub fn server_idles(attempts: &[Attempt], link: &Link) -> bool
    ensures { result ≡ server_idles attempts.now link.now }
{
    if server_closed(&link.server) {
        return true;
    }
    if is_read(link.up.as_slice(), link.up_read) {
        return !client_closed(attempts, link.client);
    }
    false
}

/// Returns whether there is nothing to carry to the client end of a link.
pub fn client_idles(attempts: &[Attempt], link: &Link) -> bool
    ensures { result ≡ client_idles attempts.now link.now }
{
    if client_closed(attempts, link.client) {
        return true;
    }
    if is_read(link.down.as_slice(), link.down_read) {
        return !server_closed(&link.server);
    }
    false
}

/// Returns whether `read` octets are all of them.
#[tactic(auto, using(crate::proofs::LinkLemmas::all_read, crate::proofs::LinkLemmas::some_waits))]
pub fn is_read(octets: &[u8], read: usize) -> bool
    ensures { result ≡ is_nil (drop read octets.now) }
{
    if octets.len() <= read {
        return true;
    }
    false
}

/// Counts this many more octets as read at the server end of a link.
pub fn read_up(link: &mut Link, used: usize)
    requires { link.old.up_read + used ≤ length link.old.up }
    ensures { link.new ≡ record link.old { up_read = link.old.up_read + used } }
{
    // no more is read than was written, so the sum fits
    let _written = link.up.len();
    link.up_read += used;
}

/// Counts this many more octets as read at the client end of a link.
pub fn read_down(link: &mut Link, used: usize)
    requires { link.old.down_read + used ≤ length link.old.down }
    ensures { link.new ≡ record link.old { down_read = link.old.down_read + used } }
{
    // no more is read than was written, so the sum fits
    let _written = link.down.len();
    link.down_read += used;
}

/// Breaks a link. Its octets, and how many of them were read, are unchanged.
pub fn break_off(link: &mut Link)
    ensures { link.new ≡ broken_link link.old }
{
    link.broken = true;
}
