//! Requests, and why they are refused (RFC 9112).
ghost use Rattle.std.specs.Prelude.{◌≡◌, All, map, length};
ghost use Rattle.std.specs.Option.{option_copied};
ghost use Rattle.httparse.specs.Spans.{IsHeaderWithin, header_bytes};
ghost use Rattle.relay_page.specs.Request.{IsJudged, asked_at, asked_by, asked_for, hosts_among, only};
ghost use Rattle.relay_page.specs.Request.{target_of};

use crate::host::is_loopback;
use httparse::spans::{EMPTY_HEADER_SPAN, HeaderSpan, parse_request};
use httparse::{Error, Status};
use relay_callers::MOST_OCTETS;
use relay_lines::word::is_word;

/// The most fields of a request.
const MOST_FIELDS: usize = 32;

/// What a request can ask for.
#[derive(Clone, Copy, Drop, PartialEq, Eq)]
pub enum Target {
    /// The page, at `/`.
    Page,
    /// The metrics, at `/metrics`.
    Metrics,
    /// The queue, at `/queue.json`.
    Queue,
}

/// What a request asks for.
#[derive(Clone, Copy, Drop, PartialEq, Eq)]
pub struct Asked {
    pub target: Target,
    /// Whether it is asked for by GET; a HEAD request gets only the response's head.
    pub has_body: bool,
}

/// Why a request is refused (RFC 9110, section 15.5).
#[derive(Clone, Copy, Drop, PartialEq, Eq)]
pub enum Refusal {
    /// 400: this isn't the head of a request, or it has no Host field or several.
    BadRequest,
    /// 403: the Host field doesn't name this machine.
    Forbidden,
    /// 404: there is nothing at this target.
    NotFound,
    /// 405: the method is neither GET nor HEAD.
    BadMethod,
    /// 431: more than 32 fields, or no complete head in 4,096 octets (RFC 6585, section 5).
    TooLarge,
}

/// Returns what the octets of a connection ask for, or why they are refused; `None` if more octets are needed. Of
/// several refusals the first in this order is returned: 400 or 431, 403, 405, 404.
pub fn judge(octets: &[u8]) -> Option<Result<Asked, Refusal>>
    ensures { IsJudged octets.now result }
{
    let mut headers = [EMPTY_HEADER_SPAN; MOST_FIELDS];
    match parse_request(octets, &mut headers) {
        Ok(Status::Complete(request)) => Some(judge_parts(
            only_host(octets, &headers[..request.headers]),
            request.method.of(octets),
            request.path.of(octets),
        )),
        Ok(Status::Partial) if octets.len() < MOST_OCTETS => None,
        Ok(Status::Partial) => Some(Err(Refusal::TooLarge)),
        Err(Error::TooManyHeaders) => Some(Err(Refusal::TooLarge)),
        Err(_) => Some(Err(Refusal::BadRequest)),
    }
}

/// Returns the value of the Host field, if there is exactly one.
fn only_host<'a>(octets: &'a [u8], headers: &[HeaderSpan]) -> Option<&'a [u8]>
    requires { All (IsHeaderWithin (length octets.now)) headers.now }
    ensures { option_copied result ≡ only (hosts_among (map (header_bytes octets.now) headers.now)) }
{
    let mut found = None;
    for header in headers {
        if is_word(header.name.of(octets), b"host") {
            if found.is_some() {
                return None;
            }
            found = Some(header.value.of(octets));
        }
    }
    found
}

/// Returns what a request with this host, method and target asks for.
fn judge_parts(host: Option<&[u8]>, method: &[u8], target: &[u8]) -> Result<Asked, Refusal>
    ensures { result ≡ asked_at (option_copied host.entry) method.now target.now }
{
    match host {
        None => Err(Refusal::BadRequest),
        Some(host) if is_loopback(host) => judge_method(method, target),
        Some(_) => Err(Refusal::Forbidden),
    }
}

fn judge_method(method: &[u8], target: &[u8]) -> Result<Asked, Refusal>
    ensures { result ≡ asked_by method.now target.now }
{
    if method == b"GET".as_slice() {
        judge_target(true, target)
    } else if method == b"HEAD".as_slice() {
        judge_target(false, target)
    } else {
        Err(Refusal::BadMethod)
    }
}

fn judge_target(has_body: bool, target: &[u8]) -> Result<Asked, Refusal>
    ensures { result ≡ asked_for has_body (target_of target.now) }
{
    match target_of(target) {
        Some(target) => Ok(Asked { target, has_body }),
        None => Err(Refusal::NotFound),
    }
}

fn target_of(text: &[u8]) -> Option<Target>
    ensures { result ≡ target_of text.now }
{
    if text == b"/".as_slice() {
        Some(Target::Page)
    } else if text == b"/metrics".as_slice() {
        Some(Target::Metrics)
    } else if text == b"/queue.json".as_slice() {
        Some(Target::Queue)
    } else {
        None
    }
}
