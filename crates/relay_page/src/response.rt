//! Responses (RFC 9112, section 4).
ghost use Rattle.std.specs.Prelude.{◌≡◌, ◌++◌, ◌∷◌, [], IfOk, OnOk};
ghost use Rattle.relay_page.specs.Response.{code_of, code_text, head_text, kind_text, response_text};

use crate::request::Refusal;
use relay_listing::{Piece, push_pieces};
use std::alloc::{AllocError, Global};

/// The fields of every response, and the end of its head: the connection closes after the response, which isn't stored,
/// loads nothing from elsewhere and isn't shown inside another page.
const FIELDS: &[u8] = b"\r\nConnection: close\r\nAllow: GET, HEAD\r\nCache-Control: no-store\r\n\
X-Content-Type-Options: nosniff\r\nReferrer-Policy: no-referrer\r\nCross-Origin-Resource-Policy: same-origin\r\n\
Content-Security-Policy: default-src 'none'; style-src 'unsafe-inline'; base-uri 'none'; form-action 'none'; \
frame-ancestors 'none'\r\n\r\n";

/// The status code of a response.
#[derive(Clone, Copy, Drop, PartialEq, Eq)]
pub enum Code {
    /// 200
    Found,
    /// 400
    BadRequest,
    /// 403
    Forbidden,
    /// 404
    NotFound,
    /// 405
    BadMethod,
    /// 431
    TooLarge,
    /// 503: there is no memory for the response.
    Unavailable,
}

/// The media type of a body.
#[derive(Clone, Copy, Drop, PartialEq, Eq)]
pub enum Kind {
    /// A page.
    Html,
    /// Metrics in Prometheus' text format.
    Metrics,
    /// One JSON object per line.
    JsonLines,
    /// A line for people.
    Plain,
}

impl Code {
    fn text(self) -> &'static [u8]
        ensures { result.now ≡ code_text self }
    {
        match self {
            Code::Found => b"200 OK",
            Code::BadRequest => b"400 Bad Request",
            Code::Forbidden => b"403 Forbidden",
            Code::NotFound => b"404 Not Found",
            Code::BadMethod => b"405 Method Not Allowed",
            Code::TooLarge => b"431 Request Header Fields Too Large",
            Code::Unavailable => b"503 Service Unavailable",
        }
    }
}

/// Returns the status code of a refusal.
pub(crate) fn code_of(refusal: Refusal) -> Code
    ensures { result ≡ code_of refusal }
{
    match refusal {
        Refusal::BadRequest => Code::BadRequest,
        Refusal::Forbidden => Code::Forbidden,
        Refusal::NotFound => Code::NotFound,
        Refusal::BadMethod => Code::BadMethod,
        Refusal::TooLarge => Code::TooLarge,
    }
}

impl Kind {
    fn text(self) -> &'static [u8]
        ensures { result.now ≡ kind_text self }
    {
        match self {
            Kind::Html => b"text/html; charset=utf-8",
            Kind::Metrics => b"text/plain; version=0.0.4; charset=utf-8",
            Kind::JsonLines => b"application/x-ndjson",
            Kind::Plain => b"text/plain; charset=utf-8",
        }
    }
}

/// Returns the octets of a response with this body, or of its head only if the body wasn't asked for. Fails if memory
/// runs out.
pub fn response_octets(
    alloc: Global,
    code: Code,
    kind: Kind,
    has_body: bool,
    body: &[u8],
) -> Result<Vec<u8>, AllocError>
    ensures { IfOk result (λ octets. octets.items ≡ response_text code kind has_body body.now) }
{
    let mut octets = Vec::new(alloc);
    push_head(&mut octets, code, kind, body.len() as u64)?;
    if has_body {
        octets.extend_from_slice(body)?;
    }
    Ok(octets)
}

/// Adds the head of a response whose body has `size` octets.
fn push_head(octets: &mut Vec<u8>, code: Code, kind: Kind, size: u64) -> Result<(), AllocError>
    ensures { OnOk result (octets.new.items ≡ octets.old.items ++ head_text code kind size) }
{
    push_pieces(
        octets,
        &[
            Piece::Markup(b"HTTP/1.1 "),
            Piece::Markup(code.text()),
            Piece::Markup(b"\r\nContent-Type: "),
            Piece::Markup(kind.text()),
            Piece::Markup(b"\r\nContent-Length: "),
            Piece::Number(size),
            Piece::Markup(FIELDS),
        ],
    )
}

/// Returns the octets of a response that refuses a request, with one line that says why.
pub fn refusal_octets(alloc: Global, code: Code, has_body: bool) -> Result<Vec<u8>, AllocError>
    ensures { IfOk result (λ octets. octets.items
        ≡ response_text code Kind.Plain has_body (code_text code ++ 10 ∷ [])) }
{
    let line = line_of(alloc, code)?;
    response_octets(alloc, code, Kind::Plain, has_body, line.as_slice())
}

/// Returns a line with the meaning of a status code.
fn line_of(alloc: Global, code: Code) -> Result<Vec<u8>, AllocError>
    ensures { IfOk result (λ line. line.items ≡ code_text code ++ 10 ∷ []) }
{
    let mut line = Vec::new(alloc);
    line.extend_from_slice(code.text())?;
    line.push(b'\n')?;
    Ok(line)
}
