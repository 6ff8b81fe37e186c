ghost use Rattle.std.specs.Prelude.{◌≡◌, ◌++◌, IfOk, IsTrue, OnErr, OnOk};
ghost use Rattle.relay_octets.specs.Beginning.{Begins};
ghost use Rattle.relay_body.specs.DotText.{AddsDotText, WritesDotText, ends_in_line_end};
ghost use Rattle.relay_body.specs.DotSteps.{period_for};

use crate::run::run_end;
use std::alloc::{AllocError, Global};

/// Returns whether a content is empty or ends in CR LF, so that it can be written as a dot text.
pub fn ends_in_line_end(content: &[u8]) -> bool
    ensures { result ≡ ends_in_line_end content.now }
{
    content.is_empty() || content.ends_with(b"\r\n")
}

/// Returns the dot text of a content (RFC 5321, section 4.5.2). Fails if memory runs out.
pub fn write_dots(alloc: Global, content: &[u8]) -> Result<Vec<u8>, AllocError>
    requires { IsTrue (ends_in_line_end content.now) }
    ensures { IfOk result (λ text. WritesDotText content.now text.items) }
{
    let mut text = Vec::new(alloc);
    push_dots(&mut text, content)?;
    Ok(text)
}

/// Appends the dot text of a content to `out` (RFC 5321, section 4.5.2). `out` grows once if at most one line begins
/// with a period. Fails if memory runs out, and then `out` is unchanged.
pub fn push_dots(out: &mut Vec<u8>, content: &[u8]) -> Result<(), AllocError>
    requires { IsTrue (ends_in_line_end content.now) }
    ensures ok { OnOk result (AddsDotText content.now out.old.items out.new.items) }
    ensures err { OnErr result (out.new.items ≡ out.old.items) }
{
    let before = out.len();
    let pushed = push_runs(out, content);
    if pushed.is_err() {
        out.truncate(before);
    }
    pushed
}

/// Appends the dot text of a content to `out`, or a prefix of it. The octets between two inserted periods are copied as
/// one run.
fn push_runs(out: &mut Vec<u8>, content: &[u8]) -> Result<(), AllocError>
    requires { IsTrue (ends_in_line_end content.now) }
    ensures ok { OnOk result (AddsDotText content.now out.old.items out.new.items) }
    ensures front { Begins out.old.items out.new.items }
{
    out.reserve(content.len() + 4)?;
    push_period(out, content)?;
    let mut rest = content;
    while let Some(end) = run_end(rest) {
        out.extend_from_slice(&rest[..end])?;
        out.push(b'.')?;
        rest = &rest[end..];
    }
    out.extend_from_slice(rest)?;
    out.extend_from_slice(b".\r\n")?;
    Ok(())
}

/// Appends a period to `out` if these lines begin with one.
fn push_period(out: &mut Vec<u8>, lines: &[u8]) -> Result<(), AllocError>
    ensures ok { OnOk result (out.new.items ≡ out.old.items ++ period_for lines.now) }
    ensures err { OnErr result (out.new.items ≡ out.old.items) }
{
    if let [b'.', ..] = lines {
        out.push(b'.')?;
    }
    Ok(())
}
