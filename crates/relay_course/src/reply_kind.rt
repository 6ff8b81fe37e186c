ghost use Rattle.std.specs.Prelude.{◌≡◌};
ghost use Rattle.relay_course.specs.VerdictTable.{kind_of};

/// What the first digit of a reply's code says (RFC 5321, section 4.2.1).
#[derive(Clone, Copy, PartialEq, Eq)]
pub enum ReplyKind {
    /// 2yz, positive completion: what was asked is done.
    Completion,
    /// 3yz, positive intermediate: more must come.
    Intermediate,
    /// 4yz, transient negative: it may be tried again.
    Transient,
    /// 5yz, permanent negative: it is refused for good.
    Permanent,
}

/// Returns the kind of a reply with this code. A reply that is read has a code of 200 to 599.
pub fn kind_of(code: u16) -> ReplyKind
    ensures { result ≡ kind_of code }
{
    if code < 300 {
        ReplyKind::Completion
    } else if code < 400 {
        ReplyKind::Intermediate
    } else if code < 500 {
        ReplyKind::Transient
    } else {
        ReplyKind::Permanent
    }
}
