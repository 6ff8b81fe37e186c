use crate::answer::{Answer, RowsFault};
use crate::escape::unescaped;
use crate::play::{Play, Question};
use crate::words::Words;
use relay_octets::Octets;

/// Reads what is done in a row, `KIND|number|octets`; nothing if the fields are no row. Texts of a reply stand between
/// slashes. Octets that a row can't hold are written with a backslash and a letter.
pub fn play_in(answer: &mut Answer, fields: &mut Words<'_>) -> Option<Play> {
    let kind = fields.field();
    let number = fields.field();
    let text = fields.field();
    match question_of(kind) {
        Some(question) => Some(Play::Word(question, octets_in(answer, text))),
        None => play_of(answer, kind, number, text),
    }
}

/// Returns what is asked of a text in a row of this kind.
fn question_of(kind: &str) -> Option<Question> {
    Some(match kind {
        "BDAT" => Question::BeginsWithBdat,
        "HOST" => Question::IsHostWord,
        "DOMAIN" => Question::AreDomainOctets,
        "LITERAL" => Question::IsAddressLiteral,
        _ => return None,
    })
}

/// What is done in a row of another kind.
fn play_of(answer: &mut Answer, kind: &str, number: &str, text: &str) -> Option<Play> {
    let number = number.parse::<usize>().unwrap_or(0);
    let code = u16::try_from(number).unwrap_or(0);
    Some(match kind {
        "CUT" => Play::Cut(number, octets_in(answer, text)),
        "LINE" => Play::Line(octets_in(answer, text)),
        "COMMAND" => Play::Command(octets_in(answer, text)),
        "REPLIES" => Play::Replies(octets_in(answer, text)),
        "REPLY" => Play::Reply(code, texts_in(answer, text)),
        "LASTLINE" => {
            let (front, back) = text.split_once('/').unwrap_or((text, ""));
            Play::LastLine(code, octets_in(answer, front), octets_in(answer, back))
        }
        _ => return None,
    })
}

/// Returns the octets that a text of a row stands for.
pub fn octets_in(answer: &mut Answer, text: &str) -> Octets {
    match unescaped(answer.alloc, text.as_bytes()) {
        Ok(octets) => octets,
        Err(_) => {
            answer.stop(RowsFault::NoMemory);
            Octets::new(Vec::new(answer.alloc))
        }
    }
}

/// Returns the texts between slashes, and none if the word `none` is there.
fn texts_in(answer: &mut Answer, text: &str) -> Vec<Octets> {
    let mut texts = Vec::new(answer.alloc);
    if text != "none" {
        for part in text.split('/') {
            let octets = octets_in(answer, part);
            answer.push(&mut texts, octets);
        }
    }
    texts
}
