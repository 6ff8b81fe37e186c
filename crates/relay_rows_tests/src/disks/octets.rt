//! Octets as rows write them: parts between commas, each a number, or `NUMBER*TIMES`, or `rising*TIMES`, which
//! rises from 0 to 250 again and again, or a word that stands for itself. `-` is no octet.
use crate::answer::Answer;

/// Returns the octets that a text writes.
pub fn octets_of(answer: &mut Answer, text: &str) -> Vec<u8> {
    let mut octets: Vec<u8> = Vec::new(answer.alloc);
    if text != "-" {
        for part in text.split(',') {
            push_part(answer, &mut octets, part);
        }
    }
    octets
}

fn push_part(answer: &mut Answer, octets: &mut Vec<u8>, part: &str) {
    if let Some((what, times)) = part.split_once('*') {
        let what = what.parse::<u8>().ok();
        for place in 0..times.parse::<u32>().unwrap_or(0) {
            answer.push(octets, what.unwrap_or((place % 251) as u8));
        }
    } else if let Ok(octet) = part.parse::<u8>() {
        answer.push(octets, octet);
    } else {
        let said = octets.extend_from_slice(part.as_bytes());
        answer.note(said);
    }
}
