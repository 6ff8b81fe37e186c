use crate::answer::Answer;
use relay_body::{ends_in_line_end, push_dots};
use std::test::Fail;

/// Writes the dot text of a content this many times into one row of octets.
pub fn write_texts(told: &mut Answer, times: u64, content: &[u8]) -> Result<(), Fail> {
    if !ends_in_line_end(content) {
        return Err(Fail::new("the content doesn't end in CR LF"));
    }
    let mut text: Vec<u8> = Vec::new(told.alloc);
    let mut octets: u64 = 0;
    for _ in 0..times {
        text.clear();
        push_dots(&mut text, content)?;
        octets = octets.saturating_add(text.len() as u64);
    }
    told.count("", octets);
    told.count(" octets, in ", times);
    told.say(" times");
    Ok(())
}
