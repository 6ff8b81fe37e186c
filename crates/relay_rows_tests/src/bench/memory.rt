use crate::answer::Answer;
use std::fs;
use std::test::Fail;

/// Tells the line of this process's status that says how much memory it had at most.
pub fn tell_peak(rt: &HostRuntime, told: &mut Answer) -> Result<(), Fail> {
    let status = fs::read_to_string(rt, "/proc/self/status")?;
    for line in status.as_str().lines() {
        if line.starts_with("VmHWM:") {
            told.say(line);
            return Ok(());
        }
    }
    Err(Fail::new("this system doesn't say how much memory a process had"))
}
