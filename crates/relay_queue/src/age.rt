//! Ages as arguments.

/// Reads an age in seconds from a number and a unit, `s`, `m`, `h` or `d`. Returns `None` if the text isn't one, or the
/// age is above 2^64 - 1 seconds. Allocates nothing.
pub fn read_age(text: &str) -> Option<u64> {
    let (digits, unit) = text.split_at_checked(text.len().checked_sub(1)?)?;
    let seconds = match unit {
        "s" => 1,
        "m" => 60,
        "h" => 3600,
        "d" => 86_400,
        _ => return None,
    };
    digits.parse::<u64>().ok()?.checked_mul(seconds)
}
