//! Octets as scenarios write them: `\r`, `\n`, `\\`, `\0`, and `\x` before two hexadecimal digits.
use std::alloc::AllocError;

/// What was read of a text last.
#[derive(Clone, Copy)]
enum Place {
    Plain,
    Backslash,
    /// The `x` after a backslash.
    Hexadecimal,
    /// The first digit after that.
    Digit(u8),
}

/// Puts the octets that this text stands for after what is in `out`.
pub fn push_unescaped(out: &mut Vec<u8>, text: &[u8]) -> Result<(), AllocError> {
    let mut place = Place::Plain;
    for octet in text {
        let (next, meant) = read_octet(place, *octet);
        place = next;
        if let Some(meant) = meant {
            out.push(meant)?;
        }
    }
    Ok(())
}

/// Reads an octet of a text, and gives the octet that ends with it.
fn read_octet(place: Place, octet: u8) -> (Place, Option<u8>) {
    match place {
        Place::Plain if octet == b'\\' => (Place::Backslash, None),
        Place::Plain => (Place::Plain, Some(octet)),
        Place::Backslash if octet == b'x' => (Place::Hexadecimal, None),
        Place::Backslash => (Place::Plain, Some(octet_of(octet))),
        Place::Hexadecimal => (Place::Digit(value_of(octet)), None),
        Place::Digit(first) => {
            let meant = first.wrapping_mul(16).wrapping_add(value_of(octet));
            (Place::Plain, Some(meant))
        }
    }
}

/// Returns the octet that a letter after a backslash stands for.
fn octet_of(letter: u8) -> u8 {
    match letter {
        b'r' => b'\r',
        b'n' => b'\n',
        b'0' => 0,
        other => other,
    }
}

/// Returns the value of a hexadecimal digit in lower case.
fn value_of(digit: u8) -> u8 {
    if digit >= b'a' {
        (digit - b'a').wrapping_add(10)
    } else {
        digit.wrapping_sub(b'0')
    }
}

/// Puts what stands for these octets after a text.
pub fn push_escaped(text: &mut String, octets: &[u8]) -> Result<(), AllocError> {
    for octet in octets {
        match *octet {
            b'\r' => text.push_str("\\r")?,
            b'\n' => text.push_str("\\n")?,
            other if is_plain(other) => text.push(char::from(other))?,
            other => write!(text, "\\x{other:02x}")?,
        }
    }
    Ok(())
}

/// Returns whether an octet stands for itself.
fn is_plain(octet: u8) -> bool {
    matches!(octet, 32..=126) && octet != b'\\'
}
