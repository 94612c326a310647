//! Texts with holes, and signs for what a line cannot hold.
use std::alloc::AllocError;

const DIGITS: [char; 10] = ['0', '1', '2', '3', '4', '5', '6', '7', '8', '9'];

const SIGNS: [(char, &str); 4] = [('n', "\n"), ('r', "\r"), ('t', "\t"), ('s', " ")];

/// Adds the text with its holes filled: `%0` to `%9` stand for the parts, in order.
pub fn push_filled(to: &mut String, text: &str, parts: &[String]) -> Result<(), AllocError> {
    let mut pieces = text.split('%');
    if let Some(first) = pieces.next() {
        to.push_str(first)?;
    }
    for piece in pieces {
        push_behind_hole(to, piece, parts)?;
    }
    Ok(())
}

// The part whose number a piece begins with, and the rest of the piece.
fn push_behind_hole(to: &mut String, piece: &str, parts: &[String]) -> Result<(), AllocError> {
    let Some((number, rest)) = numbered(piece) else {
        to.push_str("%")?;
        return to.push_str(piece);
    };
    if let Some(part) = parts.get(number) {
        to.push_str(part.as_str())?;
    }
    to.push_str(rest)
}

fn numbered(piece: &str) -> Option<(usize, &str)> {
    for (number, digit) in DIGITS.iter().enumerate() {
        if let Some(rest) = piece.strip_prefix(*digit) {
            return Some((number, rest));
        }
    }
    None
}

/// Adds the text with its signs read: `\n`, `\r`, `\t` and `\s` stand for LF, CR, tab and space.
pub fn push_read(to: &mut String, text: &str) -> Result<(), AllocError> {
    let mut pieces = text.split('\\');
    if let Some(first) = pieces.next() {
        to.push_str(first)?;
    }
    for piece in pieces {
        push_behind_sign(to, piece)?;
    }
    Ok(())
}

fn push_behind_sign(to: &mut String, piece: &str) -> Result<(), AllocError> {
    for (letter, meant) in SIGNS {
        if let Some(rest) = piece.strip_prefix(letter) {
            to.push_str(meant)?;
            return to.push_str(rest);
        }
    }
    to.push_str("\\")?;
    to.push_str(piece)
}
