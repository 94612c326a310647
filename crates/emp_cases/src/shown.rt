//! Texts as they are shown.
use crate::shelf::File;
use std::alloc::AllocError;

// The first file whose whole text the text begins with, and the rest of the text.
fn begun<'a>(files: &'a [File], text: &'a str) -> Option<(&'a str, &'a str)> {
    for file in files {
        if let Some(rest) = text.strip_prefix(file.text.as_str()) {
            if !file.text.is_empty() {
                return Some((file.name.as_str(), rest));
            }
        }
    }
    None
}

// The names of the at most two files with whose texts the text begins, each behind `=`, and the rest of the text.
fn push_names<'a>(
    to: &mut String,
    files: &'a [File],
    text: &'a str,
) -> Result<&'a str, AllocError> {
    let mut left = text;
    for _ in 0..2 {
        let Some((name, rest)) = begun(files, left) else {
            return Ok(left);
        };
        to.push_str(" = ")?;
        to.push_str(name)?;
        left = rest;
    }
    Ok(left)
}

// The lines, each moved in by two. `\` stands behind a last line that does not end.
fn push_lines(to: &mut String, text: &str) -> Result<(), AllocError> {
    for line in text.split_inclusive('\n') {
        to.push_str("  ")?;
        to.push_str(line)?;
    }
    if text.is_empty() || text.ends_with('\n') {
        Ok(())
    } else {
        to.push_str("\\\n")
    }
}

// The text from the line on that was begun.
fn push_text(to: &mut String, text: &str) -> Result<(), AllocError> {
    match text.split_once('\n') {
        Some((first, rest)) => {
            write!(to, " {first}\n")?;
            push_lines(to, rest)
        }
        None => write!(to, " {text}\\\n"),
    }
}

/// Shows the text in the line that was begun and further lines, which are moved in. Where it begins with the texts of files
/// their names stand for these.
pub fn push_shown(to: &mut String, files: &[File], text: &str) -> Result<(), AllocError> {
    let left = push_names(to, files, text)?;
    if left.len() == text.len() {
        return push_text(to, left);
    }
    to.push_str("\n")?;
    push_lines(to, left)
}
