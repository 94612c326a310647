//! The files of a table.
use crate::holes::{push_filled, push_read};
use std::alloc::{AllocError, Global};

/// A file: its name, and its text, in which holes may stand.
#[derive(Drop)]
pub struct File {
    pub name: String,
    pub text: String,
}

/// Makes the file that text, be it there or new.
pub fn put(
    alloc: Global,
    files: &mut Vec<File>,
    name: &str,
    text: String,
) -> Result<(), AllocError> {
    for file in files.iter_mut() {
        if file.name.as_str() == name {
            file.text = text;
            return Ok(());
        }
    }
    let name = String::from_str(alloc, name)?;
    files.push(File { name, text })?;
    Ok(())
}

/// The text of the file of that name.
pub fn text_of<'a>(files: &'a [File], name: &str) -> Option<&'a str> {
    for file in files {
        if file.name.as_str() == name {
            return Some(file.text.as_str());
        }
    }
    None
}

/// Whether the file of that name has these bytes.
pub fn has(files: &[File], name: &str, bytes: &[u8]) -> bool {
    match text_of(files, name) {
        Some(text) => text.as_bytes() == bytes,
        None => false,
    }
}

/// Adds a line to the text of the file of that name.
pub fn push_line(files: &mut Vec<File>, name: &str, line: &str) -> Result<(), AllocError> {
    for file in files.iter_mut() {
        if file.name.as_str() == name {
            push_read(&mut file.text, line)?;
            return file.text.push_str("\n");
        }
    }
    Ok(())
}

/// The files with the parts in their holes.
pub fn filled(alloc: Global, files: &[File], parts: &[String]) -> Result<Vec<File>, AllocError> {
    let mut made = Vec::new(alloc);
    for file in files {
        let mut text = String::new(alloc);
        push_filled(&mut text, file.text.as_str(), parts)?;
        let name = String::from_str(alloc, file.name.as_str())?;
        made.push(File { name, text })?;
    }
    Ok(made)
}
