//! One call, over a desk in memory or over files of the system, and what it changed.
use crate::shelf::{File, has, put};
use crate::shown::push_shown;
use emp_desk::desk::Desk;
use emp_desk::memory_desk::MemoryDesk;
use emp_engine::run::run;
use emp_file_desk::file_desk::FileDesk;
use std::alloc::{AllocError, Global};
use std::{fs, io};

/// The words of a line, which stand apart by one space.
pub fn words_of(alloc: Global, line: &str) -> Result<Vec<String>, AllocError> {
    let mut words = Vec::new(alloc);
    if !line.is_empty() {
        for word in line.split(' ') {
            words.push(String::from_str(alloc, word)?)?;
        }
    }
    Ok(words)
}

// Adds the names of the files that a word may name: its own, and those that `make` stores.
fn push_names(alloc: Global, names: &mut Vec<String>, word: &str) -> Result<(), AllocError> {
    for end in ["", ".gms", ".info"] {
        let mut name = String::from_str(alloc, word)?;
        name.push_str(end)?;
        names.push(name)?;
    }
    Ok(())
}

// The names of the files, and those that the words may name.
fn names_of(alloc: Global, files: &[File], words: &[String]) -> Result<Vec<String>, AllocError> {
    let mut names = Vec::new(alloc);
    for file in files {
        names.push(String::from_str(alloc, file.name.as_str())?)?;
    }
    for word in words {
        push_names(alloc, &mut names, word.as_str())?;
    }
    Ok(names)
}

// Shows the file of that name where it is not what it was, and keeps it.
fn push_change(
    alloc: Global,
    to: &mut String,
    before: &[File],
    after: &mut Vec<File>,
    name: &str,
    bytes: &[u8],
) -> Result<(), AllocError> {
    if has(before, name, bytes) || has(after.as_slice(), name, bytes) {
        return Ok(());
    }
    let text = String::from_utf8_lossy(alloc, bytes)?;
    to.push_str("> ")?;
    to.push_str(name)?;
    to.push_str(":")?;
    push_shown(to, before, text.as_str())?;
    put(alloc, after, name, text)
}

// Stores the files on the desk.
fn store_all<D: Desk>(desk: &mut D, files: &[File]) -> Result<(), AllocError> {
    for file in files {
        if desk
            .store(file.name.as_str(), file.text.as_bytes())
            .is_err()
        {
            return Err(AllocError);
        }
    }
    Ok(())
}

/// Runs the words of a line over a desk in memory with the files, and shows the status, what was said, and each file
/// that is not what it was. The files of `after` become these.
pub fn push_call(
    alloc: Global,
    to: &mut String,
    line: &str,
    before: &[File],
    after: &mut Vec<File>,
) -> Result<(), AllocError> {
    let words = words_of(alloc, line)?;
    let mut desk = MemoryDesk::new(alloc);
    store_all(&mut desk, before)?;
    let status = run(alloc, words.as_slice(), &mut desk);
    write!(to, "{status}")?;
    let said = String::from_utf8_lossy(alloc, desk.output())?;
    push_shown(to, before, said.as_str())?;
    for name in names_of(alloc, before, words.as_slice())? {
        if let Some(bytes) = desk.file(name.as_str()) {
            push_change(alloc, to, before, after, name.as_str(), bytes)?;
        }
    }
    Ok(())
}

/// The same over files of the system. What is said goes out, and the status and the files are shown.
pub fn push_system_call(
    rt: &HostRuntime,
    to: &mut String,
    line: &str,
    before: &[File],
    after: &mut Vec<File>,
) -> io::Result<()> {
    let alloc = rt.alloc();
    let words = words_of(alloc, line)?;
    let mut desk = FileDesk::new(rt.clone()?);
    store_all(&mut desk, before)?;
    let status = run(alloc, words.as_slice(), &mut desk);
    writeln!(to, "{status}")?;
    for name in names_of(alloc, before, words.as_slice())? {
        if let Ok(text) = fs::read_to_string(rt, name.as_str()) {
            push_change(alloc, to, before, after, name.as_str(), text.as_bytes())?;
        }
    }
    Ok(())
}
