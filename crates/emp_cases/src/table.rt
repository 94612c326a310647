//! A table, line by line.
use crate::calls::{push_call, push_system_call, words_of};
use crate::holes::{push_filled, push_read};
use crate::shelf::{File, filled, push_line, put, text_of};
use std::alloc::{AllocError, Global};
use std::{fs, io};

/// What a table has given so far: its files and the name of that to which lines are added, the line of words with which
/// its cases run, the words of which each fills `%0` in turn, whether calls go over files of the system, and what is shown
/// and has not gone out.
#[derive(Drop)]
pub struct Table {
    files: Vec<File>,
    last: String,
    is_system: bool,
    call: String,
    each: String,
    shown: String,
}

// Adds a part of a case, without the spaces round it and with its signs read.
fn push_part(alloc: Global, parts: &mut Vec<String>, text: &str) -> Result<(), AllocError> {
    let mut part = String::new(alloc);
    push_read(&mut part, text.trim())?;
    parts.push(part)?;
    Ok(())
}

// The parts of a case: a word, and what stands apart by `|`.
fn parts_of(alloc: Global, word: &str, text: &str) -> Result<Vec<String>, AllocError> {
    let mut parts = Vec::new(alloc);
    push_part(alloc, &mut parts, word)?;
    for part in text.split('|') {
        push_part(alloc, &mut parts, part)?;
    }
    Ok(parts)
}

// The text with spaces behind it, so that it has that many bytes.
fn padded(alloc: Global, text: &str, size: usize) -> Result<String, AllocError> {
    let mut padded = String::from_str(alloc, text)?;
    for _ in text.len()..size {
        padded.push(' ')?;
    }
    Ok(padded)
}

impl Table {
    /// A table of no lines.
    pub fn new(alloc: Global) -> Table {
        Table {
            files: Vec::new(alloc),
            last: String::new(alloc),
            is_system: false,
            call: String::new(alloc),
            each: String::new(alloc),
            shown: String::new(alloc),
        }
    }

    /// Takes the next line.
    pub fn take(&mut self, rt: &HostRuntime, line: &str) -> io::Result<()> {
        if let Some(text) = line.strip_prefix("  ") {
            push_line(&mut self.files, self.last.as_str(), text)?;
            return Ok(());
        }
        let (word, rest) = line.split_once(' ').unwrap_or((line, ""));
        match word {
            "" => Ok(()),
            "-" => self.take_case(rt, line, rest),
            "file" => self.take_file(rt.alloc(), rest),
            "take" => self.take_files(rt, rest),
            "pad" => self.take_size(rt.alloc(), rest),
            "call" => self.take_call(rt.alloc(), rest),
            "each" => self.take_each(rt.alloc(), rest),
            "system" => self.take_system(),
            _ => self.show_line(line),
        }
    }

    fn show_line(&mut self, line: &str) -> io::Result<()> {
        self.shown.push_str(line)?;
        self.shown.push_str("\n")?;
        Ok(())
    }

    // A file: its name, and the text that stands in the same line.
    fn take_file(&mut self, alloc: Global, rest: &str) -> io::Result<()> {
        let (name, text) = rest.split_once(' ').unwrap_or((rest, ""));
        let mut read = String::new(alloc);
        push_read(&mut read, text)?;
        put(alloc, &mut self.files, name, read)?;
        self.last = String::from_str(alloc, name)?;
        Ok(())
    }

    // The files of these names, from the folder of the tables.
    fn take_files(&mut self, rt: &HostRuntime, rest: &str) -> io::Result<()> {
        for name in rest.split(' ') {
            let text = fs::read_to_string(rt, name)?;
            put(rt.alloc(), &mut self.files, name, text)?;
        }
        Ok(())
    }

    // The number of bytes to which the file of a name is filled up.
    fn take_size(&mut self, alloc: Global, rest: &str) -> io::Result<()> {
        let (name, number) = rest.split_once(' ').unwrap_or((rest, ""));
        let size = number.parse::<usize>().unwrap_or(0);
        let text = text_of(self.files.as_slice(), name).unwrap_or("");
        let text = padded(alloc, text, size)?;
        put(alloc, &mut self.files, name, text)?;
        Ok(())
    }

    fn take_call(&mut self, alloc: Global, rest: &str) -> io::Result<()> {
        self.call = String::from_str(alloc, rest)?;
        Ok(())
    }

    fn take_each(&mut self, alloc: Global, rest: &str) -> io::Result<()> {
        self.each = String::from_str(alloc, rest)?;
        Ok(())
    }

    fn take_system(&mut self) -> io::Result<()> {
        self.is_system = true;
        Ok(())
    }

    // A case: one call, or one for each word.
    fn take_case(&mut self, rt: &HostRuntime, line: &str, text: &str) -> io::Result<()> {
        self.show_line(line)?;
        if self.each.is_empty() {
            return self.make_call(rt, "", text);
        }
        for word in words_of(rt.alloc(), self.each.as_str())? {
            self.shown.push_str(word.as_str())?;
            self.shown.push_str(": ")?;
            self.make_call(rt, word.as_str(), text)?;
        }
        Ok(())
    }

    // The call with the parts in the holes of its words and of the files.
    fn make_call(&mut self, rt: &HostRuntime, word: &str, text: &str) -> io::Result<()> {
        let alloc = rt.alloc();
        let parts = parts_of(alloc, word, text)?;
        let before = filled(alloc, self.files.as_slice(), parts.as_slice())?;
        let mut line = String::new(alloc);
        push_filled(&mut line, self.call.as_str(), parts.as_slice())?;
        if self.is_system {
            self.show_all(rt)?;
            return push_system_call(
                rt,
                &mut self.shown,
                line.as_str(),
                before.as_slice(),
                &mut self.files,
            );
        }
        push_call(
            alloc,
            &mut self.shown,
            line.as_str(),
            before.as_slice(),
            &mut self.files,
        )?;
        Ok(())
    }

    /// Lets out what is shown and has not gone out.
    pub fn show_all(&mut self, rt: &HostRuntime) -> io::Result<()> {
        let shown = self.shown.as_str();
        print!(rt; "{shown}")?;
        self.shown = String::new(rt.alloc());
        Ok(())
    }
}
