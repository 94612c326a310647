//! Cases: calls of `run`, read from tables, and what each answered, said and stored.
//!
//! `stdin` names the tables, one a line. They stand in `data/` with the files that they take, and `docs/CASES.md` says how they are written.
#![tactic(auto)]

mod calls;
mod holes;
mod shelf;
mod shown;
mod table;

use std::{fs, io};
use table::Table;

/// Goes through the table of that name.
fn show(rt: &HostRuntime, name: &str) -> io::Result<()> {
    let text = fs::read_to_string(rt, name)?;
    let mut table = Table::new(rt.alloc());
    for line in text.lines() {
        table.take(rt, line)?;
    }
    table.show_all(rt)
}

fn main(rt: HostRuntime) -> io::Result<()> {
    for name in rt.lines(rt.alloc()) {
        show(&rt, name?.as_str())?;
    }
    Ok(())
}
