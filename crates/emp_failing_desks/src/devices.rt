//! Calls to the desk that fail, each in turn, and texts that are cut, each at every place.
use crate::texts::{APART, FIRMS, KINK, NONE, RAY, REPORT, SPLIT, TWO, desk_with, words_of};
use emp_desk::memory_desk::MemoryDesk;
use emp_engine::run::run;
use std::alloc::Global;
use std::process::Abort;
use std::test::Fail;

const NONE_WITHOUT_PAIRS: &str = "emp certificate 1\nrows 2 2 0\nnone\nfarkas 1 1\nend\n";

// The first half, which is what a store or a say that fails leaves.
fn half(bytes: &[u8]) -> &[u8] {
    bytes.split_at(bytes.len() / 2).0
}

// With these calls of the desk failing the words end so, the file t holds these bytes, and no other file changes.
fn leaves(
    rt: &impl Abort,
    alloc: Global,
    line: &str,
    calls: &[u64],
    ends: (u8, &str),
    stored: Option<&[u8]>,
) -> Result<(), Fail> {
    let words = words_of(alloc, line)?;
    let mut desk = desk_with(alloc, APART, TWO, NONE)?;
    for call in calls {
        desk.fail(*call)?;
    }
    let answer = run(alloc, words.as_slice(), &mut desk);
    assert_eq!(rt; answer, ends.0, "{line}");
    assert!(rt; desk.output() == ends.1.as_bytes(), "{line}");
    assert!(rt; desk.file("t") == stored, "{line}");
    assert!(rt; is_kept(&desk, (APART, TWO, NONE)), "{line}");
    Ok(())
}

fn is_kept(desk: &MemoryDesk, files: (&str, &str, &str)) -> bool {
    desk.file("m") == Some(files.0.as_bytes())
        && desk.file("i") == Some(files.1.as_bytes())
        && desk.file("c") == Some(files.2.as_bytes())
}

#[test]
fn devices_that_fail(rt: HostRuntime) -> Result<(), Fail> {
    let cert = NONE.as_bytes();
    let (whole, part) = (Some(cert), Some(half(cert)));
    let solve = "solve m i --cert t";
    let not_written = "error 12: cannot write\n";
    for (line, calls, ends, stored) in [
        (solve, [1, 9], (11, "error 11: cannot read file 1\n"), None),
        (solve, [1, 2], (12, "error 11: cann"), None),
        (solve, [2, 9], (11, "error 11: cannot read file 2\n"), None),
        (solve, [2, 3], (12, "error 11: cann"), None),
        (solve, [3, 9], (12, not_written), part),
        (solve, [3, 4], (12, "error 12: c"), part),
        (solve, [4, 9], (12, "no equilibrium\nwork"), whole),
        (solve, [5, 9], (1, REPORT), whole),
        ("check m i c", [4, 9], (12, "accepte"), None),
        // refusals that are said in part
        ("solve m i --work 1", [3, 9], (12, "error 20: w"), None),
        ("solve m i --work 0", [1, 9], (12, "error 24: work"), None),
        ("solve m", [1, 9], (12, "error 10: "), None),
        ("pieces m i", [3, 9], (12, "error 30:"), None),
    ] {
        leaves(&rt, rt.alloc(), line, calls.as_slice(), ends, stored)?;
    }
    Ok(())
}

// How a command runs: its words, how many files it loads, and the files that it then stores, in order.
#[derive(Drop)]
struct Command {
    line: &'static str,
    loads: u64,
    stores: &'static [&'static str],
}

// The number of the say, which is the last call.
fn say_of(command: &Command) -> u64 {
    let stores = command.stores.len() as u64;
    command.loads.saturating_add(stores).saturating_add(1)
}

fn cannot_read(file: u64) -> &'static [u8] {
    match file {
        1 => b"error 11: cannot read file 1\n",
        2 => b"error 11: cannot read file 2\n",
        _ => b"error 11: cannot read file 3\n",
    }
}

// The status and what is said where the call of that number is the first that fails, and the next fails too or does not.
// The desk is that of the command with no call failing.
fn ends<'a>(
    whole: &'a MemoryDesk,
    command: &Command,
    first: u64,
    with_next: bool,
) -> (u8, &'a [u8]) {
    if first == say_of(command) {
        return (12, half(whole.output()));
    }
    let (status, line) = if first <= command.loads {
        (11, cannot_read(first))
    } else {
        (12, b"error 12: cannot write\n".as_slice())
    };
    if with_next {
        (12, half(line))
    } else {
        (status, line)
    }
}

// The file that the call of this number stores, where the first call that fails is this, one behind it, or one before it.
fn file_left<'a>(whole: &'a MemoryDesk, name: &str, call: u64, first: u64) -> Option<&'a [u8]> {
    match whole.file(name) {
        Some(bytes) if call < first => Some(bytes),
        Some(bytes) if call == first => Some(half(bytes)),
        _ => None,
    }
}

// The call of that number fails, alone or with the next.
fn fails_at(
    rt: &impl Abort,
    alloc: Global,
    files: (&str, &str, &str),
    command: &Command,
    whole: &MemoryDesk,
    first: u64,
    with_next: bool,
) -> Result<(), Fail> {
    let words = words_of(alloc, command.line)?;
    let mut desk = desk_with(alloc, files.0, files.1, files.2)?;
    desk.fail(first)?;
    if with_next {
        desk.fail(first.saturating_add(1))?;
    }
    let answer = run(alloc, words.as_slice(), &mut desk);
    let (status, said) = ends(whole, command, first, with_next);
    assert_eq!(rt; answer, status, "{}", command.line);
    assert!(rt; desk.output() == said, "{}", command.line);
    assert!(rt; is_kept(&desk, files), "{}", command.line);
    let mut call = command.loads;
    for name in command.stores {
        call = call.saturating_add(1);
        let left = file_left(whole, name, call, first);
        assert!(rt; desk.file(name) == left, "{}", command.line);
    }
    Ok(())
}

// Each call of the command fails in turn, alone and with the next.
fn fails_at_each_call(
    rt: &impl Abort,
    alloc: Global,
    files: (&str, &str, &str),
    command: &Command,
) -> Result<(), Fail> {
    let words = words_of(alloc, command.line)?;
    let mut whole = desk_with(alloc, files.0, files.1, files.2)?;
    let answer = run(alloc, words.as_slice(), &mut whole);
    assert!(rt; answer < 3, "{}", command.line);
    for first in 1..=say_of(command) {
        fails_at(rt, alloc, files, command, &whole, first, false)?;
        fails_at(rt, alloc, files, command, &whole, first, true)?;
    }
    Ok(())
}

// The certificate of the two texts.
fn certificate(rt: &impl Abort, alloc: Global, model: &str, info: &str) -> Result<String, Fail> {
    let mut desk = desk_with(alloc, model, info, "")?;
    let words = words_of(alloc, "solve m i --cert c")?;
    let answer = run(alloc, words.as_slice(), &mut desk);
    assert!(rt; answer < 3, "{model}");
    match desk.file("c") {
        Some(bytes) => Ok(String::from_utf8_lossy(alloc, bytes)?),
        None => Err(Fail::new("no certificate")),
    }
}

// Each call of each command over the two texts and their certificate fails in turn.
fn commands_fail(rt: &impl Abort, alloc: Global, model: &str, info: &str) -> Result<(), Fail> {
    let cert = certificate(rt, alloc, model, info)?;
    let commands: [(&'static str, u64, &'static [&'static str]); 7] = [
        ("solve m i", 2, &[]),
        ("solve m i --cert t", 2, &["t"]),
        ("check m i c", 3, &[]),
        ("migrate m i c t", 3, &["t"]),
        ("print m i", 2, &[]),
        ("make 7 2", 0, &[]),
        ("make 7 2 --save t", 0, &["t.gms", "t.info"]),
    ];
    for (line, loads, stores) in commands {
        let command = Command {
            line,
            loads,
            stores,
        };
        fails_at_each_call(rt, alloc, (model, info, cert.as_str()), &command)?;
    }
    Ok(())
}

#[test]
fn each_call_fails(rt: HostRuntime) -> Result<(), Fail> {
    for (model, info) in [
        (FIRMS, "equilibrium max pi1 q1 d1 max pi2 q2 d2"),
        (APART, TWO),
        (SPLIT, "equilibrium vi f x g y"),
        (KINK, "bilevel x max y c1 c2"),
        (RAY, "bilevel x min w y dw"),
    ] {
        commands_fail(&rt, rt.alloc(), model, info)?;
    }
    Ok(())
}

#[test]
fn models_that_are_cut(rt: HostRuntime) -> Result<(), Fail> {
    let alloc = rt.alloc();
    let words = words_of(alloc, "solve m i")?;
    for len in 0..APART.len() {
        let mut desk = desk_with(alloc, "", TWO, "")?;
        desk.put("m", &APART.as_bytes()[..len])?;
        let answer = run(alloc, words.as_slice(), &mut desk);
        if len + 1 == APART.len() {
            assert!(rt; answer == 1 && desk.output() == REPORT.as_bytes());
        } else {
            assert_eq!(rt; answer, 14, "{len}");
            assert!(rt; desk.output().starts_with(b"error 14: model "), "{len}");
            assert!(rt; desk.output().ends_with(b" syntax\n"), "{len}");
        }
    }
    Ok(())
}

#[test]
fn certificates_that_are_cut(rt: HostRuntime) -> Result<(), Fail> {
    let alloc = rt.alloc();
    let words = words_of(alloc, "check m i c")?;
    for text in [NONE, NONE_WITHOUT_PAIRS] {
        for len in 0..text.len() {
            let mut desk = desk_with(alloc, APART, TWO, "")?;
            desk.put("c", &text.as_bytes()[..len])?;
            let answer = run(alloc, words.as_slice(), &mut desk);
            assert_eq!(rt; answer, 22, "{len}");
        }
    }
    Ok(())
}
