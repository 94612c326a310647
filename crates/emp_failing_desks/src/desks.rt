//! Both desks in memory, over tables of texts and of calls that fail.
use emp_desk::desk::{Desk, LoadFault, StoreFault};
use emp_desk::memory_desk::MemoryDesk;
use emp_desk::steady_desk::SteadyDesk;
use std::alloc::Global;
use std::process::Abort;
use std::test::Fail;

fn gives(answer: Result<Vec<u8>, LoadFault>, expected: &[u8]) -> bool {
    match answer {
        Ok(bytes) => bytes.as_slice() == expected,
        Err(_) => false,
    }
}

fn holds(bytes: Option<&[u8]>, expected: &str) -> bool {
    match bytes {
        Some(bytes) => bytes == expected.as_bytes(),
        None => false,
    }
}

/// The first `most` bytes, or all where there are fewer.
fn first(bytes: &[u8], most: usize) -> &[u8] {
    if most < bytes.len() {
        &bytes[..most]
    } else {
        bytes
    }
}

/// Stores a file three times, loads it whole and cut, and says two texts.
fn use_desk<D: Desk>(rt: &impl Abort, alloc: Global, desk: &mut D) {
    for text in ["", "a", "some bytes"] {
        let bytes = text.as_bytes();
        assert!(rt; desk.store("one", bytes).is_ok(), "storing {text}");
        for most in [0usize, 1, 99] {
            let loaded = desk.load(alloc, "one", most);
            assert!(rt; gives(loaded, first(bytes, most)), "{most} of {text}");
        }
    }
    assert!(rt; desk.say("a".as_bytes()).is_ok());
    assert!(rt; desk.say("bc".as_bytes()).is_ok());
}

#[test]
fn both_desks(rt: HostRuntime) -> Result<(), Fail> {
    let alloc = rt.alloc();
    let mut steady = SteadyDesk::new(alloc);
    let mut memory = MemoryDesk::new(alloc);
    steady.put("other", "kept".as_bytes())?;
    memory.put("other", "kept".as_bytes())?;
    use_desk(&rt, alloc, &mut steady);
    use_desk(&rt, alloc, &mut memory);
    assert!(rt; holds(steady.file("one"), "some bytes"));
    assert!(rt; holds(memory.file("one"), "some bytes"));
    assert!(rt; holds(steady.file("other"), "kept"));
    assert!(rt; holds(memory.file("other"), "kept"));
    assert!(rt; steady.file("none").is_none());
    assert!(rt; memory.file("none").is_none());
    assert!(rt; holds(Some(steady.output()), "abc"));
    assert!(rt; holds(Some(memory.output()), "abc"));
    assert!(rt; gives(steady.load(alloc, "none", 9), "".as_bytes()));
    assert!(rt;
        memory
            .load(alloc, "none", 9)
            .is_err_and(|fault| fault == LoadFault::Failed)
    );
    Ok(())
}

#[test]
fn failing_calls(rt: HostRuntime) -> Result<(), Fail> {
    let alloc = rt.alloc();
    let mut desk = MemoryDesk::new(alloc);
    desk.put("one", "old".as_bytes())?;
    desk.put("other", "kept".as_bytes())?;
    for call in [2, 3, 4] {
        desk.fail(call)?;
    }
    assert!(rt; gives(desk.load(alloc, "one", 9), "old".as_bytes()));
    assert_eq!(rt;
        desk.store("one", "12345".as_bytes()),
        Err(StoreFault::Failed)
    );
    assert_eq!(rt; desk.say("abcd".as_bytes()), Err(StoreFault::Failed));
    assert!(rt;
        desk.load(alloc, "one", 9)
            .is_err_and(|fault| fault == LoadFault::Failed)
    );
    assert!(rt; gives(desk.load(alloc, "one", 9), "12".as_bytes()));
    assert!(rt; holds(desk.file("other"), "kept"));
    assert!(rt; holds(Some(desk.output()), "ab"));
    Ok(())
}
