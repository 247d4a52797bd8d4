//! Calls of the test commands, and what they leave.
use crate::sizes::SizeCommands;
use command_frame::run;
use std::alloc::Global;
use std::process::Abort;
use std::test::Fail;
use te_ports::{MemDepot, MemSink};

// What the words leave of two files, the first of which has three bytes and the other two.
fn leaves(alloc: Global, words: &[&str], status: u8, out: &str, err: &str) -> Result<bool, Fail> {
    let mut depot = MemDepot::new(alloc, 2)?;
    depot.add("a", b"abc")?;
    depot.add("b", b"xyz")?;
    depot.add("c", b"xy")?;
    depot.add("d", b"")?;
    let mut all = Vec::new(alloc);
    for word in words {
        all.push(String::from_str(alloc, word)?)?;
    }
    let mut written = MemSink::new(alloc, 100, 4)?;
    let mut said = MemSink::new(alloc, 100, 4)?;
    let left = run(
        alloc,
        &SizeCommands,
        &all,
        &mut depot,
        &mut written,
        &mut said,
    );
    Ok((left == status) & (written.bytes() == out.as_bytes()) & (said.bytes() == err.as_bytes()))
}

#[test]
fn forms_of_two_to_five_words(rt: HostRuntime) -> Result<(), Fail> {
    let alloc = rt.alloc();
    assert!(rt; leaves(alloc, &["tally", "a"], 0, "3\n", "")?);
    assert!(rt; leaves(alloc, &["same", "a", "b"], 0, "same\n", "")?);
    assert!(rt; leaves(alloc, &["is", "a", "as", "c"], 1, "other\n", "")?);
    assert!(rt; leaves(alloc, &["is", "a", "exactly", "as", "b"], 0, "same\n", "")?);
    Ok(())
}

#[test]
fn faults_have_their_statuses(rt: HostRuntime) -> Result<(), Fail> {
    let alloc = rt.alloc();
    assert!(rt; leaves(alloc, &["tally"], 2, "", "usage\n")?);
    assert!(rt; leaves(alloc, &["tally", "d"], 3, "", "refused: d: rule W1 at 0\n")?);
    assert!(rt;
        leaves(
            alloc,
            &["same", "a", "d"],
            3,
            "",
            "refused: d: rule W1 at 0\n"
        )?
    );
    assert!(rt; leaves(alloc, &["tally", "e"], 4, "", "fault: read\n")?);
    Ok(())
}
