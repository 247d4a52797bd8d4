//! A call of each command and each kind of answer, in which each read fails once, and each write, and in which there is room for each beginning of
//! what it writes.
ghost use Rattle.std.specs.Prelude.{◌≤◌};

use crate::call::{
    Call, Command, GENERATE, Outcome, Row, depot_for, is_due, large_out, outcome_of, says,
    says_each_way,
};
use crate::calls::CALLS;
use std::alloc::Global;
use std::process::Abort;
use std::test::Fail;
use te_ports::{Entry, MemDepot, MemSink, RecordDepot};

/// The files of the call, in pieces of so many bytes, and a record of their reads.
fn recorded(alloc: Global, call: &Call<'_>, piece: usize) -> Result<RecordDepot<MemDepot>, Fail>
    requires { 1 ≤ piece }
{
    Ok(RecordDepot::new(alloc, depot_for(alloc, call, piece)?))
}

/// The same, where this read fails.
fn recorded_without(
    alloc: Global,
    call: &Call<'_>,
    piece: usize,
    read: usize,
) -> Result<RecordDepot<MemDepot>, Fail>
    requires { 1 ≤ piece }
{
    let mut depot = depot_for(alloc, call, piece)?;
    depot.fail_at(read as u64)?;
    Ok(RecordDepot::new(alloc, depot))
}

/// It is said that a read failed, and nothing is written to `out`.
fn is_unread(left: &Outcome) -> bool {
    let is_told = (left.status == 4) & (left.err.bytes() == b"fault: read\n".as_slice());
    is_told & left.out.bytes().is_empty()
}

fn is_same_read(one: &Entry, other: &Entry) -> bool {
    let is_there = (one.name.as_str() == other.name.as_str()) & (one.at == other.at);
    is_there & (one.bytes.as_slice() == other.bytes.as_slice())
}

/// The reads are the first of all, as many as this.
fn are_first(reads: &[Entry], all: &[Entry], count: usize) -> bool {
    if (reads.len() != count) | (count > all.len()) {
        return false;
    }
    for place in 0..count {
        if !is_same_read(&reads[place], &all[place]) {
            return false;
        }
    }
    true
}

/// Where this read fails, the call says so, and on record stand the reads before it.
fn fails_at(
    alloc: Global,
    call: &Call<'_>,
    piece: usize,
    read: usize,
    all: &[Entry],
) -> Result<bool, Fail>
    requires { 1 ≤ piece }
{
    let mut depot = recorded_without(alloc, call, piece, read)?;
    let out = large_out(alloc)?;
    let left = outcome_of(alloc, call.command.words, &mut depot, out, 200)?;
    Ok(is_unread(&left) & are_first(depot.reads(), all, read))
}

/// Each of these reads of the call fails in turn.
fn fails_at_all(alloc: Global, call: &Call<'_>, piece: usize, all: &[Entry]) -> Result<bool, Fail>
    requires { 1 ≤ piece }
{
    for read in 0..all.len() {
        if !fails_at(alloc, call, piece, read, all)? {
            return Ok(false);
        }
    }
    Ok(true)
}

/// The call leaves what it has to, and each of its reads fails in turn.
fn fails_at_each_read(alloc: Global, call: &Call<'_>, piece: usize) -> Result<bool, Fail>
    requires { 1 ≤ piece }
{
    let mut depot = recorded(alloc, call, piece)?;
    let out = large_out(alloc)?;
    let left = outcome_of(alloc, call.command.words, &mut depot, out, 200)?;
    Ok(is_due(alloc, call, &left)? && fails_at_all(alloc, call, piece, depot.reads())?)
}

/// What the call leaves in this `out`, and in an `err` with so much room.
fn outcome_in(
    alloc: Global,
    call: &Call<'_>,
    out: MemSink,
    room_of_err: usize,
) -> Result<Outcome, Fail> {
    let mut depot = depot_for(alloc, call, 64)?;
    outcome_of(alloc, call.command.words, &mut depot, out, room_of_err)
}

/// It is said that a write failed, behind this beginning of the text.
fn is_cut(left: &Outcome, beginning: &[u8]) -> bool {
    let is_told = (left.status == 5) & (left.err.bytes() == b"fault: write\n".as_slice());
    is_told & (left.out.bytes() == beginning)
}

/// An `out` of which the write fails that would begin at this byte.
fn out_without(alloc: Global, start: usize) -> Result<MemSink, Fail> {
    let mut out = large_out(alloc)?;
    out.fail_at((start / 4) as u64)?;
    Ok(out)
}

/// The text is written up to the write that fails, which would begin at this byte.
fn is_cut_at(alloc: Global, call: &Call<'_>, text: &[u8], start: usize) -> Result<bool, Fail> {
    let left = outcome_in(alloc, call, out_without(alloc, start)?, 200)?;
    Ok(is_cut(&left, text.get(..start).unwrap_or(&[])))
}

/// The text is written as far as there is room.
fn fills_room(alloc: Global, call: &Call<'_>, text: &[u8], room: usize) -> Result<bool, Fail> {
    let left = outcome_in(alloc, call, MemSink::new(alloc, room, 4)?, 200)?;
    Ok(is_cut(&left, text.get(..room).unwrap_or(&[])))
}

/// Of the text that the call writes each write fails in turn, and there is room for each beginning of it.
fn is_cut_everywhere(alloc: Global, call: &Call<'_>, text: &[u8]) -> Result<bool, Fail> {
    for count in 0..text.len() {
        if (count % 4 == 0) && !is_cut_at(alloc, call, text, count)? {
            return Ok(false);
        }
        if !fills_room(alloc, call, text, count)? {
            return Ok(false);
        }
    }
    Ok(true)
}

/// Where there is so little room for messages, all else is as it was.
fn has_little_room(
    alloc: Global,
    call: &Call<'_>,
    own: &Outcome,
    room: usize,
) -> Result<bool, Fail> {
    let left = outcome_in(alloc, call, large_out(alloc)?, room)?;
    let message = own.err.bytes();
    let is_same = (left.status == own.status) & (left.out.bytes() == own.out.bytes());
    Ok(is_same & (left.err.bytes() == message.get(..room).unwrap_or(message)))
}

/// The call leaves what it has to, and what its failing writes leave.
fn fails_at_each_write(alloc: Global, call: &Call<'_>) -> Result<bool, Fail> {
    let own = outcome_in(alloc, call, large_out(alloc)?, 200)?;
    if !is_due(alloc, call, &own)? {
        return Ok(false);
    }
    let has_rooms = has_little_room(alloc, call, &own, 0)?
        && has_little_room(alloc, call, &own, 3)?;
    Ok(has_rooms && is_cut_everywhere(alloc, call, own.out.bytes())?)
}

/// The reads of the call fail, of files in pieces of so many bytes.
fn reads_fail(rt: &impl Abort, alloc: Global, call: &Call<'_>, piece: usize) -> Result<(), Fail>
    requires { 1 ≤ piece }
{
    let (out, err) = (call.out, call.err);
    assert!(rt;
        fails_at_each_read(alloc, call, piece)?,
        "{piece} {out}{err}"
    );
    Ok(())
}

fn writes_fail(rt: &impl Abort, alloc: Global, call: &Call<'_>) -> Result<(), Fail> {
    let (out, err) = (call.out, call.err);
    assert!(rt; fails_at_each_write(alloc, call)?, "{out}{err}");
    Ok(())
}

/// The call leaves what it has to over files of each kind, and where a read of pieces of any of these sizes fails.
fn says_and_reads_fail(rt: &impl Abort, alloc: Global, call: &Call<'_>) -> Result<(), Fail> {
    says_each_way(rt, alloc, call)?;
    reads_fail(rt, alloc, call, 1)?;
    reads_fail(rt, alloc, call, 7)?;
    reads_fail(rt, alloc, call, 64)
}

fn all_reads_fail(
    rt: &impl Abort,
    alloc: Global,
    calls: &[(Command<'_>, Row<'_>)],
) -> Result<(), Fail> {
    for (command, row) in calls {
        says_and_reads_fail(rt, alloc, &says(*command, *row))?;
    }
    Ok(())
}

fn all_writes_fail(
    rt: &impl Abort,
    alloc: Global,
    calls: &[(Command<'_>, Row<'_>)],
) -> Result<(), Fail> {
    for (command, row) in calls {
        writes_fail(rt, alloc, &says(*command, *row))?;
    }
    Ok(())
}

/// The summary of a drawn network, whose ratio a better certificate lowers.
fn summary_is_cut(alloc: Global) -> Result<bool, Fail> {
    let call = says(GENERATE, (&[], 0, 0, ""));
    let own = outcome_in(alloc, &call, large_out(alloc)?, 200)?;
    let text = own.out.bytes();
    let is_summary = (own.status == 0) & text.starts_with(b"nodes 2\nlinks 4\n");
    Ok(is_summary && is_cut_everywhere(alloc, &call, text)?)
}

// The table costs as much again in each test that takes it.
#[test]
fn each_read_fails_once(rt: HostRuntime) -> Result<(), Fail> {
    all_reads_fail(&rt, rt.alloc(), CALLS)
}

#[test]
fn each_write_fails_once(rt: HostRuntime) -> Result<(), Fail> {
    all_writes_fail(&rt, rt.alloc(), CALLS)
}

#[test]
fn each_write_of_a_summary_fails_once(rt: HostRuntime) -> Result<(), Fail> {
    assert!(rt; summary_is_cut(rt.alloc())?);
    Ok(())
}
