//! A script of three lines, over streams that work and streams that fail.

use crate::running::{Calls, NOTHING, Numbers, Told, WELL, assert_told, replayed, told_of};
use std::alloc::{AllocError, Global};
use std::process::Abort;
use std::test::Fail;

const SCRIPT: &str = "c1 create a\nc1 write a 0 x:616263\nc1 read a 0 3\n";

const TRANSCRIPT: &str =
    "c1 create a = made 1.1\nc1 write a 0 616263 = done\nc1 read a 0 3 = 616263\n";

const PIECES: [usize; 2] = [16, 1000];

fn three_lines(alloc: Global, reads: Calls, writes: Calls) -> Result<Told, AllocError> {
    told_of(alloc, replayed(alloc, SCRIPT, reads, writes)?)
}

/// What is told where nothing fails.
const ENDED_WELL: Numbers = Numbers {
    entries: 3,
    ..NOTHING
};

fn assert_ends_well(rt: &impl Abort, told: &Told) {
    assert_told(rt, told, ENDED_WELL, TRANSCRIPT.as_bytes());
}

/// A program that always wants for memory, status 8, meets each contract, and fails here.
#[test]
fn three_lines_end_well_and_not_for_want_of_memory(rt: HostRuntime) -> Result<(), Fail> {
    assert_ends_well(&rt, &three_lines(rt.alloc(), WELL, WELL)?);
    Ok(())
}

/// The calls that move so many bytes.
fn calls_for(len: usize, piece: usize) -> u64 {
    len.div_ceil(piece.max(1)) as u64
}

/// What is told where a call of the source failed.
const READ_FAILED: Numbers = Numbers {
    status: 4,
    source_faults: 1,
    ..NOTHING
};

/// Each call of a source fails once. The last call is the one that finds the end, and none comes after it.
fn assert_reads_fail(rt: &(impl Abort + AllocGlobal), piece: usize) -> Result<(), AllocError> {
    let calls = calls_for(SCRIPT.len(), piece);
    for call in 0..=calls {
        let failing = Some(call);
        let told = three_lines(rt.alloc(), Calls { piece, failing }, WELL)?;
        assert_told(rt, &told, READ_FAILED, b"");
    }
    let failing = calls.checked_add(1);
    assert_ends_well(
        rt,
        &three_lines(rt.alloc(), Calls { piece, failing }, WELL)?,
    );
    Ok(())
}

#[test]
fn each_read_fails(rt: HostRuntime) -> Result<(), Fail> {
    for piece in PIECES {
        assert_reads_fail(&rt, piece)?;
    }
    Ok(())
}

/// What is told where a call of the sink failed.
const WRITE_FAILED: Numbers = Numbers {
    status: 5,
    entries: 3,
    sink_faults: 1,
    ..NOTHING
};

/// The sink took the pieces before a call that failed.
fn assert_write_failed(rt: &impl Abort, told: &Told, call: u64, piece: usize) {
    let count = (call as usize).saturating_mul(piece).min(TRANSCRIPT.len());
    assert_told(rt, told, WRITE_FAILED, &TRANSCRIPT.as_bytes()[..count]);
}

/// Each call of a sink fails once, and none comes after the last one.
fn assert_writes_fail(rt: &(impl Abort + AllocGlobal), piece: usize) -> Result<(), AllocError> {
    let calls = calls_for(TRANSCRIPT.len(), piece);
    for call in 0..calls {
        let failing = Some(call);
        let told = three_lines(rt.alloc(), WELL, Calls { piece, failing })?;
        assert_write_failed(rt, &told, call, piece);
    }
    let failing = Some(calls);
    assert_ends_well(
        rt,
        &three_lines(rt.alloc(), WELL, Calls { piece, failing })?,
    );
    Ok(())
}

#[test]
fn each_write_fails(rt: HostRuntime) -> Result<(), Fail> {
    for piece in PIECES {
        assert_writes_fail(&rt, piece)?;
    }
    Ok(())
}

#[test]
fn to_take_nothing_is_a_write_fault(rt: HostRuntime) -> Result<(), Fail> {
    let nothing = Calls { piece: 0, ..WELL };
    let told = three_lines(rt.alloc(), WELL, nothing)?;
    assert_write_failed(&rt, &told, 0, 0);
    Ok(())
}
