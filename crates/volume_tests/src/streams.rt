//! Sources and sinks in memory: they fail at just the calls that they were told.
use hosts::{MemorySink, MemorySource, Sink, Source};
use std::alloc::Global;

/// The failing calls, what each of four calls gives or takes, `None` for one that fails, and the faults.
type Calls = (&'static [u64], [Option<usize>; 4], u64);

/// Of a source of five bytes, which it gives in twos.
static READS: [Calls; 4] = [
    (&[], [Some(2), Some(2), Some(1), Some(0)], 0),
    (&[0], [None, Some(2), Some(2), Some(1)], 1),
    (&[1, 2], [Some(2), None, None, Some(2)], 2),
    (&[3, 9], [Some(2), Some(2), Some(1), None], 1),
];

fn read_one(source: &mut MemorySource) -> Option<usize> {
    source.read(&mut [0; 8]).ok()
}

/// Whether the source gives so much, one count a call.
fn gives(source: &mut MemorySource, counts: &[Option<usize>]) -> bool {
    for count in counts {
        if read_one(source) != *count {
            return false;
        }
    }
    true
}

/// Whether a source does as it is told, `None` for want of memory.
fn reads(alloc: Global, calls: &Calls) -> Option<bool> {
    let bytes = b"abcde".to_vec(alloc).ok()?;
    let mut source = MemorySource::new(bytes, 2, calls.0.to_vec(alloc).ok()?);
    let given = gives(&mut source, &calls.1);
    Some(given && source.faults() == calls.2)
}

#[test]
fn sources_fail_where_told(rt: HostRuntime) {
    for (place, calls) in READS.iter().enumerate() {
        assert!(rt; reads(rt.alloc(), calls) == Some(true), "row {place}");
    }
}

/// Of a sink that takes two bytes at most, and is offered three each time; and what it has then.
static WRITES: [(Calls, &[u8]); 4] = [
    ((&[], [Some(2), Some(2), Some(2), Some(2)], 0), b"abababab"),
    ((&[0], [None, Some(2), Some(2), Some(2)], 1), b"ababab"),
    ((&[1, 2], [Some(2), None, None, Some(2)], 2), b"abab"),
    ((&[3, 9], [Some(2), Some(2), Some(2), None], 1), b"ababab"),
];

/// Whether the sink takes so much, one count a call.
fn takes(sink: &mut MemorySink, counts: &[Option<usize>]) -> bool {
    for count in counts {
        if sink.write(b"abc").ok() != *count {
            return false;
        }
    }
    true
}

/// Whether a sink does as it is told and has these bytes, `None` for want of memory.
fn writes(alloc: Global, calls: &Calls, bytes: &[u8]) -> Option<bool> {
    let mut sink = MemorySink::new(alloc, 2, calls.0.to_vec(alloc).ok()?);
    let taken = takes(&mut sink, &calls.1);
    Some(taken && sink.faults() == calls.2 && sink.bytes() == bytes)
}

#[test]
fn sinks_fail_where_told(rt: HostRuntime) {
    for (place, (calls, bytes)) in WRITES.iter().enumerate() {
        assert!(rt;
            writes(rt.alloc(), calls, bytes) == Some(true),
            "row {place}"
        );
    }
}
