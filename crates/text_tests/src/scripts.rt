//! Scripts: what is printed is what was read, patterns by hand, and texts and limits of which no example tells.
use hsm_types::{Call, Daemon};
use plain_model::Action;
use script_text::{Allowed, Line, ParseRefusal, Script, parse, parse_allowed, print};
use std::alloc::Global;

static PRINTED: [&str; 24] = [
    "",
    "s0 session 0 a/b\ns0 sessions\ns0 query 0\ns0 query 18446744073709551615\n",
    "s1 handle a\ns0 handle a/b\ns0 space\ns7 space\n",
    "s1 fileattr 0 1.2.3\ns18446744073709551615 fileattr 18446744073709551615 0.18446744073709551615.0\n",
    "s0 setregion 0 1.1.1 -\ns1 setregion 1 1.1.1 0:0:0\ns0 getregion 0 1.1.1\ns1 getregion 1 1.2.3\n",
    "s1 setregion 1 1.2.3 18446744073709551615:18446744073709551615:255,0:1:7\n",
    "s0 setattr 0 1.1.1 0123456789abcdef x:00ff\ns1 setattr 1 1.2.3 48534d0000000000 x:\n",
    "s1 setattr 1 1.2.3 0000000000000000 p:3:255\ns1 setattr 1 1.2.3 ffffffffffffffff p:0:0\n",
    "s0 getattr 0 1.1.1 0123456789abcdef\ns1 rmattr 1 1.2.3 0123456789abcdef\n",
    "s0 attrs 0 1.1.1\ns1 attrs 1 1.2.3\n",
    "s0 session 1 heir\ns0 session 18446744073709551615 a\ns3 destroy\ns0 destroy\n",
    "s1 setdisp -\ns1 setdisp read\ns1 setdisp write,nospace\ns1 setdisp read,write,truncate,nospace\ns1 disp\n",
    "s1 getevents 0 4294967295\ns1 getevents 4294967295 0\ns1 tokens\ns1 findmsg 18446744073709551615 64\n",
    "s1 respond 0 continue\ns1 respond 1 abort 0\ns1 respond 18446744073709551615 abort 4294967295\n",
    "s1 request 1 1.2.3 shared\ns1 request 18446744073709551615 1.1.1 excl\ns1 upgrade 1 1.2.3\n",
    "s1 release 0 1.1.1\ns1 right 1 1.2.3\ns0 right 18446744073709551615 1.1.1\ns1 downgrade 1 1.2.3\n",
    "s1 userevent x:\ns1 userevent p:3:7\ns1 send 0 x:00ff\ns1 send 18446744073709551615 p:4096:0\n",
    "c1 create a\nc1 write a 0 x:00ff\nc2 write a 2 p:3:255\nc2 write a 5 x:\nc2 write a 5 p:0:0\n",
    "c64 read a 1 2\nc1 truncate a 3\nc1 stat a\nc1 sync\nc1 remove a\nstore commit\n",
    "c1 resume\nc64 resume\nc1 resume\n",
    "start recall\nstart migrate\nkill recall\nkill migrate\nstep recall\nstep migrate\nsettle\nsettle\n",
    "s1 readinvis 0 1.1.1 1 2\ns1 writeinvis 1 1.2.3 0 x:00ff\ns0 writeinvis 1 1.2.3 3 p:3:7\ns1 punch 1 1.2.3 65536 0\n",
    "s1 probe 0 1.1.1 0 18446744073709551615\ns1 alloc 0 1.1.1\ns1 table\ns1 restore 0 1.1.1 0 x:\ns1 restore 1 1.2.3 4294967295 p:65536:7\n",
    "s1 seal 1 1.2.3 4294967295 255 0 0 e3b0c44298fc1c149afbf4c8996fb92427ae41e4649b934ca495991b7852b855\n",
];

/// Whether what is read of a text is printed as that text, `None` for want of memory.
fn is_printed_again(alloc: Global, text: &str) -> Option<bool> {
    let script = parse(alloc, text.as_bytes()).ok()?;
    let again = print(alloc, &script).ok()?;
    Some(again.as_slice() == text.as_bytes())
}

#[test]
fn are_printed_as_they_were_read(rt: HostRuntime) {
    for text in &PRINTED {
        assert!(rt; is_printed_again(rt.alloc(), text) == Some(true), "{text}");
    }
}

/// The lines that are no events.
const NO_EVENTS: [(&str, Line); 7] = [
    ("start recall", Line::Start(Daemon::Recall)),
    ("start migrate", Line::Start(Daemon::Migrate)),
    ("kill recall", Line::Kill(Daemon::Recall)),
    ("kill migrate", Line::Kill(Daemon::Migrate)),
    ("step recall", Line::Step(Daemon::Recall)),
    ("step migrate", Line::Step(Daemon::Migrate)),
    ("settle", Line::Settle),
];

/// Whether both are the same line, and no event.
fn is_same(line: &Line, other: &Line) -> bool {
    match (line, other) {
        (Line::Start(daemon), Line::Start(other))
        | (Line::Kill(daemon), Line::Kill(other))
        | (Line::Step(daemon), Line::Step(other)) => daemon == other,
        (Line::Settle, Line::Settle) => true,
        _ => false,
    }
}

/// Whether the text is that line.
fn is_line(alloc: Global, text: &str, want: &Line) -> bool {
    let Ok(script) = parse(alloc, text.as_bytes()) else {
        return false;
    };
    match script.as_slice() {
        [line] => is_same(line, want),
        _ => false,
    }
}

#[test]
fn have_no_events(rt: HostRuntime) {
    for (text, want) in &NO_EVENTS {
        assert!(rt; is_line(rt.alloc(), text, want), "{text}");
    }
}

/// A write, a place in its data, and the bytes from there on.
static PATTERNS: [(&str, usize, &[u8]); 6] = [
    ("c1 write a 0 p:0:9", 0, &[]),
    ("c1 write a 0 p:4:1", 0, &[1, 8, 15, 22]),
    ("c1 write a 0 p:3:250", 0, &[250, 1, 8]),
    ("c1 write a 0 p:257:3", 254, &[245, 252, 4]),
    ("c1 write a 0 p:65539:255", 65535, &[247, 255, 6, 13]),
    ("c1 write a 0 p:131072:255", 131069, &[233, 240, 247]),
];

/// Whether a line is a write whose data end in these bytes, from that place on.
fn ends(line: &Line, from: usize, want: &[u8]) -> bool {
    let Line::Event { action, .. } = line else {
        return false;
    };
    match action {
        Action::Issue(Call::Write { body, .. }) => body.as_slice().get(from..) == Some(want),
        _ => false,
    }
}

/// Whether the text is one such write.
fn is_pattern(alloc: Global, text: &str, from: usize, want: &[u8]) -> bool {
    let Ok(script) = parse(alloc, text.as_bytes()) else {
        return false;
    };
    match script.as_slice() {
        [line] => ends(line, from, want),
        _ => false,
    }
}

#[test]
fn have_patterns(rt: HostRuntime) {
    for (text, from, want) in &PATTERNS {
        assert!(rt; is_pattern(rt.alloc(), text, *from, want), "{text}");
    }
}

/// The first bad line, 0 for a script.
fn bad_line(alloc: Global, text: &[u8]) -> u64 {
    told(parse(alloc, text))
}

/// The same where calls of callers alone are allowed.
fn bad_call(alloc: Global, text: &[u8]) -> u64 {
    told(parse_allowed(alloc, text, Allowed::Calls))
}

/// The line that a refusal tells, 0 where nothing is refused.
fn told(read: Result<Script, ParseRefusal>) -> u64 {
    match read {
        Ok(_) => 0,
        Err(ParseRefusal::BadLine { line }) => line,
        Err(ParseRefusal::Memory) => u64::MAX,
    }
}

static BAD: [&str; 154] = [
    "\n",
    "c1",
    " c1 sync",
    "d1 sync",
    "c01 sync",
    "c1 stat",
    "c1 stat a b",
    "c1 truncate a",
    "c1 truncate a 01",
    "c1 truncate a 1 2",
    "c1 read a +1 1",
    "c1 read a 0 18446744073709551616",
    "c1 write a 0 y:ab",
    "c1 write a 0 p:1:",
    "c1 write a 0 p:01:0",
    "c1 write a 0 p:1:0:0",
    "resume",
    "c0 resume",
    "c65 resume",
    "c1 resum",
    "c1 resumes",
    "c1 resume ",
    "c1 resume x",
    "c1  resume",
    "c1 commit",
    "store",
    "store sync",
    "store resume",
    "store  commit",
    "store commit x",
    "store space",
    "start",
    "start ",
    "start both",
    "start recal",
    "start Recall",
    "start recall ",
    "start recall migrate",
    "Start recall",
    "start-recall",
    "stop recall",
    "restart recall",
    "kill",
    "kill store",
    "kill migrates",
    " kill migrate",
    "step",
    "step  recall",
    "step recall 2",
    "recall step",
    "recall",
    "c1 start recall",
    "s1 step migrate",
    "settle ",
    " settle",
    "settle recall",
    "Settle",
    "store settle",
    "S1 space",
    "s1 space ",
    "s1 spaces",
    "s0 session 00 x",
    "s0 session 0",
    "s0 session 0 ",
    "s0 session 0 x y",
    "s0 sessions 0",
    "s0 query",
    "s0 query 01",
    "s1 fileattr 00 1.1.1",
    "s1 fileattr 0 1.1.1 x",
    "s1 fileattr 0 1.1.18446744073709551616",
    "s1 setregion 0 1.1.1 ",
    "s1 setregion 0 1.1.1 - -",
    "s1 setregion 0 1.1.1 --",
    "s1 setregion 0 1.1.1 ,0:0:1",
    "s1 setregion 0 1.1.1 0:0:1,,0:0:1",
    "s1 setregion 0 1.1.1 0:0:1 0:0:1",
    "s1 setregion 0 1.1.1 0:0:0:0",
    "s1 setregion 0 1.1.1 0::1",
    "s1 setregion 0 1.1.1 +0:0:1",
    "s1 getattr 0 1.1.1",
    "s1 getattr 0 1.1.1 0123456789abcd",
    "s1 getattr 0 1.1.1 0123456789abcdeg",
    "s1 rmattr 0 0123456789abcdef",
    "s1 attrs 0 1.1.1 x",
    "s1 setattr 0 1.1.1 x:00",
    "s1 setattr 0 1.1.1 0123456789abcdef x:0",
    "s1 setattr 0 1.1.1 0123456789abcdef p:1:256",
    "s1 commit",
    "s1 resume",
    "s1 fileattr 0",
    "s1 attrs 1.1.1",
    "s1 setregion 0 1.1 -",
    "s1 setregion 01 1.1.1 -",
    "s1 setregion 0 1.1.1 0:01:1",
    "s1 setregion 0 1.1.1 0:0:01",
    "s1 setregion 0 1.1.1 18446744073709551616:0:1",
    "s1 getattr 0 1.1.1 0123456789abcdef01",
    "s1 rmattr 0 1.1.1 0123456789abcdef x",
    "s1 setattr 0 1.1.1 0123456789abcde x:00",
    "s1 setattr 0 1.1.1 0123456789abcdef x:00 x",
    "s1 session 0 x",
    "s1 query 0",
    "s1 destroy 1",
    "s1 setdisp",
    "s1 setdisp read,read",
    "s1 setdisp write,read",
    "s1 setdisp read,",
    "s1 setdisp ,read",
    "s1 setdisp -,read",
    "s1 setdisp read write",
    "s1 setdisp user",
    "s1 disp -",
    "s1 getevents 0",
    "s1 getevents 4294967296 0",
    "s1 getevents 0 4294967296",
    "s1 getevents 0 01",
    "s1 tokens 1",
    "s1 findmsg 1",
    "s1 findmsg 18446744073709551616 0",
    "s1 findmsg 1 4294967296",
    "s1 respond 1",
    "s1 respond 1 continue 0",
    "s1 respond 1 abort",
    "s1 respond 1 abort ",
    "s1 respond 1 abort  1",
    "s1 respond 1 abort 01",
    "s1 respond 1 abort 4294967296",
    "s1 respond 1 abort 1 1",
    "s1 respond 1 media 1",
    "s1 userevent",
    "s1 userevent x:0",
    "s1 send 1",
    "s1 send x:00",
    "s1 request 1 1.1.1",
    "s1 request 1 1.1.1 ",
    "s1 request 1 1.1.1 null",
    "s1 request 1 1.1.1 Shared",
    "s1 request 1 1.1.1 exclusive",
    "s1 request 1 shared",
    "s1 release 1 1.1.1 excl",
    "s1 right 1",
    "s1 upgrade 1 1.1.1 excl",
    "s1 downgrade 1.1.1",
    "s1 readinvis 0 1.1.1 0",
    "s1 writeinvis 0 1.1.1 x:00",
    "s1 punch 0 1.1.1 0",
    "s0 table 0",
    "s1 restore 0 1.1.1 0 p:131073:0",
    "s1 restore 0 1.1.1 4294967296 x:",
    "s1 seal 0 1.1.1 0 0 0 e3b0c44298fc1c149afbf4c8996fb92427ae41e4649b934ca495991b7852b855",
    "s1 seal 0 1.1.1 0 0 0 4294967296 e3b0c44298fc1c149afbf4c8996fb92427ae41e4649b934ca495991b7852b855",
    "s1 seal 0 1.1.1 0 0 0 0 e3b0c44298fc1c149afbf4c8996fb92427ae41e4649b934ca495991b7852b8",
    "s1 seal 0 1.1.1 0 0 0 0 e3b0c44298fc1c149afbf4c8996fb92427ae41e4649b934ca495991b7852b85B",
];

#[test]
fn are_refused(rt: HostRuntime) {
    for text in &BAD {
        assert!(rt; bad_line(rt.alloc(), text.as_bytes()) == 1, "{text}");
    }
}

/// A line, how often it stands, the last line behind these, and the first bad one: at most 100,000 lines, and 536,870,912 bytes that are read,
/// written and set.
static LONG: [(&str, u32, &str, u64); 12] = [
    ("c1 sync\n", 99999, "c1 sync", 0),
    ("c1 sync\n", 100000, "c1 sync", 100001),
    ("settle\n", 100000, "start recall", 100001),
    ("c1 read a 0 99999\n", 8192, "c1 write a 0 p:0:0", 0),
    ("c1 read a 0 99999\n", 8192, "c1 write a 0 p:1:0", 8193),
    ("c1 read a 0 99999\n", 8192, "c1 resume", 0),
    ("c1 read a 0 99999\n", 8192, "step migrate", 0),
    (
        "c1 read a 0 99999\n",
        8192,
        "s1 setattr 0 1.1.1 0000000000000000 x:",
        0,
    ),
    (
        "c1 read a 0 99999\n",
        8192,
        "s1 setattr 0 1.1.1 0000000000000000 x:00",
        8193,
    ),
    (
        "c1 read a 0 99999\n",
        8192,
        "s1 getevents 4294967295 4294967295",
        0,
    ),
    ("c1 read a 0 99999\n", 8192, "s1 send 1 x:00", 8193),
    (
        "s1 readinvis 0 1.1.1 0 99999\n",
        8192,
        "s1 restore 0 1.1.1 0 x:00",
        8193,
    ),
];

/// The first bad line of so many that are alike, and a last one.
fn bad_line_of_many(alloc: Global, line: &str, count: u32, last: &str) -> Option<u64> {
    let mut text = Vec::new(alloc);
    for _ in 0..count {
        text.extend_from_slice(line.as_bytes()).ok()?;
    }
    text.extend_from_slice(last.as_bytes()).ok()?;
    Some(bad_line(alloc, text.as_slice()))
}

#[test]
fn have_limits(rt: HostRuntime) {
    for (place, (line, count, last, want)) in LONG.iter().enumerate() {
        assert!(rt;
            bad_line_of_many(rt.alloc(), line, *count, last) == Some(*want),
            "row {place}"
        );
    }
}

/// Calls of callers, one of each kind.
static CALLS: &str =
    "c1 create a\nc64 write a 0 x:00ff\nc2 write a 2 p:3:255\nc1 read a 1 2\nc1 truncate a 3\nc1 stat a\nc3 sync\nc1 remove a";

/// How many lines a list of calls has, `None` where it is none.
fn count_of_calls(alloc: Global, text: &str) -> Option<usize> {
    let script = parse_allowed(alloc, text.as_bytes(), Allowed::Calls).ok()?;
    Some(script.as_slice().len())
}

#[test]
fn are_calls(rt: HostRuntime) {
    assert!(rt; count_of_calls(rt.alloc(), CALLS) == Some(8));
    assert!(rt; count_of_calls(rt.alloc(), "") == Some(0));
}

/// Lines that are no calls of callers.
static NO_CALLS: [&str; 7] = [
    "c1 resume",
    "store commit",
    "s0 sessions",
    "start recall",
    "kill migrate",
    "step recall",
    "settle",
];

/// Two calls, that line, and one that is none.
fn with_calls(alloc: Global, line: &str) -> Option<Vec<u8>> {
    let mut text = Vec::new(alloc);
    text.extend_from_slice(b"c1 create a\nc1 sync\n").ok()?;
    text.extend_from_slice(line.as_bytes()).ok()?;
    text.extend_from_slice(b"\nc1 commit\n").ok()?;
    Some(text)
}

/// The first bad line of these, and where calls of callers alone are allowed.
fn bad_lines_with_calls(alloc: Global, line: &str) -> Option<(u64, u64)> {
    let text = with_calls(alloc, line)?;
    Some((
        bad_line(alloc, text.as_slice()),
        bad_call(alloc, text.as_slice()),
    ))
}

#[test]
fn are_no_calls(rt: HostRuntime) {
    assert!(rt; bad_lines_with_calls(rt.alloc(), "c1 stat a") == Some((4, 4)));
    for line in &NO_CALLS {
        assert!(rt;
            bad_lines_with_calls(rt.alloc(), line) == Some((4, 3)),
            "{line}"
        );
    }
}
