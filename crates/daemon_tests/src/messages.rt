//! Buffers of messages: the bytes that are packed, and what is read in bytes that nobody packed.
ghost use Rattle.std.specs.Prelude.{◌<◌, ◌≤◌, IfOk};
ghost use Rattle.hsm_types.specs.Messages.{IsMessage};

use event_msgs::{BadMessage, PackRefusal, View, pack, pack_one, views};
use hsm_types::{Bytes, FileKey, Handle, Kind, Message, Packed, Token};
use std::alloc::{AllocError, Global};

/// A read of three bytes from the first one, by token 1, of the file 1.1.1.
pub(crate) static READ: [u8; 64] = [
    0, 0, 0, 0, 0, 0, 0, 1, 0, 0, 0, 0, 0, 0, 0, 1, 0, 0, 0, 40, 0, 0, 0, 0, 0, 0, 0, 0, 0, 0, 0,
    1, 0, 0, 0, 0, 0, 0, 0, 1, 0, 0, 0, 0, 0, 0, 0, 1, 0, 0, 0, 0, 0, 0, 0, 0, 0, 0, 0, 0, 0, 0, 0,
    3,
];

/// The same read, `hello` by token 2, and a truncate to 258 bytes by token 3.
pub(crate) static THREE: [u8; 160] = [
    0, 0, 0, 64, 0, 0, 0, 1, 0, 0, 0, 0, 0, 0, 0, 1, 0, 0, 0, 40, 0, 0, 0, 0, 0, 0, 0, 0, 0, 0, 0,
    1, 0, 0, 0, 0, 0, 0, 0, 1, 0, 0, 0, 0, 0, 0, 0, 1, 0, 0, 0, 0, 0, 0, 0, 0, 0, 0, 0, 0, 0, 0, 0,
    3, 0, 0, 0, 32, 0, 0, 0, 5, 0, 0, 0, 0, 0, 0, 0, 2, 0, 0, 0, 5, 0, 0, 0, 0, 104, 101, 108, 108,
    111, 0, 0, 0, 0, 0, 0, 0, 0, 0, 0, 3, 0, 0, 0, 0, 0, 0, 0, 3, 0, 0, 0, 40, 0, 0, 0, 0, 0, 0, 0,
    0, 0, 0, 0, 1, 0, 0, 0, 0, 0, 0, 0, 1, 0, 0, 0, 0, 0, 0, 0, 1, 0, 0, 0, 0, 0, 0, 1, 2, 0, 0, 0,
    0, 0, 0, 0, 0,
];

const FILE: Handle = Handle {
    fsid: 1,
    key: FileKey { ino: 1, igen: 1 },
};

fn read(alloc: Global) -> Message
    ensures { IsMessage result }
{
    Message {
        kind: Kind::Read,
        token: Token(1),
        handle: Some(FILE),
        offset: 0,
        length: 3,
        body: Bytes::from(Vec::new(alloc)),
    }
}

fn truncate(alloc: Global) -> Message
    ensures { IsMessage result }
{
    Message {
        kind: Kind::Truncate,
        token: Token(3),
        handle: Some(FILE),
        offset: 258,
        length: 0,
        body: Bytes::from(Vec::new(alloc)),
    }
}

fn hello(alloc: Global) -> Result<Message, AllocError>
    ensures { IfOk result IsMessage }
{
    Ok(Message {
        kind: Kind::User,
        token: Token(2),
        handle: None,
        offset: 0,
        length: 0,
        body: Bytes::from(b"hello".to_vec(alloc)?),
    })
}

fn one(alloc: Global, room: u32) -> Result<Packed, PackRefusal> {
    pack_one(alloc, &read(alloc), room)
}

fn three(alloc: Global, max: u32, room: u32) -> Result<Packed, PackRefusal> {
    let messages = [read(alloc), hello(alloc)?, truncate(alloc)];
    pack(alloc, &messages, max, room)
}

/// Whether these bytes are packed, for messages of tokens from 1 on.
fn gives(packed: Result<Packed, PackRefusal>, bytes: &[u8], tokens: &[Token]) -> bool {
    match packed {
        Ok(packed) => packed.bytes.as_slice() == bytes && packed.tokens.as_slice() == tokens,
        Err(_) => false,
    }
}

#[test]
fn are_packed_as_the_format_says(rt: HostRuntime) {
    let tokens = [Token(1), Token(2), Token(3)];
    assert!(rt; gives(one(rt.alloc(), 64), &READ, &tokens[..1]), "one");
    assert!(rt; gives(three(rt.alloc(), 0, 160), &THREE, &tokens), "three");
    assert!(rt;
        gives(three(rt.alloc(), 1, 160), &READ, &tokens[..1]),
        "one of three"
    );
    assert!(rt;
        gives(three(rt.alloc(), 3, 95), &READ, &tokens[..1]),
        "one has room"
    );
}

fn is_refused(packed: Result<Packed, PackRefusal>) -> bool {
    match packed {
        Ok(_) => false,
        Err(why) => why == PackRefusal::TooSmall { need: 64 },
    }
}

#[test]
fn are_refused_without_room_for_the_first(rt: HostRuntime) {
    assert!(rt; is_refused(one(rt.alloc(), 63)), "one");
    assert!(rt; is_refused(three(rt.alloc(), 2, 0)), "three");
}

/// Where the three messages begin.
static STARTS: [usize; 3] = [0, 64, 96];

/// Whether a view shows what stands at that place.
fn shows(bytes: &[u8], start: usize, view: &View<'_>) -> bool {
    let Some(message) = bytes.get(start..) else {
        return false;
    };
    let (handle, body) = if start == 64 { (0, 5) } else { (24, 0) };
    message.get(8..16) == Some(&view.token.0.to_be_bytes())
        && message.get(24..24 + handle) == Some(view.handle)
        && message.get(24..24 + body) == Some(view.body)
}

/// How many messages are read that are shown as they stand, or where none begins.
fn count(bytes: &[u8]) -> Result<usize, BadMessage> {
    let all = views(bytes)?.zip(STARTS.iter());
    Ok(
        all.filter(|(view, start)| shows(bytes, **start, view))
            .count(),
    )
}

#[test]
fn are_shown_as_they_stand(rt: HostRuntime) {
    assert!(rt; count(&READ) == Ok(1), "one");
    assert!(rt; count(&THREE) == Ok(3), "three");
}

/// The place of the message that has that byte.
fn start_of(place: usize) -> usize
    ensures { result ≤ place }
{
    match place {
        0..64 => 0,
        64..96 => 64,
        _ => 96,
    }
}

fn bad(place: usize) -> Result<usize, BadMessage> {
    Err(BadMessage {
        place: place as u64,
    })
}

#[test]
fn are_bad_from_where_they_are_cut(rt: HostRuntime) {
    assert!(rt; count(&READ[..63]) == bad(0), "63 bytes of one");
    assert!(rt; count(&[]) == bad(0), "no bytes");
    for len in 1..160 {
        assert!(rt;
            count(&THREE[..len]) == bad(start_of(len - 1)),
            "{len} bytes of three"
        );
    }
}

/// Whether that byte of the message that begins there may be that one of 0, 1 and 255.
fn may_be(start: usize, byte: usize, value: u8) -> bool {
    match (start, byte) {
        // A truncate has the fields of a read of no bytes.
        (96, 7) => value == 1,
        // An access has a token.
        (0 | 96, 15) => value != 0,
        (_, 8..16) | (0, 24..64) | (64, 24..29) | (96, 24..56) => true,
        _ => false,
    }
}

/// What is read where one byte of three messages is another.
fn expected(place: usize, value: u8) -> Result<usize, BadMessage>
    requires { place < 160 }
{
    let start = start_of(place);
    if THREE[place] == value || may_be(start, place - start, value) {
        Ok(3)
    } else {
        bad(start)
    }
}

fn changed(place: usize, value: u8) -> Result<usize, BadMessage>
    requires { place < 160 }
{
    let mut bytes = THREE;
    bytes[place] = value;
    count(&bytes)
}

#[test]
fn are_bad_where_a_byte_is_another(rt: HostRuntime) {
    for place in 0..160 {
        for value in [0, 1, 255] {
            assert!(rt;
                changed(place, value) == expected(place, value),
                "{value} at {place}"
            );
        }
    }
}
