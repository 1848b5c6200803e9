//! Reading a message from the front of some bytes.
ghost use Rattle.std.specs.Prelude.{◌≡◌, ◌<◌, ◌≤◌, ◌^◌, length};
ghost use Rattle.std.specs.Option.{option_map};
ghost use Rattle.event_msgs.specs.Reading.{kind_of, header_at, next_before, is_zeros, holds_message, frame_at, is_payload, own_message};
ghost use Rattle.event_msgs.specs.Reading.{access_message, message_of, message_at};
ghost use Rattle.event_msgs.specs.Views.{shown, seen, shown_before, seen_before, shown_frame};

use crate::message_view::View;
use crate::writing::{ACCESS_PAYLOAD, ALIGNMENT, HEADER_BYTES, rounded_up};
use byteorder::{BigEndian, ByteOrder};
use hsm_types::{DATA_BYTES, HANDLE_BYTES, Kind, Token};

/// Where the length of an access stands in its payload.
const LENGTH_PLACE: usize = 32;

/// What the header of a message says.
#[derive(Clone, Copy)]
struct Header {
    next: u32,
    kind: Kind,
    token: Token,
    size: u32,
}

fn kind_of(number: u32) -> Option<Kind>
    ensures { result ≡ kind_of number }
{
    match number {
        1 => Some(Kind::Read),
        2 => Some(Kind::Write),
        3 => Some(Kind::Truncate),
        4 => Some(Kind::NoSpace),
        5 => Some(Kind::User),
        _ => None,
    }
}

#[tactic(auto, unfolding(crate::specs::Reading::header_at))]
fn header_at(bytes: &[u8]) -> Option<Header>
    ensures { result ≡ header_at bytes.now }
{
    if bytes.len() < HEADER_BYTES || BigEndian::read_u32(&bytes[20..]) != 0 {
        return None;
    }
    let kind = kind_of(BigEndian::read_u32(&bytes[4..]))?;
    Some(Header {
        next: BigEndian::read_u32(bytes),
        kind,
        token: Token(BigEndian::read_u64(&bytes[8..])),
        size: BigEndian::read_u32(&bytes[16..]),
    })
}

fn next_before(len: usize, rest: &[u8]) -> usize
    ensures { result ≡ next_before len rest.now }
{
    if rest.is_empty() { 0 } else { len }
}

fn is_zeros(bytes: &[u8]) -> bool
    requires { length bytes.now ≤ ALIGNMENT }
    ensures { result ≡ is_zeros bytes.now }
{
    bytes == &[0; ALIGNMENT][..bytes.len()]
}

/// Whether the bytes hold the message, it says right what is behind it, and its padding is zeros.
#[tactic(auto, unfolding(crate::specs::Reading::holds_message))]
fn holds_message(header: Header, bytes: &[u8]) -> bool
    ensures { result ≡ holds_message header bytes.now }
{
    let size = header.size as usize;
    let len = HEADER_BYTES + rounded_up(size);
    if bytes.len() < len {
        return false;
    }
    let (message, rest) = bytes.split_at(len);
    header.next as usize == next_before(len, rest) && is_zeros(&message[HEADER_BYTES + size..])
}

/// The header, the payload, and the rest behind the message.
#[tactic(auto, unfolding(crate::specs::Reading::frame_at))]
fn frame_at(bytes: &[u8]) -> Option<(Header, &[u8], &[u8])>
    ensures { option_map shown_frame result ≡ frame_at bytes.now }
{
    let header = header_at(bytes)?;
    if !holds_message(header, bytes) {
        return None;
    }
    let size = header.size as usize;
    let (message, rest) = bytes.split_at(HEADER_BYTES + rounded_up(size));
    Some((header, &message[HEADER_BYTES..HEADER_BYTES + size], rest))
}

fn is_payload(kind: Kind, token: Token, payload: &[u8]) -> bool
    ensures { result ≡ is_payload kind token payload.now }
{
    let is_access = payload.len() == ACCESS_PAYLOAD && token.0 != 0;
    match kind {
        Kind::User => payload.len() <= DATA_BYTES,
        Kind::Truncate => is_access && BigEndian::read_u64(&payload[LENGTH_PLACE..]) == 0,
        _ => is_access,
    }
}

fn own_view(token: Token, payload: &[u8]) -> View<'_>
    ensures { seen result ≡ shown (own_message token payload.now) }
{
    View {
        kind: Kind::User,
        token,
        handle: &payload[..0],
        offset: 0,
        length: 0,
        body: payload,
    }
}

fn access_view(kind: Kind, token: Token, payload: &[u8]) -> View<'_>
    requires { length payload.now ≡ 40 }
    ensures { seen result ≡ shown (access_message kind token payload.now) }
{
    let (handle, numbers) = payload.split_at(HANDLE_BYTES);
    View {
        kind,
        token,
        handle,
        offset: BigEndian::read_u64(numbers),
        length: BigEndian::read_u64(&numbers[8..]),
        body: &numbers[16..],
    }
}

/// A view of the message with that payload, if it is one of that kind.
fn view_of(kind: Kind, token: Token, payload: &[u8]) -> Option<View<'_>>
    ensures { option_map seen result ≡ option_map shown (message_of kind token payload.now) }
{
    if !is_payload(kind, token, payload) {
        return None;
    }
    match kind {
        Kind::User => Some(own_view(token, payload)),
        _ => Some(access_view(kind, token, payload)),
    }
}

/// The message in front, and the rest behind it.
#[tactic(auto, unfolding(crate::specs::Reading::message_at))]
pub(crate) fn message_at(bytes: &[u8]) -> Option<(View<'_>, &[u8])>
    ensures { option_map seen_before result ≡ option_map shown_before (message_at bytes.now) }
{
    let (header, payload, rest) = frame_at(bytes)?;
    let view = view_of(header.kind, header.token, payload)?;
    Some((view, rest))
}
