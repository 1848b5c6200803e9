//! Writing the bytes of messages.
ghost use Rattle.std.specs.Prelude.{◌≡◌, ◌≢◌, ◌≤◌, ◌<◌, ◌+◌, ◌^◌, [], ◌∷◌, ◌++◌, All, IfSome, IfOk, OnOk};
ghost use Rattle.byteorder.specs.Endian.{big_bytes};
ghost use Rattle.hsm_types.specs.Handles.{handle_bytes, IsHandle};
ghost use Rattle.hsm_types.specs.Limits.{data_bytes};
ghost use Rattle.hsm_types.specs.Messages.{IsMessage, kind_number, payload, payload_size, rounded_up, message_bytes, header, message_text, packed};
ghost use Rattle.event_msgs.specs.Buffers.{IsInGrammar};

use byteorder::{BigEndian, ByteOrder};
use hsm_types::{Handle, Kind, Message};
use std::alloc::{AllocError, Global};

/// The bytes of a message before its payload.
pub(crate) const HEADER_BYTES: usize = 24;

/// The bytes of the payload of an access: the handle and two numbers.
pub(crate) const ACCESS_PAYLOAD: usize = 40;

/// What the bytes of a message are a multiple of.
pub(crate) const ALIGNMENT: usize = 8;

fn kind_number(kind: Kind) -> u32
    ensures { result ≡ kind_number kind }
{
    match kind {
        Kind::Read => 1,
        Kind::Write => 2,
        Kind::Truncate => 3,
        Kind::NoSpace => 4,
        Kind::User => 5,
    }
}

fn payload_size(message: &Message) -> usize
    requires { IsMessage message.now }
    ensures size { result ≡ payload_size message.now }
    ensures short { result ≤ data_bytes }
{
    match message.kind {
        Kind::User => message.body.as_slice().len(),
        _ => ACCESS_PAYLOAD,
    }
}

/// The next multiple of 8.
pub(crate) fn rounded_up(size: usize) -> usize
    requires { size < 2 ^ 32 }
    ensures { result ≡ rounded_up size }
{
    size.next_multiple_of(ALIGNMENT)
}

/// The bytes that a message takes.
pub(crate) fn message_bytes(message: &Message) -> usize
    requires { IsMessage message.now }
    ensures bytes { result ≡ message_bytes message.now }
    ensures short { result ≤ 24 + data_bytes }
{
    HEADER_BYTES + rounded_up(payload_size(message))
}

fn token_number(message: &Message) -> u64
    ensures number { result ≡ message.now.token.0 }
    ensures small { message.now.token.0 < 2 ^ 64 }
{
    message.token.0
}

#[tactic(auto, unfolding(hsm_types::specs::Messages::header))]
fn header(message: &Message, next: u32) -> [u8; HEADER_BYTES]
    requires { IsMessage message.now }
    ensures bytes { result ≡ header next message.now }
    ensures token { message.now.token.0 < 2 ^ 64 }
{
    let mut bytes = [0; HEADER_BYTES];
    BigEndian::write_u32(&mut bytes, next);
    BigEndian::write_u32(&mut bytes[4..], kind_number(message.kind));
    BigEndian::write_u64(&mut bytes[8..], token_number(message));
    BigEndian::write_u32(&mut bytes[16..], payload_size(message) as u32);
    bytes
}

fn put_access(out: &mut Vec<u8>, handle: Handle, offset: u64, length: u64) -> Result<(), AllocError>
    ensures bytes { OnOk result (out.new.items ≡ out.old.items ++ (handle_bytes handle ++ big_bytes 8 offset ++ big_bytes 8 length)) }
    ensures handle { OnOk result (IsHandle handle) }
    ensures numbers { (offset < 2 ^ 64) × (length < 2 ^ 64) }
{
    let mut numbers = [0; 16];
    BigEndian::write_u64(&mut numbers, offset);
    BigEndian::write_u64(&mut numbers[8..], length);
    out.extend_from_slice(&handle.to_bytes())?;
    out.extend_from_slice(&numbers)?;
    Ok(())
}

fn put_payload(out: &mut Vec<u8>, message: &Message) -> Result<(), AllocError>
    requires { IsMessage message.now }
    ensures bytes { OnOk result (out.new.items ≡ out.old.items ++ payload message.now) }
    ensures handle { OnOk result (IfSome message.now.handle IsHandle) }
    ensures numbers { OnOk result ((message.now.offset < 2 ^ 64) × (message.now.length < 2 ^ 64)) }
{
    match message.handle {
        Some(handle) => put_access(out, handle, message.offset, message.length),
        None => out.extend_from_slice(message.body.as_slice()),
    }
}

/// A message, `next` bytes before the one behind it.
fn put_message(out: &mut Vec<u8>, next: u32, message: &Message) -> Result<(), AllocError>
    requires { IsMessage message.now }
    ensures bytes { OnOk result (out.new.items ≡ out.old.items ++ message_text next message.now) }
    ensures grammar { OnOk result (IsInGrammar message.now) }
{
    let size = payload_size(message);
    let padding = rounded_up(size) - size;
    out.extend_from_slice(&header(message, next))?;
    put_payload(out, message)?;
    out.extend_from_slice(&[0; ALIGNMENT][..padding])?;
    Ok(())
}

/// A buffer of the messages. It takes `len` bytes of memory at first.
pub(crate) fn spell(alloc: Global, messages: &[Message], len: usize) -> Result<Vec<u8>, AllocError>
    requires { All IsMessage messages.now }
    ensures bytes { IfOk result (λ v. v.items ≡ packed messages.now) }
    ensures grammar { OnOk result (All IsInGrammar messages.now) }
{
    let mut out = Vec::with_capacity(alloc, len)?;
    let Some((last, before)) = messages.split_last() else {
        return Ok(out);
    };
    for message in before {
        put_message(&mut out, message_bytes(message) as u32, message)?;
    }
    put_message(&mut out, 0, last)?;
    Ok(out)
}
