//! How messages are packed.
ghost use Rattle.std.specs.Prelude.{◌≡◌, ◌≢◌, ◌≤◌, ◌<◌, [], ◌∷◌, sum_by, All, IfOk, IfErr, OnOk};
ghost use Rattle.hsm_types.specs.Messages.{IsMessage, message_bytes, packed, fitting, first_or_all, handed_out};
ghost use Rattle.hsm_types.specs.Sessions.{tokens_of};
ghost use Rattle.event_msgs.specs.Buffers.{IsPacked};
ghost use Rattle.event_msgs.specs.Packing.{first_bytes, Refuses};

use crate::writing::{message_bytes, spell};
use hsm_types::{Bytes, Message, Packed, Token, Tokens};
use std::alloc::{AllocError, Global};
use std::slice;
use thiserror::Error;

/// Why no messages are packed.
#[derive(Clone, Copy, Debug, PartialEq, Eq, Error)]
pub enum PackRefusal {
    /// The bytes of the first message, which has no room.
    #[error("the first message takes {need} bytes")]
    TooSmall { need: u64 },
    #[error("no memory")]
    Memory,
}

impl From<AllocError> for PackRefusal {
    ghost use Rattle.std.specs.Prelude.{◌≡◌};
    ghost use Rattle.event_msgs.specs.declared.packing.PackRefusal.TheVariants.{Memory};

    ghost from_gives = { λ _ e. e ≡ Memory };

    fn from(_e: AllocError) -> PackRefusal {
        PackRefusal::Memory
    }
}

/// The longest prefix that fits into so many bytes, and how many bytes it takes.
fn fitting(messages: &[Message], room: u32) -> (&[Message], usize)
    requires { All IsMessage messages.now }
    ensures fitting { result.0.now ≡ fitting room messages.now }
    ensures each { All IsMessage result.0.now }
{
    let mut left = room as usize;
    for (count, message) in messages.iter().enumerate() {
        let size = message_bytes(message);
        if size > left {
            return (&messages[..count], room as usize - left);
        }
        left -= size;
    }
    (messages, room as usize - left)
}

/// The first `max`, or all for 0.
fn first_or_all(messages: &[Message], max: u32) -> &[Message]
    ensures first { result.now ≡ first_or_all max messages.now }
    ensures each { All IsMessage messages.now → All IsMessage result.now }
{
    if max == 0 {
        return messages;
    }
    &messages[..messages.len().min(max as usize)]
}

fn tokens_of(alloc: Global, messages: &[Message]) -> Result<Vec<Token>, AllocError>
    ensures { IfOk result (λ v. v.items ≡ tokens_of messages.now) }
{
    messages.iter().map(|message| message.token).collect(alloc)
}

/// Packs the longest prefix of the messages that fits into `room` bytes, at most `max` of them, or without a bound where that is 0. It takes its
/// memory in two pieces, and nothing where it refuses.
pub fn pack(alloc: Global, messages: &[Message], max: u32, room: u32) -> Result<Packed, PackRefusal>
    requires some { messages.now ≢ [] }
    requires each { All IsMessage messages.now }
    ensures bytes { IfOk result (λ p. p.bytes ≡ packed (handed_out max room messages.now)) }
    ensures tokens { IfOk result (λ p. p.tokens ≡ tokens_of (handed_out max room messages.now)) }
    ensures grammar { IfOk result (λ p. IsPacked p.bytes (handed_out max room messages.now)) }
    ensures fits { OnOk result (first_bytes messages.now ≤ room) }
    ensures refused { IfErr result (λ why. Refuses room messages.now why) }
{
    let (given, len) = fitting(first_or_all(messages, max), room);
    if given.is_empty() {
        return Err(PackRefusal::TooSmall {
            need: message_bytes(&messages[0]) as u64,
        });
    }
    let bytes = spell(alloc, given, len)?;
    let tokens = tokens_of(alloc, given)?;
    Ok(Packed {
        bytes: Bytes::from(bytes),
        tokens: Tokens::from(tokens),
    })
}

/// Packs one message, if it fits into `room` bytes.
pub fn pack_one(alloc: Global, message: &Message, room: u32) -> Result<Packed, PackRefusal>
    requires { IsMessage message.now }
    ensures bytes { IfOk result (λ p. p.bytes ≡ packed (message.now ∷ [])) }
    ensures tokens { IfOk result (λ p. p.tokens ≡ message.now.token ∷ []) }
    ensures grammar { IfOk result (λ p. IsPacked p.bytes (message.now ∷ [])) }
    ensures fits { OnOk result (message_bytes message.now ≤ room) }
    ensures refused { IfErr result (λ why. Refuses room (message.now ∷ []) why) }
{
    pack(alloc, slice::from_ref(message), 0, room)
}
