//! How a buffer is read.
ghost use Rattle.std.specs.Prelude.{◌≡◌, map, All, IfOk, IfErr};
ghost use Rattle.event_msgs.specs.Buffers.{IsInGrammar, IsPacked, IsBadAt};
ghost use Rattle.event_msgs.specs.Reading.{told};

use crate::message_view::View;
use crate::reading::message_at;
use std::marker::Model;
use thiserror::Error;

/// A buffer that isn't in the grammar.
#[derive(Clone, Copy, Debug, PartialEq, Eq, Error)]
#[error("no message in the grammar begins at {place}")]
pub struct BadMessage {
    /// Where the first message begins that isn't in the grammar.
    pub place: u64,
}

/// Goes over the messages of a buffer in order, without memory. Contracts see it as the list of those that are left.
#[derive(Drop)]
pub struct MessageViews<'a> {
    left: &'a [u8],
}

impl<'a> Model for MessageViews<'a> {
    ghost use Rattle.std.specs.Prelude.{◌≡◌, List, All};
    ghost use Rattle.hsm_types.specs.Messages.{packed};
    ghost use Rattle.hsm_types.specs.declared.messages.Message.{Message};
    ghost use Rattle.event_msgs.specs.Buffers.{IsInGrammar};
    ghost use Rattle.event_msgs.specs.Reading.{messages_in};

    ghost Value = { List Message };

    ghost view = { λ v. messages_in v.left.now };

    ghost invariant = { λ v. All IsInGrammar (messages_in v.left.now) × (v.left.now ≡ packed (messages_in v.left.now)) };
}

impl<'a> Iterator for MessageViews<'a> {
    ghost use Rattle.std.specs.Prelude.{map};
    ghost use Rattle.std.specs.Iterator.{YieldsFirstBy, item_count};
    ghost use Rattle.event_msgs.specs.Views.{shown, seen};

    type Item = View<'a>;

    ghost next_gives = { YieldsFirstBy seen (map shown) };

    ghost remaining = { item_count (map shown) };

    fn next(&mut self) -> Option<View<'a>> {
        let (view, left) = message_at(self.left)?;
        self.left = left;
        Some(view)
    }
}

/// The messages of a buffer. It takes no memory.
pub fn views(buf: &[u8]) -> Result<MessageViews<'_>, BadMessage>
    ensures messages { IfOk result (IsPacked buf.now) }
    ensures bad { IfErr result (λ e. IsBadAt e.place buf.now) }
{
    let mut rest = buf;
    while let Some((_, after)) = message_at(rest) {
        if after.is_empty() {
            return Ok(MessageViews { left: buf });
        }
        rest = after;
    }
    Err(BadMessage {
        place: (buf.len() - rest.len()) as u64,
    })
}

/// The messages of a buffer that is in the grammar, and none of any other. It takes no memory.
pub fn messages(buf: &[u8]) -> MessageViews<'_>
    ensures messages { result ≡ told buf.now }
    ensures each { All IsInGrammar result }
{
    match views(buf) {
        Ok(messages) => messages,
        Err(_) => MessageViews { left: &buf[..0] },
    }
}
