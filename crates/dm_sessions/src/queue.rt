//! A queue of messages.
ghost use Rattle.std.specs.Prelude.{◌≡◌, ◌<◌, ◌^◌, [], ◌∷◌, ◌++◌, ◌↔◌, OnOk, OnErr, IsSome, length, filter, not};
ghost use Rattle.std.specs.Option.{option_to_list};
ghost use Rattle.hsm_types.specs.Messages.{takes, no_token, user_message};

use crate::moving::{count_of_kinds, move_kinds};
use hsm_types::{Bytes, Kind, Kinds, Message, Token};
use std::alloc::{AllocError, Global};
use std::collections::VecDeque;
use std::marker::Model;
use std::mem;

/// Messages that wait. It lends them as one slice, and gives the first at constant cost, amortized. Contracts see it as their list.
#[derive(Drop)]
pub(crate) struct Queue {
    items: Vec<Message>,
    /// The index of the first that waits. Those before it were given, and an empty message stands in the place of each.
    from: usize,
}

impl Model for Queue {
    ghost use Rattle.std.specs.Prelude.{List, ◌≤◌, length, drop};
    ghost use Rattle.hsm_types.specs.declared.messages.Message.{Message};

    ghost Value = { List Message };

    ghost view = { λ q. drop q.from q.items.items };

    ghost invariant = { λ q. q.from ≤ length q.items.items };
}

impl Queue {
    /// An empty queue. It takes no memory.
    pub(crate) fn new(alloc: Global) -> Queue
        ensures { result ≡ [] }
    {
        Queue {
            items: Vec::new(alloc),
            from: 0,
        }
    }

    pub(crate) fn as_slice(&self) -> &[Message]
        ensures { result.now ≡ self.now }
    {
        &self.items[self.from..]
    }

    pub(crate) fn len(&self) -> usize
        ensures len { result ≡ length self.now }
        ensures bound { result < 2 ^ 63 }
    {
        self.items.len() - self.from
    }

    /// A message more at the end.
    pub(crate) fn push(&mut self, message: Message) -> Result<(), AllocError>
        ensures after { OnOk result (self.new ≡ self.old ++ message ∷ []) }
        ensures bound { OnOk result (length self.new < 2 ^ 63) }
        ensures err { OnErr result (self.new ≡ self.old) }
    {
        self.items.push(message)?;
        Ok(())
    }

    /// The messages of accesses of these kinds join the end.
    pub(crate) fn join(
        &mut self,
        messages: &mut VecDeque<Message>,
        kinds: Kinds,
    ) -> Result<(), AllocError>
        ensures after { OnOk result (self.new ≡ self.old ++ filter (λ m. takes kinds m.kind) messages.old.items) }
        ensures left { OnOk result (messages.new.items ≡ filter (λ m. not (takes kinds m.kind)) messages.old.items) }
        ensures err { OnErr result (self.new ≡ self.old) }
        ensures unmoved { OnErr result (messages.new.items ≡ messages.old.items) }
    {
        self.items.reserve(count_of_kinds(messages, kinds))?;
        move_kinds(messages, &mut self.items, kinds);
        Ok(())
    }

    /// Gives the first message.
    pub(crate) fn pop_front(&mut self) -> Option<Message>
        ensures items { self.old ≡ option_to_list result ++ self.new }
        ensures variant { IsSome result ↔ (0 < length self.old) }
    {
        if self.from >= self.items.len() {
            return None;
        }
        let place = empty_message(*self.items.allocator());
        let message = mem::replace(&mut self.items[self.from], place);
        self.from += 1;
        self.drop_given();
        Some(message)
    }

    /// Drops the places of the messages that were given, once no more wait than were given. So it costs a constant for each of these.
    fn drop_given(&mut self)
        ensures { self.new ≡ self.old }
    {
        if self.from >= self.items.len() - self.from {
            self.items.drain(..self.from);
            self.from = 0;
        }
    }
}

/// What stands in the place of a message that was given. It takes no memory.
fn empty_message(alloc: Global) -> Message
    ensures { result ≡ user_message no_token [] }
{
    Message {
        kind: Kind::User,
        token: Token(0),
        handle: None,
        offset: 0,
        length: 0,
        body: Bytes::from(Vec::new(alloc)),
    }
}
