//! Messages that move from one list to another.
ghost use Rattle.std.specs.Prelude.{◌≡◌, ◌+◌, ◌<◌, ◌≤◌, ◌++◌, [], ◌∷◌, None, vec_len, vec_capacity, length, take, drop, filter, count_by, not};
ghost use Rattle.indexmap.specs.IndexMap.{spare};
ghost use Rattle.std.specs.List.{All};
ghost use Rattle.std.specs.Map.{lookup};
ghost use Rattle.hsm_types.specs.Messages.{takes, has_token, no_token};
ghost use Rattle.hsm_types.specs.Sessions.{with_tokens};
ghost use Rattle.dm_sessions.specs.Moves.{keyed, same_token, AreApart};

use crate::queue::Queue;
use hsm_types::{Kinds, Message, Token};
use indexmap::IndexMap;
use std::collections::VecDeque;

/// How many messages are of these kinds.
pub(crate) fn count_of_kinds(messages: &VecDeque<Message>, kinds: Kinds) -> usize
    ensures { result ≡ count_by (λ m. takes kinds m.kind) messages.now.items }
{
    messages
        .iter()
        .filter(|message| kinds.takes(message.kind))
        .count()
}

/// How many of the first `count` messages have no token.
pub(crate) fn count_without_token(messages: &[Message], count: usize) -> usize
    ensures { result ≡ count_by (has_token no_token) (take count messages.now) }
{
    messages
        .iter()
        .take(count)
        .filter(|message| message.token.0 == 0)
        .count()
}

/// Moves the messages of these kinds to the end of another list, where there is room for them. All keep their order.
pub(crate) fn move_kinds(from: &mut VecDeque<Message>, to: &mut Vec<Message>, kinds: Kinds)
    requires { vec_len to.old + count_by (λ m. takes kinds m.kind) from.old.items ≤ vec_capacity to.old }
    ensures moved { to.new.items ≡ to.old.items ++ filter (λ m. takes kinds m.kind) from.old.items }
    ensures left { from.new.items ≡ filter (λ m. not (takes kinds m.kind)) from.old.items }
{
    for _ in 0..from.len() {
        let message = from.pop_front().unwrap();
        if kinds.takes(message.kind) {
            to.push_reserved(message);
        } else {
            from.push_back_reserved(message);
        }
    }
}

/// Moves the first `count` messages of a queue to the outstanding ones, where there is room for them. Those without a token are over.
pub(crate) fn hand_out(queue: &mut Queue, outstanding: &mut IndexMap<Token, Message>, count: usize)
    requires within { count ≤ length queue.old }
    requires room { length (with_tokens (take count queue.old)) ≤ spare outstanding.old }
    requires kept { All (λ e. e.0 ≡ e.1.token) outstanding.old.entries }
    requires apart { AreApart queue.old outstanding.old.entries }
    ensures left { queue.new ≡ drop count queue.old }
    ensures held { outstanding.new.entries ≡ outstanding.old.entries ++ keyed (with_tokens (take count queue.old)) }
{
    for _ in 0..count {
        let message = queue.pop_front().unwrap();
        hold(outstanding, message);
    }
}

/// Holds a message until its token is responded to. One without a token is over.
fn hold(outstanding: &mut IndexMap<Token, Message>, message: Message)
    requires room { length (with_tokens (message ∷ [])) ≤ spare outstanding.old }
    requires absent { 0 < message.token.0 → lookup (same_token message.token) outstanding.old.entries ≡ None }
    ensures held { outstanding.new.entries ≡ outstanding.old.entries ++ keyed (with_tokens (message ∷ [])) }
    ensures room_left { spare outstanding.old ≤ spare outstanding.new + length (with_tokens (message ∷ [])) }
{
    if message.token.0 != 0 {
        let _none = outstanding.insert(message.token, message).unwrap();
    }
}
