//! One session: its kinds, its queue and the messages that are outstanding to it.
ghost use Rattle.std.specs.Prelude.{◌≡◌, true, ◌+◌, ◌<◌, ◌≤◌, [], ◌∷◌, IfSome, IfOk, OnOk, OnErr, length, count_by, filter, map, not};
ghost use Rattle.std.specs.Option.{option_copied};
ghost use Rattle.std.specs.List.{All};
ghost use Rattle.std.specs.List.Sorted.{IsStrictlyIncreasing};
ghost use Rattle.hsm_types.specs.Messages.{IsMessage, takes, has_token, no_token};
ghost use Rattle.hsm_types.specs.Sessions.{heir, queued, hands_out, holds, message_in, places_in, put_message, tokens_of, without_token};
ghost use Rattle.dm_sessions.specs.Tables.{IsEvent, IsQueued, users_of};

use crate::moving::{count_without_token, hand_out};
use crate::queue::Queue;
use hsm_types::{Kinds, Message, Token, Tokens, Word};
use indexmap::IndexMap;
use std::alloc::{AllocError, Global};
use std::collections::VecDeque;
use std::marker::Model;

/// A live session.
#[derive(Drop)]
pub(crate) struct LiveSession {
    info: Word,
    kinds: Kinds,
    queue: Queue,
    /// How many messages of the queue have no token.
    waiting: u64,
    /// The messages whose tokens are to be responded to, in any order.
    outstanding: IndexMap<Token, Message>,
}

impl Model for LiveSession {
    ghost use Rattle.hsm_types.specs.Sessions.{LiveSession};
    ghost use Rattle.dm_sessions.specs.Tables.{IsSession, in_order};

    ghost Value = { LiveSession };

    ghost view = { λ s. record { info = s.info; kinds = s.kinds; queue = s.queue; outstanding = in_order s.outstanding.entries } };

    ghost invariant = { λ s. IsSession s.queue s.waiting s.outstanding.entries };
}

impl LiveSession {
    /// A session without messages. It takes no memory.
    pub(crate) fn new(alloc: Global, info: Word) -> LiveSession
        ensures { result ≡ heir info None }
    {
        LiveSession {
            info,
            kinds: Kinds::none(),
            queue: Queue::new(alloc),
            waiting: 0,
            outstanding: IndexMap::new(alloc),
        }
    }

    /// The same session with other information.
    pub(crate) fn with_info(mut self, info: Word) -> LiveSession
        ensures { result ≡ record self { info = info } }
    {
        self.info = info;
        self
    }

    pub(crate) fn info(&self) -> &Word
        ensures { result.now ≡ self.now.info }
    {
        &self.info
    }

    pub(crate) fn kinds(&self) -> Kinds
        ensures { result ≡ self.now.kinds }
    {
        self.kinds
    }

    pub(crate) fn set_kinds(&mut self, kinds: Kinds)
        ensures { self.new ≡ record self.old { kinds = kinds } }
    {
        self.kinds = kinds;
    }

    /// The messages that are undelivered.
    pub(crate) fn queue(&self) -> &[Message]
        ensures queue { result.now ≡ self.now.queue }
        ensures each { All IsMessage result.now }
    {
        self.queue.as_slice()
    }

    /// How many messages are undelivered or outstanding.
    pub(crate) fn message_count(&self) -> u64
        ensures { result ≡ length self.now.queue + length self.now.outstanding }
    {
        self.queue.len() as u64 + self.outstanding.len() as u64
    }

    /// How many messages without a token are undelivered.
    pub(crate) fn waiting(&self) -> u64
        ensures { result ≡ count_by (has_token no_token) self.now.queue }
    {
        self.waiting
    }

    /// A message more at the end of the queue.
    pub(crate) fn push(&mut self, message: Message) -> Result<(), AllocError>
        requires { IsQueued message }
        ensures after { OnOk result (self.new ≡ queued (message ∷ []) self.old) }
        ensures err { OnErr result (self.new ≡ self.old) }
    {
        let waits = message.token.0 == 0;
        self.queue.push(message)?;
        self.waiting += u64::from(waits);
        Ok(())
    }

    /// The messages of accesses of these kinds join the queue.
    pub(crate) fn join(
        &mut self,
        messages: &mut VecDeque<Message>,
        kinds: Kinds,
    ) -> Result<(), AllocError>
        requires { All IsEvent messages.old.items }
        ensures after { OnOk result (self.new ≡ queued (filter (λ m. takes kinds m.kind) messages.old.items) self.old) }
        ensures left { OnOk result (messages.new.items ≡ filter (λ m. not (takes kinds m.kind)) messages.old.items) }
        ensures err { OnErr result (self.new ≡ self.old) }
        ensures unmoved { OnErr result (messages.new.items ≡ messages.old.items) }
    {
        self.queue.join(messages, kinds)
    }

    /// The first `count` messages leave the queue. Those with a token are outstanding then.
    pub(crate) fn deliver(&mut self, count: usize) -> Result<(), AllocError>
        requires within { count ≤ length self.old.queue }
        requires once { (u : Token) → 0 < u.0 → places_in u self.old ≤ 1 }
        ensures after { OnOk result (self.new ≡ hands_out count self.old) }
        ensures users { OnOk result (users_of self.new ≡ users_of self.old) }
        ensures err { OnErr result (self.new ≡ self.old) }
    {
        let over = count_without_token(self.queue.as_slice(), count);
        self.outstanding.reserve(count - over)?;
        hand_out(&mut self.queue, &mut self.outstanding, count);
        self.waiting -= over as u64;
        Ok(())
    }

    /// A message more that is outstanding, under a token that no other has.
    pub(crate) fn put(&mut self, message: Message) -> Result<(), AllocError>
        requires message { IsMessage message }
        requires token { 0 < message.token.0 }
        requires absent { count_by (has_token message.token) self.old.outstanding ≡ 0 }
        ensures after { OnOk result (self.new ≡ record self.old { outstanding = put_message self.old.outstanding message }) }
        ensures err { OnErr result (self.new ≡ self.old) }
    {
        self.outstanding.insert(message.token, message)?;
        Ok(())
    }

    /// The message of an outstanding token.
    pub(crate) fn message(&self, token: Token) -> Option<&Message>
        ensures found { option_copied result ≡ message_in token self.now.outstanding }
        ensures token { IfSome result (λ _. 0 < token.0) }
        ensures message { IfSome result (λ m. IsMessage m.now) }
    {
        self.outstanding.get(&token)
    }

    /// Whether the token is outstanding to the session.
    pub(crate) fn holds(&self, token: Token) -> bool
        ensures held { result ≡ holds token self.now }
        ensures token { result ≡ true → 0 < token.0 }
    {
        self.outstanding.contains_key(&token)
    }

    /// Takes the message of a token out of the outstanding ones.
    pub(crate) fn take_out(&mut self, token: Token) -> Option<Message>
        ensures found { result ≡ message_in token self.old.outstanding }
        ensures apart { count_by (has_token token) self.old.outstanding ≤ 1 }
        ensures after { self.new ≡ record self.old { outstanding = without_token token self.old.outstanding } }
    {
        self.outstanding.swap_remove(&token)
    }

    /// The outstanding tokens in their order.
    pub(crate) fn tokens(&self, alloc: Global) -> Result<Tokens, AllocError>
        ensures tokens { IfOk result (λ tokens. tokens ≡ tokens_of self.now.outstanding) }
        ensures ascending { IfOk result (λ tokens. IsStrictlyIncreasing (map (λ token. token.0) tokens)) }
    {
        let mut tokens: Vec<Token> = self.outstanding.keys().copied().collect(alloc)?;
        tokens.sort_unstable_by_key(|token| token.0);
        Ok(Tokens::from(tokens))
    }
}
