//! Laws on buffers of messages, each the contract of a function that does nothing. A caller gets the law by a call.
ghost use Rattle.std.specs.Prelude.{◌≡◌, ◌≢◌, ℕ, List, [], ◌∷◌, ◌++◌, All};
ghost use Rattle.hsm_types.specs.declared.messages.Message.{Message};
ghost use Rattle.event_msgs.specs.Buffers.{IsInGrammar, IsPacked, IsBadAt};
ghost use Rattle.event_msgs.specs.Laws.{ReadsBack, StandsInBuffer};

/// What is packed is read back.
pub fn reads_back()
    ensures { (messages : List Message) → messages ≢ [] → All IsInGrammar messages → ReadsBack messages }
{}

/// No buffer is that of two lists of messages.
pub fn one_reading()
    ensures { (buf : List ℕ) (a b : List Message) → IsPacked buf a → IsPacked buf b → a ≡ b }
{}

/// A buffer that leaves the grammar is that of no messages.
pub fn packed_or_bad()
    ensures { (buf : List ℕ) (messages : List Message) (place : ℕ) → IsPacked buf messages → IsBadAt place buf → ⊥ }
{}

/// A buffer leaves the grammar at no more than one place.
pub fn one_place()
    ensures { (buf : List ℕ) (a b : ℕ) → IsBadAt a buf → IsBadAt b buf → a ≡ b }
{}

/// Handles and what messages say stand in the buffer, at their places.
pub fn parts_stand()
    ensures { (before : List Message) (m : Message) (after : List Message) → All IsInGrammar (before ++ m ∷ after) → StandsInBuffer before m after }
{}
