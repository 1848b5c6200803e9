//! Tokens as they are given.
ghost use Rattle.std.specs.Prelude.{◌≡◌, ◌+◌, ◌≤◌, IfOk, OnOk};
ghost use Rattle.hsm_types.specs.Limits.{most_tokens};

use hsm_types::{MOST_TOKENS, Token};
use std::alloc::AllocError;

/// The token that is given next, as long as there are any.
pub(crate) fn next_token(given: u64) -> Result<Token, AllocError>
    ensures next { IfOk result (λ t. t ≡ record { 0 = given + 1 }) }
    ensures few { OnOk result (given + 1 ≤ most_tokens) }
{
    if given >= MOST_TOKENS {
        return Err(AllocError);
    }
    Ok(Token(given + 1))
}
