//! The text of what events ask.
ghost use Rattle.std.specs.Prelude.{◌≡◌, ◌∷◌, ◌++◌, OnOk, List, ℕ};
ghost use Rattle.std.specs.List.{flat_map};
ghost use Rattle.call_forms.specs.Parts.{part_of, parts_in};
ghost use Rattle.event_text.specs.Render.{spaced, part_word, form_words, actor_word, action_words, event_text};

use crate::pieces::{
    push, push_handle, push_hex, push_kinds, push_name, push_number, push_regions, push_response,
    right_text,
};
use call_forms::{PartRef, call_parts, call_verb, dm_parts, dm_verb};
use hsm_types::Verified;
use plain_model::{Action, Actor};
use std::alloc::{AllocError, Global};

/// How the data of an event are written.
pub trait Spelling {
    /// The word for data.
    ghost word: { Self → List ℕ → List ℕ };

    /// Writes data behind what there is.
    fn push_data(&self, alloc: Global, out: &mut Vec<u8>, bytes: &[u8]) -> Result<(), AllocError>
        ensures { OnOk result (out.new.items ≡ out.old.items ++ word self.now bytes.now) };

    /// Writes data that have their fingerprint with them, by which they needn't be read for their digest.
    fn push_verified(
        &self,
        alloc: Global,
        out: &mut Vec<u8>,
        bytes: &Verified,
    ) -> Result<(), AllocError>
        ensures { OnOk result (out.new.items ≡ out.old.items ++ word self.now bytes.now) };
}

/// Writes an event behind what there is, as scripts and transcripts have it: its actor and its action, with a space between each two words.
pub fn push_event<S: Spelling>(
    alloc: Global,
    out: &mut Vec<u8>,
    actor: &Actor,
    action: &Action,
    spelling: &S,
) -> Result<(), AllocError>
    ensures { OnOk result (out.new.items ≡ out.old.items ++ event_text (S.word spelling.now) actor.now action.now) }
{
    push_actor(alloc, out, actor)?;
    push(out, b" ")?;
    push_action(alloc, out, action, spelling)
}

fn push_actor(alloc: Global, out: &mut Vec<u8>, actor: &Actor) -> Result<(), AllocError>
    ensures { OnOk result (out.new.items ≡ out.old.items ++ actor_word actor.now) }
{
    match actor {
        Actor::Caller(caller) => {
            push(out, b"c")?;
            push_number(alloc, out, u64::from(caller.number()))
        }
        Actor::Session(sid) => {
            push(out, b"s")?;
            push_number(alloc, out, sid.0)
        }
        Actor::Store => push(out, b"store"),
    }
}

fn push_action<S: Spelling>(
    alloc: Global,
    out: &mut Vec<u8>,
    action: &Action,
    spelling: &S,
) -> Result<(), AllocError>
    ensures { OnOk result (out.new.items ≡ out.old.items ++ spaced (action_words (S.word spelling.now) action.now)) }
{
    match action {
        Action::Issue(call) => {
            push_form(
                alloc,
                out,
                call_verb(call).text(),
                &call_parts(call),
                spelling,
            )
        }
        Action::Dm(call) => push_form(alloc, out, dm_verb(call).text(), &dm_parts(call), spelling),
        Action::Resume => push(out, b"resume"),
        Action::Commit => push(out, b"commit"),
    }
}

/// A verb, and the parts behind it.
fn push_form<S: Spelling>(
    alloc: Global,
    out: &mut Vec<u8>,
    verb: &[u8],
    parts: &[Option<PartRef>],
    spelling: &S,
) -> Result<(), AllocError>
    ensures { OnOk result (out.new.items ≡ out.old.items ++ spaced (form_words (S.word spelling.now) verb.now (parts_in parts.now))) }
{
    push(out, verb)?;
    push_parts(alloc, out, parts, spelling)
}

/// Each part with a space in front.
fn push_parts<S: Spelling>(
    alloc: Global,
    out: &mut Vec<u8>,
    parts: &[Option<PartRef>],
    spelling: &S,
) -> Result<(), AllocError>
    ensures { OnOk result (out.new.items ≡ out.old.items ++ flat_map (λ part. 32 ∷ part_word (S.word spelling.now) part) (parts_in parts.now)) }
{
    for part in parts {
        if let Some(part) = part {
            push(out, b" ")?;
            push_part(alloc, out, *part, spelling)?;
        }
    }
    Ok(())
}

fn push_part<S: Spelling>(
    alloc: Global,
    out: &mut Vec<u8>,
    part: PartRef,
    spelling: &S,
) -> Result<(), AllocError>
    ensures { OnOk result (out.new.items ≡ out.old.items ++ part_word (S.word spelling.now) (part_of part.entry)) }
{
    match part {
        PartRef::Number(n) | PartRef::Fetch(n) => push_number(alloc, out, n),
        PartRef::Count(n) => push_number(alloc, out, u64::from(n)),
        PartRef::Word(word) => push(out, word.as_slice()),
        PartRef::Handle(handle) => push_handle(alloc, out, handle),
        PartRef::Regions(regions) => push_regions(alloc, out, regions),
        PartRef::Name(name) => push_name(alloc, out, name),
        PartRef::Kinds(kinds) => push_kinds(out, kinds),
        PartRef::Response(response) => push_response(alloc, out, *response),
        PartRef::Right(right) => push(out, right_text(right)),
        PartRef::Digest(digest) => push_hex(alloc, out, &digest.0),
        PartRef::Data(bytes) => spelling.push_data(alloc, out, bytes.as_slice()),
        PartRef::Verified(bytes) => spelling.push_verified(alloc, out, bytes),
    }
}
