//! The text of answers.
ghost use Rattle.std.specs.Prelude.{◌≡◌, ◌++◌, OnOk, ◌∷◌, [], codes, map, length};
ghost use Rattle.std.specs.Fmt.{decimal};
ghost use Rattle.std.specs.List.{flat_map};
ghost use Rattle.event_text.specs.Render.{spaced, listed, name_word, right_word, print_words, segment_letter, segments_word, refusal_words};
ghost use Rattle.event_text.specs.Render.{reply_words, dm_refusal_words, dm_reply_words, answer_words};

use crate::pieces::{
    push, push_fault, push_field, push_handle, push_key, push_kinds, push_name, push_named,
    push_numbered, push_print, push_regions, right_text,
};
use crate::transcript::push_data;
use hsm_types::{
    AttrName, Bytes, CallRefusal, DmRefusal, DmReply, Fingerprint, Names, Reply, Right, Segment,
    Sid, Sids, Table, Token, Tokens,
};
use plain_model::Answer;
use std::alloc::{AllocError, Global};

pub(crate) fn push_answer(
    alloc: Global,
    out: &mut Vec<u8>,
    answer: &Answer,
) -> Result<(), AllocError>
    ensures { OnOk result (out.new.items ≡ out.old.items ++ spaced (answer_words answer.now)) }
{
    match answer {
        Answer::Call(reply) => push_reply(alloc, out, reply),
        Answer::Dm(reply) => push_dm_reply(alloc, out, reply),
    }
}

fn push_reply(alloc: Global, out: &mut Vec<u8>, reply: &Reply) -> Result<(), AllocError>
    ensures { OnOk result (out.new.items ≡ out.old.items ++ spaced (reply_words reply.now)) }
{
    match reply {
        Reply::Done => push(out, b"done"),
        Reply::Made(key) => {
            push(out, b"made ")?;
            push_key(alloc, out, *key)
        }
        Reply::Data(bytes) => push_data(alloc, out, bytes.as_slice()),
        Reply::Size(size) => push_numbered(alloc, out, b"size", *size),
        Reply::Parked { token } => push_numbered(alloc, out, b"parked", token.0),
        Reply::Blocked { token } => push_numbered(alloc, out, b"blocked", token.0),
        Reply::Still { token } => push_numbered(alloc, out, b"still", token.0),
        Reply::Refused(why) => {
            push(out, b"refused ")?;
            push_refusal(alloc, out, *why)
        }
    }
}

fn push_refusal(alloc: Global, out: &mut Vec<u8>, why: CallRefusal) -> Result<(), AllocError>
    ensures { OnOk result (out.new.items ≡ out.old.items ++ spaced (refusal_words why)) }
{
    match why {
        CallRefusal::Missing => push(out, b"Missing"),
        CallRefusal::Exists => push(out, b"Exists"),
        CallRefusal::BadName => push(out, b"BadName"),
        CallRefusal::TooBig { end } => push_numbered(alloc, out, b"TooBig", end),
        CallRefusal::BadLength { len } => push_numbered(alloc, out, b"BadLength", len),
        CallRefusal::NoInodes { count } => push_numbered(alloc, out, b"NoInodes", count),
        CallRefusal::NoSpace { need, free } => {
            push_numbered(alloc, out, b"NoSpace", need)?;
            push_field(alloc, out, free)
        }
        CallRefusal::Aborted { errno } => {
            push_numbered(alloc, out, b"Aborted", u64::from(errno))
        }
        CallRefusal::Media { cause } => {
            push(out, b"Media ")?;
            push_fault(alloc, out, cause.fault())
        }
        CallRefusal::Disk => push(out, b"Disk"),
        CallRefusal::Memory => push(out, b"Memory"),
        CallRefusal::Waiting => push(out, b"Waiting"),
        CallRefusal::Idle => push(out, b"Idle"),
    }
}

fn push_dm_reply(alloc: Global, out: &mut Vec<u8>, reply: &DmReply) -> Result<(), AllocError>
    ensures { OnOk result (out.new.items ≡ out.old.items ++ spaced (dm_reply_words reply.now)) }
{
    match reply {
        DmReply::Done => push(out, b"done"),
        DmReply::Session(sid) => push_numbered(alloc, out, b"session", sid.0),
        DmReply::Sids(sids) => push_sessions(alloc, out, sids),
        DmReply::Info(info) => push_named(out, b"info ", info),
        DmReply::Kinds(kinds) => {
            push(out, b"disp ")?;
            push_kinds(out, *kinds)
        }
        DmReply::Packed { bytes, tokens } => push_packed(alloc, out, bytes, tokens),
        DmReply::Tokens(tokens) => push_told_tokens(alloc, out, tokens),
        DmReply::Token(token) => push_numbered(alloc, out, b"token", token.0),
        DmReply::Right(right) => push_right(out, *right),
        DmReply::Attr {
            size,
            stamp,
            blocks,
        } => push_attr(alloc, out, *size, *stamp, *blocks),
        DmReply::Data(bytes) => push_data(alloc, out, bytes.as_slice()),
        DmReply::Range { offset, len } => push_range(alloc, out, *offset, *len),
        DmReply::Alloc(segments) => push_segments(out, segments.as_slice()),
        DmReply::Regions(regions) => {
            push(out, b"regions ")?;
            push_regions(alloc, out, regions)
        }
        DmReply::Names(names) => push_attributes(alloc, out, names),
        DmReply::Handle(handle) => {
            push(out, b"handle ")?;
            push_handle(alloc, out, *handle)
        }
        DmReply::Space { used, total } => push_space(alloc, out, *used, *total),
        DmReply::Table(table) => push_table(alloc, out, table),
        DmReply::Refused(why) => {
            push(out, b"refused ")?;
            push_dm_refusal(alloc, out, *why)
        }
    }
}

fn push_range(alloc: Global, out: &mut Vec<u8>, offset: u64, len: u64) -> Result<(), AllocError>
    ensures { OnOk result (out.new.items ≡ out.old.items ++ spaced (codes "range" ∷ decimal offset ∷ decimal len ∷ [])) }
{
    push_numbered(alloc, out, b"range", offset)?;
    push_field(alloc, out, len)
}

/// The letters of a file's segments, `-` for none.
fn push_segments(out: &mut Vec<u8>, segments: &[Segment]) -> Result<(), AllocError>
    ensures { OnOk result (out.new.items ≡ out.old.items ++ spaced (codes "alloc" ∷ segments_word segments.now ∷ [])) }
{
    push(out, b"alloc ")?;
    if segments.is_empty() {
        return push(out, b"-");
    }
    push_letters(out, segments)
}

fn push_letters(out: &mut Vec<u8>, segments: &[Segment]) -> Result<(), AllocError>
    ensures { OnOk result (out.new.items ≡ out.old.items ++ map segment_letter segments.now) }
{
    for segment in segments {
        out.push(segment_letter(*segment))?;
    }
    Ok(())
}

fn segment_letter(segment: Segment) -> u8
    ensures { result ≡ segment_letter segment }
{
    match segment {
        Segment::Resident { .. } => b'r',
        Segment::Sealed { .. } => b's',
        Segment::Offline { .. } => b'o',
    }
}

/// How many blocks are mapped, how many there are, and how many files.
fn push_table(alloc: Global, out: &mut Vec<u8>, table: &Table) -> Result<(), AllocError>
    ensures { OnOk result (out.new.items ≡ out.old.items ++ spaced (codes "table" ∷ decimal table.now.used ∷ decimal table.now.total ∷ decimal (length table.now.files) ∷ [])) }
{
    push_numbered(alloc, out, b"table", table.used)?;
    push_field(alloc, out, table.total)?;
    push_field(alloc, out, table.files.as_slice().len() as u64)
}

/// The tokens that are outstanding to a session.
fn push_told_tokens(alloc: Global, out: &mut Vec<u8>, tokens: &Tokens) -> Result<(), AllocError>
    ensures { OnOk result (out.new.items ≡ out.old.items ++ spaced (codes "tokens" ∷ listed (map (λ token. decimal token.0) tokens.now))) }
{
    push(out, b"tokens")?;
    push_tokens(alloc, out, tokens)
}

/// The live sessions.
fn push_sessions(alloc: Global, out: &mut Vec<u8>, sids: &Sids) -> Result<(), AllocError>
    ensures { OnOk result (out.new.items ≡ out.old.items ++ spaced (codes "sessions" ∷ listed (map (λ sid. decimal sid.0) sids.now))) }
{
    push(out, b"sessions")?;
    push_sids(alloc, out, sids)
}

/// The names of a file's attributes.
fn push_attributes(alloc: Global, out: &mut Vec<u8>, names: &Names) -> Result<(), AllocError>
    ensures { OnOk result (out.new.items ≡ out.old.items ++ spaced (codes "attrs" ∷ listed (map name_word names.now))) }
{
    push(out, b"attrs")?;
    push_names(alloc, out, names)
}

/// What a token has on a file.
fn push_right(out: &mut Vec<u8>, right: Right) -> Result<(), AllocError>
    ensures { OnOk result (out.new.items ≡ out.old.items ++ spaced (codes "right" ∷ right_word right ∷ [])) }
{
    push(out, b"right ")?;
    push(out, right_text(right))
}

/// The attributes of a file that the store itself keeps.
fn push_attr(
    alloc: Global,
    out: &mut Vec<u8>,
    size: u64,
    stamp: u64,
    blocks: u64,
) -> Result<(), AllocError>
    ensures { OnOk result (out.new.items ≡ out.old.items ++ spaced (codes "attr" ∷ decimal size ∷ decimal stamp ∷ decimal blocks ∷ [])) }
{
    push_numbered(alloc, out, b"attr", size)?;
    push_field(alloc, out, stamp)?;
    push_field(alloc, out, blocks)
}

/// How many blocks are mapped, and how many there are.
fn push_space(alloc: Global, out: &mut Vec<u8>, used: u64, total: u64) -> Result<(), AllocError>
    ensures { OnOk result (out.new.items ≡ out.old.items ++ spaced (codes "space" ∷ decimal used ∷ decimal total ∷ [])) }
{
    push_numbered(alloc, out, b"space", used)?;
    push_field(alloc, out, total)
}

/// A space and the ids with a space between each two, `-` for none.
#[tactic(auto, using(crate::proofs::Listing::ids_spaced))]
fn push_sids(alloc: Global, out: &mut Vec<u8>, sids: &Sids) -> Result<(), AllocError>
    ensures { OnOk result (out.new.items ≡ out.old.items ++ 32 ∷ spaced (listed (map (λ sid. decimal sid.0) sids.now))) }
{
    if sids.as_slice().is_empty() {
        return push(out, b" -");
    }
    push_ids(alloc, out, sids.as_slice())
}

/// Each id with a space in front.
fn push_ids(alloc: Global, out: &mut Vec<u8>, sids: &[Sid]) -> Result<(), AllocError>
    ensures { OnOk result (out.new.items ≡ out.old.items ++ flat_map (λ sid. 32 ∷ decimal sid.0) sids.now) }
{
    for sid in sids {
        push_field(alloc, out, sid.0)?;
    }
    Ok(())
}

/// The bytes of a buffer, and the tokens of its messages.
fn push_packed(
    alloc: Global,
    out: &mut Vec<u8>,
    bytes: &Bytes,
    tokens: &Tokens,
) -> Result<(), AllocError>
    ensures { OnOk result (out.new.items ≡ out.old.items ++ spaced (codes "packed" ∷ decimal (length bytes.now) ∷ listed (map (λ token. decimal token.0) tokens.now))) }
{
    push_numbered(alloc, out, b"packed", bytes.as_slice().len() as u64)?;
    push_tokens(alloc, out, tokens)
}

/// A space and the tokens with a space between each two, `-` for none.
#[tactic(auto, using(crate::proofs::Listing::tokens_spaced))]
fn push_tokens(alloc: Global, out: &mut Vec<u8>, tokens: &Tokens) -> Result<(), AllocError>
    ensures { OnOk result (out.new.items ≡ out.old.items ++ 32 ∷ spaced (listed (map (λ token. decimal token.0) tokens.now))) }
{
    if tokens.as_slice().is_empty() {
        return push(out, b" -");
    }
    push_each_token(alloc, out, tokens.as_slice())
}

/// Each token with a space in front.
fn push_each_token(alloc: Global, out: &mut Vec<u8>, tokens: &[Token]) -> Result<(), AllocError>
    ensures { OnOk result (out.new.items ≡ out.old.items ++ flat_map (λ token. 32 ∷ decimal token.0) tokens.now) }
{
    for token in tokens {
        push_field(alloc, out, token.0)?;
    }
    Ok(())
}

/// A space and the names with a space between each two, `-` for none.
#[tactic(auto, using(crate::proofs::Listing::names_spaced))]
fn push_names(alloc: Global, out: &mut Vec<u8>, names: &Names) -> Result<(), AllocError>
    ensures { OnOk result (out.new.items ≡ out.old.items ++ 32 ∷ spaced (listed (map name_word names.now))) }
{
    if names.as_slice().is_empty() {
        return push(out, b" -");
    }
    push_each_name(alloc, out, names.as_slice())
}

/// Each name with a space in front.
fn push_each_name(alloc: Global, out: &mut Vec<u8>, names: &[AttrName]) -> Result<(), AllocError>
    ensures { OnOk result (out.new.items ≡ out.old.items ++ flat_map (λ name. 32 ∷ name_word name) names.now) }
{
    for name in names {
        push(out, b" ")?;
        push_name(alloc, out, *name)?;
    }
    Ok(())
}

/// A word and the number of a segment.
fn push_segment(
    alloc: Global,
    out: &mut Vec<u8>,
    word: &[u8],
    segment: u32,
) -> Result<(), AllocError>
    ensures { OnOk result (out.new.items ≡ out.old.items ++ spaced (word.now ∷ decimal segment ∷ [])) }
{
    push_numbered(alloc, out, word, u64::from(segment))
}

/// The fingerprint that bytes should have, and the one that they have.
fn push_changed(
    alloc: Global,
    out: &mut Vec<u8>,
    want: Fingerprint,
    got: Fingerprint,
) -> Result<(), AllocError>
    ensures { OnOk result (out.new.items ≡ out.old.items ++ spaced (codes "Changed" ∷ print_words want ++ print_words got)) }
{
    push(out, b"Changed")?;
    push_print(alloc, out, want)?;
    push_print(alloc, out, got)
}

fn push_dm_refusal(alloc: Global, out: &mut Vec<u8>, why: DmRefusal) -> Result<(), AllocError>
    ensures { OnOk result (out.new.items ≡ out.old.items ++ spaced (dm_refusal_words why)) }
{
    match why {
        DmRefusal::NoSession => push(out, b"NoSession"),
        DmRefusal::NoToken => push(out, b"NoToken"),
        DmRefusal::NotYours { owner } => push_numbered(alloc, out, b"NotYours", owner.0),
        DmRefusal::NoObject => push(out, b"NoObject"),
        DmRefusal::NeedRight { have } => {
            push(out, b"NeedRight ")?;
            push(out, right_text(have))
        }
        DmRefusal::Busy { token } => push_numbered(alloc, out, b"Busy", token.0),
        DmRefusal::EventsLeft { count } => push_numbered(alloc, out, b"EventsLeft", count),
        DmRefusal::Again => push(out, b"Again"),
        DmRefusal::TooSmall { need } => push_numbered(alloc, out, b"TooSmall", need),
        DmRefusal::BadRegion { index } => {
            push_numbered(alloc, out, b"BadRegion", u64::from(index))
        }
        DmRefusal::NoAttr => push(out, b"NoAttr"),
        DmRefusal::Reserved => push(out, b"Reserved"),
        DmRefusal::AttrTooBig { len } => push_numbered(alloc, out, b"AttrTooBig", len),
        DmRefusal::Offline { segment } => push_segment(alloc, out, b"Offline", segment),
        DmRefusal::NotSealed { segment } => push_segment(alloc, out, b"NotSealed", segment),
        DmRefusal::NotOffline { segment } => push_segment(alloc, out, b"NotOffline", segment),
        DmRefusal::Changed { want, got } => push_changed(alloc, out, want, got),
        DmRefusal::Uncovered { segment } => push_segment(alloc, out, b"Uncovered", segment),
        DmRefusal::BadRange => push(out, b"BadRange"),
        DmRefusal::BadResponse => push(out, b"BadResponse"),
        DmRefusal::NoSpace { need, free } => {
            push_numbered(alloc, out, b"NoSpace", need)?;
            push_field(alloc, out, free)
        }
        DmRefusal::TooMany { count } => push_numbered(alloc, out, b"TooMany", count),
        DmRefusal::Disk => push(out, b"Disk"),
        DmRefusal::Memory => push(out, b"Memory"),
    }
}
