//! The parts of which calls are made.
ghost use Rattle.std.specs.Prelude.{◌≡◌, drop, OnOk, [], ◌∷◌};
ghost use Rattle.call_forms.specs.Parts.{number_in, count_in, fetch_in, word_in, handle_in, regions_in, name_in, kinds_in, response_in, right_in};
ghost use Rattle.call_forms.specs.Parts.{digest_in, entry_in, data_in, verified_in};

use hsm_types::{
    AttrName, Bytes, Digest, FileKey, Fingerprint, Handle, Kinds, Place, Regions, Response, Right,
    StubEntry, Verified, Word,
};
use std::alloc::{AllocError, Global};
use std::collections::VecDeque;
use std::marker::Model;

/// What stands in one place of a call.
#[derive(Drop)]
pub enum Part {
    Number(u64),
    /// A number of 32 bits.
    Count(u32),
    /// How many bytes are to be read.
    Fetch(u64),
    Word(Word),
    Handle(Handle),
    Regions(Regions),
    Name(AttrName),
    Kinds(Kinds),
    Response(Response),
    Right(Right),
    Digest(Digest),
    Data(Bytes),
    /// Data with their fingerprint.
    Verified(Verified),
}

/// The same, lent by a call.
#[derive(Clone, Copy)]
pub enum PartRef<'a> {
    Number(u64),
    Count(u32),
    Fetch(u64),
    Word(&'a Word),
    Handle(Handle),
    Regions(&'a Regions),
    Name(AttrName),
    Kinds(Kinds),
    Response(&'a Response),
    Right(Right),
    Digest(Digest),
    Data(&'a Bytes),
    Verified(&'a Verified),
}

/// What may stand in one place.
#[derive(Clone, Copy, PartialEq, Eq)]
pub enum PartKind {
    Number,
    Count,
    Fetch,
    Word,
    Handle,
    Regions,
    Name,
    Kinds,
    Response,
    Right,
    Digest,
    Data,
    Verified,
}

/// The parts of a call, to be taken one by one from the front. What isn't there, or is of another kind, is taken as 0, or as nothing. Contracts see
/// them as a list.
#[derive(Drop)]
pub struct Parts {
    items: VecDeque<Part>,
}

impl Model for Parts {
    ghost use Rattle.std.specs.Prelude.{List};
    ghost use Rattle.call_forms.specs.declared.parts.Part.{Part};

    ghost Value = { List Part };

    ghost view = { λ p. p.items.items };
}

impl Parts {
    pub fn new(alloc: Global) -> Parts
        ensures { result ≡ [] }
    {
        Parts {
            items: VecDeque::new(alloc),
        }
    }

    /// Puts a part in front.
    pub fn push_front(&mut self, part: Part) -> Result<(), AllocError>
        ensures { OnOk result (self.new ≡ part ∷ self.old) }
    {
        self.items.push_front(part)?;
        Ok(())
    }

    pub fn number(&mut self) -> u64
        ensures value { result ≡ number_in self.old }
        ensures rest { self.new ≡ drop 1 self.old }
    {
        match self.items.pop_front() {
            Some(Part::Number(n)) => n,
            _ => 0,
        }
    }

    pub fn count(&mut self) -> u32
        ensures value { result ≡ count_in self.old }
        ensures rest { self.new ≡ drop 1 self.old }
    {
        match self.items.pop_front() {
            Some(Part::Count(n)) => n,
            _ => 0,
        }
    }

    pub fn fetch(&mut self) -> u64
        ensures value { result ≡ fetch_in self.old }
        ensures rest { self.new ≡ drop 1 self.old }
    {
        match self.items.pop_front() {
            Some(Part::Fetch(len)) => len,
            _ => 0,
        }
    }

    pub fn word(&mut self) -> Word
        ensures value { result ≡ word_in self.old }
        ensures rest { self.new ≡ drop 1 self.old }
    {
        match self.items.pop_front() {
            Some(Part::Word(word)) => word,
            _ => Word::from(Vec::new(*self.items.allocator())),
        }
    }

    pub fn handle(&mut self) -> Handle
        ensures value { result ≡ handle_in self.old }
        ensures rest { self.new ≡ drop 1 self.old }
    {
        match self.items.pop_front() {
            Some(Part::Handle(handle)) => handle,
            _ => Handle {
                fsid: 0,
                key: FileKey { ino: 0, igen: 0 },
            },
        }
    }

    pub fn regions(&mut self) -> Regions
        ensures value { result ≡ regions_in self.old }
        ensures rest { self.new ≡ drop 1 self.old }
    {
        match self.items.pop_front() {
            Some(Part::Regions(regions)) => regions,
            _ => Regions::from(Vec::new(*self.items.allocator())),
        }
    }

    pub fn name(&mut self) -> AttrName
        ensures value { result ≡ name_in self.old }
        ensures rest { self.new ≡ drop 1 self.old }
    {
        match self.items.pop_front() {
            Some(Part::Name(name)) => name,
            _ => AttrName([0; 8]),
        }
    }

    pub fn kinds(&mut self) -> Kinds
        ensures value { result ≡ kinds_in self.old }
        ensures rest { self.new ≡ drop 1 self.old }
    {
        match self.items.pop_front() {
            Some(Part::Kinds(kinds)) => kinds,
            _ => Kinds::none(),
        }
    }

    pub fn response(&mut self) -> Response
        ensures value { result ≡ response_in self.old }
        ensures rest { self.new ≡ drop 1 self.old }
    {
        match &self.items.pop_front() {
            Some(Part::Response(response)) => *response,
            _ => Response::Continue,
        }
    }

    pub fn right(&mut self) -> Right
        ensures value { result ≡ right_in self.old }
        ensures rest { self.new ≡ drop 1 self.old }
    {
        match self.items.pop_front() {
            Some(Part::Right(right)) => right,
            _ => Right::Null,
        }
    }

    pub fn digest(&mut self) -> Digest
        ensures value { result ≡ digest_in self.old }
        ensures rest { self.new ≡ drop 1 self.old }
    {
        match self.items.pop_front() {
            Some(Part::Digest(digest)) => digest,
            _ => Digest([0; 32]),
        }
    }

    /// A stub entry, of four parts.
    pub fn entry(&mut self) -> StubEntry
        ensures value { result ≡ entry_in self.old }
        ensures rest { self.new ≡ drop 1 (drop 1 (drop 1 (drop 1 self.old))) }
    {
        let volume = self.count();
        let object = self.count();
        let len = self.count();
        let digest = self.digest();
        StubEntry::new(Place { volume, object }, Fingerprint { len, digest })
    }

    pub fn verified(&mut self) -> Verified
        ensures value { result ≡ verified_in self.old }
        ensures rest { self.new ≡ drop 1 self.old }
    {
        match self.items.pop_front() {
            Some(Part::Verified(verified)) => verified,
            _ => Verified::of(Bytes::from(Vec::new(*self.items.allocator()))),
        }
    }

    pub fn data(&mut self) -> Bytes
        ensures value { result ≡ data_in self.old }
        ensures rest { self.new ≡ drop 1 self.old }
    {
        match self.items.pop_front() {
            Some(Part::Data(bytes)) => bytes,
            _ => Bytes::from(Vec::new(*self.items.allocator())),
        }
    }
}
