//! The forms of calls: the verb, and the parts behind it.
ghost use Rattle.std.specs.Prelude.{◌≡◌, ◌≢◌, MatchOption};
ghost use Rattle.call_forms.specs.Parts.{parts_in, access_of};
ghost use Rattle.call_forms.specs.Forms.{verb_text, verb_kinds, call_form, call_of, dm_verb_text, dm_verb_kinds, dm_form, dm_call_of};

use crate::parts::{PartKind, PartRef, Parts};
use hsm_types::{ACCESS_BYTES, Call, DmCall, Sid, Token};

/// The most parts of a call.
pub const CALL_PARTS: usize = 7;

/// The forms of callers' calls, each a row: the call, whose name its verb has too, the verb's text, and the fields with the part that each is.
macro_rules! caller_forms {
    ($arms:ident $args:tt) => {
        $arms! { $args Call CallVerb
            Create b"create" { name: Word }
            Read b"read" { name: Word, offset: Number, len: Fetch }
            Write b"write" { name: Word, offset: Number, body: Data }
            Truncate b"truncate" { name: Word, size: Number }
            Remove b"remove" { name: Word }
            Stat b"stat" { name: Word }
            Sync b"sync" {}
        }
    };
}

/// The forms of sessions' calls, likewise.
macro_rules! dm_forms {
    ($arms:ident $args:tt) => {
        $arms! { $args DmCall DmVerb
            CreateSession b"session" { old: Sid, info: Word }
            DestroySession b"destroy" {}
            GetAllSessions b"sessions" {}
            QuerySession b"query" { target: Sid }
            SetDisp b"setdisp" { kinds: Kinds }
            GetDisp b"disp" {}
            GetEvents b"getevents" { max: Count, room: Count }
            GetAllTokens b"tokens" {}
            FindEventMsg b"findmsg" { token: Token, room: Count }
            Respond b"respond" { token: Token, response: Response }
            CreateUserEvent b"userevent" { body: Data }
            SendMsg b"send" { target: Sid, body: Data }
            RequestRight b"request" { token: Token, handle: Handle, right: Right }
            ReleaseRight b"release" { token: Token, handle: Handle }
            QueryRight b"right" { token: Token, handle: Handle }
            UpgradeRight b"upgrade" { token: Token, handle: Handle }
            DowngradeRight b"downgrade" { token: Token, handle: Handle }
            GetFileAttr b"fileattr" { token: Token, handle: Handle }
            SetRegion b"setregion" { token: Token, handle: Handle, regions: Regions }
            GetRegion b"getregion" { token: Token, handle: Handle }
            SetDmAttr b"setattr" { token: Token, handle: Handle, name: Name, value: Data }
            GetDmAttr b"getattr" { token: Token, handle: Handle, name: Name }
            RemoveDmAttr b"rmattr" { token: Token, handle: Handle, name: Name }
            GetAllDmAttr b"attrs" { token: Token, handle: Handle }
            ReadInvis b"readinvis" { token: Token, handle: Handle, offset: Number, len: Fetch }
            WriteInvis b"writeinvis" { token: Token, handle: Handle, offset: Number, body: Data }
            PunchHole b"punch" { token: Token, handle: Handle, offset: Number, len: Number }
            ProbeHole b"probe" { token: Token, handle: Handle, offset: Number, len: Number }
            GetAllocInfo b"alloc" { token: Token, handle: Handle }
            Seal b"seal" { token: Token, handle: Handle, segment: Count, entry: Entry }
            Restore b"restore" { token: Token, handle: Handle, segment: Count, bytes: Verified }
            PathToHandle b"handle" { name: Word }
            GetSpace b"space" {}
            GetTable b"table" {}
        }
    };
}

/// What a caller's call begins with.
#[derive(Clone, Copy, PartialEq, Eq)]
pub enum CallVerb {
    Create,
    Read,
    Write,
    Truncate,
    Remove,
    Stat,
    Sync,
}

/// What a session's call begins with.
#[derive(Clone, Copy, PartialEq, Eq)]
pub enum DmVerb {
    CreateSession,
    DestroySession,
    GetAllSessions,
    QuerySession,
    SetDisp,
    GetDisp,
    GetEvents,
    GetAllTokens,
    FindEventMsg,
    Respond,
    CreateUserEvent,
    SendMsg,
    RequestRight,
    ReleaseRight,
    QueryRight,
    UpgradeRight,
    DowngradeRight,
    GetFileAttr,
    SetRegion,
    GetRegion,
    SetDmAttr,
    GetDmAttr,
    RemoveDmAttr,
    GetAllDmAttr,
    ReadInvis,
    WriteInvis,
    PunchHole,
    ProbeHole,
    GetAllocInfo,
    Seal,
    Restore,
    PathToHandle,
    GetSpace,
    GetTable,
}

macro_rules! all_verbs {
    (() $calls:ident $verbs:ident $($call:ident $text:literal { $($field:ident: $part:ident),* })*) => {
        [$($verbs::$call),*]
    };
}

macro_rules! text_of {
    (($of:expr) $calls:ident $verbs:ident $($call:ident $text:literal { $($field:ident: $part:ident),* })*) => {
        match $of { $($verbs::$call => $text,)* }
    };
}

/// The kinds of fields' parts: ids and tokens are spelled as numbers, and a stub entry as four parts.
macro_rules! kinds {
    ([$($kind:expr),*]) => { &[$($kind),*] };
    ([$($kind:expr),*] Sid $($rest:ident)*) => { kinds!([$($kind,)* PartKind::Number] $($rest)*) };
    ([$($kind:expr),*] Token $($rest:ident)*) => { kinds!([$($kind,)* PartKind::Number] $($rest)*) };
    ([$($kind:expr),*] Entry $($rest:ident)*) => {
        kinds!([$($kind,)* PartKind::Count, PartKind::Count, PartKind::Count, PartKind::Digest] $($rest)*)
    };
    ([$($kind:expr),*] $part:ident $($rest:ident)*) => { kinds!([$($kind,)* PartKind::$part] $($rest)*) };
}

macro_rules! kinds_of {
    (($of:expr) $calls:ident $verbs:ident $($call:ident $text:literal { $($field:ident: $part:ident),* })*) => {
        match $of { $($verbs::$call => kinds!([] $($part)*),)* }
    };
}

macro_rules! verb_of {
    (($of:expr) $calls:ident $verbs:ident $($call:ident $text:literal { $($field:ident: $part:ident),* })*) => {
        match $of { $($calls::$call { .. } => $verbs::$call,)* }
    };
}

/// How a field is bound: what can't be copied is lent, and so is a response, which is long.
macro_rules! bound {
    (Word $field:ident) => { ref $field };
    (Regions $field:ident) => { ref $field };
    (Response $field:ident) => { ref $field };
    (Data $field:ident) => { ref $field };
    (Verified $field:ident) => { ref $field };
    ($part:ident $field:ident) => { $field };
}

/// Bound fields as parts.
macro_rules! lent {
    ([$($lent:expr),*]) => { padded!($($lent),*) };
    ([$($lent:expr),*] Sid $field:ident $($rest:ident)*) => { lent!([$($lent,)* PartRef::Number($field.0)] $($rest)*) };
    ([$($lent:expr),*] Token $field:ident $($rest:ident)*) => { lent!([$($lent,)* PartRef::Number($field.0)] $($rest)*) };
    ([$($lent:expr),*] Entry $field:ident $($rest:ident)*) => {
        lent!([
            $($lent,)*
            PartRef::Count($field.place().volume), PartRef::Count($field.place().object), PartRef::Count($field.print().len), PartRef::Digest($field.print().digest)
        ] $($rest)*)
    };
    ([$($lent:expr),*] $part:ident $field:ident $($rest:ident)*) => { lent!([$($lent,)* PartRef::$part($field)] $($rest)*) };
}

/// As many parts as there may be, with none in the places that are left.
macro_rules! padded {
    () => { [None, None, None, None, None, None, None] };
    ($a:expr) => { [Some($a), None, None, None, None, None, None] };
    ($a:expr, $b:expr) => { [Some($a), Some($b), None, None, None, None, None] };
    ($a:expr, $b:expr, $c:expr) => { [Some($a), Some($b), Some($c), None, None, None, None] };
    ($a:expr, $b:expr, $c:expr, $d:expr) => { [Some($a), Some($b), Some($c), Some($d), None, None, None] };
    ($a:expr, $b:expr, $c:expr, $d:expr, $e:expr, $f:expr, $g:expr) => {
        [Some($a), Some($b), Some($c), Some($d), Some($e), Some($f), Some($g)]
    };
}

macro_rules! parts_of {
    (($of:expr) $calls:ident $verbs:ident $($call:ident $text:literal { $($field:ident: $part:ident),* })*) => {
        match *$of {
            $($calls::$call { $($field: bound!($part $field)),* } => lent!([] $($part $field)*),)*
        }
    };
}

/// A field, taken from the parts.
macro_rules! taken {
    (Sid $parts:ident) => { Sid($parts.number()) };
    (Token $parts:ident) => { Token($parts.number()) };
    (Number $parts:ident) => { $parts.number() };
    (Count $parts:ident) => { $parts.count() };
    (Fetch $parts:ident) => { $parts.fetch() };
    (Word $parts:ident) => { $parts.word() };
    (Handle $parts:ident) => { $parts.handle() };
    (Regions $parts:ident) => { $parts.regions() };
    (Name $parts:ident) => { $parts.name() };
    (Kinds $parts:ident) => { $parts.kinds() };
    (Response $parts:ident) => { $parts.response() };
    (Right $parts:ident) => { $parts.right() };
    (Entry $parts:ident) => { $parts.entry() };
    (Data $parts:ident) => { $parts.data() };
    (Verified $parts:ident) => { $parts.verified() };
}

macro_rules! all_taken {
    (($of:expr, $parts:ident) $calls:ident $verbs:ident $($call:ident $text:literal { $($field:ident: $part:ident),* })*) => {
        match $of {
            $($verbs::$call => $calls::$call { $($field: taken!($part $parts)),* },)*
        }
    };
}

/// The bytes that a field brings or may fetch.
macro_rules! access {
    (Fetch $field:ident) => { (*$field).min(ACCESS_BYTES) };
    (Data $field:ident) => { $field.as_slice().len() as u64 };
    (Verified $field:ident) => { $field.as_slice().len() as u64 };
    ($part:ident $field:ident) => { 0 };
}

macro_rules! access_of {
    (($of:expr) $calls:ident $verbs:ident $($call:ident $text:literal { $($field:ident: $part:ident),* })*) => {
        match $of { $($calls::$call { $($field),* } => 0 $(+ access!($part $field))*,)* }
    };
}

/// All of them: `find` finds each.
const CALL_VERBS: [CallVerb; 7] = caller_forms!(all_verbs());

/// All of them, likewise.
const DM_VERBS: [DmVerb; 34] = dm_forms!(all_verbs());

impl CallVerb {
    pub fn text(self) -> &'static [u8]
        ensures { result.now ≡ verb_text self }
    {
        caller_forms!(text_of(self))
    }

    /// The kinds of what stands behind the verb.
    pub fn kinds(self) -> &'static [PartKind]
        ensures { result.now ≡ verb_kinds self }
    {
        caller_forms!(kinds_of(self))
    }

    /// The verb that a word is.
    pub fn find(word: &[u8]) -> Option<CallVerb>
        ensures { MatchOption result ((verb : CallVerb) → word.now ≢ verb_text verb) (λ verb. word.now ≡ verb_text verb) }
    {
        for verb in CALL_VERBS {
            if word == verb.text() {
                return Some(verb);
            }
        }
        None
    }
}

impl DmVerb {
    pub fn text(self) -> &'static [u8]
        ensures { result.now ≡ dm_verb_text self }
    {
        dm_forms!(text_of(self))
    }

    /// The kinds of what stands behind the verb.
    pub fn kinds(self) -> &'static [PartKind]
        ensures { result.now ≡ dm_verb_kinds self }
    {
        dm_forms!(kinds_of(self))
    }

    /// The verb that a word is.
    pub fn find(word: &[u8]) -> Option<DmVerb>
        ensures { MatchOption result ((verb : DmVerb) → word.now ≢ dm_verb_text verb) (λ verb. word.now ≡ dm_verb_text verb) }
    {
        for verb in DM_VERBS {
            if word == verb.text() {
                return Some(verb);
            }
        }
        None
    }
}

/// The verb of a caller's call.
pub fn call_verb(call: &Call) -> CallVerb
    ensures { result ≡ (call_form call.now).0 }
{
    caller_forms!(verb_of(call))
}

/// The parts behind the verb of a caller's call.
pub fn call_parts(call: &Call) -> [Option<PartRef<'_>>; CALL_PARTS]
    ensures { parts_in result ≡ (call_form call.now).1 }
{
    caller_forms!(parts_of(call))
}

/// The caller's call of a verb and parts of the kinds that it has.
pub fn call_of(verb: CallVerb, mut parts: Parts) -> Call
    ensures { result ≡ call_of verb parts }
{
    caller_forms!(all_taken(verb, parts))
}

/// The bytes that a caller's call brings or may fetch. The store fetches at most [`ACCESS_BYTES`].
pub fn call_access(call: &Call) -> u64
    ensures { result ≡ access_of (call_form call.now).1 }
{
    caller_forms!(access_of(call))
}

/// The verb of a session's call.
pub fn dm_verb(call: &DmCall) -> DmVerb
    ensures { result ≡ (dm_form call.now).0 }
{
    dm_forms!(verb_of(call))
}

/// The parts behind the verb of a session's call.
pub fn dm_parts(call: &DmCall) -> [Option<PartRef<'_>>; CALL_PARTS]
    ensures { parts_in result ≡ (dm_form call.now).1 }
{
    dm_forms!(parts_of(call))
}

/// The session's call of a verb and parts of the kinds that it has.
pub fn dm_call_of(verb: DmVerb, mut parts: Parts) -> DmCall
    ensures { result ≡ dm_call_of verb parts }
{
    dm_forms!(all_taken(verb, parts))
}

/// The bytes that a session's call brings or may fetch.
pub fn dm_access(call: &DmCall) -> u64
    ensures { result ≡ access_of (dm_form call.now).1 }
{
    dm_forms!(access_of(call))
}
