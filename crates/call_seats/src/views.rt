//! What a seat of the desk's table knows, and how each kind of step changes it. Contracts alone see a view; no value of one is made.
use atomic_table::{Join, Play, Split, TableRule};
use plain_model::Entry;
use std::collections::LinkedList;
use std::marker::{Brand, PhantomData};

/// A published entry, with the number of the pass that made it.
pub struct Mark {
    pub by: u32,
    pub entry: Entry,
}

/// What the holder of a seat knows.
pub struct View {
    /// It has the right to append.
    pub right: bool,
    /// It gives out passes, and has given out so many.
    pub gives: bool,
    pub count: u32,
    /// It is a pass, and has a number. A note is none.
    pub named: bool,
    pub number: u32,
    /// The published entries that it has seen, and those that it made.
    pub seen: LinkedList<Mark>,
    pub made: LinkedList<Mark>,
    /// The lists of the last two that were joined here, and whether each came with the right.
    pub one: LinkedList<Mark>,
    pub two: LinkedList<Mark>,
    pub one_whole: bool,
    pub two_whole: bool,
}

/// There is one list of published entries, and each view has seen a beginning of it.
pub struct OneList;

impl TableRule<(), View, ()> for OneList {
    ghost use Rattle.call_seats.specs.Rule.{Kept};
    ghost use Rattle.call_seats.specs.Views.{first_view};

    ghost holds = { λ key table. Kept table.words table.views };

    ghost first = { λ key. first_view };
}

/// A pass with the next number.
pub struct Deal;

impl Split<View> for Deal {
    ghost use Rattle.call_seats.specs.Views.{dealing, dealt};

    ghost left = { dealing };

    ghost right = { dealt };
}

/// A note of what was seen, which takes the right along.
pub struct Note;

impl Split<View> for Note {
    ghost use Rattle.call_seats.specs.Views.{without_right, note_of};

    ghost left = { without_right };

    ghost right = { note_of };
}

/// What a note or a pass that has ended tells to who takes it in.
pub struct Told;

impl Join<View> for Told {
    ghost use Rattle.call_seats.specs.Views.{joined, spent};

    ghost both = { joined };

    ghost spent = { spent };
}

/// A look, which changes no view.
pub struct Look;

impl Play<(), View> for Look {
    ghost use Rattle.std.specs.Prelude.{◌≡◌};
    ghost use Rattle.call_seats.specs.Views.{Tells, Owns};

    ghost then = { λ step before found after. (after ≡ before) × Tells before.0 × Owns before.0 };
}

/// Names the entry that is appended.
pub trait Published {
    ghost use Rattle.plain_model.specs.declared.entries.Entry.{Entry};

    ghost entry: { Entry };
}

impl Published for Brand {
    ghost use Rattle.call_seats.specs.Views.{some_entry};

    ghost entry = { some_entry };
}

/// Appends that entry.
pub struct Append<E>(PhantomData<E>);

impl<E: Published> Play<(), View> for Append<E> {
    ghost use Rattle.std.specs.Prelude.{◌≡◌};
    ghost use Rattle.call_seats.specs.Views.{appended};

    ghost then = { λ step before found after. after ≡ (appended before.0 E.entry, before.1) };
}
