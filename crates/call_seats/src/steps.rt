//! The seven kinds of atomic steps, of which two are one function. Word 0 of the table is the number of published entries.
ghost use Rattle.std.specs.Prelude.{◌≡◌, ◌-◌, ◌<◌, ◌^◌, [], length, true, IfOk};
ghost use Rattle.call_seats.specs.Views.{first_view, dealing, dealt, without_right, note_of, joined, informed, answered, appended, Tells, Owns};
ghost use Rattle.call_seats.specs.Seated.{IsAt};

use crate::views::{Append, Deal, Look, Note, OneList, Published, Told, View};
use atomic_table::{Seat, Table};
use plain_model::Entry;
use std::alloc::{AllocError, Global};
use std::marker::Brand;

/// The table of a desk.
pub(crate) type Counter = Table<(), View, (), OneList, Global>;

/// A seat at it.
pub(crate) type Holder = Seat<(), View>;

/// 1: a table is made, whose word is 0, with pass 0, which has the right.
pub(crate) fn make(alloc: Global) -> Result<(Counter, Holder), AllocError>
    ensures at { IfOk result (λ made. IsAt made.1 made.0.shared.table_id) }
    ensures me { IfOk result (λ made. made.1.me ≡ (first_view, [])) }
{
    Table::of_words(alloc, &[0], &())
}

/// 2: pass 0 gives out the pass with the next number.
pub(crate) fn deal(table: &Counter, first: &mut Holder) -> Holder
    requires at { IsAt first.old table.now.shared.table_id }
    requires gives { first.old.me.0.gives ≡ true }
    ensures at { IsAt first.new table.now.shared.table_id × IsAt result table.now.shared.table_id }
    ensures left { first.new.me ≡ (dealing first.old.me.0, first.old.me.1) }
    ensures right { result.me ≡ (dealt first.old.me.0, []) }
{
    table.shared.split_seat::<Deal>(first)
}

/// 3: a note of what a pass has seen.
pub(crate) fn note(table: &Counter, from: &mut Holder) -> Holder
    requires at { IsAt from.old table.now.shared.table_id }
    ensures at { IsAt from.new table.now.shared.table_id × IsAt result table.now.shared.table_id }
    ensures left { from.new.me ≡ (without_right from.old.me.0, from.old.me.1) }
    ensures right { result.me ≡ (note_of from.old.me.0, []) }
{
    table.shared.split_seat::<Note>(from)
}

/// 4 and 7: a pass takes in a note, or a pass that has ended.
pub(crate) fn join(table: &Counter, into: &mut Holder, other: Holder)
    requires at { IsAt into.old table.now.shared.table_id × IsAt other table.now.shared.table_id }
    requires empty { other.me.1 ≡ [] }
    ensures at { IsAt into.new table.now.shared.table_id }
    ensures joined { into.new.me ≡ (joined into.old.me.0 other.me.0, into.old.me.1) }
{
    table.shared.join_seat::<Told>(into, other);
}

/// 5: a pass looks, which tells how the lists that were joined in it lie, and that it has seen of its own entries just those that it made.
pub(crate) fn look(table: &Counter, pass: &mut Holder)
    requires at { IsAt pass.old table.now.shared.table_id }
    ensures at { IsAt pass.new table.now.shared.table_id }
    ensures me { pass.new.me ≡ pass.old.me }
    ensures tells { Tells pass.old.me.0 }
    ensures owns { Owns pass.old.me.0 }
{
    table.shared.load::<Look>(pass, 0);
}

/// 6: the pass with the right appends an entry, which is its own.
pub(crate) fn append(table: &Counter, pass: &mut Holder, entry: &Entry)
    requires at { IsAt pass.old table.now.shared.table_id }
    requires right { pass.old.me.0.right ≡ true }
    requires named { pass.old.me.0.named ≡ true }
    requires room { length pass.old.me.0.seen < 2 ^ 64 - 1 }
    ensures at { IsAt pass.new table.now.shared.table_id }
    ensures appended { pass.new.me ≡ (appended pass.old.me.0 entry.now, pass.old.me.1) }
{
    append_named::<Brand>(table, pass, entry);
}

/// The same, where the entry has a name.
fn append_named<E: Published>(table: &Counter, pass: &mut Holder, entry: &Entry)
    requires named_entry { E.entry ≡ entry.now }
    requires at { IsAt pass.old table.now.shared.table_id }
    requires right { pass.old.me.0.right ≡ true }
    requires named { pass.old.me.0.named ≡ true }
    requires room { length pass.old.me.0.seen < 2 ^ 64 - 1 }
    ensures at { IsAt pass.new table.now.shared.table_id }
    ensures appended { pass.new.me ≡ (appended pass.old.me.0 entry.now, pass.old.me.1) }
{
    table.shared.fetch_add::<Append<E>>(pass, 0, 1);
}

/// Two passes tell each other what they have seen: a note of the first goes to the second, which looks, and a note of all that goes back.
pub(crate) fn tell_each_other(table: &Counter, first: &mut Holder, second: &mut Holder)
    requires at { IsAt first.old table.now.shared.table_id × IsAt second.old table.now.shared.table_id }
    ensures at { IsAt first.new table.now.shared.table_id × IsAt second.new table.now.shared.table_id }
    ensures first { first.new.me ≡ (answered first.old.me.0 second.old.me.0, first.old.me.1) }
    ensures second { second.new.me ≡ (without_right (informed first.old.me.0 second.old.me.0), second.old.me.1) }
    ensures tells { Tells (informed first.old.me.0 second.old.me.0) }
{
    let told = note(table, first);
    join(table, second, told);
    look(table, second);
    let answer = note(table, second);
    join(table, first, answer);
}
