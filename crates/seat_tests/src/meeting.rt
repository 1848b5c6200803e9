//! One thread publishes with its pass while another looks, and then they meet.
ghost use Rattle.std.specs.Prelude.{◌≡◌, [], ◌∷◌, ◌++◌, true, false, All, IfSome, IfOk};
ghost use Rattle.call_seats.specs.Views.{mark};
ghost use Rattle.call_seats.specs.Passes.{new_pass};

use call_seats::{Desk, Pass, Passes, Pen};
use hsm_types::Reply;
use plain_model::{Action, Actor, Answer, Entry};
use std::alloc::{AllocError, Global};
use std::test::*;
use std::thread;
use std::thread::Threads;

/// The two passes of a list of two.
fn both(passes: Passes) -> Option<(Pass, Pass)>
    ensures { IfSome result (λ two. passes ≡ two.0 ∷ two.1 ∷ []) }
{
    let mut passes = passes.into_vec();
    let second = passes.pop()?;
    let first = passes.pop()?;
    if !passes.is_empty() {
        return None;
    }
    Some((first, second))
}

/// A desk, the pass of its pen, and two others.
fn desk_of_two(alloc: Global) -> Option<(Desk, Pass, (Pass, Pass))>
    ensures pen { IfSome result (λ made. made.1 ≡ new_pass made.0.table true 0) }
    ensures first { IfSome result (λ made. made.2.0 ≡ new_pass made.0.table false 1) }
    ensures second { IfSome result (λ made. made.2.1 ≡ new_pass made.0.table false 2) }
{
    let (desk, pen, passes) = Desk::new(alloc, 2).ok()?;
    let pen = pen.pass?;
    let two = both(passes)?;
    Some((desk, pen, two))
}

/// Publishes an entry for a pass by the right of the pen, as is done under the lock of a store.
fn publish_for(desk: &Desk, pen: Pass, pass: Pass, entry: &Entry) -> (Pass, Pass)
    requires pen { pen ≡ new_pass desk.now.table true 0 }
    requires pass { pass ≡ new_pass desk.now.table false 1 }
    ensures table { (result.0.table ≡ desk.now.table) × (result.1.table ≡ desk.now.table) }
    ensures seen { (result.0.seen ≡ mark 1 entry.now ∷ []) × (result.1.seen ≡ mark 1 entry.now ∷ []) }
{
    let (pass, rest) = desk.meet(pass, pen);
    let mut holding = Pen { pass: Some(pass) };
    desk.publish(&mut holding, entry);
    let Some(pass) = holding.pass else {
        unreachable!()
    };
    desk.meet(rest, pass)
}

/// Two threads, with a pass each. The first publishes, and they meet when both are done.
fn publish_beside<R: Threads + Sync>(
    rt: &R,
    desk: &Desk,
    pen: Pass,
    first: Pass,
    second: Pass,
    entry: &Entry,
) -> (Pass, Pass, Pass)
    requires pen { pen ≡ new_pass desk.now.table true 0 }
    requires first { first ≡ new_pass desk.now.table false 1 }
    requires second { second ≡ new_pass desk.now.table false 2 }
    ensures table { (result.0.table ≡ desk.now.table) × (result.1.table ≡ desk.now.table) × (result.2.table ≡ desk.now.table) }
    ensures seen { result.2.seen ≡ mark 1 entry.now ∷ [] }
{
    let ((pen, first), second) = thread::join(
        rt,
        move || -> (Pass, Pass)
            requires { (pen ≡ new_pass desk.now.table true 0) × (first ≡ new_pass desk.now.table false 1) }
            ensures tables { (result.0.table ≡ desk.entry.now.table) × (result.1.table ≡ desk.entry.now.table) }
            ensures seen { result.1.seen ≡ mark 1 entry.entry.now ∷ [] }
        { publish_for(desk, pen, first, entry) },
        move || -> Pass
            requires { second ≡ new_pass desk.now.table false 2 }
            ensures { result ≡ new_pass desk.entry.now.table false 2 }
        { desk.look(second) },
    );
    let (first, second) = desk.meet(first, second);
    (pen, first, second)
}

/// The passes with one more.
fn with_one(passes: Passes, pass: Pass) -> Result<Passes, AllocError>
    ensures { IfOk result (λ all. all ≡ passes ++ pass ∷ []) }
{
    let mut passes = passes.into_vec();
    passes.push(pass)?;
    Ok(Passes::from(passes))
}

/// Ends the desk, if all its passes are there. Whether they are.
fn ends(desk: Desk, pen: Pass, passes: Passes) -> bool
    requires pen { pen.table ≡ desk.table }
    requires passes { All (λ p. p.table ≡ desk.table) passes }
{
    if !desk.has_all(&passes) {
        return false;
    }
    desk.close(Pen { pass: Some(pen) }, passes);
    true
}

/// Gives both passes back, the second one first. Whether the desk has all before the first is back, and then.
fn give_back(
    alloc: Global,
    desk: Desk,
    pen: Pass,
    first: Pass,
    second: Pass,
) -> Result<(bool, bool), AllocError>
    requires { (pen.table ≡ desk.table) × (first.table ≡ desk.table) × (second.table ≡ desk.table) }
{
    let some = with_one(Passes::from(Vec::new(alloc)), second)?;
    let before = desk.has_all(&some);
    let all = with_one(some, first)?;
    Ok((before, ends(desk, pen, all)))
}

#[test]
fn an_entry_is_seen_after_a_meeting(rt: HostRuntime) -> Result<(), Fail> {
    let (desk, pen, (first, second)) = desk_of_two(rt.alloc()).ok_or("a desk with two passes")?;
    let entry = Entry {
        actor: Actor::Store,
        action: Action::Commit,
        answer: Answer::Call(Reply::Done),
    };
    let (pen, first, second) = publish_beside(&rt, &desk, pen, first, second, &entry);
    assert_eq!(rt; (pen.number(), first.number(), second.number()), (0, 1, 2));
    assert_eq!(rt;
        give_back(rt.alloc(), desk, pen, first, second)?,
        (false, true)
    );
    Ok(())
}
