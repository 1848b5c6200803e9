//! Laws on the blocks that are used and free, each the contract of a function that does nothing. A caller gets the law by a call.
ghost use Rattle.std.specs.Prelude.{ℕ, List, Bool};
ghost use Rattle.block_space.specs.Space.{Space};
ghost use Rattle.block_space.specs.Laws.{OthersAreFree, ListedAreFree, TakenAreFree, MarksAreMembers, MarksForgetOrder, MarksJoin, TakeAddsOthers};
ghost use Rattle.block_space.specs.Laws.{ReleaseLeavesOthers, ReleaseLeaves, ReleaseUndoesTake};

/// Where both maps use just these blocks, as many are free as are left of the total.
pub fn others_are_free()
    ensures { (total : ℕ) (blocks : List ℕ) → OthersAreFree total blocks }
{}

/// The free blocks are just those of the disk that neither map uses, each once.
pub fn listed_are_free()
    ensures { (s : Space) → ListedAreFree s }
{}

/// The blocks that `take` gives are free, each is given once, and none is one of those that the current map used.
pub fn taken_are_free()
    ensures free { (s : Space) (n : ℕ) → TakenAreFree s n }
    ensures others { (total : ℕ) (blocks : List ℕ) (durable : List Bool) (n : ℕ) → TakeAddsOthers total blocks durable n }
{}

/// The marks are those of the blocks that were marked, in whatever order, at once or one after the other.
pub fn marks_are_members()
    ensures members { (total : ℕ) (blocks : List ℕ) (b : ℕ) → MarksAreMembers total blocks b }
    ensures order { (total : ℕ) (xs : List ℕ) (ys : List ℕ) → MarksForgetOrder total xs ys }
    ensures join { (total : ℕ) (xs : List ℕ) (ys : List ℕ) → MarksJoin total xs ys }
{}

/// A release of a block, or of many, leaves the marks of the other blocks, and undoes a take.
pub fn release_leaves_others()
    ensures others { (total : ℕ) (xs : List ℕ) (b : ℕ) (ys : List ℕ) → ReleaseLeavesOthers total xs b ys }
    ensures many { (total : ℕ) (xs : List ℕ) (bs : List ℕ) (ys : List ℕ) → ReleaseLeaves total xs bs ys }
    ensures undo { (flags : List Bool) (blocks : List ℕ) → ReleaseUndoesTake flags blocks }
{}
