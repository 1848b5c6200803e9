//! A law on what a cache lends, the contract of a function that does nothing. A caller gets the law by a call.
ghost use Rattle.std.specs.Prelude.{List, ℕ};
ghost use Rattle.block_cache.specs.Cached.{Cache};
ghost use Rattle.block_cache.specs.Lent.{PartsAreShown};

/// The parts of blocks that are what a content has are its bytes.
pub fn parts_are_shown()
    ensures { (cache : Cache) (content : List ℕ) → PartsAreShown cache content }
{}
