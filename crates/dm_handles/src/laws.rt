//! Laws on the bytes of handles, each the contract of a function that does nothing. A caller gets the law by a call.
ghost use Rattle.hsm_types.specs.declared.keys.Handle.{Handle};
ghost use Rattle.hsm_types.specs.Handles.{IsHandle};
ghost use Rattle.dm_handles.specs.Laws.{ReadsBack, OneHandle, OrdersAsNumbers};

/// From the bytes of a handle the numbers are read that it was made of.
pub fn reads_back()
    ensures { (h : Handle) → IsHandle h → ReadsBack h }
{}

/// No two handles have the same bytes.
pub fn one_handle()
    ensures { (a b : Handle) → OneHandle a b }
{}

/// The order of handles by their bytes is that by their numbers: the file system id, then the inode, then the generation.
pub fn orders_as_numbers()
    ensures { (a b : Handle) → OrdersAsNumbers a b }
{}
