//! Files with their names, and their order.
ghost use Rattle.std.specs.Prelude.{◌≡◌, ◌++◌, map, IfOk, OnOk};
ghost use Rattle.std.specs.List.{flat_map, zip};
ghost use Rattle.store_summary.specs.Named.{named};
ghost use Rattle.store_summary.specs.Shown.{file_line, InOrder};

use crate::lines::{push, push_key, push_numbers};
use crate::states::StateCounts;
use crate::summaries::Summary;
use hsm_types::{FileRow, Word};
use std::alloc::{AllocError, Global};

/// A file with its name.
#[derive(Clone, Copy)]
pub(crate) struct Named<'a> {
    pub(crate) row: &'a FileRow,
    pub(crate) name: &'a [u8],
}

/// The files in byte order of names.
pub(crate) fn by_name<'a>(alloc: Global, summary: &'a Summary) -> Result<Vec<Named<'a>>, AllocError>
    ensures { IfOk result (λ files. InOrder (zip summary.now.table.files summary.now.names) (map named files.items)) }
{
    let rows = summary.table.files.as_slice();
    let mut files = Vec::with_capacity(alloc, rows.len())?;
    push_named(&mut files, rows, summary.names.as_slice())?;
    files.sort_by_key(|file| file.name)?;
    Ok(files)
}

/// Each row with the name that stands where it does.
fn push_named<'a>(
    files: &mut Vec<Named<'a>>,
    rows: &'a [FileRow],
    names: &'a [Word],
) -> Result<(), AllocError>
    ensures { OnOk result (map named files.new.items ≡ map named files.old.items ++ zip rows.now names.now) }
{
    for (row, name) in rows.iter().zip(names) {
        files.push(Named {
            row,
            name: name.as_slice(),
        })?;
    }
    Ok(())
}

/// The lines of files.
pub(crate) fn push_files(out: &mut Vec<u8>, files: &[Named]) -> Result<(), AllocError>
    ensures { OnOk result (out.new.items ≡ out.old.items ++ flat_map file_line (map named files.now)) }
{
    for file in files {
        push_file(out, file)?;
    }
    Ok(())
}

fn push_file(out: &mut Vec<u8>, file: &Named) -> Result<(), AllocError>
    ensures { OnOk result (out.new.items ≡ out.old.items ++ file_line (named file.now)) }
{
    let states = StateCounts::of(file.row.segments.as_slice());
    push(out, file.name)?;
    push_numbers(out, &[u128::from(file.row.size)])?;
    push(out, b" ")?;
    push_key(out, file.row.handle.key)?;
    push_numbers(out, &[states.resident, states.sealed, states.offline])?;
    push(out, b"\n")
}
