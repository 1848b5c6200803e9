//! The text that tells of a store.
ghost use Rattle.std.specs.Prelude.{◌≡◌, ◌++◌, map, IfOk, OnOk, option_copied};
ghost use Rattle.store_summary.specs.Named.{named};
ghost use Rattle.store_summary.specs.Shown.{class_lines, number_lines, show_lines, ShowsText};

use crate::lines::push_line;
use crate::named::{Named, by_name, push_files};
use crate::states::StateCounts;
use crate::summaries::{ClassCounts, Summary};
use hsm_types::Bytes;
use std::alloc::{AllocError, Global};

/// The lines that tell of a store, and of the classes of its objects and entries, if these were counted. It sorts the files once.
pub fn show_text(
    alloc: Global,
    summary: &Summary,
    classes: Option<&ClassCounts>,
) -> Result<Bytes, AllocError>
    ensures { IfOk result (ShowsText summary.now (option_copied classes.entry)) }
{
    let files = by_name(alloc, summary)?;
    let mut out = Vec::new(alloc);
    push_lines(&mut out, summary, &files, classes)?;
    Ok(Bytes::from(out))
}

/// All lines, with the files in this order.
fn push_lines(
    out: &mut Vec<u8>,
    summary: &Summary,
    files: &[Named],
    classes: Option<&ClassCounts>,
) -> Result<(), AllocError>
    ensures { OnOk result (out.new.items ≡ out.old.items ++ show_lines summary.now (option_copied classes.entry) (map named files.now)) }
{
    push_totals(out, summary)?;
    push_files(out, files)?;
    push_classes(out, classes)
}

fn push_totals(out: &mut Vec<u8>, summary: &Summary) -> Result<(), AllocError>
    ensures { OnOk result (out.new.items ≡ out.old.items ++ number_lines summary.now) }
{
    let table = &summary.table;
    let files = table.files.as_slice();
    let states = StateCounts::of_all(files);
    push_line(out, b"number", &[u128::from(summary.number)])?;
    push_line(out, b"files", &[files.len() as u128])?;
    push_line(
        out,
        b"blocks",
        &[u128::from(table.used), u128::from(table.total)],
    )?;
    push_line(
        out,
        b"segments",
        &[states.resident, states.sealed, states.offline],
    )
}

fn push_classes(out: &mut Vec<u8>, classes: Option<&ClassCounts>) -> Result<(), AllocError>
    ensures { OnOk result (out.new.items ≡ out.old.items ++ class_lines (option_copied classes.entry)) }
{
    let Some(classes) = classes else {
        return Ok(())
    };
    push_line(
        out,
        b"objects",
        &[u128::from(classes.live), u128::from(classes.dead)],
    )?;
    push_line(
        out,
        b"entries",
        &[
            u128::from(classes.held),
            u128::from(classes.missing),
            u128::from(classes.altered),
        ],
    )
}
