//! The pieces of a line's text.
ghost use Rattle.std.specs.Prelude.{◌≡◌, ◌∷◌, ◌++◌, map, OnOk};
ghost use Rattle.std.specs.Fmt.{decimal};
ghost use Rattle.std.specs.List.{flat_map};
ghost use Rattle.hsm_types.specs.Words.{key_word};
ghost use Rattle.store_summary.specs.Shown.{line};

use hsm_types::FileKey;
use std::alloc::AllocError;

/// A line of a word and numbers.
pub(crate) fn push_line(out: &mut Vec<u8>, word: &[u8], numbers: &[u128]) -> Result<(), AllocError>
    ensures { OnOk result (out.new.items ≡ out.old.items ++ line (word.now ∷ map decimal numbers.now)) }
{
    push(out, word)?;
    push_numbers(out, numbers)?;
    push(out, b"\n")
}

/// Each number with a space in front.
pub(crate) fn push_numbers(out: &mut Vec<u8>, numbers: &[u128]) -> Result<(), AllocError>
    ensures { OnOk result (out.new.items ≡ out.old.items ++ flat_map (λ n. 32 ∷ decimal n) numbers.now) }
{
    for n in numbers {
        push(out, b" ")?;
        push_number(out, *n)?;
    }
    Ok(())
}

/// The inode and the generation.
pub(crate) fn push_key(out: &mut Vec<u8>, key: FileKey) -> Result<(), AllocError>
    ensures { OnOk result (out.new.items ≡ out.old.items ++ key_word key) }
{
    push_number(out, u128::from(key.ino))?;
    push(out, b".")?;
    push_number(out, u128::from(key.igen))
}

fn push_number(out: &mut Vec<u8>, n: u128) -> Result<(), AllocError>
    ensures { OnOk result (out.new.items ≡ out.old.items ++ decimal n) }
{
    push(out, itoa::Buffer::new().format(n).as_bytes())
}

pub(crate) fn push(out: &mut Vec<u8>, bytes: &[u8]) -> Result<(), AllocError>
    ensures { OnOk result (out.new.items ≡ out.old.items ++ bytes.now) }
{
    out.extend_from_slice(bytes)?;
    Ok(())
}
