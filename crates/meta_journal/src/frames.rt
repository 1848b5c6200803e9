//! One batch in the bytes of a journal.
ghost use Rattle.std.specs.Prelude.{◌≡◌, ◌+◌, ◌<◌, ◌≤◌, ◌^◌, ◌++◌, ℕ, length, take, IfSome, MatchOption};
ghost use Rattle.byteorder.specs.Endian.{big_bytes};
ghost use Rattle.disk_model.specs.Images.{part, overlay};
ghost use Rattle.meta_journal.specs.Texts.{IsOpen, closed_gate, IsBad, IsBatchAt};

use byteorder::{BigEndian, ByteOrder};

/// The gate of a batch, the size of its records, its number and their count, in bytes.
pub(crate) const FRAME: usize = 17;

/// The same without the gate.
pub(crate) const HEAD: usize = 16;

const LAST_NUMBER: u64 = 1 << 62;

/// What stands in front of the records of a batch: their size in bytes, its number, and their count.
#[derive(Clone, Copy)]
pub(crate) struct Frame {
    pub(crate) size: usize,
    pub(crate) number: u64,
    pub(crate) count: u32,
}

/// The batch whose gate is open at that place, behind a batch of that number. `None` where it doesn't end within the journal with
/// room for the next gate, or its number is too small or too great.
pub(crate) fn frame_at(journal: &[u8], place: usize, last: u64) -> Option<Frame>
    requires at { place < length journal.now }
    requires short { length journal.now < 2 ^ 32 }
    requires open { IsOpen journal.now place }
    ensures read { MatchOption result (IsBad journal.now place last) (λ f. IsBatchAt journal.now place last (record { place = 0; number = f.number; count = f.count; records = part journal.now (place + 17) f.size })) }
    ensures room { IfSome result (λ f. place + (18 + f.size) ≤ length journal.now) }
{
    if journal.len() - place <= FRAME {
        return None;
    }
    let size = BigEndian::read_u32(&journal[place + 1..place + 5]) as usize;
    let number = BigEndian::read_u64(&journal[place + 5..place + 13]);
    let count = BigEndian::read_u32(&journal[place + 13..place + 17]);
    if size >= journal.len() - place - FRAME || number < last || number > LAST_NUMBER {
        return None;
    }
    Some(Frame {
        size,
        number,
        count,
    })
}

// The size, the number and the count.
fn head(frame: Frame) -> [u8; HEAD]
    requires { frame.size < 2 ^ 32 }
    ensures { result ≡ big_bytes 4 frame.size ++ big_bytes 8 frame.number ++ big_bytes 4 frame.count }
{
    let mut bytes = [0; HEAD];
    BigEndian::write_u32(&mut bytes[..4], frame.size as u32);
    BigEndian::write_u64(&mut bytes[4..12], frame.number);
    BigEndian::write_u32(&mut bytes[12..], frame.count);
    bytes
}

/// Writes these bytes over the others at that place.
pub(crate) fn overwrite(content: &mut [u8], at: usize, bytes: &[u8])
    requires { at + length bytes.now ≤ length content.old }
    ensures { content.new ≡ overlay content.old at bytes.now }
{
    content[at..at + bytes.len()].copy_from_slice(bytes);
}

/// Writes what stands round the records of a batch: the frame without its gate, and the next gate, which is closed.
pub(crate) fn put_frame(bytes: &mut [u8], frame: Frame)
    requires fits { 18 + frame.size ≤ length bytes.old }
    requires few { frame.size < 2 ^ 32 }
    ensures framed { take (17 + frame.size) bytes.new ≡ big_bytes 4 frame.size ++ big_bytes 8 frame.number ++ big_bytes 4 frame.count ++ part bytes.old 16 frame.size ++ closed_gate }
    ensures kept { part bytes.new 16 frame.size ≡ part bytes.old 16 frame.size }
    ensures len { length bytes.new ≡ length bytes.old }
{
    overwrite(bytes, 0, &head(frame));
    overwrite(bytes, HEAD + frame.size, &[0]);
}
