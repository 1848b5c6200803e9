//! Files that are read and written at places: those of the system, and one in memory.
ghost use Rattle.std.specs.Prelude.{◌≡◌, ◌⊎◌, ◌≤◌, ℕ, List, [], length, take, IfOk, OnOk};
ghost use Rattle.std.specs.Io.{ReadsAtMost, WritesAtMost};
ghost use Rattle.disk_model.specs.Images.{part, IsFreed, IsWritten, Follows, Within, Alike};
ghost use Rattle.disk_model.specs.Calls.{Elapses};
ghost use Rattle.hosts.specs.Files.{Fits};

use std::fs::File;
use std::io;
use std::io::{Read, Seek, SeekFrom, Write};

/// A file that is read and written at places, as by `pread` and `pwrite`: each call moves the first bytes of those that it
/// is given, as many as it says. Until a sync that succeeds a crash may leave any bytes in each range that a write was
/// called for. An image is the list of all the file's bytes. A file that doesn't tell what it holds has no image in `gives`
/// and `may_leave`, and then the clauses on images say nothing.
pub trait PositionedFile: Drop {
    /// Whether reads may give this content.
    ghost gives: { Self → List ℕ → Type 0 };

    /// What reads give, where the file tells it. Else it is some list, of any length.
    ghost content: { Self → List ℕ };

    /// Whether a crash at this moment may leave this image.
    ghost may_leave: { Self → List ℕ → Type 0 };

    /// The moment, as a number that doesn't fall.
    ghost moment: { Self → ℕ };

    /// Whether a crash at some moment from that one on might have left this image.
    ghost left_since: { Self → ℕ → List ℕ → Type 0 };

    /// Whether nobody else has the file.
    ghost is_ours: { Self → Type 0 };

    /// Takes the lock that one open of the file alone can hold, until it is closed. It fails where another holds it. The calls
    /// below keep it.
    fn lock_alone(&self) -> io::Result<()>
        ensures { OnOk result (is_ours self.now) };

    /// The number of the file's bytes, which is asked once nobody else can change it.
    fn len(&self) -> io::Result<u64>
        requires { is_ours self.now }
        ensures { IfOk result (λ n. (c : List ℕ) → gives self.now c ⊎ may_leave self.now c → length c ≡ n) };

    /// Fills the front of the buffer with the bytes from that place on, and says how much of it.
    fn read_some(&mut self, at: u64, buf: &mut [u8]) -> io::Result<usize>
        requires { Fits at (length buf.old) (gives self.old) }
        ensures bound { ReadsAtMost result buf.new }
        ensures bytes { IfOk result (λ n. (c : List ℕ) → gives self.old c → take n buf.new ≡ part c at n) }
        ensures given { Alike (gives self.old) (gives self.new) }
        ensures crash { Alike (may_leave self.old) (may_leave self.new) }
        ensures time { Elapses (moment self.old) (moment self.new) (left_since self.old) (left_since self.new) (may_leave self.new) }
        ensures ours { is_ours self.old → is_ours self.new };

    /// Writes the front of the bytes at that place, and says how many. What a crash might have left before, it may leave
    /// still.
    fn write_some(&mut self, at: u64, bytes: &[u8]) -> io::Result<usize>
        requires { Fits at (length bytes.now) (gives self.old) }
        ensures bound { WritesAtMost result bytes.now }
        ensures written { IfOk result (λ n. Follows (IsWritten at (take n bytes.now)) (gives self.old) (gives self.new)) }
        ensures given { Follows (IsFreed at (length bytes.now)) (gives self.old) (gives self.new) }
        ensures crash { Follows (IsFreed at (length bytes.now)) (may_leave self.old) (may_leave self.new) }
        ensures still { Within (may_leave self.new) (may_leave self.old) }
        ensures time { Elapses (moment self.old) (moment self.new) (left_since self.old) (left_since self.new) (may_leave self.new) }
        ensures ours { is_ours self.old → is_ours self.new };

    /// After it succeeds, a crash leaves what a read gives.
    fn sync(&mut self) -> io::Result<()>
        ensures durable { OnOk result (Within (gives self.new) (may_leave self.new)) }
        ensures given { Alike (gives self.old) (gives self.new) }
        ensures crash { Within (may_leave self.old) (may_leave self.new) }
        ensures time { Elapses (moment self.old) (moment self.new) (left_since self.old) (left_since self.new) (may_leave self.new) }
        ensures ours { is_ours self.old → is_ours self.new };

    /// This moment is one of those since an earlier one.
    ghost counts_now: { (f : Self) (t : ℕ) (c : List ℕ) → t ≤ moment f → may_leave f c → left_since f t c };

    /// Since this moment there is no other.
    ghost only_now: { (f : Self) (c : List ℕ) → left_since f (moment f) c → may_leave f c };

    /// Reads give one content.
    ghost one_content: { (f : Self) (c : List ℕ) → gives f c → c ≡ content f };
}

/// A file of the system, which nobody else moves to another place. It doesn't tell what it holds, nor who has it.
impl PositionedFile for File {
    ghost gives = { λ f c. ⊥ };

    ghost content = { λ f. [] };

    ghost may_leave = { λ f c. ⊥ };

    ghost moment = { λ f. 0 };

    ghost left_since = { λ f t c. ⊥ };

    ghost is_ours = { λ f. Unit {0} };

    ghost counts_now = { λ f t c le left. left };

    ghost only_now = { λ f c left. left };

    ghost one_content = { λ f c given. absurd given };

    fn lock_alone(&self) -> io::Result<()> {
        self.try_lock()?;
        Ok(())
    }

    fn len(&self) -> io::Result<u64> {
        Ok(self.metadata()?.len())
    }

    fn read_some(&mut self, at: u64, buf: &mut [u8]) -> io::Result<usize> {
        self.seek(SeekFrom::Start(at))?;
        self.read(buf)
    }

    fn write_some(&mut self, at: u64, bytes: &[u8]) -> io::Result<usize> {
        self.seek(SeekFrom::Start(at))?;
        self.write(bytes)
    }

    fn sync(&mut self) -> io::Result<()> {
        self.sync_all()
    }
}
