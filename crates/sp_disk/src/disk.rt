//! Files as the journal sees them: what a read gives, and what a crash may leave.
ghost use Rattle.std.specs.Prelude.{◌≡◌, ◌≤◌, ℕ, length, take, drop, IfOk, OnOk, OnErr, IsTrue};
ghost use Rattle.sp_base.specs.Causes.{HasCause};
ghost use Rattle.sp_disk.specs.Disk.{Folder, Telling, Fills, Torn, Shortened, SameElsewhere};
ghost use Rattle.sp_disk.specs.Disk.{Follows, AddsNone, SameImages, HoldsOnly, written};
ghost use Rattle.sp_disk.specs.Moments.{Passes};

use sp_base::failure::Failed;

/// A file of a disk.
#[derive(Clone, Copy, Debug, PartialEq, Eq)]
pub enum File {
    Journal,
    Image,
}

/// A disk: what its files hold, and what a crash may make of them.
///
/// Every call answers [`Failed`] only where the disk's count of faults rose in that call, and leaves
/// the count where it succeeds. It changes neither what the disk tells nor, of the files, any other
/// than the one that it is given.
pub trait Disk {
    /// Whether the disk tells its content and its images, and whether it is honest.
    ghost tells: { Self → Telling };

    /// What a read gives of each file, where the content is told.
    ghost content: { Self → Folder };

    /// The images: what a crash at this moment may leave of all files together.
    ghost may_leave: { Self → Folder → Type 0 };

    /// The moment, by the disk's own clock.
    ghost moment: { Self → ℕ };

    /// What a crash at a moment since that one might have left, during a call or between two.
    ghost left_since: { Self → ℕ → Folder → Type 0 };

    /// How often the disk has failed.
    ghost faults: { Self → ℕ };

    /// The length of a file in bytes.
    fn len(&mut self, file: File) -> Result<u64, Failed>
        ensures length { IsTrue (tells self.old).content →
            IfOk result (λ n. n ≡ length (content self.old file)) }
        ensures content { content self.new ≡ content self.old }
        ensures images { SameImages (may_leave self.old) (may_leave self.new) }
        ensures time { Passes moment left_since may_leave self.old self.new }
        ensures telling { tells self.new ≡ tells self.old }
        ensures cause { HasCause (faults self.old) (faults self.new) result }
        ensures steady { OnOk result (faults self.new ≡ faults self.old) };

    /// Fills the buffer's front with the bytes that the file has from an offset, as many as fit, and
    /// gives their number. After [`Failed`] the buffer may hold anything.
    fn read(&mut self, file: File, at: u64, into: &mut [u8]) -> Result<usize, Failed>
        ensures bound { IfOk result (λ n. n ≤ length into.new) }
        ensures bytes { IsTrue (tells self.old).content →
            IfOk result (Fills (take (length into.old) (drop at (content self.old file))) into.old into.new) }
        ensures content { content self.new ≡ content self.old }
        ensures images { SameImages (may_leave self.old) (may_leave self.new) }
        ensures time { Passes moment left_since may_leave self.old self.new }
        ensures telling { tells self.new ≡ tells self.old }
        ensures cause { HasCause (faults self.old) (faults self.new) result }
        ensures steady { OnOk result (faults self.new ≡ faults self.old) };

    /// Writes bytes at an offset, over what stands there and past the end. After [`Failed`] the range
    /// that was to be written may hold anything. Until a sync a crash may leave anything in it.
    fn write(&mut self, file: File, at: u64, bytes: &[u8]) -> Result<(), Failed>
        requires { IsTrue (tells self.old).content → at ≤ length (content self.old file) }
        ensures written { IsTrue (tells self.old).content →
            OnOk result (content self.new file ≡ written (content self.old file) at bytes.now) }
        ensures failed { IsTrue (tells self.old).content →
            OnErr result (Torn at (length bytes.now) (content self.old file) (content self.new file)) }
        ensures others { SameElsewhere file (content self.old) (content self.new) }
        ensures images { IsTrue (tells self.old).honest →
            Follows file (Torn at (length bytes.now)) (may_leave self.old) (may_leave self.new) }
        ensures time { Passes moment left_since may_leave self.old self.new }
        ensures telling { tells self.new ≡ tells self.old }
        ensures cause { HasCause (faults self.old) (faults self.new) result }
        ensures steady { OnOk result (faults self.new ≡ faults self.old) };

    /// Cuts a file to a length. After [`Failed`], and until a sync in what a crash leaves, the length
    /// lies between that one and the old one.
    fn cut(&mut self, file: File, len: u64) -> Result<(), Failed>
        requires { IsTrue (tells self.old).content → len ≤ length (content self.old file) }
        ensures cut { IsTrue (tells self.old).content →
            OnOk result (content self.new file ≡ take len (content self.old file)) }
        ensures failed { IsTrue (tells self.old).content →
            OnErr result (Shortened len (content self.old file) (content self.new file)) }
        ensures others { SameElsewhere file (content self.old) (content self.new) }
        ensures images { IsTrue (tells self.old).honest →
            Follows file (Shortened len) (may_leave self.old) (may_leave self.new) }
        ensures time { Passes moment left_since may_leave self.old self.new }
        ensures telling { tells self.new ≡ tells self.old }
        ensures cause { HasCause (faults self.old) (faults self.new) result }
        ensures steady { OnOk result (faults self.new ≡ faults self.old) };

    /// After it a crash leaves of the file what a read gives.
    fn sync(&mut self, file: File) -> Result<(), Failed>
        ensures durable { IsTrue (tells self.old).honest →
            OnOk result (HoldsOnly file (content self.old file) (may_leave self.new)) }
        ensures content { content self.new ≡ content self.old }
        ensures images { AddsNone (may_leave self.old) (may_leave self.new) }
        ensures time { Passes moment left_since may_leave self.old self.new }
        ensures telling { tells self.new ≡ tells self.old }
        ensures cause { HasCause (faults self.old) (faults self.new) result }
        ensures steady { OnOk result (faults self.new ≡ faults self.old) };

    /// A disk as it reads is one of its images.
    ghost reads: { (disk : Self) → IsTrue (tells disk).content → IsTrue (tells disk).images →
        may_leave disk (content disk) };

    /// This moment is one of those since an earlier one.
    ghost counts_now: { (disk : Self) (since : ℕ) (image : Folder) → since ≤ moment disk →
        may_leave disk image → left_since disk since image };

    /// Since this moment there is no other.
    ghost only_now: { (disk : Self) (image : Folder) → left_since disk (moment disk) image →
        may_leave disk image };

    /// The moments since a later one are moments since an earlier one.
    ghost earlier: { (disk : Self) (since later : ℕ) (image : Folder) → since ≤ later →
        left_since disk later image → left_since disk since image };
}
