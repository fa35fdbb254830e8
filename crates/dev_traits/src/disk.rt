ghost use Rattle.std.specs.Prelude.{◌≡◌, ◌+◌, ◌*◌, ◌≤◌, ℕ, List, length, OnOk, OnErr, IsErr, slice_range};
ghost use Rattle.std.specs.Option.{ForSome};
ghost use Rattle.dev_traits.specs.Counts.{HasCause, one_more};
ghost use Rattle.dev_traits.specs.Commits.{wrote, synced, unchanged};
ghost use Rattle.dev_traits.specs.Disk.{DiskView, LeftNow, Passes, NoMore, NoLess, Torn, OnlyReading, Puts, Tears, CommitsBy};
ghost use Rattle.lists.specs.Bytes.{AreBytes};

/// A call of a disk or a sink that failed.
#[derive(Clone, Copy, Debug, Drop, PartialEq, Eq)]
pub struct Failed;

/// A disk of blocks of 4,096 bytes. Places and lengths are in bytes.
pub trait Disk {
    ghost view: { Self → DiskView };

    /// The number of blocks, which no call changes.
    fn blocks(&self) -> u64
        ensures { result ≡ (view self.now).blocks };

    /// A number that never falls, to name what a stop since then could have left.
    fn moment(&self) -> u64
        ensures { result ≡ (view self.now).moment };

    /// Reads the bytes from `place` on; after a failure `into` may hold anything.
    fn read_at(&mut self, place: u64, into: &mut [u8]) -> Result<(), Failed>
        requires { place + length into.old ≤ 4096 * (view self.old).blocks }
        ensures bytes { OnOk result
            (ForSome (view self.old).reading
            (λ r. into.new ≡ slice_range r place (place + length into.old))) }
        ensures reading { (view self.new).reading ≡ (view self.old).reading }
        ensures no_more { NoMore (view self.old) (view self.new) }
        ensures no_less { NoLess (view self.old) (view self.new) }
        ensures time { Passes (view self.old) (view self.new) }
        ensures commits { CommitsBy unchanged (view self.old) (view self.new) }
        ensures blocks { (view self.new).blocks ≡ (view self.old).blocks }
        ensures writes { (view self.new).writes ≡ (view self.old).writes }
        ensures faults { HasCause (view self.old).faults (view self.new).faults (IsErr result) };

    /// Writes the bytes from `place` on. Until a sync answers Ok, a stop may leave any bytes in the range, also after a failure.
    fn write_at(&mut self, place: u64, bytes: &[u8]) -> Result<(), Failed>
        requires within { place + length bytes.now ≤ 4096 * (view self.old).blocks }
        requires few { length bytes.now ≤ 4096 }
        ensures ok { OnOk result (Puts place bytes.now (view self.old) (view self.new)) }
        ensures err { OnErr result
            (Tears place (length bytes.now) (view self.old) (view self.new)) }
        ensures torn { Torn place (length bytes.now) (view self.old) (view self.new) }
        ensures time { Passes (view self.old) (view self.new) }
        ensures commits { OnOk result
            (CommitsBy (wrote place bytes.now) (view self.old) (view self.new)) }
        ensures commits_err { OnErr result (CommitsBy unchanged (view self.old) (view self.new)) }
        ensures blocks { (view self.new).blocks ≡ (view self.old).blocks }
        ensures writes { (view self.new).writes ≡ one_more (view self.old).writes }
        ensures faults { HasCause (view self.old).faults (view self.new).faults (IsErr result) };

    /// After it answered Ok, a stop leaves what a read gives. A failure settles nothing.
    fn sync(&mut self) -> Result<(), Failed>
        ensures only { OnOk result (OnlyReading (view self.new)) }
        ensures reading { (view self.new).reading ≡ (view self.old).reading }
        ensures no_more { NoMore (view self.old) (view self.new) }
        ensures no_less { OnErr result (NoLess (view self.old) (view self.new)) }
        ensures time { Passes (view self.old) (view self.new) }
        ensures commits { OnOk result (CommitsBy synced (view self.old) (view self.new)) }
        ensures commits_err { OnErr result (CommitsBy unchanged (view self.old) (view self.new)) }
        ensures blocks { (view self.new).blocks ≡ (view self.old).blocks }
        ensures writes { (view self.new).writes ≡ (view self.old).writes }
        ensures faults { HasCause (view self.old).faults (view self.new).faults (IsErr result) };

    /// The reading is one of the images.
    ghost reading_left: { (d : Self) → ForSome (view d).reading (λ r. LeftNow (view d) r) };

    /// A later start allows no further image.
    ghost fewer_later: { (d : Self) (t u : ℕ) (image : List ℕ) → t ≤ u → (view d).left u image
        → (view d).left t image };

    /// Each image has the disk's size.
    ghost image_size: { (d : Self) (t : ℕ) (image : List ℕ) → (view d).left t image
        → length image ≡ 4096 * (view d).blocks };

    /// Each image is of bytes.
    ghost image_bytes: { (d : Self) (t : ℕ) (image : List ℕ) → (view d).left t image
        → AreBytes image };
}
