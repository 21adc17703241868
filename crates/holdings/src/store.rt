// What a store does, whatever it keeps its pairs in.
ghost use Rattle.std.specs.Prelude.{◌≡◌, ℕ, ◌<◌, ◌≤◌, true, is_some, is_ok, if◌then◌else◌};
ghost use Rattle.holdings.specs.Answers.{answered};
ghost use Rattle.holdings.specs.Maps.{size};
ghost use Rattle.holdings.specs.Stores.{Store, put, without, takes};

use super::faults::StoreFault;

// Tablets are 0 to 15.
pub const TABLETS: u8 = 16;

// Rows are 0 to 4,095.
pub const ROWS: u16 = 4096;

// A finite map from pairs of a tablet and a row to stamps. It has at most a settled number of pairs.
pub trait Holdings {
    // What is held, and the most pairs that may be held.
    ghost state: { Self → Store };

    fn get(&self, tablet: u8, row: u16) -> Option<u32>
        ensures { result ≡ (state self.now).held tablet row };

    fn count(&self) -> usize
        ensures { result ≡ size (state self.now).held };

    fn most(&self) -> usize
        ensures { result ≡ (state self.now).most };

    // Refused if the pair is out of range, or absent while the count is at the most.
    fn set(&mut self, tablet: u8, row: u16, stamp: u32) -> Result<(), StoreFault>
        ensures answer { result ≡ answered (takes (state self.old) tablet row) }
        ensures after { state self.new ≡ (if is_ok result then put (state self.old) tablet row stamp else state self.old) };

    // Removes the pairs of a tablet.
    fn forget(&mut self, tablet: u8)
        ensures { state self.new ≡ without (state self.old) tablet };

    // Nothing is held out of range.
    ghost inside: { (s : Self) (t r : ℕ) → is_some ((state s).held t r) ≡ true → (t < 16) × (r < 4096) };

    // No more is held than may be.
    ghost within: { (s : Self) → size (state s).held ≤ (state s).most };
}
