// One pair of a tablet and a row, with its stamp.
use holdings::spot::Spot;

#[derive(Clone, Copy)]
pub struct Pair {
    pub(super) spot: Spot,
    pub(super) stamp: u32,
}
