// A pair of a tablet and a row that are in range.
ghost use Rattle.std.specs.Prelude.{◌≡◌, ◌<◌, is_some, IfSome};
ghost use Rattle.std.specs.Option.{option_map};
ghost use Rattle.holdings.specs.Maps.{in_range, ranged};

use super::store::{ROWS, TABLETS};

// Spots are in the order of tablets and, within a tablet, of rows.
#[derive(Clone, Copy, PartialEq, Eq, PartialOrd, Ord, Debug)]
pub struct Spot {
    pub tablet: u8,
    pub row: u16,
    ghost tablet_in_range: { tablet < 16 },
    ghost row_in_range: { row < 4096 },
}

impl Spot {
    // The spot of a tablet and a row, if both are in range.
    pub fn of(tablet: u8, row: u16) -> Option<Spot>
        ensures value { option_map (λ s. (s.tablet, s.row)) result ≡ ranged tablet row }
        ensures in_range { is_some result ≡ in_range tablet row }
        ensures pair { IfSome result (λ s. (s.tablet ≡ tablet) × (s.row ≡ row)) }
    {
        if tablet < TABLETS && row < ROWS {
            Some(Spot { tablet, row })
        } else {
            None
        }
    }
}
