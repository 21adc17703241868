// A store that has a cell for each pair of a tablet and a row.
#![tactic(auto)]

ghost use Rattle.std.specs.Prelude.{◌≡◌, ◌≤◌, min, IfOk, vec_len, length, count_by, replicate, is_some};
ghost use Rattle.holdings.specs.Maps.{size};
ghost use Rattle.holdings.specs.Spots.{rank_of};
ghost use Rattle.holdings.specs.Stores.{empty};
ghost use Rattle.cells.specs.Cells.{in_cells};
ghost use Rattle.std.proofs.Common.{subst};
ghost use Rattle.cells.specs.Laws.{held-inside};

use holdings::faults::StoreFault;
use holdings::spot::Spot;
use holdings::store::{Holdings, ROWS, TABLETS};
use std::alloc::{AllocError, Global};

// A cell for each of 16 tablets and 4,096 rows: 65,536.
const CELLS: usize = TABLETS as usize * ROWS as usize;

// The count is kept beside the cells, so that it need not be taken anew.
#[derive(Drop)]
pub struct Cells {
    cells: Vec<Option<u32>>,
    count: usize,
    most: usize,
    ghost long: { vec_len cells ≡ 65536 },
    ghost counted: { count ≡ size (in_cells cells.items) },
    ghost within: { count ≤ most },
    ghost bounded: { most ≤ 65536 },
}

// Where the cell of a spot stands.
fn place(spot: Spot) -> usize
    ensures { result ≡ rank_of spot }
{
    usize::from(spot.tablet) * usize::from(ROWS) + usize::from(spot.row)
}

// Empties some cells, and tells how many of them were full.
fn clear(cells: &mut [Option<u32>]) -> usize
    ensures full { result ≡ count_by is_some cells.old }
    ensures none { cells.new ≡ replicate (length cells.old) None }
{
    let full = cells.iter().filter(|cell| cell.is_some()).count();
    cells.fill(None);
    full
}

impl Cells {
    // An empty store that holds at most `most` pairs; a most above 65,536, the number of cells, counts as that.
    pub fn new(heap: Global, most: usize) -> Result<Cells, AllocError>
        ensures { IfOk result (λ s. ⟦<Cells as Holdings>⟧.state s ≡ empty (min most 65536)) }
    {
        let cells = vec![in heap; None; CELLS]?;
        Ok(Cells {
            cells,
            count: 0,
            most: most.min(CELLS),
        })
    }
}

impl Holdings for Cells {
    ghost state = { λ s. record { held = in_cells s.cells.items; most = s.most } };

    ghost inside = { λ s. held-inside s.cells.items };

    ghost within = { λ s. subst (λ n. n ≤ s.most) s.counted s.within };

    fn get(&self, tablet: u8, row: u16) -> Option<u32> {
        let spot = Spot::of(tablet, row)?;
        self.cells[place(spot)]
    }

    fn count(&self) -> usize {
        self.count
    }

    fn most(&self) -> usize {
        self.most
    }

    #[tactic(auto, using(crate::proofs::Celled::in_cells_put, crate::proofs::Celled::size_put))]
    fn set(&mut self, tablet: u8, row: u16, stamp: u32) -> Result<(), StoreFault> {
        let spot = Spot::of(tablet, row).ok_or(StoreFault::Full)?;
        let cell = &mut self.cells[place(spot)];
        if self.count >= self.most && cell.is_none() {
            return Err(StoreFault::Full);
        }
        // Counted without a branch, since no processor can tell in advance which cells are full.
        self.count += usize::from(cell.is_none());
        *cell = Some(stamp);
        Ok(())
    }

    #[tactic(auto, unfolding(holdings::specs::Maps::cleared))]
    fn forget(&mut self, tablet: u8) {
        // The cells of a tablet stand together.
        if let Some(first) = Spot::of(tablet, 0) {
            let start = place(first);
            self.count -= clear(&mut self.cells[start..start + usize::from(ROWS)]);
        }
    }
}
