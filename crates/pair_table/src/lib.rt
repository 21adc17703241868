// A store of few pairs: a table in order of tablet and row, found by bisection.
#![tactic(auto)]

ghost use Rattle.std.specs.Prelude.{◌≡◌, ◌≤◌, min, IfOk, vec_len, vec_capacity, is_some, is_ok, MatchResult};
ghost use Rattle.holdings.specs.Spots.{rank_of};
ghost use Rattle.holdings.specs.Stores.{empty};
ghost use Rattle.pair_table.specs.Pairs.{in_pairs, Ordered, Found, Missing};
ghost use Rattle.pair_table.specs.Laws.{held-inside, held-within};

mod pair;

use holdings::faults::StoreFault;
use holdings::spot::Spot;
use holdings::store::{Holdings, ROWS};
use pair::Pair;
use std::alloc::{AllocError, Global};

// Pairs are shifted to keep the order, so a table is for few of them.
const PAIRS: usize = 512;

// Memory for `most` pairs is reserved, and those that are held stand in order.
#[derive(Drop)]
pub struct PairTable {
    pairs: Vec<Pair>,
    most: usize,
    ghost few: { vec_len pairs ≤ most },
    ghost reserved: { most ≤ vec_capacity pairs },
    ghost ordered: { Ordered pairs.items },
}

// The place of a spot in their order, in one number, which is compared at once.
fn rank(spot: Spot) -> u16
    ensures { result ≡ rank_of spot }
{
    u16::from(spot.tablet) * ROWS + spot.row
}

impl PairTable {
    // An empty store that holds at most `most` pairs; a most above 512 counts as that. Its memory is reserved here, once.
    pub fn new(heap: Global, most: usize) -> Result<PairTable, AllocError>
        ensures { IfOk result (λ s. ⟦<PairTable as Holdings>⟧.state s ≡ empty (min most 512)) }
    {
        let most = most.min(PAIRS);
        let pairs = Vec::with_capacity(heap, most)?;
        Ok(PairTable { pairs, most })
    }

    // Where the pair of a spot stands, or else where it belongs.
    fn find(&self, spot: Spot) -> Result<usize, usize>
        ensures place { MatchResult result (Found self.now.pairs.items spot) (Missing self.now.pairs.items spot) }
        ensures held { is_ok result ≡ is_some (in_pairs self.now.pairs.items spot.tablet spot.row) }
    {
        self.pairs
            .binary_search_by_key(&rank(spot), |pair| rank(pair.spot))
    }
}

impl Holdings for PairTable {
    ghost state = { λ s. record { held = in_pairs s.pairs.items; most = s.most } };

    ghost inside = { λ s. held-inside s.pairs.items };

    ghost within = { λ s. held-within s.pairs.items s.pairs.len s.most s.ordered s.pairs.ok.0 s.few };

    #[tactic(auto, using(crate::proofs::Paired::in_pairs_outside, crate::proofs::Searched::found_stamp))]
    fn get(&self, tablet: u8, row: u16) -> Option<u32> {
        let spot = Spot::of(tablet, row)?;
        let i = self.find(spot).ok()?;
        Some(self.pairs[i].stamp)
    }

    #[tactic(auto, using(crate::specs::Laws::size_pairs))]
    fn count(&self) -> usize {
        self.pairs.len()
    }

    fn most(&self) -> usize {
        self.most
    }

    #[tactic(auto, using(crate::proofs::Searched::found_stamp, crate::specs::Laws::size_pairs))]
    fn set(&mut self, tablet: u8, row: u16, stamp: u32) -> Result<(), StoreFault> {
        let spot = Spot::of(tablet, row).ok_or(StoreFault::Full)?;
        match self.find(spot) {
            Ok(i) => self.pairs[i].stamp = stamp,
            Err(i) if self.pairs.len() < self.most => {
                // The capacity is reserved, so this finds its place.
                let _ = self.pairs.insert(i, Pair { spot, stamp });
            }
            Err(_) => return Err(StoreFault::Full),
        }
        Ok(())
    }

    fn forget(&mut self, tablet: u8) {
        self.pairs.retain(|pair| pair.spot.tablet != tablet);
    }
}
