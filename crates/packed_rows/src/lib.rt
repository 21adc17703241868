// A packed list that is read where it lies: where its records begin.
#![tactic(auto)]

ghost use Rattle.std.specs.Prelude.{◌≡◌};
ghost use Rattle.packed_rows.specs.Lists.{WellFormed, offsets};
ghost use Rattle.packed_rows.specs.declared.OpenFault.TheVariants.{Row};
ghost use Rattle.packed_layout.specs.declared.faults.RowFault.TheVariants.{Record};

use packed_layout::faults::{FaultAt, RowFault};

pub mod entries;
pub mod graph;
pub mod list;

// A list whose records are all well formed, and their offsets.
#[derive(Drop)]
pub struct PackedRows<'a> {
    bytes: &'a [u8],
    places: Vec<usize>,
    ghost formed: { WellFormed bytes.now },
    ghost placed: { offsets bytes.now ≡ places.items },
}

// Why a list is not opened: one of its records, or too few places for its rows.
#[derive(Clone, Copy, Debug, PartialEq, Eq)]
pub enum OpenFault {
    Row(RowFault),
    Short { wanted: usize },
}

impl From<RowFault> for OpenFault {
    ghost from_gives = { λ fault r. r ≡ Row fault };

    fn from(fault: RowFault) -> OpenFault {
        OpenFault::Row(fault)
    }
}

impl From<FaultAt> for OpenFault {
    ghost from_gives = { λ at r. r ≡ Row (Record at) };

    fn from(at: FaultAt) -> OpenFault {
        OpenFault::Row(RowFault::Record(at))
    }
}

// A fault, and the places that were handed in.
#[derive(Drop)]
pub struct Unopened {
    pub cause: OpenFault,
    pub places: Vec<usize>,
}
