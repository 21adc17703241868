// Why a list of packed rows is refused by a table.
ghost use Rattle.std.specs.Prelude.{◌≡◌};
ghost use Rattle.project.specs.Faults.{rescan_number};
ghost use Rattle.project.specs.declared.faults.RescanFault.TheVariants.{Row};

use packed_layout::faults::RowFault;

// A fault of one of its rows; or of the list: not the rows that were asked for, a target that is
// no row, more than there is room for.
#[derive(Clone, Copy, Debug, PartialEq, Eq)]
pub enum RescanFault {
    Row(RowFault),
    WrongRows,
    NoTarget,
    NoRoom,
}

impl From<RowFault> for RescanFault {
    ghost from_gives = { λ fault r. r ≡ Row fault };

    fn from(fault: RowFault) -> RescanFault {
        RescanFault::Row(fault)
    }
}

impl RescanFault {
    // The number by which the refusal is told.
    pub fn number(self) -> u8
        ensures { result ≡ rescan_number self }
    {
        match self {
            RescanFault::Row(fault) => fault.number(),
            RescanFault::WrongRows => 6,
            RescanFault::NoTarget => 7,
            RescanFault::NoRoom => 8,
        }
    }
}
