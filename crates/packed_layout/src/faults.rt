// Why a packed record or a row is refused.
ghost use Rattle.std.specs.Prelude.{◌≡◌, Some};
ghost use Rattle.packed_layout.specs.Faults.{record_number, row_number, row_offset, fault_text};
ghost use Rattle.packed_layout.specs.declared.faults.RowFault.TheVariants.{Record};

use std::fmt;

// What is wrong with a record.
#[derive(Clone, Copy, Debug, PartialEq, Eq)]
pub enum RecordFault {
    EndsInside,
    UnknownKind,
    BrokenLayout,
}

// A record's fault, and where the record begins.
#[derive(Clone, Copy, Debug, PartialEq, Eq)]
pub struct FaultAt {
    pub fault: RecordFault,
    pub offset: usize,
}

// What is wrong with a row: its record, its number, or its names and sort.
#[derive(Clone, Copy, Debug, PartialEq, Eq)]
pub enum RowFault {
    Record(FaultAt),
    OutOfTurn { offset: usize },
    NameClash { offset: usize },
}

impl From<FaultAt> for RowFault {
    ghost from_gives = { λ at r. r ≡ Record at };

    fn from(at: FaultAt) -> RowFault {
        RowFault::Record(at)
    }
}

impl RecordFault {
    // Refusals are numbered: scripts and logs tell them by these numbers, as docs/CALLS.md lists them.
    fn number(self) -> u8
        ensures { result ≡ record_number self }
    {
        match self {
            RecordFault::EndsInside => 1,
            RecordFault::UnknownKind => 2,
            RecordFault::BrokenLayout => 3,
        }
    }
}

impl RowFault {
    // The number by which the refusal is told.
    pub fn number(self) -> u8
        ensures { result ≡ row_number self }
    {
        match self {
            RowFault::Record(at) => at.fault.number(),
            RowFault::OutOfTurn { .. } => 4,
            RowFault::NameClash { .. } => 5,
        }
    }

    // Where the record begins that the fault is of.
    pub fn offset(self) -> usize
        ensures { result ≡ row_offset self }
    {
        match self {
            RowFault::Record(at) => at.offset,
            RowFault::OutOfTurn { offset } | RowFault::NameClash { offset } => offset,
        }
    }
}

impl fmt::Display for RowFault {
    ghost output = { λ fault. Some (fault_text fault) };

    fn fmt<W: fmt::Write>(&self, f: &mut fmt::Formatter<W>) -> fmt::Result {
        write!(f, "refused {} at {}", self.number(), self.offset())
    }
}

impl std::error::Error for RowFault {}
