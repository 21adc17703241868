// The calls that a script makes, and what can be wrong with a line.
ghost use Rattle.std.specs.Prelude.{◌≡◌, Some};
ghost use Rattle.script.specs.Faults.{told};
ghost use Rattle.script.specs.declared.call.LineFault.TheVariants.{Memory};

use rows::{Facts, ImportRecord};
use std::alloc::{AllocError, AllocFailed};
use std::error::Error;
use std::fmt;

// A row as a line tells it.
#[derive(Drop)]
pub struct RowLine {
    pub number: u16,
    pub facts: Facts,
    pub id: Vec<u8>,
    pub stable_id: Vec<u8>,
    pub records: Vec<ImportRecord>,
}

// The room that a table is to have. Not `project`'s: a script's numbers have 64 bits, and a type over the width of both is no plainer.
#[derive(Clone, Copy)]
pub struct Room {
    pub rows: u64,
    pub records: u64,
    pub bytes: u64,
}

// What a line of the script asks for.
#[derive(Drop)]
pub enum Call {
    Blank,
    Room(Room),
    Row(RowLine),
    Raw(Vec<u8>),
    List,
}

// Why a line can't be read.
#[derive(Clone, Copy, PartialEq, Eq, Debug)]
pub enum LineFault {
    Memory,
    UnknownCall,
    MissingWord,
    SurplusWord,
    NotANumber,
    NotBytes,
    UnknownSetting,
}

impl fmt::Display for LineFault {
    ghost output = { λ fault. Some (told fault) };

    fn fmt<W: fmt::Write>(&self, f: &mut fmt::Formatter<W>) -> fmt::Result {
        f.write_str(match self {
            LineFault::Memory => "there is no memory for it",
            LineFault::UnknownCall => "no such call",
            LineFault::MissingWord => "a word is missing",
            LineFault::SurplusWord => "there is a word too many",
            LineFault::NotANumber => "a number is expected, and not too large a one",
            LineFault::NotBytes => "bytes in base sixteen are expected, two digits each",
            LineFault::UnknownSetting => "a word says nothing that a row can be told",
        })
    }
}

impl Error for LineFault {}

impl From<AllocError> for LineFault {
    ghost from_gives = { λ _ r. r ≡ Memory };

    fn from(_e: AllocError) -> LineFault {
        LineFault::Memory
    }
}

impl<T: Drop> From<AllocFailed<T>> for LineFault {
    ghost from_gives = { λ _ r. r ≡ Memory };

    fn from(_e: AllocFailed<T>) -> LineFault {
        LineFault::Memory
    }
}
