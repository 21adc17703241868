// A row read where it lies: its names are parts of the bytes, and so are its import records.
ghost use Rattle.packed.specs.Imports.{Whole};

use rows::Facts;

// A row but for its import records.
#[derive(Clone, Copy)]
pub struct RowHead<'a> {
    pub number: u16,
    pub facts: Facts,
    pub id: &'a [u8],
    pub stable_id: &'a [u8],
}

// The import records of a row. Going over them takes one after another off the front.
#[derive(Clone, Copy)]
pub struct Imports<'a> {
    pub count: u16,
    pub bytes: &'a [u8],
    pub ghost whole: { Whole count bytes.now },
}

// A row that was read.
#[derive(Clone, Copy)]
pub struct RowView<'a> {
    pub head: RowHead<'a>,
    pub imports: Imports<'a>,
}

// A row whose import records are not looked at: it may not be allowed, and its last bytes may be no import records.
#[derive(Clone, Copy)]
pub struct Outline<'a> {
    pub head: RowHead<'a>,
    pub count: u16,
    pub imports: &'a [u8],
}
