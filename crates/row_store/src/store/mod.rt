// The rows of a table, and the rows before, in memory that is reserved once.
ghost use Rattle.std.specs.Prelude.{◌≡◌, ◌≤◌, length};
ghost use Rattle.rows.specs.Numbers.{total};
ghost use Rattle.project.specs.Rescan.{records_of};
ghost use Rattle.row_store.specs.Sides.{rows_in, Stands, Few, Roomy};

use crate::Side;
use crate::reserved::Reserved;
use project::Room;

mod refill;
mod reserve;
mod rewrite;
mod views;

// There are no more rows than this, whatever the room.
const MOST_ROWS: usize = 4096;

// The two sides share the bytes of the names, since a row keeps its names in a rewrite. The ghost fields say that all vectors are
// just as large as the room and hold no more than that, that all parts of the rows are there, and that the rows have just the
// import records that are held.
#[derive(Drop)]
pub struct RowStore {
    room: Room,
    bytes: Reserved<u8>,
    current: Side,
    former: Side,
    ghost roomy: { Roomy room current × Roomy room former × (bytes.most ≡ room.bytes) },
    ghost few: { Few room current × Few room former },
    ghost held: { (length current.records.items ≤ room.records) × (length former.records.items ≤ room.records) × (length bytes.items ≤ room.bytes) },
    ghost sound: { Stands bytes.items current × Stands bytes.items former },
    ghost counted: { (length current.records.items ≡ total records_of (rows_in bytes.items current)) × (length former.records.items ≡ total records_of (rows_in bytes.items former)) },
}
