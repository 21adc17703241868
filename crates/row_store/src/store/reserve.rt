// A store is reserved.
ghost use Rattle.std.specs.Prelude.{◌≡◌, [], IfOk};
ghost use Rattle.row_store.specs.Stores.{rows_now, rows_before, written};

use crate::Side;
use crate::reserved::Reserved;
use crate::store::{MOST_ROWS, RowStore};
use project::Room;
use std::alloc::{AllocError, Global};

impl RowStore {
    // A store with no rows. All the memory that it ever takes is taken here.
    pub fn reserve(heap: Global, room: Room) -> Result<RowStore, AllocError>
        ensures { IfOk result (λ s. (s.room ≡ room) × (rows_now s ≡ []) × (rows_before s ≡ []) × (written s ≡ 0)) }
    {
        let rows = room.rows.min(MOST_ROWS);
        let bytes = Reserved::new(heap, room.bytes)?;
        let current = Side::reserve(heap, rows, room.records)?;
        let former = Side::reserve(heap, rows, room.records)?;
        Ok(RowStore {
            room,
            bytes,
            current,
            former,
        })
    }
}
