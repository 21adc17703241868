// What a store shows.
ghost use Rattle.std.specs.Prelude.{◌≡◌, []};
ghost use Rattle.row_store.specs.Sides.{SameSize};
ghost use Rattle.row_store.specs.Views.{viewed};
ghost use Rattle.row_store.specs.Stores.{rows_now, rows_before, written};

use crate::graph::TableView;
use crate::store::RowStore;
use project::Room;

impl RowStore {
    pub fn room(&self) -> Room
        ensures { result ≡ self.now.room }
    {
        self.room
    }

    // The rows.
    pub fn current(&self) -> TableView<'_>
        ensures { viewed result ≡ rows_now self.now }
    {
        self.current.view(self.bytes.as_slice())
    }

    // The rows as they were before the last rewrite.
    pub fn before(&self) -> TableView<'_>
        ensures { viewed result ≡ rows_before self.now }
    {
        self.former.view(self.bytes.as_slice())
    }

    // Lets go of the rows before.
    pub fn let_go(&mut self)
        ensures before { rows_before self.new ≡ [] }
        ensures after { rows_now self.new ≡ rows_now self.old }
        ensures written { written self.new ≡ written self.old }
        ensures same { self.new.room ≡ self.old.room }
        ensures sized { (self.new.bytes.most ≡ self.old.bytes.most) × SameSize self.old.current self.new.current × SameSize self.old.former self.new.former }
    {
        self.former.clear();
    }
}
