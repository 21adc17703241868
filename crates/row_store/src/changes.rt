// What a rewrite gives for the rows by number.
ghost use Rattle.std.specs.Prelude.{◌≡◌, List, length, Option as Maybe};
ghost use Rattle.rows.specs.Rows.{Row as TheRow};
ghost use Rattle.row_store.specs.Renewed.{change_at, row_given};

use packed::view::RowView;

// For each number a row in the place of the one there, or a further row; or nothing, where the row stays.
pub trait Changes {
    ghost given: { Self → List (Maybe TheRow) };

    fn count(&self) -> usize
        ensures { result ≡ length (given self.now) };

    fn change(&self, row: u16) -> Option<RowView<'_>>
        ensures { row_given result ≡ change_at (given self.now) row };
}
