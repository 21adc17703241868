// Whether a list has the rows that were asked for.
ghost use Rattle.std.specs.Prelude.{◌≡◌, ℕ, ◌<◌, ◌≤◌, true, false, not, List, length, is_some, None, slice_index_or};
ghost use Rattle.std.specs.List.{list_all};
ghost use Rattle.rows.specs.Numbers.{member};
ghost use Rattle.rows.specs.Rows.{Row};
ghost use Rattle.packed_layout.specs.Layout.{Entry};
ghost use Rattle.project.specs.Rescan.{rows_fault, numbers, unasked};
ghost use Rattle.module_table.specs.Drafts.{blank, places_by};

use crate::places::Places;
use std::marker::Model;

// Which rows of a table were touched. There is memory for as many as row numbers can tell apart.
#[derive(Drop)]
pub struct Marks {
    rows: Vec<bool>,
}

impl Model for Marks {
    ghost use Rattle.std.specs.Prelude.{Bool, List, ◌≤◌, vec_items, vec_capacity};

    ghost Value = { List Bool };

    ghost view = { λ m. vec_items m.rows };

    ghost invariant = { λ m. 65536 ≤ vec_capacity m.rows };
}

impl Marks {
    // Marks the touched rows among so many, and no others.
    fn mark(&mut self, count: usize, touched: &[u16])
        requires { count ≤ 65536 }
        ensures sized { length self.new ≡ count }
        ensures marked { (r : ℕ) → r < count → slice_index_or self.new r false ≡ member r touched.now }
    {
        self.rows.clear();
        // There is memory for all of them, so this does not fail.
        self.rows.resize(count, false).unwrap();
        for row in touched {
            if let Some(mark) = self.rows.get_mut(usize::from(*row)) {
                *mark = true;
            }
        }
    }

    // Whether each row that a mark stands for is marked if it has a place.
    fn cover_all(&self, places: &Places) -> bool
        ensures yes { result ≡ true → (k : ℕ) → k < length self.now → is_some (slice_index_or places.now k None) ≡ true → slice_index_or self.now k false ≡ true }
        ensures no { result ≡ false → (k : ℕ) × (k < length self.now) × (is_some (slice_index_or places.now k None) ≡ true) × (slice_index_or self.now k false ≡ false) }
    {
        self.rows
            .iter()
            .enumerate()
            .all(|(row, marked)| *marked || places.get(row).is_none())
    }
}

// Whether every touched row has a place.
fn are_placed(places: &Places, touched: &[u16]) -> bool
    ensures { result ≡ list_all (λ t. is_some (slice_index_or places.now t None)) touched.now }
{
    touched
        .iter()
        .all(|row| places.get(usize::from(*row)).is_some())
}

// Whether a list has just the touched rows of the table, and further rows only if some row was touched.
// `places` are those of the list; a row of the table is below `held`.
pub(crate) fn are_asked(held: usize, places: &Places, marks: &mut Marks, touched: &[u16]) -> bool
    requires within { held ≤ length places.now }
    ensures { (table : List Row) (es : List Entry) → length table ≡ held → places.now ≡ places_by (blank held) es → rows_fault table es ≡ None → result ≡ not (unasked table touched.now (numbers es)) }
{
    let count = places.len();
    if !are_placed(places, touched) {
        return false;
    }
    marks.mark(held, touched);
    marks.cover_all(places) && (!touched.is_empty() || count == held)
}
