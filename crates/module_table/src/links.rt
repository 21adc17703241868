// Whether the rows of a list lead to rows that there are not.
ghost use Rattle.std.specs.Prelude.{◌≡◌, nat_le};
ghost use Rattle.rows.specs.Numbers.{any};
ghost use Rattle.rows.specs.Rows.{resolved};
ghost use Rattle.packed.specs.Views.{shown};
ghost use Rattle.packed_rows.specs.Entries.{readable};
ghost use Rattle.project.specs.Rescan.{dangling, rows_of};

use packed::view::RowView;
use packed_rows::entries::Entries;

// Whether a target is none of so many rows. An import that was not resolved has no target.
fn is_missing(count: usize, target: Option<u16>) -> bool
    ensures { result ≡ any (nat_le count) (resolved target) }
{
    target.is_some_and(|row| usize::from(row) >= count)
}

// Whether a row has a target that is none of so many rows.
fn has_dangling(count: usize, row: &RowView<'_>) -> bool
    ensures { result ≡ dangling count (shown row.now).1 }
{
    let mut imports = row.imports;
    imports.any(|record| is_missing(count, record.target))
}

// Whether some row of a list has such a target.
pub(crate) fn leads_nowhere(count: usize, bytes: &[u8]) -> bool
    ensures { result ≡ any (dangling count) (rows_of (readable bytes.now 0)) }
{
    Entries::over(bytes).any(|(_, row)| has_dangling(count, &row))
}
