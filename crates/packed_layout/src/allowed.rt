// Which rows the packed form allows.
ghost use Rattle.std.specs.Prelude.{◌≡◌, ◌||◌};
ghost use Rattle.rows.specs.Rows.{is_normal_sort};
ghost use Rattle.packed_layout.specs.Layout.{bare};

use rows::{ExportsKind, Facts, Flags, Sort};

// An external row has nothing but its names and its mark.
pub fn is_allowed(facts: Facts, records: usize) -> bool
    ensures { result ≡ (is_normal_sort facts.sort || bare facts.flags facts.exports records) }
{
    facts.sort == Sort::Normal
        || facts.flags == Flags::default() && facts.exports == ExportsKind::None && records == 0
}
