// What can be done with any store: a list of rows put, and all forgotten.
ghost use Rattle.std.specs.Prelude.{◌≡◌, is_ok, if◌then◌else◌};
ghost use Rattle.holdings.specs.Answers.{answered};
ghost use Rattle.holdings.specs.Stores.{empty};
ghost use Rattle.holdings.specs.Puts.{put_all, absent, rows_in_range, takes_all, stamp_in, OneByOne};

use super::faults::StoreFault;
use super::store::{Holdings, ROWS, TABLETS};

fn rows_in_range(rows: &[u16]) -> bool
    ensures { result ≡ rows_in_range rows.now }
{
    rows.iter().all(|row| *row < ROWS)
}

fn count_absent<S: Holdings>(store: &S, tablet: u8, rows: &[u16]) -> usize
    ensures { result ≡ absent (S.state store.now).held tablet rows.now }
{
    rows.iter()
        .filter(|row| store.get(tablet, **row).is_none())
        .count()
}

// The stamp of a row, where the stamps stand by row number: 0 for a number past their end.
fn stamp_of(stamps: &[u32], row: u16) -> u32
    ensures { result ≡ stamp_in stamps.now row }
{
    stamps.get(usize::from(row)).copied().unwrap_or(0)
}

// Refuses a tablet or a row out of range, and a list with more absent rows than there is room for.
fn check_room<S: Holdings>(store: &S, tablet: u8, rows: &[u16]) -> Result<(), StoreFault>
    ensures { result ≡ answered (takes_all (S.state store.now) tablet rows.now) }
{
    if tablet < TABLETS
        && rows_in_range(rows)
        && count_absent(store, tablet, rows) <= store.most() - store.count()
    {
        Ok(())
    } else {
        Err(StoreFault::Full)
    }
}

// Puts each of the rows at its stamp, or refuses them all.
pub fn put_all<S: Holdings>(
    store: &mut S,
    tablet: u8,
    rows: &[u16],
    stamps: &[u32],
) -> Result<(), StoreFault>
    ensures answer { result ≡ answered (takes_all (S.state store.old) tablet rows.now) }
    ensures after { S.state store.new ≡ (if is_ok result then put_all (S.state store.old) tablet rows.now (stamp_in stamps.now) else S.state store.old) }
    ensures one_by_one { OneByOne (S.state store.old) tablet rows.now (stamp_in stamps.now) (is_ok result) (S.state store.new) }
{
    check_room(store, tablet, rows)?;
    // There is room for every row of the list, so none is refused from here on.
    for row in rows {
        store.set(tablet, *row, stamp_of(stamps, *row))?;
    }
    Ok(())
}

// Forgets every tablet.
#[tactic(auto, using(crate::proofs::Emptying::emptying))]
pub fn forget_all<S: Holdings>(store: &mut S)
    ensures { S.state store.new ≡ empty (S.state store.old).most }
{
    for tablet in 0..TABLETS {
        store.forget(tablet);
    }
}
