// Both stores are taken through the same steps, and compared pair by pair.
use cells::Cells;
use holdings::faults::StoreFault;
use holdings::store::{Holdings, ROWS, TABLETS};
use holdings::uses::put_all;
use pair_table::PairTable;
use std::process::Abort;
use std::test::Fail;

#[derive(Clone, Copy)]
enum Step {
    Set(u8, u16, u32),
    Put(u8, &'static [u16]),
    Forget(u8),
}

// The stamps of a list that is put: a row past their end is put at 0.
const STAMPS: [u32; 3] = [20, 21, 22];

const FULL: Result<(), StoreFault> = Err(StoreFault::Full);

// Each step, what it answers, and the count after it. The stores hold at most four pairs.
const STEPS: [(Step, Result<(), StoreFault>, usize); 24] = [
    (Step::Forget(0), Ok(()), 0),
    (Step::Set(15, 4095, 1), Ok(()), 1),
    (Step::Set(0, 0, 2), Ok(()), 2),
    (Step::Set(16, 0, 3), FULL, 2),
    (Step::Set(0, 4096, 3), FULL, 2),
    (Step::Set(255, 65535, 3), FULL, 2),
    (Step::Set(1, 0, 4), Ok(()), 3),
    (Step::Put(0, &[0, 1, 4095]), FULL, 3),
    (Step::Put(0, &[0, 4096]), FULL, 3),
    (Step::Put(16, &[]), FULL, 3),
    (Step::Put(0, &[4095, 0]), Ok(()), 4),
    (Step::Set(0, 1, 6), FULL, 4),
    (Step::Set(0, 0, 7), Ok(()), 4),
    (Step::Set(15, 4095, 4294967295), Ok(()), 4),
    (Step::Set(16, 0, 8), FULL, 4),
    (Step::Forget(16), Ok(()), 4),
    (Step::Forget(2), Ok(()), 4),
    (Step::Forget(0), Ok(()), 2),
    (Step::Put(0, &[2, 1]), Ok(()), 4),
    (Step::Put(0, &[1, 2, 2]), Ok(()), 4),
    (Step::Set(14, 4095, 0), FULL, 4),
    (Step::Forget(15), Ok(()), 3),
    (Step::Set(14, 4095, 0), Ok(()), 4),
    (Step::Forget(14), Ok(()), 3),
];

fn take_step<S: Holdings>(store: &mut S, step: Step) -> Result<(), StoreFault> {
    match step {
        Step::Set(tablet, row, stamp) => store.set(tablet, row, stamp),
        Step::Put(tablet, rows) => put_all(store, tablet, rows, &STAMPS),
        Step::Forget(tablet) => {
            store.forget(tablet);
            Ok(())
        }
    }
}

// Compares every pair, and one tablet and one row past the range.
fn check_same<S: Holdings, T: Holdings>(rt: &impl Abort, one: &S, other: &T) {
    for tablet in 0..=TABLETS {
        for row in 0..=ROWS {
            assert_eq!(rt; one.get(tablet, row), other.get(tablet, row));
        }
    }
    assert_eq!(rt; one.most(), other.most());
    assert_eq!(rt; one.count(), other.count());
}

#[test]
fn stores_agree(rt: HostRuntime) -> Result<(), Fail> {
    let mut wide = Cells::new(rt.alloc(), 4)?;
    let mut narrow = PairTable::new(rt.alloc(), 4)?;
    for (step, expected, count) in STEPS {
        let answer = take_step(&mut narrow, step);
        assert_eq!(rt; take_step(&mut wide, step), answer);
        assert_eq!(rt; answer, expected);
        assert_eq!(rt; narrow.count(), count);
        check_same(&rt, &wide, &narrow);
    }
    assert_eq!(rt; narrow.get(0, 2), Some(22));
    Ok(())
}

// A table of 512 pairs is filled from the last to the first.
#[test]
fn full_stores_agree(rt: HostRuntime) -> Result<(), Fail> {
    let mut wide = Cells::new(rt.alloc(), 512)?;
    let mut narrow = PairTable::new(rt.alloc(), 70000)?;
    for k in (0..=512u16).rev() {
        // The tablet is at most 15, so the cast loses nothing.
        let step = Step::Set((k / 33) as u8, k, u32::from(k));
        let answer = take_step(&mut narrow, step);
        assert_eq!(rt; take_step(&mut wide, step), answer);
        assert_eq!(rt; answer.is_ok(), k > 0);
    }
    check_same(&rt, &wide, &narrow);
    Ok(())
}
