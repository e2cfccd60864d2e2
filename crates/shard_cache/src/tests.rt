//! Evictions within a budget, the order call by call, and many rows that are touched often.

ghost use Rattle.std.specs.Prelude.{◌≡◌, [], IfOk};
ghost use Rattle.shard_cache.specs.Recency.{listing};

use crate::Recency;
use std::test::Fail;

// A list with the memory of so many rows.
fn with_rows(rt: &HostRuntime, budget: u64, rows: u64) -> Result<Recency, Fail>
    ensures { IfOk result (λ recency. recency ≡ listing [] rows budget) }
{
    let mut recency = Recency::new(rt.alloc(), budget);
    for _ in 0..rows {
        recency.reserve_row()?;
    }
    Ok(recency)
}

// Two rows of size 6 in a budget of 10, and then one of size 11 that does not fit alone.
#[test]
fn evicts_the_least_recently_used(rt: HostRuntime) -> Result<(), Fail> {
    let mut recency = with_rows(&rt, 10, 3)?;
    recency.add(0, 6);
    recency.add(1, 6);
    assert!(rt;
        recency.total() > recency.budget() as u128,
        "12 is above 10"
    );
    assert_eq!(rt; recency.oldest(), Some(0));
    recency.remove(0);
    recency.add(2, 11);
    assert_eq!(rt; (recency.oldest(), recency.total()), (Some(1), 17));
    recency.remove(1);
    assert_eq!(rt; (recency.oldest(), recency.total()), (Some(2), 11));
    recency.remove(2);
    assert_eq!(rt; (recency.oldest(), recency.total()), (None, 0));
    Ok(())
}

#[test]
fn moves_what_is_touched_to_the_front(rt: HostRuntime) -> Result<(), Fail> {
    let mut recency = with_rows(&rt, 0, 5)?;
    recency.add(3, 30);
    recency.add(0, 1);
    recency.add(4, 400);
    assert_eq!(rt; (recency.rows(), recency.spare()), (5, 2));
    recency.touch(3);
    assert_eq!(rt; recency.oldest(), Some(0));
    recency.touch(4);
    assert_eq!(rt; recency.oldest(), Some(0));
    recency.touch(0);
    assert_eq!(rt; recency.oldest(), Some(3));
    recency.remove(4);
    assert_eq!(rt;
        (recency.oldest(), recency.total(), recency.spare()),
        (Some(3), 31, 3)
    );
    Ok(())
}

const MANY: u64 = 100_000;

// A list of so many rows, each of size 1.
fn with_listed(rt: &HostRuntime, rows: u64) -> Result<Recency, Fail> {
    let mut recency = with_rows(rt, 0, rows)?;
    for row in 0..rows {
        recency.add(row, 1);
    }
    Ok(recency)
}

// Touching the least recent row goes round all of them, here four times. With a list that is searched
// this is far too slow.
#[test]
fn touches_many_rows_often(rt: HostRuntime) -> Result<(), Fail> {
    let mut recency = with_listed(&rt, MANY)?;
    for _ in 0..4 * MANY {
        if let Some(row) = recency.oldest() {
            recency.touch(row);
        }
    }
    assert_eq!(rt;
        (recency.oldest(), recency.total()),
        (Some(0), MANY as u128)
    );
    Ok(())
}
