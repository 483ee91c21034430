// Transfers and counts alone, at their limits.
use super::told;
use book::flat::FlatBook;
use book::rows::Rows;
use calls::order::Order;
use families::count::Count;
use families::transfer::Transfer;
use jobs::alone::do_alone;
use jobs::beside::Beside;
use jobs::error::JobError;
use std::alloc::Global;
use std::test::Fail;
use survey::metres::MetresRow;
use survey::row::Row;

const LARGE: u32 = 4_294_967_295;

// What an order of the rope pair comes to on lines of 3, 1,000,000, 0 and a row outside the range:
// 0 with code and number, or the refusal by which it is stuck; and the metres of the four lines after it.
fn done(
    heap: Global,
    kind: u32,
    a: u32,
    b: u32,
    c: u32,
) -> Result<((u32, u32, u32), [u32; 4]), JobError> {
    let mut memory = [
        MetresRow { count: 3 },
        MetresRow { count: 1_000_000 },
        MetresRow { count: 0 },
        MetresRow { count: 1_000_001 },
    ];
    let pair = Beside::new(Transfer::new(), Count::new());
    let order = Order {
        kind,
        a,
        b,
        c,
        d: 77,
    };
    let mut book = FlatBook::new(&mut memory);
    let came = told(do_alone(heap, &pair, &mut book, order, 100))?;
    let mut after = [0; 4];
    for (count, row) in after.iter_mut().zip(Rows::new(&book)) {
        *count = row.or_blank().count();
    }
    Ok((came, after))
}

#[test]
fn transfers_at_their_limits(rt: HostRuntime) -> Result<(), Fail> {
    let as_it_was = [3, 1_000_000, 0, 0];
    let cases = [
        ((0, 2, 3), (0, 0, 0), [0, 1_000_000, 3, 0]),
        ((0, 2, 4), (0, 1, 0), as_it_was),
        ((0, 2, 5), (0, 1, 0), as_it_was),
        ((0, 2, LARGE), (0, 1, 0), as_it_was),
        ((0, 2, 0), (0, 0, 0), as_it_was),
        ((1, 2, 1_000_000), (0, 0, 0), [3, 0, 1_000_000, 0]),
        ((0, 1, 1), (0, 2, 0), as_it_was),
        ((1, 0, 999_997), (0, 0, 0), [1_000_000, 3, 0, 0]),
        ((1, 0, 999_998), (0, 2, 0), as_it_was),
        // too little in the first line comes before too much in the second
        ((0, 1, 4), (0, 1, 0), as_it_was),
        // the row outside the range is a line without rope
        ((3, 0, 1), (0, 1, 0), as_it_was),
        ((0, 3, 1), (0, 0, 0), [2, 1_000_000, 0, 1]),
        ((2, 2, 0), (0, 9, 0), as_it_was),
        ((4, 0, 1), (4, 0, 0), as_it_was),
        ((0, 4, 1), (4, 0, 0), as_it_was),
        ((LARGE, LARGE, 1), (0, 9, 0), as_it_was),
    ];
    for ((a, b, c), came, after) in cases {
        assert_eq!(rt; done(rt.alloc(), 0, a, b, c)?, (came, after));
    }
    Ok(())
}

#[test]
fn counts_at_their_limits(rt: HostRuntime) -> Result<(), Fail> {
    let cases = [
        (1, 0, (0, 0, 0)),
        (1, 1, (0, 0, 3)),
        (1, 4, (0, 0, 1_000_003)),
        (1, 5, (4, 0, 0)),
        (1, 64, (4, 0, 0)),
        (1, 65, (0, 9, 0)),
        (1, LARGE, (0, 9, 0)),
        (2, 1, (0, 9, 0)),
        (LARGE, 1, (0, 9, 0)),
    ];
    for (kind, a, came) in cases {
        assert_eq!(rt;
            done(rt.alloc(), kind, a, 0, 0)?,
            (came, [3, 1_000_000, 0, 0])
        );
    }
    Ok(())
}
