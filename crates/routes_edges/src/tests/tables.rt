// Small books, and the least lengths in them.
use book::flat::FlatBook;
use routes::alone::least_route;
use routes::refusal::SearchRefusal;
use survey::leg::LegRow;

pub fn row(from: u8, to: u8, passage: u8, length: u32) -> LegRow {
    LegRow {
        from,
        to,
        passage,
        length,
    }
}

pub fn open_leg(from: u8, to: u8, length: u32) -> LegRow {
    row(from, to, 1, length)
}

// The way round is shorter, though the far station is reached first by the long leg.
#[test]
fn three_legs(rt: HostRuntime) {
    let mut rows = [
        open_leg(0, 1, 5000),
        open_leg(1, 2, 3000),
        open_leg(0, 2, 9000),
    ];
    let cases = [
        (0, 2, 3, Ok(Some(8000))),
        (2, 0, 3, Ok(Some(8000))),
        (1, 0, 3, Ok(Some(5000))),
        (0, 2, 2, Ok(Some(8000))),
        (0, 2, 1, Ok(None)),
        (0, 2, 0, Ok(None)),
        (0, 3, 3, Ok(None)),
        (3, 0, 3, Ok(None)),
        (0, 0, 3, Ok(Some(0))),
        (7, 7, 0, Ok(Some(0))),
        (0, 2, 4, Err(SearchRefusal::NoLine)),
        (7, 7, 4, Err(SearchRefusal::NoLine)),
    ];
    let book = FlatBook::new(&mut rows);
    for (from, to, count, want) in cases {
        assert_eq!(rt; least_route(&book, from, to, count), want);
    }
}

// The answer from station 0 to station 1 over one row.
fn over_one_row(row: LegRow) -> Result<Option<u32>, SearchRefusal> {
    let mut rows = [row];
    least_route(&FlatBook::new(&mut rows), 0, 1, 1)
}

#[test]
fn one_row_at_the_edges_of_its_ranges(rt: HostRuntime) {
    let cases = [
        (row(0, 1, 1, 1), Some(1)),
        (row(1, 0, 1, 1), Some(1)),
        (row(0, 1, 1, 10_000_000), Some(10_000_000)),
        (row(0, 1, 1, 10_000_001), None),
        (row(0, 1, 1, 0), None),
        (row(0, 1, 1, u32::MAX), None),
        (row(0, 1, 0, 1), None),
        (row(0, 1, 2, 1), None),
        (row(0, 1, 255, 1), None),
        (row(0, 16, 1, 1), None),
        (row(16, 1, 1, 1), None),
        (row(16, 17, 1, 1), None),
        (row(0, 0, 1, 1), None),
        (row(1, 1, 1, 1), None),
    ];
    for (row, want) in cases {
        assert_eq!(rt; over_one_row(row), Ok(want));
    }
}

// Closed legs and rows outside the ranges hide nothing of the open ones beside them.
#[test]
fn closed_legs_are_passed_over(rt: HostRuntime) {
    let mut rows = [
        row(0, 1, 0, 1),
        row(0, 1, 1, 0),
        open_leg(0, 1, 9),
        row(0, 1, 2, 1),
        open_leg(1, 15, 4),
        row(0, 15, 0, 2),
        open_leg(0, 15, 14),
    ];
    let book = FlatBook::new(&mut rows);
    for (count, want) in [(2, None), (4, None), (5, Some(13)), (7, Some(13))] {
        assert_eq!(rt; least_route(&book, 0, 15, count), Ok(want));
    }
}

// Lays a chain of the longest legs through all stations, in the order in which each pass from station 0 reaches one more.
pub fn lay_chain(rows: &mut [LegRow]) {
    // Kept an index: zipped with the numbers, `iter_mut` is not known to end (tried with a range and with an array).
    for i in 0..15u8 {
        if let Some(leg) = rows.get_mut(i as usize) {
            *leg = open_leg(15 - i, 14 - i, 10_000_000);
        }
    }
}

#[test]
fn the_longest_chain(rt: HostRuntime) {
    let mut rows = [open_leg(0, 0, 1); 15];
    lay_chain(&mut rows);
    let book = FlatBook::new(&mut rows);
    for (from, to, want) in [
        (0, 15, 150_000_000),
        (15, 0, 150_000_000),
        (0, 14, 140_000_000),
        (7, 8, 10_000_000),
        (15, 15, 0),
    ] {
        assert_eq!(rt; least_route(&book, from, to, 15), Ok(Some(want)));
    }
    assert_eq!(rt; least_route(&book, 0, 15, 14), Ok(None));
}
