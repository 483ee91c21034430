// Entries and searches alone, side by side.
use super::told;
use book::book::Book;
use book::flat::FlatBook;
use calls::order::Order;
use families::entry::Entry;
use jobs::alone::do_alone;
use jobs::beside::Beside;
use jobs::error::JobError;
use routes::family::Route;
use std::alloc::Global;
use std::test::Fail;
use survey::leg::LegRow;

fn open(from: u8, to: u8, length: u32) -> LegRow {
    LegRow {
        from,
        to,
        passage: 1,
        length,
    }
}

// What an order of the leg pair comes to on three legs, and line 1 after it.
fn done(
    heap: Global,
    kind: u32,
    numbers: (u32, u32, u32, u32),
) -> Result<((u32, u32, u32), LegRow), JobError> {
    let mut memory = [open(0, 1, 5000), open(1, 2, 3000), open(0, 2, 9000)];
    let pair = Beside::new(Route, Entry::new());
    let (a, b, c, d) = numbers;
    let order = Order { kind, a, b, c, d };
    let mut book = FlatBook::new(&mut memory);
    let came = told(do_alone(heap, &pair, &mut book, order, 1000))?;
    match book.read(1) {
        Ok(row) => Ok((came, row)),
        Err(_) => Ok(((98, 0, 0), open(0, 0, 0))),
    }
}

#[test]
fn searches_and_entries_alone(rt: HostRuntime) -> Result<(), Fail> {
    let as_it_was = open(1, 2, 3000);
    let closed = LegRow {
        passage: 0,
        ..as_it_was
    };
    let cases = [
        (0, (0, 2, 3, 0), (0, 0, 8000), as_it_was),
        (0, (2, 0, 3, 9), (0, 0, 8000), as_it_was),
        (0, (0, 2, 1, 0), (0, 1, 0), as_it_was),
        (0, (3, 3, 0, 0), (0, 0, 0), as_it_was),
        (0, (0, 15, 3, 0), (0, 1, 0), as_it_was),
        (0, (0, 16, 3, 0), (0, 9, 0), as_it_was),
        (0, (0, 2, 4, 0), (4, 0, 0), as_it_was),
        (0, (0, 2, 65, 0), (0, 9, 0), as_it_was),
        (
            1,
            (1, 15, 15, 10_000_000),
            (0, 0, 0),
            open(15, 15, 10_000_000),
        ),
        (1, (1, 1, 2, 1), (0, 0, 0), open(1, 2, 1)),
        (1, (1, 1, 2, 0), (0, 9, 12), as_it_was),
        (1, (1, 1, 2, 10_000_001), (0, 9, 12), as_it_was),
        (1, (1, 271, 2, 1), (0, 9, 11), as_it_was),
        (1, (9, 16, 2, 0), (0, 9, 11), as_it_was),
        (1, (3, 1, 2, 1), (4, 0, 0), as_it_was),
        (2, (1, 0, 0, 0), (0, 0, 0), closed),
        (2, (3, 0, 0, 0), (4, 0, 0), as_it_was),
        (3, (1, 0, 0, 0), (0, 9, 0), as_it_was),
    ];
    for (kind, numbers, came, line) in cases {
        assert_eq!(rt; done(rt.alloc(), kind, numbers)?, (came, line));
    }
    Ok(())
}
