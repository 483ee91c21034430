// The ranges of legs and metres.
use survey::leg::{Leg, LegRow};
use survey::metres::{Metres, MetresRow};
use survey::row::Row;

// The number of the fault of four numbers, or 0 where they are a leg. Kept a number: the tables keep the values that they had.
fn leg_fault(from: u32, to: u32, passage: u32, length: u32) -> u32 {
    Leg::new(from, to, passage, length)
        .err()
        .map_or(0, |fault| fault.number())
}

#[test]
fn legs_at_their_edges(rt: HostRuntime) {
    let cases = [
        (0, 0, 0, 0, 12),
        (0, 0, 0, 1, 0),
        (15, 15, 1, 10_000_000, 0),
        (15, 15, 1, 10_000_001, 12),
        (16, 15, 2, 0, 11),
        (15, 16, 2, 0, 11),
        (15, 15, 2, 0, 12),
        (15, 15, 2, 1, 13),
        // at full width: 271 is no 15
        (271, 0, 1, 1, 11),
        (0, 0, 257, 1, 13),
        (0, 0, 0, 4_294_967_295, 12),
    ];
    for (from, to, passage, length, want) in cases {
        assert_eq!(rt; leg_fault(from, to, passage, length), want);
    }
}

#[test]
fn rows_outside_the_ranges_are_blank(rt: HostRuntime) {
    let blank = LegRow {
        from: 0,
        to: 0,
        passage: 0,
        length: 1,
    };
    let leg = LegRow {
        from: 15,
        to: 3,
        passage: 1,
        length: 10_000_000,
    };
    let cases = [
        (leg, leg),
        (LegRow { from: 16, ..leg }, blank),
        (LegRow { to: 255, ..leg }, blank),
        (LegRow { passage: 2, ..leg }, blank),
        (LegRow { length: 0, ..leg }, blank),
        (
            LegRow {
                length: 10_000_001,
                ..leg
            },
            blank,
        ),
    ];
    for (row, want) in cases {
        assert_eq!(rt; LegRow::from(row.or_blank()), want);
    }
}

#[test]
fn metres_at_their_edges(rt: HostRuntime) {
    let cases = [
        (0, 0, 0),
        (1_000_000, 0, 1_000_000),
        (1_000_001, 15, 0),
        (4_294_967_295, 15, 0),
    ];
    for (count, fault, counted) in cases {
        let row = MetresRow { count };
        let number = Metres::try_from(row)
            .err()
            .map_or(0, |fault| fault.number());
        assert_eq!(rt; number, fault);
        assert_eq!(rt; row.or_blank().count(), counted);
    }
}
