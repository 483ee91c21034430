// A route job turn by turn: which lines it reads, how soon it ends, and what a write or a read out of turn does.
use super::tables::{lay_chain, open_leg};
use calls::ending::Ending;
use calls::order::Order;
use jobs::family::Family;
use jobs::request::Request;
use routes::family::Route;
use routes::reach::{Reach, STATIONS, Station};
use routes::search::{Next, Search};
use std::test::Fail;
use survey::leg::LegRow;

// How a job ended: after so many reads, all in order or not, with a code and a number.
type Course = (u32, bool, u32, u32);

// The course of a job over all rows, cut off after a thousand reads.
fn course(rows: &[LegRow], a: u32, b: u32) -> Course {
    let c = rows.len().min(64) as u32;
    let order = Order {
        kind: 0,
        a,
        b,
        c,
        d: 0,
    };
    let mut state = Route.start(order);
    let mut in_order = true;
    let mut expected = 0;
    for reads in 0..1000u32 {
        match Route.request(state) {
            Request::Read { line } => {
                in_order = in_order && line == expected;
                expected = if line < 64 && line + 1 < c {
                    line + 1
                } else {
                    0
                };
                if let Some(row) = rows.get(line as usize) {
                    state = Route.after_read(state, *row);
                }
            }
            Request::Write { line: _, value: _ } => return (reads, false, 0, 0),
            Request::End(Ending { code, number }) => return (reads, in_order, code, number),
        }
    }
    (1000, false, 0, 0)
}

#[test]
fn lines_are_read_in_order_once_for_each_station(rt: HostRuntime) {
    let rows = [
        open_leg(0, 1, 5000),
        open_leg(1, 2, 3000),
        open_leg(0, 2, 9000),
    ];
    let cases = [
        (0, 2, (6, true, 0, 8000)),
        (0, 1, (3, true, 0, 5000)),
        (2, 0, (6, true, 0, 8000)),
        (0, 3, (9, true, 1, 0)),
        (3, 0, (3, true, 1, 0)),
        (1, 1, (0, true, 0, 0)),
    ];
    for (a, b, want) in cases {
        assert_eq!(rt; course(&rows, a, b), want);
    }
}

// Fifteen passes over 64 lines are the most: the last station of a chain is found after 960 reads.
#[test]
fn the_most_turns(rt: HostRuntime) {
    let mut rows = [open_leg(3, 3, 1); 64];
    lay_chain(&mut rows);
    assert_eq!(rt; course(&rows, 0, 15), (960, true, 0, 150_000_000));
}

// Among stations that are equally near the lowest number is finished first: the job that looks for it ends a pass sooner.
#[test]
fn the_lowest_number_among_equals(rt: HostRuntime) {
    let rows = [open_leg(0, 9, 5), open_leg(0, 4, 5), open_leg(0, 7, 5)];
    let cases = [
        (0, 4, (3, true, 0, 5)),
        (0, 7, (6, true, 0, 5)),
        (0, 9, (9, true, 0, 5)),
    ];
    for (a, b, want) in cases {
        assert_eq!(rt; course(&rows, a, b), want);
    }
}

// A job that has ended, or that a write is reported to, stays as it is.
#[test]
fn moves_out_of_turn_change_nothing(rt: HostRuntime) -> Result<(), Fail> {
    let order = Order {
        kind: 0,
        a: 2,
        b: 2,
        c: 1,
        d: 0,
    };
    let ended = Route.after_write(Route.after_read(Route.start(order), open_leg(0, 1, 1)));
    let Request::End(Ending { code, number }) = Route.request(ended) else {
        return Err(Fail::new("the job goes on"));
    };
    assert_eq!(rt; (code, number), (0, 0));
    Ok(())
}

// What a job ends with whose first station stands so far away, once it has read the leg of 10 from there to its target.
fn past(distance: u32) -> Request<LegRow> {
    let unknown = Station {
        distance: None,
        finished: false,
    };
    let mut stations = [unknown; STATIONS];
    stations[0] = Station {
        distance: Some(distance),
        finished: true,
    };
    let search = Search {
        target: 1,
        count: 1,
        next: Next::Line {
            station: 0,
            line: 0,
        },
        reach: Reach { stations },
    };
    Route.request(Route.after_read(Ok(search), open_leg(0, 1, 10)))
}

#[test]
fn a_sum_past_all_lengths_is_no_route(rt: HostRuntime) {
    let far = past(4_294_967_284);
    assert!(rt;
        matches!(
            &far,
            Request::End(Ending {
                code: 0,
                number: 4_294_967_294
            })
        )
    );
    for distance in [4_294_967_285, 4_294_967_290, 4_294_967_294] {
        let none = past(distance);
        assert!(rt; matches!(&none, Request::End(Ending { code: 1, number: 0 })));
    }
}
