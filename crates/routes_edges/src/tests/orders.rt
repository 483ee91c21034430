// Orders at their limits, as a call and as a job.
use super::tables::open_leg;
use book::flat::FlatBook;
use calls::ending::Ending;
use calls::order::Order;
use jobs::family::Family;
use jobs::request::Request;
use routes::alone::least_route;
use routes::family::Route;
use routes::refusal::SearchRefusal;

#[test]
fn stations_and_counts_at_their_limits(rt: HostRuntime) {
    let mut rows = [open_leg(0, 15, 7); 65];
    let cases = [
        (0, 15, 64, Ok(Some(7))),
        (15, 0, 1, Ok(Some(7))),
        (15, 15, 64, Ok(Some(0))),
        (0, 15, 65, Err(SearchRefusal::BadOrder)),
        (0, 0, 65, Err(SearchRefusal::BadOrder)),
        (16, 0, 1, Err(SearchRefusal::BadOrder)),
        (0, 16, 1, Err(SearchRefusal::BadOrder)),
        (16, 16, 0, Err(SearchRefusal::BadOrder)),
        (256, 15, 1, Err(SearchRefusal::BadOrder)),
        (0, 271, 1, Err(SearchRefusal::BadOrder)),
        (0, 15, 257, Err(SearchRefusal::BadOrder)),
        (u32::MAX, u32::MAX, u32::MAX, Err(SearchRefusal::BadOrder)),
    ];
    let book = FlatBook::new(&mut rows);
    for (from, to, count, want) in cases {
        assert_eq!(rt; least_route(&book, from, to, count), want);
    }
}

#[test]
fn a_bad_order_is_refused_before_a_missing_line(rt: HostRuntime) {
    let mut rows = [open_leg(0, 1, 1); 2];
    let book = FlatBook::new(&mut rows);
    assert_eq!(rt; least_route(&book, 0, 16, 3), Err(SearchRefusal::BadOrder));
    assert_eq!(rt; least_route(&book, 0, 1, 3), Err(SearchRefusal::NoLine));
    assert_eq!(rt; SearchRefusal::BadOrder.number(), 9);
    assert_eq!(rt; SearchRefusal::NoLine.number(), 4);
}

// What the first state of an order asks for: a line, or an end with its code and number.
// Kept numbers: the tables keep the values that they had.
fn first_request(kind: u32, a: u32, b: u32, c: u32, d: u32) -> (Option<u32>, u32, u32) {
    let order = Order { kind, a, b, c, d };
    match Route.request(Route.start(order)) {
        Request::Read { line } => (Some(line), 0, 0),
        Request::Write { line, value: _ } => (Some(line), u32::MAX, u32::MAX),
        Request::End(Ending { code, number }) => (None, code, number),
    }
}

#[test]
fn the_first_request_of_an_order(rt: HostRuntime) {
    let cases = [
        (0, 0, 15, 64, 0, (Some(0), 0, 0)),
        (0, 0, 15, 1, u32::MAX, (Some(0), 0, 0)),
        (0, 3, 3, 64, 0, (None, 0, 0)),
        (0, 3, 3, 0, 0, (None, 0, 0)),
        (0, 3, 4, 0, 0, (None, 1, 0)),
        (1, 0, 1, 1, 0, (None, 9, 0)),
        (u32::MAX, 0, 0, 0, 0, (None, 9, 0)),
        (0, 16, 1, 1, 0, (None, 9, 0)),
        (0, 1, 16, 1, 0, (None, 9, 0)),
        (0, 1, 2, 65, 0, (None, 9, 0)),
    ];
    for (kind, a, b, c, d, want) in cases {
        assert_eq!(rt; first_request(kind, a, b, c, d), want);
    }
}
