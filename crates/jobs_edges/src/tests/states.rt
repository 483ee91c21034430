// States made by hand, and the writes that a job holds.
use book::flat::FlatBook;
use calls::ending::Ending;
use calls::order::Order;
use families::count::{Count, Tally};
use families::transfer::{Move, Transfer, TransferState};
use jobs::family::Family;
use jobs::job::Job;
use jobs::request::Request;
use std::test::Fail;
use survey::metres::MetresRow;

#[test]
fn a_move_is_read_from_its_first_line(rt: HostRuntime) {
    let asked = Move {
        from: 1,
        to: 2,
        metres: 3,
    };
    let request = Transfer::new().request(Ok(TransferState::Leaving(asked)));
    assert!(rt; matches!(&request, Request::Read { line: 1 }));
}

#[test]
fn a_tally_ends_with_its_sum(rt: HostRuntime) {
    let tally = Tally {
        line: 2,
        end: 2,
        sum: 7,
    };
    let request = Count::new().request(Ok(tally));
    assert!(rt; matches!(&request, Request::End(Ending { code: 0, number: 7 })));
}

#[test]
fn a_job_holds_its_writes_until_it_ends(rt: HostRuntime) -> Result<(), Fail> {
    let mut memory = [MetresRow { count: 5 }; 2];
    let mut book = FlatBook::new(&mut memory);
    let transfer = Transfer::new();
    let order = Order {
        kind: 0,
        a: 0,
        b: 1,
        c: 4,
        d: 0,
    };
    let mut job = Job::start(rt.alloc(), &transfer, order)?;
    for held in [0, 0, 0, 1, 2] {
        assert_eq!(rt; job.held(), held);
        let _ = job.turn(&transfer, &mut book);
    }
    assert_eq!(rt; job.held(), 2);
    Ok(())
}
