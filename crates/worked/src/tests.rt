// The calls of the example in one list: that they are made, and answered as one by one.
use super::{Fit, PLACES, WAYS};
use costs::Whole;
use networks::{Redraw, Shut, WayRecord, WayTable};
use plan::{Answer, Call, Ending, Plan, run_calls};
use std::alloc::AllocError;

#[test]
fn the_calls_in_one_list(rt: HostRuntime) -> Result<(), AllocError> {
    let book = Call::Book {
        from: 1,
        to: 4,
        amount: 2,
    };
    let calls = [
        Call::Open,
        Call::Book {
            from: 0,
            to: 4,
            amount: 2,
        },
        book,
        Call::Settle { budget: 10 },
        book,
        Call::Route,
        Call::Settle { budget: 10 },
    ];
    let net: WayTable<Fit> = WayTable {
        places: PLACES,
        records: &WAYS,
    };
    let mut rows = [(0, 0); PLACES];
    let run = run_calls(rt.alloc(), net, &calls, &mut rows)?;
    let answers = [
        Answer::Opened,
        Answer::Booked,
        Answer::Booked,
        Answer::Ran {
            routes: 3,
            ending: Ending::Settled,
        },
        Answer::Booked,
        Answer::Sent {
            from: 1,
            to: 4,
            amount: 1,
        },
        Answer::Ran {
            routes: 0,
            ending: Ending::Blocked { at: 1 },
        },
    ];
    assert!(rt; run.answers.as_slice() == answers.as_slice());
    Ok(())
}

// Three places in a row; the second way is shut and the first marked.
#[test]
fn a_plan_over_layers(rt: HostRuntime) -> Result<(), AllocError> {
    let records = [
        WayRecord {
            tail: 0,
            head: 1,
            limit: 4,
            cost: 7,
        },
        WayRecord {
            tail: 1,
            head: 2,
            limit: 4,
            cost: 5,
        },
    ];
    let net: WayTable<Whole> = WayTable {
        places: 3,
        records: &records,
    };
    let mut shut = Shut::new(net);
    assert!(rt; shut.add(1).is_ok());
    let mut marked = Redraw::new(shut);
    assert!(rt; marked.add(0).is_ok());
    let mut plan = Plan::new(rt.alloc(), marked)?;
    let mut rows = [(0, 0); 3];
    assert!(rt; plan.open(&mut rows).is_ok());
    assert!(rt; plan.book(0, 2, 1).is_ok());
    let Ok(outcome) = plan.settle(&mut rows, 10) else {
        assert!(rt; false);
        return Ok(());
    };
    assert_eq!(rt; outcome.ending, Ending::Blocked { at: 0 });
    Ok(())
}
