use super::*;
use costs::{Cost, Pair, Whole};
use std::test::Fail;

const GROUPS: [Group; 2] = [
    Group {
        length: 2650,
        count: 3,
    },
    Group {
        length: 2710,
        count: 1,
    },
];

const LASTS: [Last; 3] = [
    Last {
        length: 2640,
        stock: 2,
    },
    Last {
        length: 2700,
        stock: 5,
    },
    Last {
        length: 2720,
        stock: 0,
    },
];

// Shut over redraw over shut over a grid.
#[test]
fn a_pile_is_a_network(rt: HostRuntime) -> Result<(), Fail> {
    let mut low = Shut::new(SizeGrid {
        groups: &GROUPS,
        lasts: &LASTS,
    });
    assert!(rt; low.add(4).is_ok());
    let mut middle = Redraw::new(low);
    assert!(rt; middle.add(1).is_ok());
    assert!(rt; middle.add(1).is_ok());
    let mut top = Shut::new(middle);
    assert!(rt; top.add(9).is_err());
    assert!(rt; top.add(8).is_ok());
    assert_eq!(rt; top.places(), 6);
    assert_eq!(rt; top.ways(), 9);
    assert_eq!(rt;
        top.way(4),
        Some(Ends {
            tail: 1,
            head: 3,
            limit: 0,
        })
    );
    assert_eq!(rt;
        top.way(8),
        Some(Ends {
            tail: 4,
            head: 5,
            limit: 0,
        })
    );
    assert_eq!(rt;
        top.way(7),
        Some(Ends {
            tail: 3,
            head: 5,
            limit: 5,
        })
    );
    let Some(cost) = top.cost(1) else {
        assert!(rt; false);
        return Ok(());
    };
    assert_eq!(rt; cost.row(), (1, 50));
    assert!(rt; top.cost(9).is_none());
    Ok(())
}
