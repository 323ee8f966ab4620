// Two studies share five places: the calls of a plan, made one after the other, and what it answers.
#![tactic(auto)]

#[cfg(test)]
mod tests;

use costs::{Cost, Pair, Whole};
use networks::{Refusal, WayRecord, WayTable};
use plan::Plan;
use std::fmt;

// Redraws, then misfit in tenths of a millimetre.
type Fit = Pair<Whole, Whole>;

type Row = (i64, i64);

type Study<'a> = Plan<WayTable<'a, Fit>>;

const PLACES: usize = 5;

const WAYS: [WayRecord<Row>; 5] = [
    WayRecord {
        tail: 0,
        head: 2,
        limit: 4,
        cost: (0, 1),
    },
    WayRecord {
        tail: 0,
        head: 3,
        limit: 4,
        cost: (1, 6),
    },
    WayRecord {
        tail: 1,
        head: 2,
        limit: 4,
        cost: (0, 2),
    },
    WayRecord {
        tail: 2,
        head: 4,
        limit: 3,
        cost: (0, 0),
    },
    WayRecord {
        tail: 3,
        head: 4,
        limit: 2,
        cost: (0, 0),
    },
];

// A total as it is told, and below the prices: the lines of `jobs`, which this crate does not see.
#[derive(Clone, Copy)]
struct Total(Fit);

impl fmt::Display for Total {
    fn fmt<W: fmt::Write>(&self, f: &mut fmt::Formatter<W>) -> fmt::Result {
        let (redraws, misfit) = self.0.row();
        write!(f, "total {redraws} {misfit}")
    }
}

// What was answered to a call, or why it was refused.
fn tell<T: fmt::Display + Drop>(
    rt: &HostRuntime,
    answer: Result<T, Refusal>,
) -> anyhow::Result<()> {
    match answer {
        Ok(said) => println!(rt; "{said}")?,
        Err(refusal) => println!(rt; "{refusal}")?,
    }
    Ok(())
}

// The prices that stand in the rows.
fn print_prices(rt: &HostRuntime, rows: &[Row]) -> anyhow::Result<()> {
    print!(rt; "prices")?;
    for (redraws, misfit) in rows {
        print!(rt; " {redraws} {misfit}")?;
    }
    println!(rt)?;
    Ok(())
}

// The load of each way, the rest of each place and the number of routes.
fn print_state(rt: &HostRuntime, plan: &Study) -> anyhow::Result<()> {
    print!(rt; "loads")?;
    for load in (0..WAYS.len()).filter_map(|way| plan.load(way).ok()) {
        print!(rt; " {load}")?;
    }
    print!(rt; "\nrests")?;
    for rest in (0..PLACES).filter_map(|place| plan.rest(place).ok()) {
        print!(rt; " {rest}")?;
    }
    if let Ok(count) = plan.count() {
        print!(rt; "\nroutes {count}\n")?;
    }
    Ok(())
}

fn print_reach(rt: &HostRuntime, plan: &Study, from: usize) -> anyhow::Result<()> {
    let mut marks = [0; PLACES];
    if let Err(refusal) = plan.reach(from, &mut marks) {
        println!(rt; "{refusal}")?;
        return Ok(());
    }
    print!(rt; "reach of {from}:")?;
    for (place, mark) in marks.iter().enumerate() {
        if *mark == 1 {
            print!(rt; " {place}")?;
        }
    }
    println!(rt)?;
    Ok(())
}

fn study(rt: &HostRuntime) -> anyhow::Result<()> {
    let net = WayTable {
        places: PLACES,
        records: &WAYS,
    };
    let mut plan: Study = Plan::new(rt.alloc(), net)?;
    let mut rows = [(0, 0); PLACES];
    tell(rt, plan.open(&mut rows).map(|()| "open"))?;
    tell(rt, plan.book(0, 4, 2).map(|()| "booked"))?;
    tell(rt, plan.book(1, 4, 2).map(|()| "booked"))?;
    tell(rt, plan.settle(&mut rows, 10))?;
    tell(rt, plan.total().map(Total))?;
    if let Ok(()) = plan.prices(&mut rows) {
        print_prices(rt, &rows)?;
    }
    tell(rt, plan.book(1, 4, 2).map(|()| "booked"))?;
    tell(rt, plan.route(&mut rows))?;
    tell(rt, plan.settle(&mut rows, 10))?;
    tell(rt, plan.total().map(Total))?;
    print_state(rt, &plan)?;
    print_reach(rt, &plan, 1)
}

fn main(rt: HostRuntime) -> anyhow::Result<()> {
    study(&rt)
}
