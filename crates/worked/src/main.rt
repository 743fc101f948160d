// Runs the worked results of docs/WORKED.md that need no call file, and says whether all of them come out.
#![tactic(auto)]

ghost use Rattle.std.specs.Prelude.{◌≡◌, true};
ghost use Rattle.worked.specs.All.{AllWorked};

mod cases;

use auction::engine::{Clearing, Engine};
use cases::{AT_MIDPOINT_CASES, BY_PRECEDENCE_CASES, Case, IN_PROPORTION_CASES, Lot};
use ladders::ladders::{Ladder, Ladders};
use market::block::{Bid, BlockKey};
use market::purchase::Purchase;
use market::refusal::Refusal;
use market::row::BlockRow;
use market::sale::Sale;
use market::zone::{Side, Zone};
use period::clear_period;
use rules::price::{LowEnd, Midpoint, PriceRule};
use rules::sharing::{ByPrecedence, InProportion, SharingRule};
use settlement::rounding::nearest_cent;
use table::record::Record;
use table::table::Table;

const PLACES: usize = 256;

const BY_PRECEDENCE: Engine<LowEnd, ByPrecedence> = Engine {
    price_rule: LowEnd,
    sharing_rule: ByPrecedence,
};

const IN_PROPORTION: Engine<LowEnd, InProportion> = Engine {
    price_rule: LowEnd,
    sharing_rule: InProportion,
};

const AT_MIDPOINT: Engine<Midpoint, ByPrecedence> = Engine {
    price_rule: Midpoint,
    sharing_rule: ByPrecedence,
};

fn bid_of(lot: &Lot) -> Bid {
    Bid {
        agent: 1,
        unit: lot.unit,
        number: 1,
        stamp: 0,
        price: lot.price,
        volume: lot.volume,
    }
}

// What is matched of the block with the key, if the table counts one.
fn matched_in<R: BlockRow + Record<Key = BlockKey>>(
    table: &Table<R>,
    key: BlockKey,
) -> Option<u32> {
    let place = table.find(key)?;
    Some(table.rows.get(place)?.block().matched)
}

// What is matched of a lot, once it was cleared.
fn matched(ladders: &Ladders, lot: &Lot) -> Option<u32> {
    let ladder = match Zone::try_from(lot.zone).ok()? {
        Zone::One => &ladders.one,
        Zone::Two => &ladders.two,
    };
    let key = bid_of(lot).key();
    match lot.side {
        Side::Sale => matched_in(&ladder.sales, key),
        Side::Purchase => matched_in(&ladder.purchases, key),
    }
}

fn enter(lots: &[Lot], ladders: &mut Ladders) -> Result<(), Refusal> {
    for lot in lots {
        ladders.enter(lot.zone, lot.side, bid_of(lot))?;
    }
    Ok(())
}

// What the case's blocks clear to.
fn clear<P: PriceRule, S: SharingRule>(
    engine: &Engine<P, S>,
    case: &Case,
    ladders: &mut Ladders,
) -> Result<Clearing, Refusal> {
    enter(case.lots, ladders)?;
    clear_period(engine, ladders, case.forward, case.backward)
}

// Whether the case comes out, from empty ladders.
fn comes_out<P: PriceRule, S: SharingRule>(
    engine: &Engine<P, S>,
    case: &Case,
    ladders: &mut Ladders,
) -> bool {
    clear(engine, case, ladders) == Ok(case.clearing)
        && case
            .lots
            .iter()
            .all(|lot| matched(ladders, lot) == Some(lot.matched))
}

// Whether every case comes out; names those that do not.
fn all_come_out<P: PriceRule, S: SharingRule>(
    rt: &HostRuntime,
    engine: &Engine<P, S>,
    cases: &[Case],
) -> anyhow::Result<bool> {
    let heap = rt.alloc();
    let mut all = true;
    for case in cases {
        // Four by name: a ladder borrows two, and a value that held all four would have to lend them one by one.
        let mut sales_one = vec![in heap; Sale::default(); PLACES]?;
        let mut purchases_one = vec![in heap; Purchase::default(); PLACES]?;
        let mut sales_two = vec![in heap; Sale::default(); PLACES]?;
        let mut purchases_two = vec![in heap; Purchase::default(); PLACES]?;
        let one = Ladder::new(&mut sales_one, &mut purchases_one);
        let two = Ladder::new(&mut sales_two, &mut purchases_two);
        let mut ladders = Ladders::new(one, two);
        if !comes_out(engine, case, &mut ladders) {
            all = false;
            println!(rt; "(differs {})", case.name)?;
        }
    }
    Ok(all)
}

// The definitions give all of them.
fn definitions_agree() -> bool
    ensures { AllWorked × (result ≡ true) }
{
    true
}

// The midpoint of −3 and 0, and the rounding of halves.
fn numbers_come_out() -> bool {
    Midpoint.price(-3, 0) == -2
        && nearest_cent(2005) == 201
        && nearest_cent(-2005) == -201
        && nearest_cent(2004) == 200
}

fn main(rt: HostRuntime) -> anyhow::Result<()> {
    let precedence = all_come_out(&rt, &BY_PRECEDENCE, &BY_PRECEDENCE_CASES)?;
    let proportion = all_come_out(&rt, &IN_PROPORTION, &IN_PROPORTION_CASES)?;
    let midpoint = all_come_out(&rt, &AT_MIDPOINT, &AT_MIDPOINT_CASES)?;
    if definitions_agree() && numbers_come_out() && precedence && proportion && midpoint {
        println!(rt; "(worked results agree)")?;
    }
    Ok(())
}
