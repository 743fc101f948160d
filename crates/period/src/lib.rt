// Clearing one period over the ladders of the two zones, or refusing it.
#![tactic(auto)]

ghost use Rattle.std.specs.Prelude.{◌≡◌, Decides, IfOk, OnOk};
ghost use Rattle.market.specs.Refusals.{FirstCause};
ghost use Rattle.period.specs.Periods.{AfterClear, Cleared, LadderFits, LadderSound, clear_causes};

use auction::engine::{Clearing, Engine};
use ladders::ladders::{Ladder, Ladders};
use market::capacities::Capacities;
use market::purchase::Purchase;
use market::refusal::Refusal;
use market::sale::Sale;
use rules::price::PriceRule;
use rules::sharing::SharingRule;
use table::table::Table;

// Two checks and not one over a closure: the two tables of a ladder are of two types, and a closure takes one.
fn fits(ladder: &Ladder) -> bool
    ensures { Decides result (LadderFits ladder.now) }
{
    ladder.sales.fits() && ladder.purchases.fits()
}

fn is_sound(ladder: &Ladder) -> bool
    ensures { Decides result (LadderSound ladder.now) }
{
    ladder.sales.is_sound() && ladder.purchases.is_sound()
}

// The first cause against clearing the ladders, or the capacities.
fn check(ladders: &Ladders, forward: u32, backward: u32) -> Result<Capacities, Refusal>
    ensures why { FirstCause (clear_causes forward backward ladders.now) result }
    ensures passed { OnOk result ((LadderFits ladders.now.one × LadderFits ladders.now.two) × (LadderSound ladders.now.one × LadderSound ladders.now.two)) }
    ensures same { IfOk result (λ c. (c.forward ≡ forward) × (c.backward ≡ backward)) }
{
    if !(fits(&ladders.one) && fits(&ladders.two)) {
        return Err(Refusal::TableSize);
    }
    if !(is_sound(&ladders.one) && is_sound(&ladders.two)) {
        return Err(Refusal::TableDisturbed);
    }
    Capacities::new(forward, backward)
}

// Clears the counted rows of four tables. They come one by one, as the rows behind a table behind a ladder are one reference deeper
// than the borrow checker covers.
fn clear_counted<P: PriceRule, S: SharingRule>(
    engine: &Engine<P, S>,
    sales_one: &mut Table<Sale>,
    purchases_one: &mut Table<Purchase>,
    sales_two: &mut Table<Sale>,
    purchases_two: &mut Table<Purchase>,
    capacities: Capacities,
) -> Clearing
    requires fits { LadderFits (record { sales = sales_one.old; purchases = purchases_one.old }) × LadderFits (record { sales = sales_two.old; purchases = purchases_two.old }) }
    requires sound { LadderSound (record { sales = sales_one.old; purchases = purchases_one.old }) × LadderSound (record { sales = sales_two.old; purchases = purchases_two.old }) }
    ensures { Cleared (S.SharingRule.meaning engine.now.sharing_rule) (P.PriceRule.meaning engine.now.price_rule) capacities.forward capacities.backward (record { sales = sales_one.old; purchases = purchases_one.old }) (record { sales = sales_two.old; purchases = purchases_two.old }) (record { sales = sales_one.new; purchases = purchases_one.new }) (record { sales = sales_two.new; purchases = purchases_two.new }) result }
{
    let n = sales_one.count;
    let m = purchases_one.count;
    let i = sales_two.count;
    let j = purchases_two.count;
    engine.clear(
        &mut sales_one.rows[0..n],
        &mut purchases_one.rows[0..m],
        &mut sales_two.rows[0..i],
        &mut purchases_two.rows[0..j],
        capacities,
    )
}

// Clears the ladders of the two zones.
fn clear_ladders<P: PriceRule, S: SharingRule>(
    engine: &Engine<P, S>,
    one: &mut Ladder,
    two: &mut Ladder,
    capacities: Capacities,
) -> Clearing
    requires fits { LadderFits one.old × LadderFits two.old }
    requires sound { LadderSound one.old × LadderSound two.old }
    ensures { Cleared (S.SharingRule.meaning engine.now.sharing_rule) (P.PriceRule.meaning engine.now.price_rule) capacities.forward capacities.backward one.old two.old one.new two.new result }
{
    clear_counted(
        engine,
        &mut one.sales,
        &mut one.purchases,
        &mut two.sales,
        &mut two.purchases,
        capacities,
    )
}

// Clears the period with these capacities, from zone 1 to zone 2 and from zone 2 to zone 1.
pub fn clear_period<P: PriceRule, S: SharingRule>(
    engine: &Engine<P, S>,
    ladders: &mut Ladders,
    forward: u32,
    backward: u32,
) -> Result<Clearing, Refusal>
    ensures why { FirstCause (clear_causes forward backward ladders.old) result }
    ensures after { AfterClear (S.SharingRule.meaning engine.now.sharing_rule) (P.PriceRule.meaning engine.now.price_rule) forward backward ladders.old ladders.new result }
{
    let capacities = check(ladders, forward, backward)?;
    Ok(clear_ladders(engine, &mut ladders.one, &mut ladders.two, capacities))
}
