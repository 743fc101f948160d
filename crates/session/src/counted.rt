// Clearing and settling the counted rows of the tables, once these are checked.
ghost use Rattle.std.specs.Prelude.{◌≡◌};
ghost use Rattle.market.specs.Places.{SamePlaces};
ghost use Rattle.market.specs.Refusals.{FirstCause};
ghost use Rattle.settlement.specs.Settling.{settle_causes};
ghost use Rattle.session.specs.Outcomes.{Posts, Reports, ReportsAndWrites, held_for, outcome_at, scheduled};
ghost use Rattle.session.specs.Causes.{BlocksFit, BlocksInOrder, clear_causes, settle_causes as exchange-settle-causes};
ghost use Rattle.session.specs.Changes.{Leaves};
ghost use Rattle.session.specs.Lending.{blocks_held, four_held};
ghost use Rattle.session.specs.Tables.{Fits, account_kind, lent, rows_of};

use crate::ledger::Ledger;
use crate::report::Report;
use crate::session::Session;
use auction::engine::Engine;
use market::account::Account;
use market::places::BlockPlaces;
use market::refusal::Refusal;
use rules::price::PriceRule;
use rules::sharing::SharingRule;
use settlement::entry::Entry;
use settlement::session::{ClearedSession, ClearedZone};
use settlement::settle::Settled;
use table::view::View;

// Writes what is matched of each counted block, and reports prices, flow and surplus.
fn clear_counted<P: PriceRule, S: SharingRule>(
    engine: &Engine<P, S>,
    session: Session,
    blocks: &mut BlockPlaces<'_>,
) -> Report
    requires fit { BlocksFit (blocks_held session blocks.old) }
    requires sound { BlocksInOrder (blocks_held session blocks.old) }
    ensures report { Reports (outcome_at (S.SharingRule.meaning engine.now.sharing_rule) (P.PriceRule.meaning engine.now.price_rule) session (four_held blocks.old)) result }
    ensures places { four_held blocks.new ≡ scheduled (outcome_at (S.SharingRule.meaning engine.now.sharing_rule) (P.PriceRule.meaning engine.now.price_rule) session (four_held blocks.old)) session (four_held blocks.old) }
    ensures lent { SamePlaces blocks.old blocks.new }
{
    let clearing = engine.clear(
        &mut blocks.sales_one[..session.one.sales],
        &mut blocks.purchases_one[..session.one.purchases],
        &mut blocks.sales_two[..session.two.sales],
        &mut blocks.purchases_two[..session.two.purchases],
        session.capacities,
    );
    Report {
        price_one: clearing.price_one,
        price_two: clearing.price_two,
        flow: clearing.flow as i32,
        surplus: clearing.surplus,
    }
}

// Writes the entries of the matched blocks and posts them to the counted accounts.
fn settle_counted<P, S>(
    engine: &Engine<P, S>,
    session: Session,
    report: Report,
    ledger: Ledger,
    blocks: &BlockPlaces<'_>,
    accounts: &mut [Account],
    entries: &mut [Entry],
) -> Result<Settled, Refusal>
    requires fit { BlocksFit (blocks_held session blocks.now) }
    requires accounts { Fits account_kind (lent accounts.old ledger.accounts) }
    ensures why { FirstCause (settle_causes (held_for session report (four_held blocks.now)) (rows_of (lent accounts.old ledger.accounts)) entries.old ledger.totals.income ledger.totals.residue) result }
    ensures after { Posts (held_for session report (four_held blocks.now)) ledger accounts.old entries.old result accounts.new entries.new }
{
    let one = ClearedZone {
        sales: &blocks.sales_one[..session.one.sales],
        purchases: &blocks.purchases_one[..session.one.purchases],
        price: report.price_one,
    };
    let two = ClearedZone {
        sales: &blocks.sales_two[..session.two.sales],
        purchases: &blocks.purchases_two[..session.two.purchases],
        price: report.price_two,
    };
    let cleared = ClearedSession {
        one,
        two,
        flow: report.flow,
    };
    engine.settle(
        cleared,
        &mut accounts[..ledger.accounts],
        entries,
        ledger.totals,
    )
}

// Checks the tables of blocks, and clears them.
pub fn clear_session<P: PriceRule, S: SharingRule>(
    engine: &Engine<P, S>,
    session: Session,
    blocks: &mut BlockPlaces<'_>,
) -> Result<Report, Refusal>
    ensures why { FirstCause (clear_causes (blocks_held session blocks.old)) result }
    ensures after { Leaves (four_held blocks.old) (ReportsAndWrites (outcome_at (S.SharingRule.meaning engine.now.sharing_rule) (P.PriceRule.meaning engine.now.price_rule) session (four_held blocks.old)) session (four_held blocks.old)) result (four_held blocks.new) }
    ensures lent { SamePlaces blocks.old blocks.new }
{
    session.check(&*blocks)?;
    Ok(clear_counted(engine, session, blocks))
}

// Checks the tables of blocks and the accounts, and settles.
pub fn settle_session<P, S>(
    engine: &Engine<P, S>,
    session: Session,
    report: Report,
    ledger: Ledger,
    blocks: &BlockPlaces<'_>,
    accounts: &mut [Account],
    entries: &mut [Entry],
) -> Result<Settled, Refusal>
    ensures why { FirstCause (exchange-settle-causes (held_for session report (four_held blocks.now)) (blocks_held session blocks.now) (lent accounts.old ledger.accounts) entries.old ledger.totals.income ledger.totals.residue) result }
    ensures after { Posts (held_for session report (four_held blocks.now)) ledger accounts.old entries.old result accounts.new entries.new }
{
    let counted = View {
        rows: &*accounts,
        count: ledger.accounts,
    };
    session.check_all(blocks, counted)?;
    settle_counted(engine, session, report, ledger, blocks, accounts, entries)
}
