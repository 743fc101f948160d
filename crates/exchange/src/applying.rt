// Any call to a state: where it belongs to the state it is that state's own call, and otherwise it is refused as a call of another state.
ghost use Rattle.std.specs.Prelude.{◌≡◌};
ghost use Rattle.market.specs.declared.refusal.Refusal.TheVariants.{WrongState};
ghost use Rattle.session.specs.Lending.{SameLent, held_in};
ghost use Rattle.exchange.specs.Applying.{ClearedDoes, ClosedDoes, IdleDoes, OpenDoes};
ghost use Rattle.exchange.specs.Runs.{Step};
ghost use Rattle.exchange.specs.declared.exchange.Answer.TheVariants as answer;
ghost use Rattle.exchange.specs.declared.exchange.Exchange.TheVariants as exchange;

use crate::exchange::{Answer, Exchange};
use crate::results::{Onward, come_to};
use crate::state::{Cleared, Closed, Idle, Open};
use market::call::Call;
use market::places::BlockPlaces;
use market::refusal::Refusal;
use rules::price::PriceRule;
use rules::sharing::SharingRule;
use session::lent::Lent;

// A call of another state.
fn of_another_state<P, S>(exchange: Exchange<P, S>) -> (Exchange<P, S>, Answer)
    ensures same { result.0 ≡ exchange }
    ensures refused { result.1 ≡ answer.Refused WrongState }
{
    (exchange, Answer::Refused(Refusal::WrongState))
}

pub(crate) fn apply_idle<P: PriceRule, S: SharingRule>(
    state: Idle<P, S>,
    lent: &mut Lent<'_>,
    call: Call,
) -> (Exchange<P, S>, Answer)
    ensures does { IdleDoes P.PriceRule.meaning S.SharingRule.meaning state (held_in lent.old) call result.0 result.1 (held_in lent.new) }
    ensures step { Step P.PriceRule.meaning S.SharingRule.meaning call result.1 (exchange.Idle state) (held_in lent.old) result.0 (held_in lent.new) }
    ensures lent { SameLent lent.old lent.new }
{
    match call {
        Call::Admit { agent } => come_to(state.admit(&mut *lent.accounts, agent)),
        Call::Begin {
            session,
            forward,
            backward,
        } => come_to(state.begin(session, forward, backward)),
        _ => of_another_state(Exchange::Idle(state)),
    }
}

// The places of the blocks are taken out of `lent` in three calls: a function that handed them on could not promise what `lent` holds
// after them.
pub(crate) fn apply_open<P: PriceRule, S: SharingRule>(
    state: Open<P, S>,
    lent: &mut Lent<'_>,
    call: Call,
) -> (Exchange<P, S>, Answer)
    ensures does { OpenDoes P.PriceRule.meaning S.SharingRule.meaning state (held_in lent.old) call result.0 result.1 (held_in lent.new) }
    ensures step { Step P.PriceRule.meaning S.SharingRule.meaning call result.1 (exchange.Open state) (held_in lent.old) result.0 (held_in lent.new) }
    ensures lent { SameLent lent.old lent.new }
{
    let mut blocks = BlockPlaces {
        sales_one: &mut *lent.sales_one,
        purchases_one: &mut *lent.purchases_one,
        sales_two: &mut *lent.sales_two,
        purchases_two: &mut *lent.purchases_two,
    };
    match call {
        Call::Admit { agent } => come_to(state.admit(&mut *lent.accounts, agent)),
        Call::Enter { zone, side, bid } => {
            let accounts = &mut *lent.accounts;
            come_to(state.enter(&mut blocks, &*accounts, zone, side, bid))
        }
        Call::Withdraw { zone, side, key } => {
            come_to(state.withdraw(&mut blocks, zone, side, key))
        }
        Call::Close => state.close().onward(),
        Call::Annul => state.annul().onward(),
        _ => of_another_state(Exchange::Open(state)),
    }
}

pub(crate) fn apply_closed<P: PriceRule, S: SharingRule>(
    state: Closed<P, S>,
    lent: &mut Lent<'_>,
    call: Call,
) -> (Exchange<P, S>, Answer)
    ensures does { ClosedDoes P.PriceRule.meaning S.SharingRule.meaning state (held_in lent.old) call result.0 result.1 (held_in lent.new) }
    ensures step { Step P.PriceRule.meaning S.SharingRule.meaning call result.1 (exchange.Closed state) (held_in lent.old) result.0 (held_in lent.new) }
    ensures lent { SameLent lent.old lent.new }
{
    let mut blocks = BlockPlaces {
        sales_one: &mut *lent.sales_one,
        purchases_one: &mut *lent.purchases_one,
        sales_two: &mut *lent.sales_two,
        purchases_two: &mut *lent.purchases_two,
    };
    match call {
        Call::Clear => come_to(state.clear(&mut blocks)),
        Call::Annul => state.annul().onward(),
        _ => of_another_state(Exchange::Closed(state)),
    }
}

pub(crate) fn apply_cleared<P: PriceRule, S: SharingRule>(
    state: Cleared<P, S>,
    lent: &mut Lent<'_>,
    call: Call,
) -> (Exchange<P, S>, Answer)
    ensures does { ClearedDoes P.PriceRule.meaning S.SharingRule.meaning state (held_in lent.old) call result.0 result.1 (held_in lent.new) }
    ensures step { Step P.PriceRule.meaning S.SharingRule.meaning call result.1 (exchange.Cleared state) (held_in lent.old) result.0 (held_in lent.new) }
    ensures lent { SameLent lent.old lent.new }
{
    let blocks = BlockPlaces {
        sales_one: &mut *lent.sales_one,
        purchases_one: &mut *lent.purchases_one,
        sales_two: &mut *lent.sales_two,
        purchases_two: &mut *lent.purchases_two,
    };
    match call {
        Call::Settle => { come_to(state.settle(&blocks, &mut *lent.accounts, &mut *lent.entries)) }
        Call::Annul => state.annul().onward(),
        _ => of_another_state(Exchange::Cleared(state)),
    }
}
