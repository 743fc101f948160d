// An exchange in any of its states, its answers, and any call to it.
ghost use Rattle.session.specs.Lending.{SameLent, held_in};
ghost use Rattle.exchange.specs.Applying.{Does};
ghost use Rattle.exchange.specs.Runs.{Step};

use crate::applying::{apply_cleared, apply_closed, apply_idle, apply_open};
use crate::state::{Cleared, Closed, Idle, Open};
use market::call::Call;
use market::refusal::Refusal;
use rules::price::PriceRule;
use rules::sharing::SharingRule;
use session::lent::Lent;
use session::report::Report;
use settlement::settle::Settled;

pub enum Exchange<P, S> {
    Idle(Idle<P, S>),
    Open(Open<P, S>),
    Closed(Closed<P, S>),
    Cleared(Cleared<P, S>),
}

#[derive(Clone, Copy)]
pub enum Answer {
    Accepted,
    Cleared(Report),
    Settled(Settled),
    Refused(Refusal),
}

impl<P: PriceRule, S: SharingRule> Exchange<P, S> {
    // Makes a call: the exchange after it, and its answer.
    pub fn apply(self, lent: &mut Lent<'_>, call: Call) -> (Exchange<P, S>, Answer)
        ensures does { Does P.PriceRule.meaning S.SharingRule.meaning self (held_in lent.old) call result.0 result.1 (held_in lent.new) }
        ensures step { Step P.PriceRule.meaning S.SharingRule.meaning call result.1 self (held_in lent.old) result.0 (held_in lent.new) }
        ensures lent { SameLent lent.old lent.new }
    {
        match self {
            Exchange::Idle(state) => apply_idle(state, lent, call),
            Exchange::Open(state) => apply_open(state, lent, call),
            Exchange::Closed(state) => apply_closed(state, lent, call),
            Exchange::Cleared(state) => apply_cleared(state, lent, call),
        }
    }
}
