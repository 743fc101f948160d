// The result of a state's own call, as an exchange and its answer.
ghost use Rattle.std.specs.Prelude.{◌≡◌};
ghost use Rattle.exchange.specs.Applying.{ComesTo, accepting, reporting, settled_idle, settling};
ghost use Rattle.exchange.specs.declared.exchange.Answer as answer;
ghost use Rattle.exchange.specs.declared.exchange.Exchange as exchange;
ghost use Rattle.exchange.specs.declared.exchange.Exchange.TheVariants as exchange-in;

use crate::exchange::{Answer, Exchange};
use crate::state::{Cleared, Closed, Idle, Open, Refused};
use settlement::settle::Settled;

// What an accepted call hands on: a state, alone or with what is reported of the call.
pub(crate) trait Onward<P, S> {
    // The exchange in that state, and the answer.
    ghost onward: { Self → exchange.Exchange P S };

    ghost told: { Self → answer.Answer };

    fn onward(self) -> (Exchange<P, S>, Answer)
        ensures state { result.0 ≡ onward self }
        ensures answer { result.1 ≡ told self };
}

impl<P, S> Onward<P, S> for Idle<P, S> {
    ghost onward = { exchange-in.Idle };

    ghost told = { accepting };

    fn onward(self) -> (Exchange<P, S>, Answer) {
        (Exchange::Idle(self), Answer::Accepted)
    }
}

impl<P, S> Onward<P, S> for Open<P, S> {
    ghost onward = { exchange-in.Open };

    ghost told = { accepting };

    fn onward(self) -> (Exchange<P, S>, Answer) {
        (Exchange::Open(self), Answer::Accepted)
    }
}

impl<P, S> Onward<P, S> for Closed<P, S> {
    ghost onward = { exchange-in.Closed };

    ghost told = { accepting };

    fn onward(self) -> (Exchange<P, S>, Answer) {
        (Exchange::Closed(self), Answer::Accepted)
    }
}

impl<P, S> Onward<P, S> for Cleared<P, S> {
    ghost onward = { exchange-in.Cleared };

    ghost told = { reporting };

    fn onward(self) -> (Exchange<P, S>, Answer) {
        let report = self.report();
        (Exchange::Cleared(self), Answer::Cleared(report))
    }
}

impl<P, S> Onward<P, S> for (Idle<P, S>, Settled) {
    ghost onward = { settled_idle };

    ghost told = { settling };

    fn onward(self) -> (Exchange<P, S>, Answer) {
        let (state, amounts) = self;
        (Exchange::Idle(state), Answer::Settled(amounts))
    }
}

// What a call comes to: what it hands on, or the state as it was, with the refusal for an answer.
pub(crate) fn come_to<P, S, U: Onward<P, S>, V: Onward<P, S>>(
    outcome: Result<U, Refused<V>>,
) -> (Exchange<P, S>, Answer)
    ensures { ComesTo U.onward V.onward U.told outcome result.0 result.1 }
{
    match outcome {
        Ok(next) => next.onward(),
        Err(Refused { state, why }) => {
            let (same, _) = state.onward();
            (same, Answer::Refused(why))
        }
    }
}
