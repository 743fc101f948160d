// Runs: any list of calls, one after another, and the law that holds before and after each of them.
ghost use Rattle.std.specs.Prelude.{◌≡◌, [], length, drop};
ghost use Rattle.session.specs.Lending.{SameLent, held_in};
ghost use Rattle.auction.specs.declared.engine.Engine as engine-type;
ghost use Rattle.exchange.specs.Calls.{new_idle};
ghost use Rattle.exchange.specs.History.{History};
ghost use Rattle.exchange.specs.Runs.{LawfulAfter, Throughout, told};
ghost use Rattle.exchange.specs.declared.exchange.Exchange.TheVariants as exchange;

use crate::exchange::{Answer, Exchange};
use crate::state::Idle;
use auction::engine::Engine;
use market::call::Call;
use rules::price::PriceRule;
use rules::sharing::SharingRule;
use session::lent::Lent;

// Makes the calls one after another, as far as there is a place for the answer, and writes down the answers.
pub fn run<P: PriceRule, S: SharingRule>(
    first: Exchange<P, S>,
    lent: &mut Lent<'_>,
    calls: &[Call],
    answers: &mut [Answer],
) -> Exchange<P, S>
    ensures throughout { (e : engine-type.Engine P S) (h : History) → LawfulAfter P.PriceRule.meaning S.SharingRule.meaning e h first (held_in lent.old) → Throughout P.PriceRule.meaning S.SharingRule.meaning e h first (held_in lent.old) calls.now answers.new result (held_in lent.new) }
    ensures ends { (e : engine-type.Engine P S) (h : History) → LawfulAfter P.PriceRule.meaning S.SharingRule.meaning e h first (held_in lent.old) → LawfulAfter P.PriceRule.meaning S.SharingRule.meaning e (told calls.now answers.new h) result (held_in lent.new) }
    ensures lent { SameLent lent.old lent.new }
    ensures rest { drop (length calls.now) answers.new ≡ drop (length calls.now) answers.old }
    ensures size { length answers.new ≡ length answers.old }
{
    let n = calls.len().min(answers.len());
    let mut current = first;
    // No `zip` with `answers.iter_mut()`: of what is written through it the proof learns the length alone, so `throughout` did not close.
    for (i, call) in calls[..n].iter().enumerate() {
        let (next, answer) = current.apply(&mut *lent, *call);
        answers[i] = answer;
        current = next;
    }
    current
}

// A whole run, from a new exchange and tables of any size and content: before and after each call the law holds.
pub fn whole<P: PriceRule, S: SharingRule>(
    engine: Engine<P, S>,
    lent: &mut Lent<'_>,
    calls: &[Call],
    answers: &mut [Answer],
) -> Exchange<P, S>
    ensures throughout { Throughout P.PriceRule.meaning S.SharingRule.meaning engine [] (exchange.Idle (new_idle engine)) (held_in lent.old) calls.now answers.new result (held_in lent.new) }
    ensures ends { LawfulAfter P.PriceRule.meaning S.SharingRule.meaning engine (told calls.now answers.new []) result (held_in lent.new) }
    ensures lent { SameLent lent.old lent.new }
    ensures rest { drop (length calls.now) answers.new ≡ drop (length calls.now) answers.old }
    ensures size { length answers.new ≡ length answers.old }
{
    run(Exchange::Idle(Idle::new(engine)), lent, calls, answers)
}
