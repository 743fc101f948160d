// A line is read and applied, or it is no form and refused as such.
ghost use Rattle.std.specs.Option.{option_map};
ghost use Rattle.session.specs.Lending.{SameLent, held_in};
ghost use Rattle.lines.specs.Lines.{AnswersLine};

use callfile::forms::read_call;
use exchange::exchange::{Answer, Exchange};
use market::refusal::Refusal;
use rules::price::PriceRule;
use rules::sharing::SharingRule;
use session::lent::Lent;

// Answers a line, or one that was too long to be held.
pub fn answer_line<P: PriceRule, S: SharingRule>(
    exchange: Exchange<P, S>,
    lent: &mut Lent<'_>,
    line: Option<&[u8]>,
) -> (Exchange<P, S>, Answer)
    ensures answers { AnswersLine P.PriceRule.meaning S.SharingRule.meaning (option_map (λ x. x.now) line.entry) exchange (held_in lent.old) result.0 result.1 (held_in lent.new) }
    ensures lent { SameLent lent.old lent.new }
{
    // No `line.and_then(read_call)`: from that the check does not find that the call is the one whose text the line is.
    let Some(bytes) = line else {
        return (exchange, Answer::Refused(Refusal::NoForm));
    };
    match read_call(bytes) {
        Some(call) => exchange.apply(lent, call),
        None => (exchange, Answer::Refused(Refusal::NoForm)),
    }
}
