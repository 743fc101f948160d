// What a clearing reports: the zone prices in cents per MWh, the flow from zone 1 to zone 2 in tenths of a MWh, and the surplus in tenths
// of a cent.
ghost use Rattle.session.specs.Answers.{report_text};
ghost use Rattle.std.specs.Prelude.{Some};

use std::fmt;

#[derive(Clone, Copy)]
pub struct Report {
    pub price_one: i32,
    pub price_two: i32,
    pub flow: i32,
    pub surplus: i64,
}

impl fmt::Display for Report {
    ghost output = { λ r. Some (report_text r) };

    fn fmt<W: fmt::Write>(&self, f: &mut fmt::Formatter<W>) -> fmt::Result {
        let Report {
            price_one,
            price_two,
            flow,
            surplus,
        } = *self;
        write!(
            f,
            "(cleared (price {price_one} {price_two}) (flow {flow}) (surplus {surplus}))"
        )
    }
}
