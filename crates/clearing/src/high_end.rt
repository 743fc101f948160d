// The high end of the bracket as a price rule, so that both ends can be shown.
ghost use Rattle.std.specs.Prelude.{int_lt, if◌then◌else◌};
ghost use Rattle.std.proofs.Common.{rules};

use rules::price::PriceRule;

#[derive(Clone, Copy)]
pub struct HighEnd;

impl PriceRule for HighEnd {
    ghost meaning = { λ rule low high. (if int_lt high low then low else high) };

    ghost within = { Prim.search rules };

    ghost crossed = { Prim.search rules };

    fn price(&self, low: i32, high: i32) -> i32 {
        if high < low { low } else { high }
    }
}
