// Price rules: the price that an exchange takes from a bracket, which is a low end and a high end (docs/MARKET.md).
ghost use Rattle.std.specs.Prelude.{◌≡◌, ℤ, ◌≤ℤ◌, ◌<ℤ◌};
ghost use Rattle.rules.specs.Prices.{RoundedMidpoint, low_end, midpoint};
ghost use Rattle.std.proofs.Common.{rules};

// A rule is asked by `&self`: it stays as it is. The ends come one by one, as a bracket may be crossed.
pub trait PriceRule {
    // The price that the rule answers, from what it holds and the two ends.
    ghost meaning: { Self → ℤ → ℤ → ℤ };

    fn price(&self, low: i32, high: i32) -> i32
        ensures { result ≡ meaning self.now low high };

    ghost within: { (rule : Self) (low high : ℤ) → low ≤ℤ high → (low ≤ℤ meaning rule low high) × (meaning rule low high ≤ℤ high) };

    ghost crossed: { (rule : Self) (low high : ℤ) → high <ℤ low → meaning rule low high ≡ low };
}

// The low end itself.
#[derive(Clone, Copy)]
pub struct LowEnd;

impl PriceRule for LowEnd {
    ghost meaning = { λ rule low high. low_end low high };

    ghost within = { Prim.search rules };

    ghost crossed = { Prim.search rules };

    fn price(&self, low: i32, _high: i32) -> i32 {
        low
    }
}

// The midpoint of the two ends, rounded down.
#[derive(Clone, Copy)]
pub struct Midpoint;

impl PriceRule for Midpoint {
    ghost meaning = { λ rule low high. midpoint low high };

    ghost within = { Prim.search rules };

    ghost crossed = { Prim.search rules };

    fn price(&self, low: i32, high: i32) -> i32
        ensures value { result ≡ midpoint low high }
        ensures rounded { low ≤ℤ high → RoundedMidpoint low high result }
    {
        if high < low {
            return low;
        }
        // The shift rounds down, below zero too; a division would round towards zero.
        ((low as i64 + high as i64) >> 1) as i32
    }
}
