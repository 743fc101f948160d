// Clearing one period of two zones.
#![tactic(auto)]

ghost use Rattle.std.specs.Prelude.{◌≡◌};
ghost use Rattle.auction.specs.Best.{AmountFound, ClearingIsBest, TenthsPlaced};
ghost use Rattle.auction.specs.Worked.{WorkedResults};

mod bracket;
mod crossing;
pub mod engine;
mod fill;
mod line;
mod merge;
mod offer;
mod pool;
pub mod settling;
mod side;
mod sums;
mod zones;

// The downward search finds where the curves meet.
pub fn amount_found() -> u8
    ensures theorem { AmountFound }
    ensures value { result ≡ 0 }
{
    0
}

// Where the zones as one exchange more than the line carries, its tenths are placed in each zone alone.
pub fn tenths_placed() -> u8
    ensures theorem { TenthsPlaced }
    ensures value { result ≡ 0 }
{
    0
}

// Whatever the two rules, the clearing is a balanced schedule that its prices support, and no other is better.
pub fn clearing_is_best() -> u8
    ensures theorem { ClearingIsBest }
    ensures value { result ≡ 0 }
{
    0
}

// The definitions give the worked results.
pub fn worked_results() -> u8
    ensures theorem { WorkedResults }
    ensures value { result ≡ 0 }
{
    0
}
