// Rounding of tenths of a cent to whole cents.
ghost use Rattle.std.specs.Prelude.{◌≡◌};
ghost use Rattle.settlement.specs.Rounding.{Rounds, nearest_cent};

// To the nearest cent, a half away from zero.
#[tactic(auto, using(crate::proofs::Roundings::quotients))]
pub fn nearest_cent(amount: i64) -> i64
    ensures value { result ≡ nearest_cent amount }
    ensures lawful { Rounds nearest_cent }
{
    let cents = amount / 10;
    match amount % 10 {
        ..=-5 => cents - 1,
        -4..=4 => cents,
        5.. => cents + 1,
    }
}
