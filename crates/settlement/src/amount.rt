// What a volume is due at a price.
ghost use Rattle.std.specs.Prelude.{◌≡◌, ◌^◌, ◌<◌, ◌≤◌, pos, ◌-ℤ◌, ◌*ℤ◌, unsigned_abs};
ghost use Rattle.settlement.specs.Entries.{signed};
ghost use Rattle.settlement.specs.Rounding.{nearest_cent};

use crate::rounding::nearest_cent;
use market::zone::Side;

// The factors are small enough for the product.
fn product(a: i32, b: i64) -> i64
    requires { unsigned_abs b < 2 ^ 32 }
    ensures value { result ≡ a *ℤ b }
    ensures small { unsigned_abs result < 2 ^ 63 }
{
    a as i64 * b
}

// The exact amount in tenths of a cent: for the seller, against the purchaser.
pub(crate) fn exact(side: Side, price: i32, matched: u32) -> i64
    ensures value { result ≡ signed side (price *ℤ pos matched) }
{
    let amount = product(price, matched as i64);
    match side {
        Side::Sale => amount,
        Side::Purchase => -amount,
    }
}

// The same in whole cents.
pub(crate) fn cents(side: Side, price: i32, matched: u32) -> i64
    ensures value { result ≡ nearest_cent (signed side (price *ℤ pos matched)) }
    ensures small { unsigned_abs result ≤ 2 ^ 60 }
{
    nearest_cent(exact(side, price, matched))
}

// The congestion income in whole cents: the flow times the second zone's price less the first's.
pub(crate) fn congestion_income(flow: i32, price_one: i32, price_two: i32) -> i64
    ensures value { result ≡ nearest_cent (flow *ℤ (price_two -ℤ price_one)) }
    ensures small { unsigned_abs result ≤ 2 ^ 60 }
{
    nearest_cent(product(flow, price_two as i64 - price_one as i64))
}
