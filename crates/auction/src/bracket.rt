// The bracket: the prices that the matched volumes leave open.
ghost use Rattle.std.specs.Prelude.{◌≡◌, ℤ, filter, fold, map};
ghost use Rattle.std.specs.Iterator.{ActsAsOnTwo};
ghost use Rattle.auction.specs.Bracket.{high_end, low_end, passes};
ghost use Rattle.auction.specs.Offers.{price_of};

use crate::offer::Offer;
use market::limits::{MAX_PRICE, MIN_PRICE};

// Which offers count: those with anything matched, or those not wholly matched.
#[derive(Clone, Copy)]
pub enum Part {
    Matched,
    Left,
}

fn counts(offer: &Offer, part: Part) -> bool
    ensures { result ≡ passes part offer.now }
{
    match part {
        Part::Matched => 0 < offer.block.matched,
        Part::Left => offer.block.matched < offer.block.bid.volume,
    }
}

fn price_of(offer: &Offer) -> i32
    ensures { result ≡ price_of offer.now }
{
    offer.block.bid.price
}

// `start` and the prices of the offers that count, folded by `pick`.
fn folded<F: Fn(i32, i32) -> i32>(offers: &[Offer], part: Part, start: i32, pick: F) -> i32
    requires { F.IsAlwaysCallable pick }
    ensures { (h : ℤ → ℤ → ℤ) → ActsAsOnTwo F.FnMut pick h → result ≡ fold h start (map price_of (filter (passes part) offers.now)) }
{
    offers
        .iter()
        .filter(|offer| counts(offer, part))
        .map(price_of)
        .fold(start, pick)
}

// The low end and the high end.
pub fn bracket_of(sales: &[Offer], purchases: &[Offer]) -> (i32, i32)
    ensures { result ≡ (low_end sales.now purchases.now, high_end sales.now purchases.now) }
{
    let left_low = folded(purchases, Part::Left, MIN_PRICE, i32::max);
    let low = folded(sales, Part::Matched, left_low, i32::max);
    let left_high = folded(sales, Part::Left, MAX_PRICE, i32::min);
    let high = folded(purchases, Part::Matched, left_high, i32::min);
    (low, high)
}
