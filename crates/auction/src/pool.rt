// Clearing as one whatever stands on the two sides.
ghost use Rattle.std.specs.Prelude.{◌≡◌, ◌≤◌};
ghost use Rattle.auction.specs.Bracket.{high_end, low_end};
ghost use Rattle.auction.specs.Clearing.{Room, cleared};
ghost use Rattle.auction.specs.Offers.{of_purchases, of_sales};
ghost use Rattle.auction.specs.Ready.{Ready};

use crate::bracket::bracket_of;
use crate::crossing::find_crossing;
use crate::fill::match_offers;
use crate::offer::Offer;
use market::limits::{MAX_PRICE, MIN_PRICE};
use market::zone::Side;
use rules::sharing::SharingRule;

// What the line carries for what is cleared, ahead of every block: the sale tenths that it brings in, and the purchase tenths that it
// takes out.
#[derive(Clone, Copy)]
pub struct Carried {
    pub brought: u32,
    pub taken: u32,
    ghost within: { (brought ≤ 30000000) × (taken ≤ 30000000) },
}

// Gives each offer its part of the matched amount, and answers the bracket.
pub(crate) fn clear_pool<S: SharingRule>(
    rule: &S,
    sales: &mut [Offer],
    purchases: &mut [Offer],
    carried: Carried,
) -> (i32, i32)
    requires rising { Ready of_sales sales.old }
    requires falling { Ready of_purchases purchases.old }
    requires room { Room (record { sales = sales.old; purchases = purchases.old; brought = carried.brought; taken = carried.taken }) }
    ensures sold { sales.new ≡ (cleared (S.SharingRule.meaning rule.now) (record { sales = sales.old; purchases = purchases.old; brought = carried.brought; taken = carried.taken })).sales }
    ensures bought { purchases.new ≡ (cleared (S.SharingRule.meaning rule.now) (record { sales = sales.old; purchases = purchases.old; brought = carried.brought; taken = carried.taken })).purchases }
    ensures bracket { result ≡ (low_end sales.new purchases.new, high_end sales.new purchases.new) }
{
    let crossing = find_crossing(sales, purchases, carried);
    match_offers(
        rule,
        sales,
        Side::Sale,
        carried.brought,
        MIN_PRICE,
        crossing.amount,
        crossing.sale,
    );
    match_offers(
        rule,
        purchases,
        Side::Purchase,
        carried.taken,
        MAX_PRICE,
        crossing.amount,
        crossing.purchase,
    );
    bracket_of(sales, purchases)
}
