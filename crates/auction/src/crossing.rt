// Where the curves of the two sides meet.
ghost use Rattle.std.specs.Prelude.{◌≡◌, ◌-◌, ◌≤◌, []};
ghost use Rattle.std.specs.List.{AllByRecursion};
ghost use Rattle.market.specs.Limits.{VolumeWithinLimits, lowest_price, highest_price};
ghost use Rattle.auction.specs.Curve.{Crossed, behind};
ghost use Rattle.auction.specs.Offers.{of_sales, of_purchases, volume_of};
ghost use Rattle.auction.specs.Ready.{Ready};

use crate::offer::Offer;
use crate::pool::Carried;
use market::limits::{MAX_PRICE, MIN_PRICE};

// A place on a curve: `left` tenths at `price`, and then the offers.
#[derive(Clone, Copy)]
struct Cursor<'a> {
    offers: &'a [Offer],
    left: u32,
    price: i32,
}

// How many tenths are matched, and the prices of the last of them.
#[derive(Clone, Copy)]
pub struct Crossing {
    pub amount: u32,
    pub sale: i32,
    pub purchase: i32,
}

// The same place, with the next offer taken up where no tenth is left.
fn filled(cursor: Cursor<'_>) -> Cursor<'_>
    requires bids { AllByRecursion (λ o. VolumeWithinLimits (volume_of o)) cursor.offers.now }
    ensures bids { AllByRecursion (λ o. VolumeWithinLimits (volume_of o)) result.offers.now }
    ensures same { behind result.left result.price result.offers.now ≡ behind cursor.entry.left cursor.entry.price cursor.entry.offers.now }
    ensures ended { result.left ≡ 0 → result.offers.now ≡ [] }
{
    if cursor.left > 0 {
        return cursor;
    }
    if let Some((first, rest)) = cursor.offers.split_first() {
        let bid = first.block.bid;
        return Cursor {
            offers: rest,
            left: bid.volume,
            price: bid.price,
        };
    }
    cursor
}

// The same place, `step` tenths further on.
fn passed(cursor: Cursor<'_>, step: u32) -> Cursor<'_>
    requires { step ≤ cursor.left }
    ensures { result ≡ record { offers = cursor.entry.offers; left = cursor.entry.left - step; price = cursor.entry.price } }
{
    Cursor {
        left: cursor.left - step,
        ..cursor
    }
}

// How much is matched of two sides, where the tenths that the line carries stand ahead of every block, those of sales at the lowest price
// and those of purchases at the highest: both curves are walked offer by offer for as long as the sale is no dearer than the purchase.
pub(crate) fn find_crossing(sales: &[Offer], purchases: &[Offer], carried: Carried) -> Crossing
    requires rising { Ready of_sales sales.now }
    requires falling { Ready of_purchases purchases.now }
    ensures { Crossed (behind carried.brought lowest_price sales.now) (behind carried.taken highest_price purchases.now) result.amount result.sale result.purchase }
{
    let mut amount: u32 = 0;
    let mut last_sale = MIN_PRICE;
    let mut last_purchase = MAX_PRICE;
    let mut sale = filled(Cursor {
        offers: sales,
        left: carried.brought,
        price: MIN_PRICE,
    });
    let mut purchase = filled(Cursor {
        offers: purchases,
        left: carried.taken,
        price: MAX_PRICE,
    });
    while sale.left > 0 && purchase.left > 0 && sale.price <= purchase.price {
        let step = sale.left.min(purchase.left);
        amount += step;
        last_sale = sale.price;
        last_purchase = purchase.price;
        sale = filled(passed(sale, step));
        purchase = filled(passed(purchase, step));
    }
    Crossing {
        amount,
        sale: last_sale,
        purchase: last_purchase,
    }
}
