// Sums over blocks: volumes, and what they are worth.
ghost use Rattle.std.specs.Prelude.{◌≡◌, ◌≤◌, map, length, pos, ◌*ℤ◌, neg_ℤ, ◌≤ℤ◌, if◌then◌else◌};
ghost use Rattle.auction.specs.Books.{gain, money, surplus, total};
ghost use Rattle.auction.specs.Offers.{part, same_zone};
ghost use Rattle.auction.specs.Tables.{TablesWorth, WorthWithinLimits, book_of_places};

use crate::offer::Offer;
use market::places::ZonePlaces;
use market::row::BlockRow;
use market::zone::Zone;

// What is matched of the offer, if it is one of the zone.
fn matched_in(zone: Zone, offer: &Offer) -> u32
    ensures { result ≡ (if same_zone zone offer.now.zone then offer.now.block.matched else 0) }
{
    if zone == offer.zone {
        offer.block.matched
    } else {
        0
    }
}

// The volume matched of a zone's offers.
pub(crate) fn total_in(zone: Zone, offers: &[Offer]) -> i64
    requires { length offers.now ≤ 512 }
    ensures { result ≡ pos (total (part zone offers.now)) }
{
    let mut sum: u64 = 0;
    for offer in offers {
        sum += matched_in(zone, offer) as u64;
    }
    sum as i64
}

// What a volume is worth at a price.
fn worth(price: i32, volume: u32) -> i64
    ensures { result ≡ price *ℤ pos volume }
{
    price as i64 * volume as i64
}

// What the matched volumes of a table are worth at the prices of their blocks.
pub(crate) fn money_of<R: BlockRow>(rows: &[R]) -> i64
    requires limits { WorthWithinLimits (map R.held rows.now) }
    requires few { length rows.now ≤ 256 }
    ensures value { result ≡ money (map R.held rows.now) }
    ensures within { (neg_ℤ (pos 7680000000000) ≤ℤ result) × (result ≤ℤ pos 7680000000000) }
{
    let mut sum: i64 = 0;
    for row in rows {
        let block = row.block();
        sum += worth(block.bid.price, block.matched);
    }
    sum
}

// The worth of what is bought less the cost of what is sold, in one zone.
fn gain_of(places: &ZonePlaces) -> i64
    requires { TablesWorth places.now.sales.now places.now.purchases.now }
    ensures value { result ≡ gain (book_of_places places.now) }
    ensures within { (neg_ℤ (pos 15360000000000) ≤ℤ result) × (result ≤ℤ pos 15360000000000) }
{
    money_of(places.purchases) - money_of(places.sales)
}

// The same in both zones.
pub(crate) fn surplus_of(one: &ZonePlaces, two: &ZonePlaces) -> i64
    requires one { TablesWorth one.now.sales.now one.now.purchases.now }
    requires two { TablesWorth two.now.sales.now two.now.purchases.now }
    ensures { result ≡ surplus (record { zone₁ = book_of_places one.now; zone₂ = book_of_places two.now }) }
{
    let one = gain_of(one);
    let two = gain_of(two);
    one + two
}
