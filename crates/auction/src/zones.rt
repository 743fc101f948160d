// The zones cleared as one, and a zone cleared alone.
ghost use Rattle.std.specs.Prelude.{◌≡◌, ◌+◌, ◌≤◌, ◌++◌, drop, map, length};
ghost use Rattle.auction.specs.Bracket.{high_end, low_end};
ghost use Rattle.auction.specs.Clearing.{Room, cleared, together, zone_pool};
ghost use Rattle.auction.specs.Offers.{alone, part};
ghost use Rattle.auction.specs.Tables.{TablesSound, book_of_places, purchase_blocks, sale_blocks};
ghost use Rattle.market.specs.Places.{SameZonePlaces};

use crate::merge::{merge, write_back};
use crate::offer::Offer;
use crate::pool::{Carried, clear_pool};
use market::places::ZonePlaces;
use market::row::BlockRow;
use market::zone::Zone;
use rules::sharing::SharingRule;

// The rows of one zone as offers: merged with nothing.
fn load<R: BlockRow>(zone: Zone, rows: &[R], offers: &mut [Offer])
    requires { length offers.old ≡ length rows.now }
    ensures { offers.new ≡ alone zone (map R.held rows.now) }
{
    match zone {
        Zone::One => merge(rows, &rows[..0], offers),
        Zone::Two => merge(&rows[..0], rows, offers),
    }
}

// Clears the two zones as one, in the places of `sold` and `bought`, and answers the bracket.
// The two stay two parameters, here and in the engine: with both in a struct the proof of `clear_common` did not close, since nothing tied
// what it read through the struct afterwards to what this function left there.
pub(crate) fn clear_together<S: SharingRule>(
    rule: &S,
    one: &ZonePlaces,
    two: &ZonePlaces,
    sold: &mut [Offer],
    bought: &mut [Offer],
) -> (i32, i32)
    requires one { TablesSound one.now.sales.now one.now.purchases.now }
    requires two { TablesSound two.now.sales.now two.now.purchases.now }
    requires places { (length sold.old ≡ length one.now.sales.now + length two.now.sales.now) × (length bought.old ≡ length one.now.purchases.now + length two.now.purchases.now) }
    ensures sold { sold.new ≡ (cleared (S.SharingRule.meaning rule.now) (together (book_of_places one.now) (book_of_places two.now))).sales }
    ensures bought { bought.new ≡ (cleared (S.SharingRule.meaning rule.now) (together (book_of_places one.now) (book_of_places two.now))).purchases }
    ensures bracket { result ≡ (low_end sold.new bought.new, high_end sold.new bought.new) }
{
    merge(one.sales, two.sales, sold);
    merge(one.purchases, two.purchases, bought);
    let carried = Carried {
        brought: 0,
        taken: 0,
    };
    clear_pool(rule, sold, bought, carried)
}

// Clears a zone alone, in the places of `sold` and `bought`, and answers the bracket.
pub(crate) fn clear_zone<S: SharingRule>(
    rule: &S,
    zone: Zone,
    places: &ZonePlaces,
    sold: &mut [Offer],
    bought: &mut [Offer],
    carried: Carried,
) -> (i32, i32)
    requires tables { TablesSound places.now.sales.now places.now.purchases.now }
    requires places { (length sold.old ≡ length places.now.sales.now) × (length bought.old ≡ length places.now.purchases.now) }
    requires room { Room (zone_pool zone (book_of_places places.now) carried.brought carried.taken) }
    ensures sold { sold.new ≡ (cleared (S.SharingRule.meaning rule.now) (zone_pool zone (book_of_places places.now) carried.brought carried.taken)).sales }
    ensures bought { bought.new ≡ (cleared (S.SharingRule.meaning rule.now) (zone_pool zone (book_of_places places.now) carried.brought carried.taken)).purchases }
    ensures bracket { result ≡ (low_end sold.new bought.new, high_end sold.new bought.new) }
{
    load(zone, places.sales, sold);
    load(zone, places.purchases, bought);
    clear_pool(rule, sold, bought, carried)
}

// Writes the offers of a zone back to its tables.
pub(crate) fn write_zone(places: &mut ZonePlaces, zone: Zone, sold: &[Offer], bought: &[Offer])
    requires { (length (part zone sold.now) ≤ length places.old.sales.now) × (length (part zone bought.now) ≤ length places.old.purchases.now) }
    ensures lent { SameZonePlaces places.old places.new }
    ensures sales { sale_blocks places.new.sales.now ≡ part zone sold.now ++ drop (length (part zone sold.now)) (sale_blocks places.old.sales.now) }
    ensures purchases { purchase_blocks places.new.purchases.now ≡ part zone bought.now ++ drop (length (part zone bought.now)) (purchase_blocks places.old.purchases.now) }
{
    write_back(places.sales, zone, sold);
    write_back(places.purchases, zone, bought);
}
