// The engine: one price rule, one sharing rule, and clearing by them.
ghost use Rattle.std.specs.Prelude.{◌≡◌, ◌+◌, ◌≤◌, length, ◌≢◌};
ghost use Rattle.auction.specs.declared.line.Line.TheVariants.{Enough};
ghost use Rattle.market.specs.declared.zone.Zone.TheVariants.{One, Two};
ghost use Rattle.auction.specs.Best.{ClearedWell};
ghost use Rattle.auction.specs.Books.{surplus};
ghost use Rattle.auction.specs.Clearing.{Room, book_of, cleared, clearing, price_in, together, zone_pool};
ghost use Rattle.auction.specs.Steps.{Clears, CommonFound};
ghost use Rattle.auction.specs.Tables.{TablesSound, book, book_of_places};
ghost use Rattle.market.specs.Places.{SameZonePlaces};

use crate::line::{Line, line_of};
use crate::offer::{Offer, no_offer};
use crate::pool::Carried;
use crate::sums::{surplus_of, total_in};
use crate::zones::{clear_together, clear_zone, write_zone};
use market::capacities::Capacities;
use market::places::ZonePlaces;
use market::purchase::Purchase;
use market::sale::Sale;
use market::zone::Zone;
use rules::price::PriceRule;
use rules::sharing::SharingRule;

pub struct Engine<P, S> {
    pub price_rule: P,
    pub sharing_rule: S,
}

// What a clearing answers: the price of each zone, the flow from zone 1 to zone 2, and the surplus.
// It is not the `Report` of a session, whose flow has the 32 bits that a settlement takes; here it is a difference of sums of 64 bits.
#[derive(Clone, Copy, PartialEq, Eq)]
pub struct Clearing {
    pub price_one: i32,
    pub price_two: i32,
    pub flow: i64,
    pub surplus: i64,
}

// The zones cleared as one: whether the line carries their flow, their price, and the flow.
#[derive(Clone, Copy)]
struct Common {
    pub line: Line,
    pub price: i32,
    pub flow: i64,
}

impl<P: PriceRule, S: SharingRule> Engine<P, S> {
    // Clears the two zones as one in the places of `sold` and `bought`, and writes the tables only where the line carries the flow.
    fn clear_common(
        &self,
        one: &mut ZonePlaces,
        two: &mut ZonePlaces,
        sold: &mut [Offer],
        bought: &mut [Offer],
        capacities: Capacities,
    ) -> Common
        requires one { TablesSound one.old.sales.now one.old.purchases.now }
        requires two { TablesSound two.old.sales.now two.old.purchases.now }
        requires places { (length sold.old ≡ length one.old.sales.now + length two.old.sales.now) × (length bought.old ≡ length one.old.purchases.now + length two.old.purchases.now) }
        ensures lent { SameZonePlaces one.old one.new × SameZonePlaces two.old two.new }
        ensures found { CommonFound (S.SharingRule.meaning self.now.sharing_rule) (P.PriceRule.meaning self.now.price_rule) capacities.forward capacities.backward (book_of_places one.old) (book_of_places two.old) result.line result.price result.flow }
        ensures one { result.line ≡ Enough → book_of_places one.new ≡ book_of One (cleared (S.SharingRule.meaning self.now.sharing_rule) (together (book_of_places one.old) (book_of_places two.old))) }
        ensures two { result.line ≡ Enough → book_of_places two.new ≡ book_of Two (cleared (S.SharingRule.meaning self.now.sharing_rule) (together (book_of_places one.old) (book_of_places two.old))) }
        ensures kept { (result.line ≢ Enough) → (one.new ≡ one.old) × (two.new ≡ two.old) }
    {
        let (low, high) = clear_together(&self.sharing_rule, one, two, sold, bought);
        let flow = total_in(Zone::One, sold) - total_in(Zone::One, bought);
        let price = self.price_rule.price(low, high);
        let line = line_of(capacities, flow);
        if let Line::Enough = line {
            write_zone(one, Zone::One, sold, bought);
            write_zone(two, Zone::Two, sold, bought);
        }
        Common { line, price, flow }
    }

    // Clears a zone alone, writes its tables, and answers its price.
    fn clear_alone(&self, zone: Zone, places: &mut ZonePlaces, carried: Carried) -> i32
        requires tables { TablesSound places.old.sales.now places.old.purchases.now }
        requires room { Room (zone_pool zone (book_of_places places.old) carried.brought carried.taken) }
        ensures lent { SameZonePlaces places.old places.new }
        ensures tables { book_of_places places.new ≡ book_of zone (cleared (S.SharingRule.meaning self.now.sharing_rule) (zone_pool zone (book_of_places places.old) carried.brought carried.taken)) }
        ensures price { result ≡ price_in (P.PriceRule.meaning self.now.price_rule) (cleared (S.SharingRule.meaning self.now.sharing_rule) (zone_pool zone (book_of_places places.old) carried.brought carried.taken)) }
    {
        let mut sold = [no_offer(); 256];
        let mut bought = [no_offer(); 256];
        let sold = &mut sold[..places.sales.len()];
        let bought = &mut bought[..places.purchases.len()];
        let rule = &self.sharing_rule;
        let (low, high) = clear_zone(rule, zone, places, sold, bought, carried);
        write_zone(places, zone, sold, bought);
        self.price_rule.price(low, high)
    }

    // Clears the tables, and answers the price of each zone and the flow.
    fn clear_tables(
        &self,
        one: &mut ZonePlaces,
        two: &mut ZonePlaces,
        capacities: Capacities,
    ) -> (i32, i32, i64)
        requires one { TablesSound one.old.sales.now one.old.purchases.now }
        requires two { TablesSound two.old.sales.now two.old.purchases.now }
        ensures lent { SameZonePlaces one.old one.new × SameZonePlaces two.old two.new }
        ensures clears { Clears (S.SharingRule.meaning self.now.sharing_rule) (P.PriceRule.meaning self.now.price_rule) capacities.forward capacities.backward (book_of_places one.old) (book_of_places two.old) (book_of_places one.new) (book_of_places two.new) result.0 result.1 result.2 }
    {
        let mut sold = [no_offer(); 512];
        let mut bought = [no_offer(); 512];
        let n = one.sales.len() + two.sales.len();
        let m = one.purchases.len() + two.purchases.len();
        let common = self.clear_common(one, two, &mut sold[..n], &mut bought[..m], capacities);
        let forward = capacities.forward();
        let backward = capacities.backward();
        match common.line {
            Line::Enough => (common.price, common.price, common.flow),
            Line::There => {
                let out = Carried {
                    brought: 0,
                    taken: forward,
                };
                let into = Carried {
                    brought: forward,
                    taken: 0,
                };
                let price_one = self.clear_alone(Zone::One, one, out);
                let price_two = self.clear_alone(Zone::Two, two, into);
                (price_one, price_two, forward as i64)
            }
            Line::Back => {
                let out = Carried {
                    brought: 0,
                    taken: backward,
                };
                let into = Carried {
                    brought: backward,
                    taken: 0,
                };
                let price_one = self.clear_alone(Zone::One, one, into);
                let price_two = self.clear_alone(Zone::Two, two, out);
                (price_one, price_two, -(backward as i64))
            }
        }
    }

    // Clears one period: writes what is matched of each block into the tables, and answers prices, flow and surplus. Whatever the two
    // rules, the matched volumes are a balanced schedule that the prices support, and no schedule of these blocks is better.
    // The slices come one by one: callers cut off the counted parts of slices in their own `BlockPlaces`, and the borrow checker does not
    // cover such parts in a second struct ("a call keeps the loan of a slice in a field while another field is used").
    pub fn clear<'a>(
        &self,
        sales_one: &'a mut [Sale],
        purchases_one: &'a mut [Purchase],
        sales_two: &'a mut [Sale],
        purchases_two: &'a mut [Purchase],
        capacities: Capacities,
    ) -> Clearing
        requires one { TablesSound sales_one.old purchases_one.old }
        requires two { TablesSound sales_two.old purchases_two.old }
        ensures clears { Clears (S.SharingRule.meaning self.now.sharing_rule) (P.PriceRule.meaning self.now.price_rule) capacities.forward capacities.backward (book sales_one.old purchases_one.old) (book sales_two.old purchases_two.old) (book sales_one.new purchases_one.new) (book sales_two.new purchases_two.new) result.price_one result.price_two result.flow }
        ensures surplus { result.surplus ≡ surplus (clearing (S.SharingRule.meaning self.now.sharing_rule) (P.PriceRule.meaning self.now.price_rule) capacities.forward capacities.backward (book sales_one.old purchases_one.old) (book sales_two.old purchases_two.old)).schedule }
        ensures well { ClearedWell capacities.forward capacities.backward (book sales_one.old purchases_one.old) (book sales_two.old purchases_two.old) (clearing (S.SharingRule.meaning self.now.sharing_rule) (P.PriceRule.meaning self.now.price_rule) capacities.forward capacities.backward (book sales_one.old purchases_one.old) (book sales_two.old purchases_two.old)) }
    {
        let mut one = ZonePlaces {
            sales: sales_one,
            purchases: purchases_one,
        };
        let mut two = ZonePlaces {
            sales: sales_two,
            purchases: purchases_two,
        };
        let (price_one, price_two, flow) = self.clear_tables(&mut one, &mut two, capacities);
        Clearing {
            price_one,
            price_two,
            flow,
            surplus: surplus_of(&one, &two),
        }
    }
}
