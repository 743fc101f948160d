// The ladders of the two zones: each zone and side has its own.
ghost use Rattle.std.specs.Prelude.{◌≡◌};
ghost use Rattle.market.specs.Refusals.{FirstCause};
ghost use Rattle.std.specs.Option.{option_map};
ghost use Rattle.ladders.specs.Ladders.{Answering, Entering, Put, SameLadder, of_zone, other_zone, side_causes};

use callfile::forms::read_call;
use market::block::{Bid, Block};
use market::call::Call;
use market::purchase::Purchase;
use market::refusal::Refusal;
use market::sale::Sale;
use market::zone::{Side, Zone};
use table::table::Table;

// The two ladders of one zone.
#[derive(Drop)]
pub struct Ladder<'a> {
    pub sales: Table<'a, Sale>,
    pub purchases: Table<'a, Purchase>,
}

#[derive(Drop)]
pub struct Ladders<'a> {
    pub one: Ladder<'a>,
    pub two: Ladder<'a>,
}

impl<'a> Ladder<'a> {
    // Two empty ladders over places that are lent.
    pub fn new(sales: &'a mut [Sale], purchases: &'a mut [Purchase]) -> Ladder<'a>
        ensures sales { (result.sales.rows.now ≡ sales.old) × (result.sales.count ≡ 0) }
        ensures purchases { (result.purchases.rows.now ≡ purchases.old) × (result.purchases.count ≡ 0) }
    {
        let sales = Table::new(sales, 0);
        let purchases = Table::new(purchases, 0);
        Ladder { sales, purchases }
    }

    // Puts a bid into the ladder of its side.
    pub fn put(&mut self, side: Side, bid: Bid) -> Result<(), Refusal>
        ensures why { FirstCause (side_causes side bid self.old) result }
        ensures after { Put side bid self.old self.new result }
    {
        let block = Block::unmatched(bid);
        match side {
            Side::Sale => Ok(self.sales.insert(Sale { block })?),
            Side::Purchase => Ok(self.purchases.insert(Purchase { block })?),
        }
    }
}

impl<'a> Ladders<'a> {
    pub fn new(one: Ladder<'a>, two: Ladder<'a>) -> Ladders<'a>
        ensures one { SameLadder one.entry result.one }
        ensures two { SameLadder two.entry result.two }
    {
        Ladders { one, two }
    }

    // Puts a bid into the ladder of its zone and side.
    pub fn put(&mut self, zone: Zone, side: Side, bid: Bid) -> Result<(), Refusal>
        ensures why { FirstCause (side_causes side bid (of_zone zone self.old)) result }
        ensures after { Put side bid (of_zone zone self.old) (of_zone zone self.new) result }
        ensures other { SameLadder (other_zone zone self.old) (other_zone zone self.new) }
    {
        match zone {
            Zone::One => self.one.put(side, bid),
            Zone::Two => self.two.put(side, bid),
        }
    }

    // Enters a bid by the number of its zone, or answers the first cause against it.
    pub fn enter(&mut self, zone: u32, side: Side, bid: Bid) -> Result<(), Refusal>
        ensures { Entering zone side bid self.old self.new result }
    {
        let zone = Zone::try_from(zone)?;
        bid.check()?;
        self.put(zone, side, bid)
    }

    // Enters the bid of a line; any other line is no form, and so is one that was too long to be held.
    pub fn answer(&mut self, line: Option<&[u8]>) -> Result<(), Refusal>
        ensures { Answering (option_map (λ x. x.now) line.entry) self.old self.new result }
    {
        match read_call(line.ok_or(Refusal::NoForm)?) {
            Some(Call::Enter { zone, side, bid }) => self.enter(zone, side, bid),
            _ => Err(Refusal::NoForm),
        }
    }
}
