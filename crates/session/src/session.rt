// The session that is open: what the interconnector can carry, and how many blocks are counted in each table.
ghost use Rattle.std.specs.Prelude.{◌≡◌, Err, Decides};
ghost use Rattle.market.specs.Places.{SamePlaces, SameZonePlaces};
ghost use Rattle.market.specs.Refusals.{FirstCause};
ghost use Rattle.session.specs.Causes.{BlocksFit, BlocksInOrder, ZoneFits, ZoneInOrder, clear_causes, enter_causes, five_causes, nowhere_causes, owned_causes, row_enter_causes, row_withdraw_causes, side_enter_causes, side_withdraw_causes, standing_causes, withdraw_causes};
ghost use Rattle.session.specs.Changes.{Becomes, Leaves, Passed, SessionBecomes, ZoneBecomes, empty_session};
ghost use Rattle.session.specs.Lending.{blocks_held, held, seen, zone_held};
ghost use Rattle.session.specs.Tables.{Fits, account_kind, entered_in, in_zone, kind, lent, put_in, taken_out, withdrawn_in, zone_at, zone_tables};

use crate::rows::put;
use market::account::Account;
use market::block::{Bid, Block, BlockKey};
use market::capacities::Capacities;
use market::places::{BlockPlaces, ZonePlaces};
use market::purchase::Purchase;
use market::refusal::Refusal;
use market::sale::Sale;
use market::zone::{Side, Zone};
use table::record::Record;
use table::table::Table;
use table::view::View;

#[derive(Clone, Copy, Default)]
pub struct ZoneCounts {
    pub sales: usize,
    pub purchases: usize,
}

#[derive(Clone, Copy)]
pub struct Session {
    pub capacities: Capacities,
    pub one: ZoneCounts,
    pub two: ZoneCounts,
}

// Checks the table that a row is to be put into, and the accounts.
fn check_tables<R: Record>(table: &Table<'_, R>, accounts: View<'_, Account>) -> Result<(), Refusal>
    ensures { FirstCause (standing_causes (kind R.order R.limits R.MAX) (held table.now) (seen accounts.entry)) result }
{
    if !(table.fits() && accounts.fits()) {
        return Err(Refusal::TableSize);
    }
    if !(table.is_sound() && accounts.is_sound()) {
        return Err(Refusal::TableDisturbed);
    }
    Ok(())
}

// Puts a row of an agent with an account into a table; answers the new count.
fn put_owned<R: Record>(
    table: &mut Table<'_, R>,
    accounts: View<'_, Account>,
    agent: u32,
    row: R,
) -> Result<usize, Refusal>
    ensures why { FirstCause (owned_causes (kind R.order R.limits R.MAX) row agent (held table.old) (seen accounts.entry)) result }
    ensures after { Leaves table.old.rows.now (Becomes (put_in (kind R.order R.limits R.MAX) row (held table.old))) result table.new.rows.now }
    ensures lent { table.new.rows.ghost_name ≡ table.old.rows.ghost_name }
{
    if accounts.find(agent).is_none() {
        return Err(Refusal::NoAccount);
    }
    put(table, row)
}

// Puts a bid into a table as a row, once the tables and the bid are checked; answers the new count. Rows and count come apart, since of
// a `Table` made of a field behind a `&mut` the caller's proof did not learn what the field holds afterwards.
fn enter_row<R: Record>(
    rows: &mut [R],
    count: usize,
    accounts: View<'_, Account>,
    bid: Bid,
    row: R,
) -> Result<usize, Refusal>
    ensures why { FirstCause (row_enter_causes (kind R.order R.limits R.MAX) row bid (lent rows.old count) (seen accounts.entry)) result }
    ensures after { Leaves rows.old (Becomes (put_in (kind R.order R.limits R.MAX) row (lent rows.old count))) result rows.new }
{
    let mut table = Table { rows, count };
    check_tables(&table, accounts)?;
    bid.check()?;
    put_owned(&mut table, accounts, bid.agent, row)
}

// Takes the block with the key out of a table; answers the new count.
fn withdraw_row<R: Record<Key = BlockKey>>(
    rows: &mut [R],
    count: usize,
    key: BlockKey,
) -> Result<usize, Refusal>
    ensures why { FirstCause (row_withdraw_causes (kind R.order R.limits R.MAX) key (lent rows.old count)) result }
    ensures after { Leaves rows.old (Becomes (taken_out (kind R.order R.limits R.MAX) key (lent rows.old count))) result rows.new }
{
    let mut table = Table { rows, count };
    table.check()?;
    if !key.within_limits() {
        return Err(Refusal::OutsideLimits);
    }
    if !table.remove(key) {
        return Err(Refusal::BlockAbsent);
    }
    Ok(table.count)
}

// Entering and withdrawing stay two calls of a zone and two of a session: a function over a closure would have to say what the closure
// makes of a zone's places, with their references, in more words than the match that it spares.
impl ZoneCounts {
    // Enters a bid on its side of the zone.
    fn enter(
        self,
        places: &mut ZonePlaces<'_>,
        accounts: View<'_, Account>,
        side: Side,
        bid: Bid,
    ) -> Result<ZoneCounts, Refusal>
        ensures why { FirstCause (side_enter_causes side bid (zone_held self places.old) (seen accounts.entry)) result }
        ensures after { ZoneBecomes places.old.sales.now places.old.purchases.now (entered_in side bid (zone_held self places.old)) result places.new.sales.now places.new.purchases.now }
        ensures lent { SameZonePlaces places.old places.new }
    {
        let block = Block { bid, matched: 0 };
        match side {
            Side::Sale => {
                let sales = enter_row(
                    &mut *places.sales,
                    self.sales,
                    accounts,
                    bid,
                    Sale { block },
                )?;
                Ok(ZoneCounts { sales, ..self })
            }
            Side::Purchase => {
                let purchases = enter_row(
                    &mut *places.purchases,
                    self.purchases,
                    accounts,
                    bid,
                    Purchase { block },
                )?;
                Ok(ZoneCounts { purchases, ..self })
            }
        }
    }

    // Withdraws a block of a side of the zone.
    fn withdraw(
        self,
        places: &mut ZonePlaces<'_>,
        side: Side,
        key: BlockKey,
    ) -> Result<ZoneCounts, Refusal>
        ensures why { FirstCause (side_withdraw_causes side key (zone_held self places.old)) result }
        ensures after { ZoneBecomes places.old.sales.now places.old.purchases.now (withdrawn_in side key (zone_held self places.old)) result places.new.sales.now places.new.purchases.now }
        ensures lent { SameZonePlaces places.old places.new }
    {
        match side {
            Side::Sale => {
                let sales = withdraw_row(&mut *places.sales, self.sales, key)?;
                Ok(ZoneCounts { sales, ..self })
            }
            Side::Purchase => {
                let purchases = withdraw_row(&mut *places.purchases, self.purchases, key)?;
                Ok(ZoneCounts { purchases, ..self })
            }
        }
    }
}

// Why a bid for a wrong zone is refused: the accounts are checked first.
fn wrong_zone(accounts: View<'_, Account>) -> Refusal
    ensures { FirstCause {A = Session} (nowhere_causes (seen accounts.entry)) (Err result) }
{
    if !accounts.fits() {
        return Refusal::TableSize;
    }
    if !accounts.is_sound() {
        return Refusal::TableDisturbed;
    }
    Refusal::OutsideLimits
}

impl Session {
    // A session under the capacities, with no block counted.
    pub fn new(capacities: Capacities) -> Session
        ensures { result ≡ empty_session capacities }
    {
        Session {
            capacities,
            one: ZoneCounts::default(),
            two: ZoneCounts::default(),
        }
    }

    // Enters a bid in its zone, on its side.
    pub fn enter(
        self,
        blocks: &mut BlockPlaces<'_>,
        accounts: View<'_, Account>,
        zone: u32,
        side: Side,
        bid: Bid,
    ) -> Result<Session, Refusal>
        ensures why { FirstCause (enter_causes (zone_at zone) side bid (blocks_held self blocks.old) (seen accounts.entry)) result }
        ensures after { SessionBecomes self blocks.old.sales_one.now blocks.old.purchases_one.now blocks.old.sales_two.now blocks.old.purchases_two.now (in_zone (zone_at zone) (entered_in side bid) (blocks_held self blocks.old)) result blocks.new.sales_one.now blocks.new.purchases_one.now blocks.new.sales_two.now blocks.new.purchases_two.now }
        ensures lent { SamePlaces blocks.old blocks.new }
    {
        match Zone::try_from(zone) {
            Ok(Zone::One) => {
                let mut places = ZonePlaces {
                    sales: &mut *blocks.sales_one,
                    purchases: &mut *blocks.purchases_one,
                };
                let one = self.one.enter(&mut places, accounts, side, bid)?;
                Ok(Session { one, ..self })
            }
            Ok(Zone::Two) => {
                let mut places = ZonePlaces {
                    sales: &mut *blocks.sales_two,
                    purchases: &mut *blocks.purchases_two,
                };
                let two = self.two.enter(&mut places, accounts, side, bid)?;
                Ok(Session { two, ..self })
            }
            Err(_) => Err(wrong_zone(accounts)),
        }
    }

    // Withdraws a block of a zone and side.
    pub fn withdraw(
        self,
        blocks: &mut BlockPlaces<'_>,
        zone: u32,
        side: Side,
        key: BlockKey,
    ) -> Result<Session, Refusal>
        ensures why { FirstCause (withdraw_causes (zone_at zone) side key (blocks_held self blocks.old)) result }
        ensures after { SessionBecomes self blocks.old.sales_one.now blocks.old.purchases_one.now blocks.old.sales_two.now blocks.old.purchases_two.now (in_zone (zone_at zone) (withdrawn_in side key) (blocks_held self blocks.old)) result blocks.new.sales_one.now blocks.new.purchases_one.now blocks.new.sales_two.now blocks.new.purchases_two.now }
        ensures lent { SamePlaces blocks.old blocks.new }
    {
        match Zone::try_from(zone)? {
            Zone::One => {
                let mut places = ZonePlaces {
                    sales: &mut *blocks.sales_one,
                    purchases: &mut *blocks.purchases_one,
                };
                let one = self.one.withdraw(&mut places, side, key)?;
                Ok(Session { one, ..self })
            }
            Zone::Two => {
                let mut places = ZonePlaces {
                    sales: &mut *blocks.sales_two,
                    purchases: &mut *blocks.purchases_two,
                };
                let two = self.two.withdraw(&mut places, side, key)?;
                Ok(Session { two, ..self })
            }
        }
    }
}

// Two checks and not one over a closure, of a zone and so of a session: the two tables of a zone are of two types, and a closure takes one.
impl ZoneCounts {
    // Whether the tables of the zone are within their sizes.
    fn fits(self, sales: &[Sale], purchases: &[Purchase]) -> bool
        ensures { Decides result (ZoneFits (zone_tables self sales.now purchases.now)) }
    {
        View::new(sales, self.sales).fits() && View::new(purchases, self.purchases).fits()
    }

    // Whether the counted blocks of the zone are within their limits and in order, with no key twice.
    fn in_order(self, sales: &[Sale], purchases: &[Purchase]) -> bool
        ensures { Decides result (ZoneInOrder (zone_tables self sales.now purchases.now)) }
    {
        View::new(sales, self.sales).is_sound() && View::new(purchases, self.purchases).is_sound()
    }
}

impl Session {
    // Whether the four tables of blocks are within their sizes.
    fn fits(self, blocks: &BlockPlaces<'_>) -> bool
        ensures { Decides result (BlocksFit (blocks_held self blocks.now)) }
    {
        self.one.fits(&*blocks.sales_one, &*blocks.purchases_one)
            && self.two.fits(&*blocks.sales_two, &*blocks.purchases_two)
    }

    // Whether the counted blocks are within their limits and in order, with no key twice in a table.
    fn in_order(self, blocks: &BlockPlaces<'_>) -> bool
        ensures { Decides result (BlocksInOrder (blocks_held self blocks.now)) }
    {
        self.one
            .in_order(&*blocks.sales_one, &*blocks.purchases_one)
            && self
                .two
                .in_order(&*blocks.sales_two, &*blocks.purchases_two)
    }

    // Checks the tables of a clearing.
    pub fn check(self, blocks: &BlockPlaces<'_>) -> Result<(), Refusal>
        ensures why { FirstCause (clear_causes (blocks_held self blocks.now)) result }
        ensures passed { Passed (BlocksFit (blocks_held self blocks.now) × BlocksInOrder (blocks_held self blocks.now)) result }
    {
        if !self.fits(blocks) {
            return Err(Refusal::TableSize);
        }
        if !self.in_order(blocks) {
            return Err(Refusal::TableDisturbed);
        }
        Ok(())
    }

    // Checks the tables of a settlement.
    pub fn check_all(
        self,
        blocks: &BlockPlaces<'_>,
        accounts: View<'_, Account>,
    ) -> Result<(), Refusal>
        ensures why { FirstCause (five_causes (blocks_held self blocks.now) (seen accounts.entry)) result }
        ensures passed { Passed (BlocksFit (blocks_held self blocks.now) × Fits account_kind (seen accounts.entry)) result }
    {
        if !(self.fits(blocks) && accounts.fits()) {
            return Err(Refusal::TableSize);
        }
        if !(self.in_order(blocks) && accounts.is_sound()) {
            return Err(Refusal::TableDisturbed);
        }
        Ok(())
    }
}
