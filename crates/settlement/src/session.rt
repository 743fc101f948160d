// A cleared session: the counted blocks of each zone with their matched volumes, the zone's price, and the flow from zone 1 to zone 2.
ghost use Rattle.std.specs.Prelude.{◌≡◌, ◌+◌, ◌*◌, ◌^◌, ◌<◌, ◌≤◌, true, length, set, pos, ◌+ℤ◌, Decides, unsigned_abs};
ghost use Rattle.std.specs.List.{AllByRecursion};
ghost use Rattle.settlement.specs.Balance.{Balanced};
ghost use Rattle.settlement.specs.Entries.{block_entries, entries_of, zone_entries};
ghost use Rattle.settlement.specs.Writing.{written};
ghost use Rattle.settlement.specs.Postings.{KnownAgents, has_account, income_of, posted, residue_of, total};
ghost use Rattle.settlement.specs.Sessions.{outcome_of, zone_of};

use crate::amount::congestion_income;
use crate::entry::Entry;
use crate::sides::{
    agents_known, matched_blocks, matched_volume, posted_cents, total_cents, write_side,
};
use market::account::Account;
use market::purchase::Purchase;
use market::sale::Sale;

#[derive(Clone, Copy)]
pub struct ClearedZone<'a> {
    pub sales: &'a [Sale],
    pub purchases: &'a [Purchase],
    pub price: i32,
}

#[derive(Clone, Copy)]
pub struct ClearedSession<'a> {
    pub one: ClearedZone<'a>,
    pub two: ClearedZone<'a>,
    pub flow: i32,
}

// Each method of a zone joins what its two sides give. Their rows differ in type, and no closure takes both types, so a helper
// would need a trait with an impl for each method.
impl ClearedZone<'_> {
    // How many blocks have anything matched.
    fn matched_blocks(self) -> u128
        ensures value { result ≡ length (zone_entries (zone_of self.entry)) }
        ensures small { result < 2 ^ 65 }
    {
        matched_blocks(self.sales) as u128 + matched_blocks(self.purchases) as u128
    }

    // The cents of the zone's entries.
    fn total_cents(self) -> i128
        ensures value { result ≡ total (λ e. e.cents) (zone_entries (zone_of self.entry)) }
        ensures small { unsigned_abs result ≤ 2 ^ 125 }
    {
        total_cents(self.sales, self.price) + total_cents(self.purchases, self.price)
    }

    // The cents of the zone's entries that go to the agent.
    fn posted_cents(self, agent: u32) -> i128
        ensures value { result ≡ posted agent (zone_entries (zone_of self.entry)) }
        ensures small { unsigned_abs result ≤ 2 ^ 125 }
    {
        posted_cents(self.sales, self.price, agent)
            + posted_cents(self.purchases, self.price, agent)
    }

    // Whether the agent of every matched block has an account.
    fn agents_known(self, accounts: &[Account]) -> bool
        ensures { Decides result (AllByRecursion (λ e. has_account accounts.now e.agent ≡ true) (zone_entries (zone_of self.entry))) }
    {
        agents_known(self.sales, accounts) && agents_known(self.purchases, accounts)
    }

    // Writes the zone's entries over the first places; answers how many.
    fn write(self, entries: &mut [Entry]) -> usize
        requires { length (zone_entries (zone_of self)) ≤ length entries.old }
        ensures entries { entries.new ≡ written 0 (zone_entries (zone_of self.entry)) entries.old }
        ensures count { result ≡ length (zone_entries (zone_of self.entry)) }
    {
        let sold = write_side(self.sales, self.price, entries);
        sold + write_side(self.purchases, self.price, &mut entries[sold..])
    }
}

// Whether one volume exceeds another by the flow.
fn exceeds(more: u128, less: u128, flow: i32) -> bool
    ensures { Decides result (pos more ≡ pos less +ℤ flow) }
{
    less.checked_add_signed(flow as i128) == Some(more)
}

// Writes the entry of the congestion income at the place, also when it is zero.
fn write_income(entries: &mut [Entry], place: usize, cents: i64)
    requires { place < length entries.old }
    ensures { entries.new ≡ set entries.old place (record { agent = 0; unit = 0; number = 0; cents = cents }) }
{
    entries[place] = Entry::income(cents);
}

// Each method of a session joins its two zones by `+` or `&&`. A helper that took the zone's method as a closure would need a
// contract over all such closures, to save a few words.
impl ClearedSession<'_> {
    // Whether the matched volumes balance with the flow, zone by zone.
    pub(crate) fn is_balanced(self) -> bool
        ensures { Decides result (Balanced (outcome_of self.entry)) }
    {
        let exported = exceeds(
            matched_volume(self.one.sales),
            matched_volume(self.one.purchases),
            self.flow,
        );
        let imported = exceeds(
            matched_volume(self.two.purchases),
            matched_volume(self.two.sales),
            self.flow,
        );
        exported && imported
    }

    // Whether the agent of every matched block has an account.
    pub(crate) fn agents_known(self, accounts: &[Account]) -> bool
        ensures { Decides result (KnownAgents (outcome_of self.entry) accounts.now) }
    {
        self.one.agents_known(accounts) && self.two.agents_known(accounts)
    }

    // How many entries the session has: one for each matched block, and the congestion income.
    pub(crate) fn entry_count(self) -> u128
        ensures value { result ≡ length (entries_of (outcome_of self.entry)) }
    {
        self.one.matched_blocks() + self.two.matched_blocks() + 1
    }

    // The congestion income in cents.
    pub(crate) fn income(self) -> i64
        ensures value { result ≡ income_of (outcome_of self.entry) }
        ensures small { unsigned_abs result ≤ 2 ^ 60 }
    {
        congestion_income(self.flow, self.one.price, self.two.price)
    }

    // The cents of the blocks' entries that go to the agent.
    pub(crate) fn posted_cents(self, agent: u32) -> i128
        ensures value { result ≡ posted agent (block_entries (outcome_of self.entry)) }
        ensures small { unsigned_abs result ≤ 2 ^ 126 }
    {
        self.one.posted_cents(agent) + self.two.posted_cents(agent)
    }

    // The cents of all entries.
    fn total_cents(self) -> i128
        ensures value { result ≡ total (λ e. e.cents) (entries_of (outcome_of self.entry)) }
        ensures small { unsigned_abs result ≤ 2 ^ 126 + 2 ^ 60 }
    {
        self.one.total_cents() + self.two.total_cents() + self.income() as i128
    }

    // The residue of the session: what all its entries lack of zero.
    pub(crate) fn residue(self) -> i128
        requires { Balanced (outcome_of self) }
        ensures value { result ≡ residue_of (outcome_of self.entry) }
        ensures small { 2 * unsigned_abs result ≤ length (entries_of (outcome_of self.entry)) }
        ensures bound { unsigned_abs result ≤ 2 ^ 126 + 2 ^ 60 }
    {
        -self.total_cents()
    }

    // Writes the entries of the session.
    pub(crate) fn write_entries(self, entries: &mut [Entry])
        requires { length (entries_of (outcome_of self)) ≤ length entries.old }
        ensures { entries.new ≡ written 0 (entries_of (outcome_of self.entry)) entries.old }
    {
        let first = self.one.write(entries);
        let second = self.two.write(&mut entries[first..]);
        write_income(entries, first + second, self.income());
    }
}
