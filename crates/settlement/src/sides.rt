// The blocks of one side of one zone: what is matched of them, and what they are due. One loop for sales and purchases alike.
ghost use Rattle.std.specs.Prelude.{◌≡◌, ◌+◌, ◌^◌, ◌<◌, ◌≤◌, true, [], ◌∷◌, length, ℤ, Decides, filter, unsigned_abs};
ghost use Rattle.std.specs.Fn.{FnReturnsAt};
ghost use Rattle.std.specs.List.{AllByRecursion};
ghost use Rattle.settlement.specs.Balance.{matched};
ghost use Rattle.settlement.specs.Entries.{due, entry, is_matched, side_entries, trade_of};
ghost use Rattle.settlement.specs.Writing.{written};
ghost use Rattle.settlement.specs.Postings.{has_account, posted, total};

use crate::accounts::has_account;
use crate::amount::cents;
use crate::entry::Entry;
use market::account::Account;
use market::block::Block;
use market::row::BlockRow;

// The matched volume of all blocks.
pub(crate) fn matched_volume<B: BlockRow>(blocks: &[B]) -> u128
    ensures { result ≡ matched (trade_of B.held B.traded) blocks.now }
{
    blocks.iter().map(|row| row.block().matched as u128).sum()
}

// Whether anything of a row is matched.
fn is_matched<B: BlockRow>(row: &B) -> bool
    ensures { result ≡ is_matched (trade_of B.held B.traded) row.now }
{
    row.block().matched > 0
}

// How many blocks have anything matched.
pub(crate) fn matched_blocks<B: BlockRow>(blocks: &[B]) -> usize
    ensures { result ≡ length (filter (is_matched (trade_of B.held B.traded)) blocks.now) }
{
    blocks.iter().filter(|row| is_matched(*row)).count()
}

// Whether the agent of every matched block has an account.
pub(crate) fn agents_known<B: BlockRow>(blocks: &[B], accounts: &[Account]) -> bool
    ensures { (price : ℤ) → Decides result (AllByRecursion (λ e. has_account accounts.now e.agent ≡ true) (side_entries (trade_of B.held B.traded) price blocks.now)) }
{
    blocks
        .iter()
        .filter(|row| is_matched(*row))
        .all(|row| has_account(accounts, row.block().bid.agent))
}

// The cents of a row's entry, or 0 if it has none.
fn row_cents<B: BlockRow>(row: &B, price: i32) -> i64
    ensures value { result ≡ total (λ e. e.cents) (side_entries (trade_of B.held B.traded) price (row.now ∷ [])) }
    ensures small { unsigned_abs result ≤ 2 ^ 60 }
{
    let block = row.block();
    if block.matched == 0 {
        return 0;
    }
    cents(B::side(), price, block.matched)
}

// The cents of a row's entry that go to the agent.
fn row_posted<B: BlockRow>(row: &B, price: i32, agent: u32) -> i64
    ensures value { result ≡ posted agent (side_entries (trade_of B.held B.traded) price (row.now ∷ [])) }
    ensures small { unsigned_abs result ≤ 2 ^ 60 }
{
    if row.block().bid.agent != agent {
        return 0;
    }
    row_cents(row, price)
}

// The sum of a small number of each row.
fn summed<B, F: Fn(&B) -> i64>(blocks: &[B], addend: F) -> i128
    requires callable { F.IsAlwaysCallable addend }
    requires small { (row : B) (r : ℤ) → FnReturnsAt F.Fn addend row r → unsigned_abs r ≤ 2 ^ 60 }
    ensures value { (number : B → ℤ) → ((row : B) (r : ℤ) → FnReturnsAt F.Fn addend row r → r ≡ number row) → result ≡ total number blocks.now }
    ensures small { unsigned_abs result ≤ 2 ^ 124 }
{
    let mut sum: i128 = 0;
    for row in blocks {
        sum += addend(row) as i128;
    }
    sum
}

// The cents of all entries.
pub(crate) fn total_cents<B: BlockRow>(blocks: &[B], price: i32) -> i128
    ensures value { result ≡ total (λ e. e.cents) (side_entries (trade_of B.held B.traded) price blocks.now) }
    ensures small { unsigned_abs result ≤ 2 ^ 124 }
{
    summed(blocks, |row| row_cents(row, price))
}

// The cents of all entries that go to the agent.
pub(crate) fn posted_cents<B: BlockRow>(blocks: &[B], price: i32, agent: u32) -> i128
    ensures value { result ≡ posted agent (side_entries (trade_of B.held B.traded) price blocks.now) }
    ensures small { unsigned_abs result ≤ 2 ^ 124 }
{
    summed(blocks, |row| row_posted(row, price, agent))
}

// The entry of a matched row.
fn row_entry<B: BlockRow>(row: &B, price: i32) -> Entry
    ensures { result ≡ entry (due (trade_of B.held B.traded) price row.now) }
{
    let Block { bid, matched } = row.block();
    Entry {
        agent: bid.agent,
        unit: bid.unit,
        number: bid.number,
        cents: cents(B::side(), price, matched),
    }
}

// Writes the entries of all matched blocks over the first places; answers how many. The place is counted by hand: a `for` over an
// enumerated filter gets no invariant in a generic function.
pub(crate) fn write_side<B: BlockRow>(blocks: &[B], price: i32, entries: &mut [Entry]) -> usize
    requires { length (side_entries (trade_of B.held B.traded) price blocks.now) ≤ length entries.old }
    ensures entries { entries.new ≡ written 0 (side_entries (trade_of B.held B.traded) price blocks.now) entries.old }
    ensures count { result ≡ length (side_entries (trade_of B.held B.traded) price blocks.now) }
{
    let mut place = 0;
    for row in blocks {
        if is_matched(row) {
            entries[place] = row_entry(row, price);
            place += 1;
        }
    }
    place
}
