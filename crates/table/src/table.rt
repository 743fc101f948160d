// A table: the first `count` rows of a slice that is lent to it. The count stands beside the slice, as the memory is the lender's and
// the count is the exchange's.
ghost use Rattle.std.specs.Prelude.{◌≡◌, ℕ, ◌≤◌, length, take, Decides};
ghost use Rattle.table.specs.Rows.{Sound, found};
ghost use Rattle.table.specs.Edits.{Fitting, Judged, Inserted, Removed};

use crate::fault::{Fault, Refusal};
use crate::record::Record;
use crate::slices::{close_at, open_at};
use crate::view::View;

#[derive(Drop)]
pub struct Table<'a, R> {
    pub rows: &'a mut [R],
    pub count: usize,
}

impl<'a, R: Record> Table<'a, R> {
    pub fn new(rows: &'a mut [R], count: usize) -> Table<'a, R>
        ensures rows { result.rows.now ≡ rows.old }
        ensures count { result.count ≡ count }
        ensures lent { result.rows.ghost_name ≡ rows.entry.ghost_name }
    {
        Table { rows, count }
    }

    // A look at the table.
    pub fn view(&self) -> View<'_, R>
        ensures rows { result.rows.now ≡ self.now.rows.now }
        ensures count { result.count ≡ self.now.count }
    {
        View::new(&*self.rows, self.count)
    }

    // Whether the slice has no more places than the largest count, and no fewer than are counted.
    pub fn fits(&self) -> bool
        ensures { Decides result (Fitting R.MAX self.now.rows.now self.now.count) }
    {
        self.view().fits()
    }

    // Whether the counted rows are within their limits and in order, with no key twice.
    pub fn is_sound(&self) -> bool
        ensures { Decides result (Sound R.order R.limits (take self.now.count self.now.rows.now)) }
    {
        self.view().is_sound()
    }

    pub fn check(&self) -> Result<(), Fault>
        ensures { Judged R.order R.limits R.MAX self.now.rows.now self.now.count result }
    {
        self.view().check()
    }

    // The place of the counted row with the key.
    pub fn find(&self, key: R::Key) -> Option<usize>
        ensures { result ≡ found R.order key (take self.now.count self.now.rows.now) }
    {
        self.view().find(key)
    }

    // Puts a row in at its place in the order.
    #[tactic(auto, using(crate::proofs::Keys::found_none))]
    pub fn insert(&mut self, row: R) -> Result<(), Refusal>
        ensures edit { Inserted R.order row self.old.rows.now self.old.count self.new.rows.now self.new.count result }
        ensures keeps { R.limits row → Sound R.order R.limits (take self.old.count self.old.rows.now) → Sound R.order R.limits (take self.new.count self.new.rows.now) }
        ensures room { length self.new.rows.now ≡ length self.old.rows.now }
        ensures lent { self.new.rows.ghost_name ≡ self.old.rows.ghost_name }
    {
        if self.find(row.key()).is_some() {
            return Err(Refusal::Taken);
        }
        let n = self.count;
        if n >= self.rows.len() {
            return Err(Refusal::Full);
        }
        let p = self.view().place(&row);
        open_at(self.rows, p, n, row);
        self.count = n + 1;
        Ok(())
    }

    // Takes out the row with the key; answers whether there was one.
    #[tactic(auto, using(crate::proofs::Keys::found_none, crate::proofs::Sounds::was_removed))]
    pub fn remove(&mut self, key: R::Key) -> bool
        ensures edit { Removed R.order key self.old.rows.now self.old.count self.new.rows.now self.new.count result }
        ensures keeps { Sound R.order R.limits (take self.old.count self.old.rows.now) → Sound R.order R.limits (take self.new.count self.new.rows.now) }
        ensures room { length self.new.rows.now ≡ length self.old.rows.now }
        ensures lent { self.new.rows.ghost_name ≡ self.old.rows.ghost_name }
    {
        let Some(p) = self.find(key) else {
            return false;
        };
        let n = self.count.min(self.rows.len());
        close_at(self.rows, p, n);
        self.count = n - 1;
        true
    }
}
