// A look at a table: the first `count` rows of a slice that is shared.
ghost use Rattle.std.specs.Prelude.{◌≡◌, take, Decides};
ghost use Rattle.table.specs.Rows.{Sound, found, rank};
ghost use Rattle.table.specs.Edits.{Fitting, Judged};

use crate::fault::Fault;
use crate::record::Record;
use crate::slices::is_sound;

#[derive(Clone, Copy)]
pub struct View<'a, R> {
    pub rows: &'a [R],
    pub count: usize,
}

impl<'a, R> View<'a, R> {
    pub fn new(rows: &'a [R], count: usize) -> View<'a, R>
        ensures rows { result.rows.now ≡ rows.now }
        ensures count { result.count ≡ count }
    {
        View { rows, count }
    }

    // The counted rows: the first `count`, or all where there are fewer.
    pub fn counted(&self) -> &'a [R]
        ensures { result.now ≡ take self.now.count self.now.rows.now }
    {
        &self.rows[..self.count.min(self.rows.len())]
    }
}

impl<'a, R: Record> View<'a, R> {
    // Whether the slice has no more places than the largest count, and no fewer than are counted.
    pub fn fits(&self) -> bool
        ensures { Decides result (Fitting R.MAX self.now.rows.now self.now.count) }
    {
        self.rows.len() <= R::MAX && self.count <= self.rows.len()
    }

    // Whether the counted rows are within their limits and in order, with no key twice.
    pub fn is_sound(&self) -> bool
        ensures { Decides result (Sound R.order R.limits (take self.now.count self.now.rows.now)) }
    {
        is_sound(self.counted())
    }

    pub fn check(&self) -> Result<(), Fault>
        ensures { Judged R.order R.limits R.MAX self.now.rows.now self.now.count result }
    {
        if !self.fits() {
            return Err(Fault::Size);
        }
        if !self.is_sound() {
            return Err(Fault::Disturbed);
        }
        Ok(())
    }

    // The place of the counted row with the key.
    pub fn find(&self, key: R::Key) -> Option<usize>
        ensures { result ≡ found R.order key (take self.now.count self.now.rows.now) }
    {
        self.counted()
            .iter()
            .position(|row| R::same_key(row.key(), key))
    }

    // How many counted rows, from the first on, come before `row`.
    pub(crate) fn place(&self, row: &R) -> usize
        ensures { result ≡ rank R.order row.now (take self.now.count self.now.rows.now) }
    {
        self.counted()
            .iter()
            .take_while(|other| other.before(row))
            .count()
    }
}
