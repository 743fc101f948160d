// The tables of an exchange, one at a time.
ghost use Rattle.std.specs.Prelude.{◌≡◌};
ghost use Rattle.market.specs.Refusals.{FirstCause};
ghost use Rattle.session.specs.Causes.{place_causes};
ghost use Rattle.session.specs.Changes.{Becomes, Leaves};
ghost use Rattle.session.specs.Lending.{held};
ghost use Rattle.session.specs.Tables.{kind, put_in};

use market::refusal::Refusal;
use table::record::Record;
use table::table::Table;

// Puts a row in at its place; answers the new count.
pub(crate) fn put<R: Record>(table: &mut Table<'_, R>, row: R) -> Result<usize, Refusal>
    ensures why { FirstCause (place_causes (kind R.order R.limits R.MAX) row (held table.old)) result }
    ensures after { Leaves table.old.rows.now (Becomes (put_in (kind R.order R.limits R.MAX) row (held table.old))) result table.new.rows.now }
    ensures lent { table.new.rows.ghost_name ≡ table.old.rows.ghost_name }
{
    table.insert(row)?;
    Ok(table.count)
}
