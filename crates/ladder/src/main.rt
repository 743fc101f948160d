// Reads enter lines from standard input, answers each, and prints the ladders at the end of the input (docs/CALLS.md).
#![tactic(auto)]

ghost use Rattle.ladders.specs.Ladders.{Answering};
ghost use Rattle.market.specs.declared.refusal.Refusal.{Refusal};
ghost use Rattle.std.specs.Prelude.{Result};

use ladders::answered::Answered;
use ladders::ladders::{Ladder, Ladders};
use market::purchase::Purchase;
use market::row::BlockRow;
use market::sale::Sale;
use market::zone::Zone;
use service::{Service, serve};
use std::io;
use std::io::{BufWriter, Write};
use table::table::Table;

const PLACES: usize = 256;

// The ladders, answering lines.
struct Desk<'a> {
    ladders: Ladders<'a>,
}

impl<'a> Service for Desk<'a> {
    ghost turns = { λ desk line after. (answer : Result (Unit {0}) Refusal) × Answering line desk.ladders after.ladders answer };

    fn reply<W: Write>(self, out: &mut W, line: Option<&[u8]>) -> (Self, io::Result<()>) {
        let Desk { mut ladders } = self;
        let answer = Answered(ladders.answer(line));
        (Desk { ladders }, writeln!(out, "{answer}"))
    }
}

fn show_side<W: Write, R: BlockRow>(out: &mut W, zone: Zone, table: &Table<R>) -> io::Result<()> {
    let side = R::side();
    for row in table.rows.iter().take(table.count) {
        let bid = row.block().bid;
        writeln!(out, "(block {zone} {side} {bid})")?;
    }
    Ok(())
}

// The blocks of one zone in their order of precedence.
fn show<W: Write>(out: &mut W, zone: Zone, ladder: &Ladder) -> io::Result<()> {
    show_side(out, zone, &ladder.sales)?;
    show_side(out, zone, &ladder.purchases)
}

fn main(rt: HostRuntime) -> anyhow::Result<()> {
    let heap = rt.alloc();
    // Four by name: a ladder borrows two, and a value that held all four would have to lend them one by one.
    let mut sales_one = vec![in heap; Sale::default(); PLACES]?;
    let mut purchases_one = vec![in heap; Purchase::default(); PLACES]?;
    let mut sales_two = vec![in heap; Sale::default(); PLACES]?;
    let mut purchases_two = vec![in heap; Purchase::default(); PLACES]?;
    let one = Ladder::new(&mut sales_one, &mut purchases_one);
    let two = Ladder::new(&mut sales_two, &mut purchases_two);
    let ladders = Ladders::new(one, two);
    let mut input = rt.stdin();
    let mut out = BufWriter::new(heap, rt.stdout())?;
    let (desk, done) = serve(Desk { ladders }, &mut input, &mut out);
    let Desk { ladders } = desk;
    done?;
    show(&mut out, Zone::One, &ladders.one)?;
    show(&mut out, Zone::Two, &ladders.two)?;
    out.flush()?;
    Ok(())
}
