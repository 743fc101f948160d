// Reads begin, enter and clear lines from standard input and shows each clearing: brackets, prices, flow, surplus, and what is matched
// of each block (docs/CALLS.md).
#![tactic(auto)]

mod high_end;

use auction::engine::{Clearing, Engine};
use callfile::forms::read_call;
use high_end::HighEnd;
use ladders::answered::Answered;
use ladders::ladders::{Ladder, Ladders};
use market::block::Block;
use market::call::Call;
use market::capacities::Capacities;
use market::purchase::Purchase;
use market::refusal::Refusal;
use market::row::BlockRow;
use market::sale::Sale;
use market::zone::Zone;
use period::clear_period;
use rules::price::LowEnd;
use rules::sharing::ByPrecedence;
use service::{Service, serve};
use std::io;
use std::io::{BufWriter, Write};
use table::table::Table;

const PLACES: usize = 256;

const LOW: Engine<LowEnd, ByPrecedence> = Engine {
    price_rule: LowEnd,
    sharing_rule: ByPrecedence,
};

const HIGH: Engine<HighEnd, ByPrecedence> = Engine {
    price_rule: HighEnd,
    sharing_rule: ByPrecedence,
};

// The ladders of the period, and the capacities from zone 1 to zone 2 and back. They are no `Capacities`: the borrow
// checker does not cover a service that holds a `&mut` beside a struct with a ghost field.
struct Desk<'a> {
    ladders: Ladders<'a>,
    forward: u32,
    backward: u32,
}

fn leave_none(ladder: &mut Ladder) {
    ladder.sales.count = 0;
    ladder.purchases.count = 0;
}

impl<'a> Desk<'a> {
    // Begins a period: no block stands.
    fn begin(&mut self, forward: u32, backward: u32) -> Result<(), Refusal> {
        let capacities = Capacities::new(forward, backward)?;
        self.forward = capacities.forward();
        self.backward = capacities.backward();
        leave_none(&mut self.ladders.one);
        leave_none(&mut self.ladders.two);
        Ok(())
    }

    // Clears the period by each end of the bracket: the volumes are the same, and the prices are the two ends.
    fn clear(&mut self) -> Result<(Clearing, Clearing), Refusal> {
        let high = clear_period(&HIGH, &mut self.ladders, self.forward, self.backward)?;
        let low = clear_period(&LOW, &mut self.ladders, self.forward, self.backward)?;
        Ok((low, high))
    }
}

fn answer<W: Write>(out: &mut W, answer: Result<(), Refusal>) -> io::Result<()> {
    let answer = Answered(answer);
    writeln!(out, "{answer}")
}

fn show_side<W: Write, R: BlockRow>(out: &mut W, zone: Zone, table: &Table<R>) -> io::Result<()> {
    let side = R::side();
    for row in table.rows.iter().take(table.count) {
        let Block { bid, matched } = row.block();
        writeln!(out, "(block {zone} {side} {bid} {matched})")?;
    }
    Ok(())
}

// The blocks of one zone in their order of precedence, each with what is matched of it.
fn show<W: Write>(out: &mut W, zone: Zone, ladder: &Ladder) -> io::Result<()> {
    show_side(out, zone, &ladder.sales)?;
    show_side(out, zone, &ladder.purchases)
}

fn show_clearing<W: Write>(
    out: &mut W,
    low: &Clearing,
    high: &Clearing,
    ladders: &Ladders,
) -> io::Result<()> {
    let Clearing {
        price_one,
        price_two,
        flow,
        surplus,
    } = *low;
    let (above_one, above_two) = (high.price_one, high.price_two);
    writeln!(out, "(bracket 1 {price_one} {above_one})")?;
    writeln!(out, "(bracket 2 {price_two} {above_two})")?;
    writeln!(
        out,
        "(cleared (price {price_one} {price_two}) (flow {flow}) (surplus {surplus}))"
    )?;
    show(out, Zone::One, &ladders.one)?;
    show(out, Zone::Two, &ladders.two)
}

impl<'a> Service for Desk<'a> {
    fn reply<W: Write>(self, out: &mut W, line: Option<&[u8]>) -> (Self, io::Result<()>) {
        let mut desk = self;
        let done = match line.and_then(read_call) {
            Some(
                Call::Begin {
                    session: _,
                    forward,
                    backward,
                },
            ) => answer(out, desk.begin(forward, backward)),
            Some(Call::Enter { zone, side, bid }) => answer(
                out,
                desk.ladders.enter(zone, side, bid),
            ),
            Some(Call::Clear) => match desk.clear() {
                Ok((low, high)) => show_clearing(out, &low, &high, &desk.ladders),
                Err(why) => answer(out, Err(why)),
            },
            _ => answer(out, Err(Refusal::NoForm)),
        };
        (desk, done)
    }
}

fn main(rt: HostRuntime) -> anyhow::Result<()> {
    let heap = rt.alloc();
    // Four by name: a ladder borrows two, and a value that held all four would have to lend them one by one.
    let mut sales_one = vec![in heap; Sale::default(); PLACES]?;
    let mut purchases_one = vec![in heap; Purchase::default(); PLACES]?;
    let mut sales_two = vec![in heap; Sale::default(); PLACES]?;
    let mut purchases_two = vec![in heap; Purchase::default(); PLACES]?;
    let one = Ladder::new(&mut sales_one, &mut purchases_one);
    let two = Ladder::new(&mut sales_two, &mut purchases_two);
    let ladders = Ladders::new(one, two);
    let mut input = rt.stdin();
    let mut out = BufWriter::new(heap, rt.stdout())?;
    let (desk, done) = serve(
        Desk {
            ladders,
            forward: 0,
            backward: 0,
        },
        &mut input,
        &mut out,
    );
    let Desk {
        ladders: _,
        forward: _,
        backward: _,
    } = desk;
    done?;
    out.flush()?;
    Ok(())
}
