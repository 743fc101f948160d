// Reads a call file from standard input and answers it, line by line, from a new exchange (docs/CALLS.md).
#![tactic(auto)]

use auction::engine::Engine;
use exchange::exchange::Exchange;
use exchange::state::Idle;
use lines::line::answer_line;
use lines::printed::Printed;
use market::account::Account;
use market::purchase::Purchase;
use market::sale::Sale;
use rules::price::LowEnd;
use rules::sharing::ByPrecedence;
use service::{Service, serve};
use session::lent::Lent;
use settlement::entry::Entry;
use std::alloc::{AllocError, Global};
use std::io;
use std::io::{BufWriter, Write};

const BLOCK_PLACES: usize = 256;

const ACCOUNT_PLACES: usize = 512;

// One for each block that four full tables hold, and one for the congestion income.
const ENTRY_PLACES: usize = 1_025;

// The tables of the exchange, and its entry list.
#[derive(Drop)]
struct Tables {
    sales_one: Vec<Sale>,
    purchases_one: Vec<Purchase>,
    sales_two: Vec<Sale>,
    purchases_two: Vec<Purchase>,
    accounts: Vec<Account>,
    entries: Vec<Entry>,
}

impl Tables {
    fn new(heap: Global) -> Result<Tables, AllocError> {
        Ok(Tables {
            sales_one: vec![in heap; Sale::default(); BLOCK_PLACES]?,
            purchases_one: vec![in heap; Purchase::default(); BLOCK_PLACES]?,
            sales_two: vec![in heap; Sale::default(); BLOCK_PLACES]?,
            purchases_two: vec![in heap; Purchase::default(); BLOCK_PLACES]?,
            accounts: vec![in heap; Account::default(); ACCOUNT_PLACES]?,
            entries: vec![in heap; Entry::default(); ENTRY_PLACES]?,
        })
    }

    fn lend(&mut self) -> Lent<'_> {
        Lent {
            sales_one: &mut self.sales_one,
            purchases_one: &mut self.purchases_one,
            sales_two: &mut self.sales_two,
            purchases_two: &mut self.purchases_two,
            accounts: &mut self.accounts,
            entries: &mut self.entries,
        }
    }
}

// The exchange, and what is lent to it at each call.
struct Desk {
    exchange: Exchange<LowEnd, ByPrecedence>,
    tables: Tables,
}

impl Service for Desk {
    // What a line does to the exchange and its tables is promised by `answer_line`.
    ghost turns = { λ desk line after. Unit {0} };

    fn reply<W: Write>(self, out: &mut W, line: Option<&[u8]>) -> (Self, io::Result<()>) {
        let Desk {
            exchange,
            mut tables,
        } = self;
        let (exchange, answer) = answer_line(exchange, &mut tables.lend(), line);
        let printed = Printed {
            answer,
            entries: &tables.entries,
        };
        let done = write!(out, "{printed}");
        (Desk { exchange, tables }, done)
    }
}

fn new_exchange() -> Exchange<LowEnd, ByPrecedence> {
    Exchange::Idle(Idle::new(Engine {
        price_rule: LowEnd,
        sharing_rule: ByPrecedence,
    }))
}

// Lets the exchange go, in whatever state the input left it.
fn leave(exchange: Exchange<LowEnd, ByPrecedence>) {
    let Engine {
        price_rule: _,
        sharing_rule: _,
    } = exchange.wind_up();
}

fn main(rt: HostRuntime) -> anyhow::Result<()> {
    let heap = rt.alloc();
    let mut input = rt.stdin();
    let mut out = BufWriter::new(heap, rt.stdout())?;
    let tables = Tables::new(heap)?;
    let exchange = new_exchange();
    let (desk, done) = serve(Desk { exchange, tables }, &mut input, &mut out);
    let Desk {
        exchange,
        tables: _,
    } = desk;
    leave(exchange);
    done?;
    out.flush()?;
    Ok(())
}
