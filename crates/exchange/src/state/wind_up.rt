// The end of an exchange, in whichever state it is. The tables and the entry list stay with the caller as they are.
ghost use Rattle.std.specs.Prelude.{◌≡◌};
ghost use Rattle.exchange.specs.Winding.{rules_of};

use crate::exchange::Exchange;
use crate::state::{Cleared, Closed, Idle, Open};
use auction::engine::Engine;

impl<P, S> Exchange<P, S> {
    // Ends the exchange, and hands back its rules.
    pub fn wind_up(self) -> Engine<P, S>
        ensures { result ≡ rules_of self }
    {
        match self {
            Exchange::Idle(Idle { engine, ledger: _ }) => engine,
            Exchange::Open(
                Open {
                    engine,
                    ledger: _,
                    session: _,
                },
            ) => engine,
            Exchange::Closed(
                Closed {
                    engine,
                    ledger: _,
                    session: _,
                },
            ) => engine,
            Exchange::Cleared(
                Cleared {
                    engine,
                    ledger: _,
                    session: _,
                    report: _,
                },
            ) => engine,
        }
    }
}
