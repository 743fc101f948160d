// The four states of an exchange. None can be copied or let go: a call takes the state and hands back the next one, or the same one
// with a refusal. The tables and the entry list are lent at each call.
ghost use Rattle.std.specs.Prelude.{◌≡◌, List};
ghost use Rattle.market.specs.Places.{SamePlaces};
ghost use Rattle.market.specs.Refusals.{FirstCause};
ghost use Rattle.session.specs.Causes.{admit_causes, begin_causes, clear_causes, enter_causes, settle_causes, withdraw_causes};
ghost use Rattle.session.specs.Lending.{blocks_held, four_held, places_held};
ghost use Rattle.session.specs.Outcomes.{held_for, outcome_at};
ghost use Rattle.exchange.specs.Calls.{Begins, ClearsFrom, Enters, IdleAdmits, OpenAdmits, SettlesFrom, Withdraws, annulled_cleared, annulled_closed, annulled_open, closes, new_idle};
ghost use Rattle.exchange.specs.Calls.{Moves, reason};
ghost use Rattle.session.specs.Tables.{Places, lent, zone_at};
ghost use Rattle.settlement.specs.declared.entry.Entry.{Entry};
ghost use Rattle.market.specs.declared.call.Call.TheVariants.{Admit, Begin, Enter, Withdraw, Close, Clear, Settle, Annul};
ghost use Rattle.exchange.specs.Applying.{accepting, reporting, settled_idle, settling, with_accounts, with_blocks};
ghost use Rattle.exchange.specs.Runs.{ResultStep, Step};
ghost use Rattle.exchange.specs.declared.exchange.Answer.TheVariants as answer;
ghost use Rattle.exchange.specs.declared.exchange.Exchange.TheVariants as exchange;

use auction::engine::Engine;
use market::account::Account;
use market::block::{Bid, BlockKey};
use market::places::BlockPlaces;
use market::refusal::Refusal;
use market::zone::Side;
use rules::price::PriceRule;
use rules::sharing::SharingRule;
use session::counted::{clear_session, settle_session};
use session::ledger::Ledger;
use session::report::Report;
use session::session::Session;
use settlement::entry::Entry;
use settlement::settle::Settled;
use table::view::View;

mod wind_up;

// Four types by the project's rule, so that the compiler names the state and the calls that it has (docs/ARCHITECTURE.md): `admit` is
// written for two of them, and `annul` for three.
pub struct Idle<P, S> {
    engine: Engine<P, S>,
    ledger: Ledger,
}

pub struct Open<P, S> {
    engine: Engine<P, S>,
    ledger: Ledger,
    session: Session,
}

pub struct Closed<P, S> {
    engine: Engine<P, S>,
    ledger: Ledger,
    session: Session,
}

pub struct Cleared<P, S> {
    engine: Engine<P, S>,
    ledger: Ledger,
    session: Session,
    report: Report,
}

// The exchange between two sessions.
fn between_sessions<P, S>(engine: Engine<P, S>, carried: Ledger) -> Idle<P, S>
    ensures { result ≡ record { engine = engine; ledger = carried } }
{
    Idle {
        engine,
        ledger: carried,
    }
}

// A refusal, and the state as it was. Each call hands it on by a `match`, since a `?` would let the state go.
pub struct Refused<T> {
    pub state: T,
    pub why: Refusal,
}

impl<P, S> Idle<P, S> {
    // A new exchange: no account, no block, and no session begun.
    pub fn new(engine: Engine<P, S>) -> Idle<P, S>
        ensures { result ≡ new_idle engine }
    {
        Idle {
            engine,
            ledger: Ledger::new(),
        }
    }
}

impl<P: PriceRule, S: SharingRule> Idle<P, S> {
    // Adds the agent's account.
    pub fn admit(
        mut self,
        accounts: &mut [Account],
        agent: u32,
    ) -> Result<Idle<P, S>, Refused<Idle<P, S>>>
        ensures why { FirstCause (admit_causes agent (lent accounts.old self.ledger.accounts)) (reason result) }
        ensures after { Moves self accounts.old (IdleAdmits agent accounts.old self) result accounts.new }
        ensures step { (t : Places) → ResultStep P.PriceRule.meaning S.SharingRule.meaning (Admit agent) exchange.Idle exchange.Idle accepting (exchange.Idle self) (with_accounts t accounts.old) result (with_accounts t accounts.new) }
    {
        match self.ledger.admit(accounts, agent) {
            Ok(ledger) => {
                self.ledger = ledger;
                Ok(self)
            }
            Err(why) => Err(Refused { state: self, why }),
        }
    }

    // Begins a session.
    pub fn begin(
        self,
        number: u32,
        forward: u32,
        backward: u32,
    ) -> Result<Open<P, S>, Refused<Idle<P, S>>>
        ensures why { FirstCause (begin_causes self.ledger.last_session number forward backward) (reason result) }
        ensures after { Begins self number forward backward result }
        ensures step { (t : Places) → ResultStep P.PriceRule.meaning S.SharingRule.meaning (Begin number forward backward) exchange.Open exchange.Idle accepting (exchange.Idle self) (t) result (t) }
    {
        match self.ledger.begin(number, forward, backward) {
            Ok((ledger, capacities)) => {
                let Idle { engine, ledger: _ } = self;
                let session = Session::new(capacities);
                Ok(Open {
                    engine,
                    ledger,
                    session,
                })
            }
            Err(why) => Err(Refused { state: self, why }),
        }
    }
}

impl<P: PriceRule, S: SharingRule> Open<P, S> {
    // Adds the agent's account.
    pub fn admit(
        mut self,
        accounts: &mut [Account],
        agent: u32,
    ) -> Result<Open<P, S>, Refused<Open<P, S>>>
        ensures why { FirstCause (admit_causes agent (lent accounts.old self.ledger.accounts)) (reason result) }
        ensures after { Moves self accounts.old (OpenAdmits agent accounts.old self) result accounts.new }
        ensures step { (t : Places) → ResultStep P.PriceRule.meaning S.SharingRule.meaning (Admit agent) exchange.Open exchange.Open accepting (exchange.Open self) (with_accounts t accounts.old) result (with_accounts t accounts.new) }
    {
        match self.ledger.admit(accounts, agent) {
            Ok(admitted) => {
                self.ledger = admitted;
                Ok(self)
            }
            Err(why) => Err(Refused { state: self, why }),
        }
    }

    // Enters a bid in its zone, on its side, at its place in the precedence.
    pub fn enter(
        mut self,
        blocks: &mut BlockPlaces<'_>,
        accounts: &[Account],
        zone: u32,
        side: Side,
        bid: Bid,
    ) -> Result<Open<P, S>, Refused<Open<P, S>>>
        ensures why { FirstCause (enter_causes (zone_at zone) side bid (blocks_held self.session blocks.old) (lent accounts.now self.ledger.accounts)) (reason result) }
        ensures after { Enters zone side bid self (four_held blocks.old) result (four_held blocks.new) }
        ensures lent { SamePlaces blocks.old blocks.new }
        ensures step { (entries : List Entry) → ResultStep P.PriceRule.meaning S.SharingRule.meaning (Enter zone side bid) exchange.Open exchange.Open accepting (exchange.Open self) (places_held blocks.old accounts.now entries) result (places_held blocks.new accounts.now entries) }
    {
        let counted = View {
            rows: accounts,
            count: self.ledger.accounts,
        };
        match self.session.enter(blocks, counted, zone, side, bid) {
            Ok(session) => {
                self.session = session;
                Ok(self)
            }
            Err(why) => Err(Refused { state: self, why }),
        }
    }

    // Takes out the block with the key, in its zone and on its side.
    pub fn withdraw(
        mut self,
        blocks: &mut BlockPlaces<'_>,
        zone: u32,
        side: Side,
        key: BlockKey,
    ) -> Result<Open<P, S>, Refused<Open<P, S>>>
        ensures why { FirstCause (withdraw_causes (zone_at zone) side key (blocks_held self.session blocks.old)) (reason result) }
        ensures after { Withdraws zone side key self (four_held blocks.old) result (four_held blocks.new) }
        ensures lent { SamePlaces blocks.old blocks.new }
        ensures step { (t : Places) → ResultStep P.PriceRule.meaning S.SharingRule.meaning (Withdraw zone side key) exchange.Open exchange.Open accepting (exchange.Open self) (with_blocks t (four_held blocks.old)) result (with_blocks t (four_held blocks.new)) }
    {
        match self.session.withdraw(blocks, zone, side, key) {
            Ok(session) => {
                self.session = session;
                Ok(self)
            }
            Err(why) => Err(Refused { state: self, why }),
        }
    }

    // Ends the entering of blocks.
    pub fn close(self) -> Closed<P, S>
        ensures after { result ≡ closes self }
        ensures step { (t : Places) → Step P.PriceRule.meaning S.SharingRule.meaning Close answer.Accepted (exchange.Open self) t (exchange.Closed result) t }
    {
        let Open {
            engine,
            ledger,
            session,
        } = self;
        Closed {
            engine,
            ledger,
            session,
        }
    }

    // Ends the session; nothing is posted.
    pub fn annul(self) -> Idle<P, S>
        ensures after { result ≡ annulled_open self }
        ensures step { (t : Places) → Step P.PriceRule.meaning S.SharingRule.meaning Annul answer.Accepted (exchange.Open self) t (exchange.Idle result) t }
    {
        let Open {
            engine,
            ledger,
            session: _,
        } = self;
        between_sessions(engine, ledger)
    }
}

impl<P: PriceRule, S: SharingRule> Closed<P, S> {
    // Ends the session; nothing is posted.
    pub fn annul(self) -> Idle<P, S>
        ensures after { result ≡ annulled_closed self }
        ensures step { (t : Places) → Step P.PriceRule.meaning S.SharingRule.meaning Annul answer.Accepted (exchange.Closed self) t (exchange.Idle result) t }
    {
        let Closed {
            engine,
            ledger,
            session: _,
        } = self;
        between_sessions(engine, ledger)
    }
}

impl<P: PriceRule, S: SharingRule> Cleared<P, S> {
    // Ends the session; nothing is posted.
    pub fn annul(self) -> Idle<P, S>
        ensures after { result ≡ annulled_cleared self }
        ensures step { (t : Places) → Step P.PriceRule.meaning S.SharingRule.meaning Annul answer.Accepted (exchange.Cleared self) t (exchange.Idle result) t }
    {
        let Cleared {
            engine,
            ledger,
            session: _,
            report: _,
        } = self;
        between_sessions(engine, ledger)
    }
}

impl<P: PriceRule, S: SharingRule> Closed<P, S> {
    // Clears the standing blocks: writes what is matched of each, and finds prices, flow and surplus.
    pub fn clear(self, blocks: &mut BlockPlaces<'_>) -> Result<Cleared<P, S>, Refused<Closed<P, S>>>
        ensures why { FirstCause (clear_causes (blocks_held self.session blocks.old)) (reason result) }
        ensures after { ClearsFrom (outcome_at (S.SharingRule.meaning self.engine.sharing_rule) (P.PriceRule.meaning self.engine.price_rule) self.session (four_held blocks.old)) self (four_held blocks.old) result (four_held blocks.new) }
        ensures lent { SamePlaces blocks.old blocks.new }
        ensures step { (t : Places) → ResultStep P.PriceRule.meaning S.SharingRule.meaning Clear exchange.Cleared exchange.Closed reporting (exchange.Closed self) (with_blocks t (four_held blocks.old)) result (with_blocks t (four_held blocks.new)) }
    {
        match clear_session(&self.engine, self.session, blocks) {
            Ok(report) => {
                let Closed {
                    engine,
                    ledger,
                    session,
                } = self;
                Ok(Cleared {
                    engine,
                    ledger,
                    session,
                    report,
                })
            }
            Err(why) => Err(Refused { state: self, why }),
        }
    }
}

impl<P, S> Cleared<P, S> {
    // What clear reported.
    pub fn report(&self) -> Report
        ensures { result ≡ self.now.report }
    {
        self.report
    }
}

impl<P: PriceRule, S: SharingRule> Cleared<P, S> {
    // Writes the entries of the matched blocks, posts them to the accounts, and ends the session.
    pub fn settle(
        self,
        blocks: &BlockPlaces<'_>,
        accounts: &mut [Account],
        entries: &mut [Entry],
    ) -> Result<(Idle<P, S>, Settled), Refused<Cleared<P, S>>>
        ensures why { FirstCause (settle_causes (held_for self.session self.report (four_held blocks.now)) (blocks_held self.session blocks.now) (lent accounts.old self.ledger.accounts) entries.old self.ledger.totals.income self.ledger.totals.residue) (reason result) }
        ensures after { SettlesFrom (held_for self.session self.report (four_held blocks.now)) self accounts.old entries.old result accounts.new entries.new }
        ensures step { ResultStep P.PriceRule.meaning S.SharingRule.meaning Settle settled_idle exchange.Cleared settling (exchange.Cleared self) (places_held blocks.now accounts.old entries.old) result (places_held blocks.now accounts.new entries.new) }
    {
        match settle_session(
            &self.engine,
            self.session,
            self.report,
            self.ledger,
            blocks,
            accounts,
            entries,
        ) {
            Ok(settled) => {
                let Cleared {
                    engine,
                    ledger,
                    session: _,
                    report: _,
                } = self;
                let ledger = ledger.with_totals(settled.exchange);
                Ok((Idle { engine, ledger }, settled))
            }
            Err(why) => Err(Refused { state: self, why }),
        }
    }
}
