// One line of a settlement: what an agent is due for a block, in cents; negative if the agent owes it.
// The congestion income has zeros for agent, unit and block number.
ghost use Rattle.settlement.specs.Answers.{entry_text};
ghost use Rattle.std.specs.Prelude.{◌≡◌, Some};

use std::fmt;

#[derive(Clone, Copy, PartialEq, Eq, Default)]
pub struct Entry {
    pub agent: u32,
    pub unit: u32,
    pub number: u32,
    pub cents: i64,
}

impl Entry {
    // The entry of the congestion income.
    pub(crate) fn income(cents: i64) -> Entry
        ensures { result ≡ record { agent = 0; unit = 0; number = 0; cents = cents } }
    {
        Entry {
            cents,
            ..Entry::default()
        }
    }
}

impl fmt::Display for Entry {
    ghost output = { λ e. Some (entry_text e) };

    fn fmt<W: fmt::Write>(&self, f: &mut fmt::Formatter<W>) -> fmt::Result {
        let Entry {
            agent,
            unit,
            number,
            cents,
        } = *self;
        write!(f, "(entry {agent} {unit} {number} {cents})")
    }
}
