// An answer as it is printed, each line with its newline.
ghost use Rattle.lines.specs.Answers.{answer_text, entry_lines};
ghost use Rattle.std.specs.Prelude.{Some};

use exchange::exchange::Answer;
use settlement::entry::Entry;
use std::fmt;
use table::view::View;

// Entries, one on each line.
#[derive(Clone, Copy)]
struct EntryLines<'a> {
    entries: &'a [Entry],
}

impl<'a> fmt::Display for EntryLines<'a> {
    ghost output = { λ l. Some (entry_lines l.entries.now) };

    fn fmt<W: fmt::Write>(&self, f: &mut fmt::Formatter<W>) -> fmt::Result {
        for row in self.entries {
            writeln!(f, "{row}")?;
        }
        Ok(())
    }
}

// An answer, and the entry list that was lent to its call.
#[derive(Clone, Copy)]
pub struct Printed<'a> {
    pub answer: Answer,
    pub entries: &'a [Entry],
}

impl<'a> fmt::Display for Printed<'a> {
    ghost output = { λ p. Some (answer_text p.answer p.entries.now) };

    fn fmt<W: fmt::Write>(&self, f: &mut fmt::Formatter<W>) -> fmt::Result {
        match self.answer {
            Answer::Accepted => writeln!(f, "(ok)"),
            Answer::Cleared(report) => writeln!(f, "{report}"),
            Answer::Settled(settled) => {
                let written = View {
                    rows: self.entries,
                    count: settled.entries,
                };
                let lines = EntryLines {
                    entries: written.counted(),
                };
                writeln!(f, "{lines}{settled}")
            }
            Answer::Refused(why) => writeln!(f, "{why}"),
        }
    }
}
