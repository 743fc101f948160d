// The forms of the call file, part by part (docs/CALLS.md).
ghost use Rattle.callfile.specs.Forms.{admit_of, begin_of, bid_of, both, bracketed, call_named, enter_of, key_of, named_of, past, side_named, side_of, withdraw_of};
ghost use Rattle.callfile.specs.Reading.{with_rest};
ghost use Rattle.callfile.specs.Text.{Reads};
ghost use Rattle.std.specs.Prelude.{◌≡◌, ◌<◌, length, None};
ghost use Rattle.std.specs.Option.{option_map};

use crate::parts::{Part, after, field, word};
use market::block::{Bid, BlockKey};
use market::call::Call;
use market::zone::Side;

// No `match` on the name, for the reason given at `call_named`.
fn side_named(name: &[u8]) -> Option<Side>
    ensures { result ≡ side_named name.now }
{
    let is = |word: &[u8]| name == word;
    if is(b"sale") {
        Some(Side::Sale)
    } else if is(b"purchase") {
        Some(Side::Purchase)
    } else {
        None
    }
}

impl Part for Side {
    ghost reading = { side_of };

    fn read(line: &[u8]) -> Option<(Side, &[u8])> {
        let (name, rest) = word(line)?;
        Some((side_named(name)?, rest))
    }
}

// (A U B T P V)
impl Part for Bid {
    ghost reading = { bid_of };

    fn read(line: &[u8]) -> Option<(Bid, &[u8])> {
        let (agent, rest) = u32::read(after(b'(', line)?)?;
        let (unit, rest) = field(rest)?;
        let (number, rest) = field(rest)?;
        let (stamp, rest) = field(rest)?;
        let (price, rest) = field(rest)?;
        let (volume, rest) = field(rest)?;
        let bid = Bid {
            agent,
            unit,
            number,
            stamp,
            price,
            volume,
        };
        Some((bid, after(b')', rest)?))
    }
}

// (U B)
impl Part for BlockKey {
    ghost reading = { key_of };

    fn read(line: &[u8]) -> Option<(BlockKey, &[u8])> {
        let (unit, rest) = u32::read(after(b'(', line)?)?;
        let (number, rest) = field(rest)?;
        Some((BlockKey { unit, number }, after(b')', rest)?))
    }
}

fn admit(line: &[u8]) -> Option<(Call, &[u8])>
    ensures { option_map with_rest result ≡ admit_of line.now }
{
    let (agent, rest) = field(line)?;
    Some((Call::Admit { agent }, rest))
}

// Three fields.
fn three<A: Part, B: Part, C: Part>(line: &[u8]) -> Option<((A, (B, C)), &[u8])>
    ensures { option_map with_rest result ≡ both (past 32 A.Part.reading) (both (past 32 B.Part.reading) (past 32 C.Part.reading)) line.now }
{
    let (a, rest) = field(line)?;
    let (b, rest) = field(rest)?;
    let (c, rest) = field(rest)?;
    Some(((a, (b, c)), rest))
}

fn begin(line: &[u8]) -> Option<(Call, &[u8])>
    ensures { option_map with_rest result ≡ begin_of line.now }
{
    let ((session, (forward, backward)), rest) = three(line)?;
    let call = Call::Begin {
        session,
        forward,
        backward,
    };
    Some((call, rest))
}

fn enter(line: &[u8]) -> Option<(Call, &[u8])>
    ensures { option_map with_rest result ≡ enter_of line.now }
{
    let ((zone, (side, bid)), rest) = three(line)?;
    Some((Call::Enter { zone, side, bid }, rest))
}

fn withdraw(line: &[u8]) -> Option<(Call, &[u8])>
    ensures { option_map with_rest result ≡ withdraw_of line.now }
{
    let ((zone, (side, key)), rest) = three(line)?;
    Some((Call::Withdraw { zone, side, key }, rest))
}

// The call of that name, from what follows the name. As a `match` it was not proved: its last arm has a case for each byte at which the
// names part.
fn call_named<'a>(name: &[u8], line: &'a [u8]) -> Option<(Call, &'a [u8])>
    ensures { option_map with_rest result ≡ call_named name.now line.now }
{
    let is = |word: &[u8]| name == word;
    if is(b"admit") {
        admit(line)
    } else if is(b"begin") {
        begin(line)
    } else if is(b"enter") {
        enter(line)
    } else if is(b"withdraw") {
        withdraw(line)
    } else if is(b"close") {
        Some((Call::Close, line))
    } else if is(b"clear") {
        Some((Call::Clear, line))
    } else if is(b"settle") {
        Some((Call::Settle, line))
    } else if is(b"annul") {
        Some((Call::Annul, line))
    } else {
        None
    }
}

// A call with its brackets.
fn bracketed_call(line: &[u8]) -> Option<(Call, &[u8])>
    ensures { option_map with_rest result ≡ bracketed named_of line.now }
{
    let (name, rest) = word(after(b'(', line)?)?;
    let (call, rest) = call_named(name, rest)?;
    Some((call, after(b')', rest)?))
}

// The call whose text the line is. A line that is the text of no call is no form.
pub fn read_call(line: &[u8]) -> Option<Call>
    ensures reads { Reads line.now result }
    ensures long { 120 < length line.now → result ≡ None }
{
    let (call, rest) = bracketed_call(line)?;
    rest.is_empty().then_some(call)
}
