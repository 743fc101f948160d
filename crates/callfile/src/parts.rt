// The steps of the reader: each takes one part from the front of the line.
ghost use Rattle.callfile.specs.Forms.{past};
ghost use Rattle.callfile.specs.Reading.{byte_of, numeral_of, signed_of, value_of, with_rest, word_of, word_with};
ghost use Rattle.std.specs.Option.{option_map};
ghost use Rattle.std.specs.Prelude.{◌≡◌, ℕ, ◌<◌, List, Option, Some};

use crate::number::{numeral, signed};
use crate::token::{Token, first_token};

// What stands at the front of a line, as a value.
pub trait Part: Sized + Drop {
    ghost reading: { List ℕ → Option (Self × List ℕ) };

    // The value, and what follows it.
    fn read(line: &[u8]) -> Option<(Self, &[u8])>
        ensures { option_map with_rest result ≡ reading line.now };
}

impl Part for u32 {
    ghost reading = { value_of numeral_of };

    fn read(line: &[u8]) -> Option<(u32, &[u8])> {
        let (text, rest) = number(line)?;
        Some((numeral(text)?, rest))
    }
}

// A price, which may be below zero.
impl Part for i32 {
    ghost reading = { value_of signed_of };

    fn read(line: &[u8]) -> Option<(i32, &[u8])> {
        let (text, rest) = number(line)?;
        Some((signed(text)?, rest))
    }
}

// A space and a part.
pub fn field<P: Part>(line: &[u8]) -> Option<(P, &[u8])>
    ensures { option_map with_rest result ≡ past 32 P.Part.reading line.now }
{
    P::read(after(b' ', line)?)
}

// What follows the mark.
pub fn after(mark: u8, line: &[u8]) -> Option<&[u8]>
    requires { 0 < mark }
    ensures { option_map (λ x. x.now) result ≡ byte_of mark line.now }
{
    match line {
        [first, rest @ ..] if *first == mark => Some(rest),
        _ => None,
    }
}

pub fn word(line: &[u8]) -> Option<(&[u8], &[u8])>
    ensures { option_map word_with result ≡ word_of line.now }
{
    match first_token(line)? {
        (Token::Word(name), rest) => Some((name, rest)),
        _ => None,
    }
}

// The text of a number, which may be no numeral. It differs from `word` in a pattern alone: a closure in its place would be a `match` too.
fn number(line: &[u8]) -> Option<(&[u8], &[u8])>
    ensures { option_map word_with result ≡ value_of Some line.now }
{
    match first_token(line)? {
        (Token::Number(text), rest) => Some((text, rest)),
        _ => None,
    }
}
