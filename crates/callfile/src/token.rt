// The parts that a line is made of: brackets, words and numbers.
ghost use Rattle.callfile.specs.Tokens.{token_of, front, seen_with};
ghost use Rattle.std.specs.Option.{option_map};
ghost use Rattle.std.specs.Prelude.{◌≡◌, ◌≤◌, length};

// A word is a run of small letters. A number is a run of digits, with or without a minus sign before it.
#[derive(Clone, Copy)]
pub enum Token<'a> {
    Open,
    Close,
    Word(&'a [u8]),
    Number(&'a [u8]),
}

// How many bytes at the front of the line lie from `low` to `high`.
fn run(line: &[u8], low: u8, high: u8) -> usize
    ensures count { result ≡ front low high line.now }
    ensures within { result ≤ length line.now }
{
    line.iter()
        .take_while(|byte| (low..=high).contains(*byte))
        .count()
}

// The part that the line begins with, and what follows it.
pub fn first_token(line: &[u8]) -> Option<(Token<'_>, &[u8])>
    ensures { option_map seen_with result ≡ token_of line.now }
{
    match line {
        [b'(', rest @ ..] => Some((Token::Open, rest)),
        [b')', rest @ ..] => Some((Token::Close, rest)),
        [b'a'..=b'z', ..] => {
            let (word, rest) = line.split_at(run(line, b'a', b'z'));
            Some((Token::Word(word), rest))
        }
        [b'0'..=b'9', ..] => {
            let (number, rest) = line.split_at(run(line, b'0', b'9'));
            Some((Token::Number(number), rest))
        }
        [b'-', digits @ ..] => {
            let count = run(digits, b'0', b'9');
            if count == 0 {
                return None;
            }
            let (number, rest) = line.split_at(count + 1);
            Some((Token::Number(number), rest))
        }
        _ => None,
    }
}
