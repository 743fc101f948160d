// Numbers and prices, from their digits.
ghost use Rattle.callfile.specs.Reading.{digits_from, negative_of, numeral_of, signed_of};
ghost use Rattle.std.specs.Prelude.{◌≡◌, ◌^◌, ◌<◌, ◌≤◌, length, IfSome};

// The number that at most nine digits write.
#[tactic(auto, using(crate::proofs::Numerals::digit_steps))]
fn value(digits: &[u8]) -> Option<u32>
    requires { length digits.now ≤ 9 }
    ensures value { result ≡ digits_from 0 digits.now }
    ensures short { IfSome result (λ n. n < 10 ^ 9) }
{
    let mut value = 0;
    for digit in digits {
        if !digit.is_ascii_digit() {
            return None;
        }
        value = value * 10 + u32::from(*digit - b'0');
    }
    Some(value)
}

// The number that the text is the numeral of: one to nine digits, with no leading zero.
pub fn numeral(text: &[u8]) -> Option<u32>
    ensures value { result ≡ numeral_of text.now }
    ensures short { IfSome result (λ n. n < 10 ^ 9) }
{
    match text {
        [] | [b'0', _, ..] => None,
        digits if digits.len() > 9 => None,
        digits => value(digits),
    }
}

// The number below zero whose size the digits write: no minus sign stands before 0.
fn negative(digits: &[u8]) -> Option<i32>
    ensures { result ≡ negative_of digits.now }
{
    match numeral(digits)? {
        0 => None,
        size => Some(-(size as i32)),
    }
}

// The price that the text is the numeral of.
pub fn signed(text: &[u8]) -> Option<i32>
    ensures { result ≡ signed_of text.now }
{
    match text {
        [b'-', digits @ ..] => negative(digits),
        digits => Some(numeral(digits)? as i32),
    }
}
