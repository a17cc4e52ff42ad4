//! Numbers as words: addresses, and counts in decimal.
ghost use Rattle.std.specs.Prelude.{◌≡◌, ◌<◌, ◌≤◌, Some, IfSome, length};
ghost use Rattle.blz_program.specs.Words.{address_of, decimal_from, decimal_value, hex_from, hex_value, number_up_to, up_to, with_digit};

/// An address: 1 to 16 hexadecimal digits of either case, with `0x` before them or not.
pub fn address(word: &[u8]) -> Option<u64>
    ensures { result ≡ address_of word.now }
{
    let digits = if word.starts_with(b"0x") {
        &word[2..]
    } else {
        word
    };
    if digits.is_empty() || digits.len() > 16 {
        return None;
    }
    hex_number(digits)
}

fn hex_number(digits: &[u8]) -> Option<u64>
    requires { length digits.now ≤ 16 }
    ensures { result ≡ hex_from (Some 0) digits.now }
{
    let mut value: u64 = 0;
    for digit in digits {
        match hex_value(*digit) {
            Some(digit) => value = value * 16 + u64::from(digit),
            None => return None,
        }
    }
    Some(value)
}

fn hex_value(digit: u8) -> Option<u8>
    ensures value { result ≡ hex_value digit }
    ensures small { IfSome result (λ d. d < 16) }
{
    match digit {
        b'0'..=b'9' => Some(digit - b'0'),
        b'a'..=b'f' => Some(digit - b'a' + 10),
        b'A'..=b'F' => Some(digit - b'A' + 10),
        _ => None,
    }
}

/// A decimal number from 1 to `most`, without leading zeros.
pub fn number_up_to(word: &[u8], most: u64) -> Option<u64>
    ensures value { result ≡ number_up_to most word.now }
    ensures positive { IfSome result (λ n. 1 ≤ n) }
    ensures small { IfSome result (λ n. n ≤ most) }
{
    match word {
        [first @ b'1'..=b'9', rest @ ..] => longer_number(first - b'0', rest, most),
        _ => None,
    }
}

// The number of the first digit and these, where it is small enough.
fn longer_number(first: u8, digits: &[u8], most: u64) -> Option<u64>
    ensures value { result ≡ up_to most (decimal_from (Some first) digits.now) }
    ensures longer { IfSome result (λ n. first ≤ n) }
    ensures small { IfSome result (λ n. n ≤ most) }
{
    let mut value = u64::from(first);
    for digit in digits {
        match with_digit(value, *digit, most) {
            Some(longer) => value = longer,
            None => return None,
        }
    }
    small_enough(u128::from(value), most)
}

fn with_digit(number: u64, digit: u8, most: u64) -> Option<u64>
    ensures value { result ≡ up_to most (with_digit 10 (Some number) (decimal_value digit)) }
    ensures longer { IfSome result (λ n. number ≤ n) }
{
    match decimal_value(digit) {
        Some(digit) => small_enough(u128::from(number) * 10 + u128::from(digit), most),
        None => None,
    }
}

fn small_enough(number: u128, most: u64) -> Option<u64>
    ensures value { result ≡ up_to most (Some number) }
    ensures same { IfSome result (λ n. n ≡ number) }
    ensures small { IfSome result (λ n. n ≤ most) }
{
    if number <= u128::from(most) {
        Some(number as u64)
    } else {
        None
    }
}

fn decimal_value(digit: u8) -> Option<u8>
    ensures value { result ≡ decimal_value digit }
    ensures small { IfSome result (λ d. d < 10) }
{
    match digit {
        b'0'..=b'9' => Some(digit - b'0'),
        _ => None,
    }
}
