// Bytes as text: upper-case hexadecimal digits, rows of pairs of them, each pair after a space, and numbers in decimal.
#![tactic(auto)]

ghost use Rattle.std.specs.Prelude.{◌≡◌, ◌+◌, ◌%◌, ◌<◌, ◌≤◌, length, get_or, unwrap_or, MatchResult};
ghost use Rattle.refusals.specs.Number.{number_back};
ghost use Rattle.digits.specs.Digits.{digit_of, digit_value, digit, hex_digits, fits, has_form, number_at};
ghost use Rattle.digits.specs.Decimal.{decimal};
ghost use Rattle.digits.specs.Rows.{is_pair, is_row, pair_of, row_text, ReadsRow};
ghost use Rattle.digits.specs.Put.{PutsText};

use refusals::Refusal;

// The value of a digit; none for a byte that is no digit.
#[tactic(auto, unfolding(crate::specs::Digits::digit_value, crate::specs::Digits::digit_of))]
pub fn digit_of(b: u8) -> Option<u8>
    ensures { result ≡ digit_value b }
{
    match b {
        b'0'..=b'9' => Some(b - b'0'),
        b'A'..=b'F' => Some(b - b'A' + 10),
        _ => None,
    }
}

// The byte of a number's last digit, upper-case.
#[tactic(auto, unfolding(crate::specs::Digits::digit))]
pub fn digit(n: u64) -> u8
    ensures { result ≡ digit n }
{
    let d = (n % 16) as u8;
    if d < 10 { b'0' + d } else { b'A' + (d - 10) }
}

// Whether a byte fits one of a form: X stands for a digit, any other for itself.
fn fits(b: u8, f: u8) -> bool
    ensures { result ≡ fits b f }
{
    if f == b'X' {
        digit_of(b).is_some()
    } else {
        b == f
    }
}

// Whether a text has a form, byte for byte.
pub fn has_form(text: &[u8], form: &[u8]) -> bool
    ensures { result ≡ has_form text.now form.now }
{
    text.len() == form.len() && text.iter().zip(form).all(|(b, f)| fits(*b, *f))
}

// The number that so many digits at a place stand for, the first the highest.
pub fn number(text: &[u8], at: usize, count: usize) -> u64
    ensures { result ≡ number_at text.now at count }
{
    let mut n = 0;
    for i in 0..count {
        n = (n << 4) + u64::from(digit_at(text, at, i).unwrap_or(0));
    }
    n
}

// The value of the digit i places after a place, if there is one.
fn digit_at(text: &[u8], at: usize, i: usize) -> Option<u8>
    ensures { unwrap_or result 0 ≡ digit_of (get_or text.now (at + i) 0) % 16 }
{
    digit_of(*text.get(at.checked_add(i)?)?)
}

// Whether three bytes are a space and two digits.
fn is_pair(space: u8, high: u8, low: u8) -> bool
    ensures { result ≡ is_pair space high low }
{
    space == b' ' && digit_of(high).is_some() && digit_of(low).is_some()
}

// Whether a text is a row of pairs to its end.
pub fn is_row(text: &[u8]) -> bool
    ensures { result ≡ is_row text.now }
{
    text.len() % 3 == 0
        && text
            .chunks_exact(3)
            .all(|pair| is_pair(pair[0], pair[1], pair[2]))
}

// The byte that two digits stand for.
fn pair_of(high: u8, low: u8) -> u8
    ensures { result ≡ pair_of high low }
{
    16 * digit_of(high).unwrap_or(0) + digit_of(low).unwrap_or(0)
}

// The place after so many bytes at a place of a text, where there is room for them.
fn end_of(at: usize, count: usize, text: &[u8]) -> Result<usize, Refusal>
    ensures { MatchResult result (λ end. (end ≡ at + count) × (end ≤ length text.now)) (λ refusal. (refusal ≡ Refusal.Room) × (length text.now < at + count)) }
{
    match at.checked_add(count) {
        Some(end) if end <= text.len() => Ok(end),
        _ => Err(Refusal::Room),
    }
}

// Puts the bytes that a row stands for at the start of a buffer, and returns how many they are.
pub fn read_row(text: &[u8], buffer: &mut [u8]) -> Result<usize, Refusal>
    ensures { ReadsRow text.now buffer.old (number_back result) buffer.new }
{
    let end = end_of(0, text.len() / 3, buffer)?;
    for (i, pair) in text.chunks_exact(3).enumerate() {
        buffer[i] = pair_of(pair[1], pair[2]);
    }
    Ok(end)
}

// Puts the row for bytes at a place of a text, and returns the place after it.
pub fn put_row(bytes: &[u8], text: &mut [u8], at: usize) -> Result<usize, Refusal>
    ensures { PutsText (row_text bytes.now) text.old at (number_back result) text.new }
{
    let count = bytes.len().checked_mul(3).ok_or(Refusal::Room)?;
    let end = end_of(at, count, text)?;
    let mut next = at;
    for b in bytes {
        let pair = [b' ', digit(u64::from(*b / 16)), digit(u64::from(*b))];
        text[next..next + 3].copy_from_slice(&pair);
        next += 3;
    }
    Ok(end)
}

// Puts bytes at a place of a text, and returns the place after them.
pub fn put_bytes(bytes: &[u8], text: &mut [u8], at: usize) -> Result<usize, Refusal>
    ensures { PutsText bytes.now text.old at (number_back result) text.new }
{
    let end = end_of(at, bytes.len(), text)?;
    text[at..end].copy_from_slice(bytes);
    Ok(end)
}

// Puts so many of a number's low digits at a place of a text, and returns the place after them.
pub fn put_digits(n: u64, count: usize, text: &mut [u8], at: usize) -> Result<usize, Refusal>
    ensures { PutsText (hex_digits count n) text.old at (number_back result) text.new }
{
    let end = end_of(at, count, text)?;
    let mut rest = n;
    for i in (at..end).rev() {
        text[i] = digit(rest);
        rest /= 16;
    }
    Ok(end)
}

// Puts a number in decimal at a place of a text, and returns the place after it.
pub fn put_decimal(n: u64, text: &mut [u8], at: usize) -> Result<usize, Refusal>
    ensures { PutsText (decimal n) text.old at (number_back result) text.new }
{
    let mut digits = [0; 20];
    let mut first = 19;
    digits[first] = digit(n % 10);
    let mut rest = n / 10;
    while rest > 0 {
        first -= 1;
        digits[first] = digit(rest % 10);
        rest /= 10;
    }
    put_bytes(&digits[first..], text, at)
}
