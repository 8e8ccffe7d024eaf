// Numbers that words say: decimal, or hexadecimal after `0x`, of at most 65,535; or hexadecimal in any case; the two halves of 32
// hexadecimal digits; and the number that 8 of them say. A word that is too large, or no number, is told apart, and is never taken for another number. Rests on nothing.
ghost use Rattle.std.specs.Prelude.{◌≡◌, ◌*◌, ◌^◌, ◌≤◌, ◌<◌, length, IfSome};
ghost use Rattle.digits.specs.Numbers.{digit_said, digit_in, digits_of, number_of, hex_of, hex_said, halves_of, quarter_of};

// Why a word says no number of at most 65,535.
#[derive(Clone, Copy, PartialEq, Eq)]
pub enum NumberError {
    // A character that is no digit, or no digit at all.
    NoNumber,
    // Above 65,535.
    TooLarge,
}

// The value of a hexadecimal digit. Any other character has none.
pub fn digit(c: u8) -> Option<u8>
    ensures { result ≡ digit_said c }
{
    match c {
        b'0'..=b'9' => Some(c - b'0'),
        b'A'..=b'F' => Some(c - b'A' + 10),
        b'a'..=b'f' => Some(c - b'a' + 10),
        _ => None,
    }
}

// The value of a digit in a base of at most 16.
fn digit_in(c: u8, base: u8) -> Option<u8>
    requires { base ≤ 16 }
    ensures { result ≡ digit_in base c }
{
    match digit(c) {
        Some(d) if d < base => Some(d),
        _ => None,
    }
}

// The number that digits in a base say. A value above 65,535 is kept as 65,536, which stands for every larger one.
fn number_from(digits: &[u8], base: u8) -> Result<u64, NumberError>
    requires low { 0 < base }
    requires high { base ≤ 16 }
    ensures { result ≡ digits_of base digits.now }
{
    if digits.is_empty() {
        return Err(NumberError::NoNumber);
    }
    let mut v = 0u64;
    for c in digits {
        let d = digit_in(*c, base).ok_or(NumberError::NoNumber)?;
        v = (v * u64::from(base) + u64::from(d)).min(65536);
    }
    if v < 65536 {
        Ok(v)
    } else {
        Err(NumberError::TooLarge)
    }
}

// The number that a word says.
pub fn read_number(s: &[u8]) -> Result<u64, NumberError>
    ensures { result ≡ number_of s.now }
{
    match s.strip_prefix(b"0x") {
        Some(digits) => number_from(digits, 16),
        None => number_from(s, 10),
    }
}

// The number that a word says whose digits are hexadecimal. `0x` may stand before them.
pub fn read_hex(s: &[u8]) -> Result<u64, NumberError>
    ensures { result ≡ hex_of s.now }
{
    match s.strip_prefix(b"0x") {
        Some(digits) => number_from(digits, 16),
        None => number_from(s, 16),
    }
}

// The value of at most 16 hexadecimal digits.
fn hex_value(digits: &[u8]) -> Option<u64>
    requires { length digits.now ≤ 16 }
    ensures said { result ≡ hex_said digits.now }
    ensures below { IfSome result (λ v. v < 2 ^ (4 * length digits.now)) }
{
    let mut v = 0u64;
    for c in digits {
        v = v * 16 + u64::from(digit(*c)?);
    }
    Some(v)
}

// The two halves that a word of 32 hexadecimal digits says: the first 16, and the last 16.
pub fn read_halves(s: &[u8]) -> Option<(u64, u64)>
    ensures { result ≡ halves_of s.now }
{
    if s.len() != 32 {
        return None;
    }
    Some((hex_value(&s[..16])?, hex_value(&s[16..])?))
}

// The number that a word of 8 hexadecimal digits says.
pub fn read_quarter(s: &[u8]) -> Option<u32>
    ensures { result ≡ quarter_of s.now }
{
    if s.len() != 8 {
        return None;
    }
    Some(hex_value(s)? as u32)
}
