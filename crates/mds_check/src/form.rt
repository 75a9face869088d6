//! The text of a check, as a line has it.
ghost use Rattle.std.specs.Prelude.{◌≡◌, ◌≢◌, ◌↔◌, ◌<◌, ◌^◌, ℕ, length, IsTrue, IfSome, IfNone};
ghost use Rattle.mds_check.specs.Form.{hex_digit, digit_of, check_digits, check_text};

/// How long the text of a check is. No text of a group is as long.
pub const CHECK_BYTES: usize = 20;

/// Where the digits begin in the text of a check.
const FIRST_DIGIT: usize = 10;

/// How many digits a check has.
const DIGITS: usize = 8;

fn digit(check: u32, place: u32) -> u8
    requires { place < 32 }
    ensures { result ≡ digit_of check place }
{
    let digit = ((check >> place) % 16) as u8;
    if digit < 10 {
        b'0' + digit
    } else {
        b'a' + (digit - 10)
    }
}

/// The text of a check, as `{"crc32":"89abcdef"}`.
pub fn check_text(check: u32) -> [u8; CHECK_BYTES]
    ensures { result ≡ check_text check }
{
    [
        b'{',
        b'"',
        b'c',
        b'r',
        b'c',
        b'3',
        b'2',
        b'"',
        b':',
        b'"',
        digit(check, 28),
        digit(check, 24),
        digit(check, 20),
        digit(check, 16),
        digit(check, 12),
        digit(check, 8),
        digit(check, 4),
        digit(check, 0),
        b'"',
        b'}',
    ]
}

/// Whether this is the text of the check.
pub fn is_check(text: &[u8], check: u32) -> bool
    ensures { IsTrue result ↔ (text.now ≡ check_text check) }
{
    text == check_text(check).as_slice()
}

fn value_of(byte: u8) -> Option<u32>
    ensures some { IfSome result (λ value. (value < 16) × (byte ≡ hex_digit value)) }
    ensures none { IfNone result ((value : ℕ) → value < 16 → byte ≢ hex_digit value) }
{
    match byte {
        b'0'..=b'9' => Some(u32::from(byte - b'0')),
        b'a'..=b'f' => Some(u32::from(byte - b'a') + 10),
        _ => None,
    }
}

fn read_digits(digits: &[u8]) -> Option<u32>
    requires { length digits.now ≡ DIGITS }
    ensures some { IfSome result (λ check. (n : ℕ)
        → n < 2 ^ 32 → digits.now ≡ check_digits n → check ≡ n) }
    ensures none { IfNone result ((n : ℕ) → n < 2 ^ 32 → digits.now ≢ check_digits n) }
{
    let mut check = 0;
    for digit in digits {
        check = check * 16 + value_of(*digit)?;
    }
    Some(check)
}

/// The check whose text this is, or `None` where it's the text of no check.
pub fn read_check(text: &[u8]) -> Option<u32>
    ensures some { IfSome result (λ check. text.now ≡ check_text check) }
    ensures none { IfNone result ((check : ℕ) → check < 2 ^ 32 → text.now ≢ check_text check) }
{
    if text.len() != CHECK_BYTES {
        return None;
    }
    let check = read_digits(&text[FIRST_DIGIT..FIRST_DIGIT + DIGITS])?;
    if is_check(text, check) {
        Some(check)
    } else {
        None
    }
}
