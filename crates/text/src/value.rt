//! Numbers, addresses and the tests of fields, as words write them.
ghost use Rattle.std.specs.Prelude.{◌≡◌, ◌-◌, ◌^◌, ◌≤◌, IfSome, Some};
ghost use Rattle.packet.specs.Fields.{width as bits_of};
ghost use Rattle.text.specs.Cuts.{map_cut};
ghost use Rattle.text.specs.Values.{numeral, at_most, digit, digit_in, digits, hardware, cut, quad, cut_off, network, full, full_value, test_from};

use packet::{Field, Test};

/// The number of a decimal word without leading zeros, or none where it is past the limit.
pub fn number_of(word: &[u8], limit: u16) -> Option<u16>
    ensures { result ≡ numeral limit word.now }
{
    match word {
        [] | [b'0', _, ..] => None,
        _ => decimal_of(word, limit),
    }
}

/// The number of a row of decimal digits, or none where it is past the limit.
// Not by `digits_of`: a number past its limit ends this one, and 16 bits are read faster than 64.
fn decimal_of(word: &[u8], limit: u16) -> Option<u16>
    ensures { result ≡ at_most limit (digits 10 digit 0 word.now) }
{
    word.iter().try_fold(0u16, |n, b| {
        let next = u64::from(n) * 10 + digit_of(*b, 10)?;
        u16::try_from(next).ok().filter(|next| *next <= limit)
    })
}

/// A digit of a base: 0 to 9, then small letters from a on.
fn digit_of(b: u8, base: u32) -> Option<u64>
    requires { (2 ≤ base) × (base ≤ 36) }
    ensures { result ≡ digit_in base b }
{
    // Not by `to_digit`: it takes capitals too, which would have to be told apart again.
    let digit = match b {
        b'0'..=b'9' => b - b'0',
        b'a'..=b'z' => b - b'a' + 10,
        _ => return None,
    };
    (u32::from(digit) < base).then_some(u64::from(digit))
}

/// The number that a row of digits writes, or none where it has more than 64 bits.
fn digits_of(word: &[u8], base: u32) -> Option<u64>
    requires { (2 ≤ base) × (base ≤ 36) }
    ensures { result ≡ at_most (2 ^ 64 - 1) (digits base (digit_in base) 0 word.now) }
{
    word.iter().try_fold(0u64, |n, b| {
        let digit = digit_of(*b, base)?;
        n.checked_mul(u64::from(base))?.checked_add(digit)
    })
}

/// A hardware address: 12 digits 0 to f.
fn hardware_of(word: &[u8]) -> Option<u64>
    ensures { result ≡ hardware word.now }
{
    if word.len() != 12 {
        return None;
    }
    digits_of(word, 16)
}

/// What stands before and after the first byte `mark`.
fn cut_at(word: &[u8], mark: u8) -> Option<(&[u8], &[u8])>
    ensures { cut mark word.now ≡ map_cut result }
{
    let at = word.iter().position(|b| *b == mark)?;
    Some((&word[..at], &word[at + 1..]))
}

/// What `number_of` gives, at a limit of 8 bits.
pub fn small_number_of(word: &[u8], limit: u8) -> Option<u8>
    ensures is { result ≡ numeral limit word.now }
    ensures small { IfSome result (λ n. n ≤ limit) }
{
    u8::try_from(number_of(word, u16::from(limit))?).ok()
}

/// Four numbers 0 to 255 with points between them.
fn quad_of(word: &[u8]) -> Option<u32>
    ensures { result ≡ quad word.now }
{
    let (first, rest) = cut_at(word, b'.')?;
    let (second, rest) = cut_at(rest, b'.')?;
    let (third, fourth) = cut_at(rest, b'.')?;
    Some(u32::from_be_bytes([
        small_number_of(first, 255)?,
        small_number_of(second, 255)?,
        small_number_of(third, 255)?,
        small_number_of(fourth, 255)?,
    ]))
}

/// The test of an address to a length, unless a bit past the length is set.
fn to_length(field: Field, n: u32, length: u8) -> Option<Test>
    requires { length ≤ bits_of field }
    ensures { result ≡ cut_off field n length }
{
    let past = 1u64 << (field.width() - length);
    if u64::from(n) % past != 0 {
        return None;
    }
    Test::new(field, u64::from(n), length)
}

/// The test of an address, alone or with a stroke and a length.
fn network_of(field: Field, word: &[u8]) -> Option<Test>
    ensures { result ≡ network field word.now }
{
    match cut_at(word, b'/') {
        None => to_length(field, quad_of(word)?, field.width()),
        Some((address, length)) => {
            to_length(
                field,
                quad_of(address)?,
                small_number_of(length, field.width())?,
            )
        }
    }
}

/// The test of a field's whole number, where the field has room for it.
fn whole(field: Field, n: u64) -> Option<Test>
    ensures { result ≡ full field (Some n) }
{
    Test::new(field, n, field.width())
}

/// The test of a field that a word writes.
pub fn test_of(field: Field, word: &[u8]) -> Option<Test>
    ensures { result ≡ test_from field word.now }
{
    match field {
        Field::DlSrc | Field::DlDst => whole(field, hardware_of(word)?),
        Field::NwSrc | Field::NwDst => network_of(field, word),
        _ => whole(field, u64::from(number_of(word, u16::MAX)?)),
    }
}

/// The value that a word writes for a field, unless it stands for the field's first bits only.
pub fn value_of(field: Field, word: &[u8]) -> Option<u64>
    ensures { result ≡ full_value field (test_from field word.now) }
{
    test_of(field, word)
        .filter(|test| test.length() == field.width())
        .map(|test| test.value())
}
