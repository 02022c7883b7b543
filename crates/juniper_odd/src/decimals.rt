//! Decimal numbers of three places, as texts and as numbers of thousandths.
ghost use Rattle.std.specs.Prelude.{◌≡◌, ◌++◌, Some, IfOk, string_bytes};
ghost use Rattle.std.specs.Fmt.{DisplaysOnOk};
ghost use Rattle.std.specs.Str.{all_ascii_digits, chars, encode_utf8_all};
ghost use Rattle.juniper_values.specs.Integers.{is_digits};
ghost use Rattle.juniper_odd.specs.Decimals.{filled, is_decimal, milli_text, sign, thousandths_in, thousandths_of, without_minus, zeros};

use std::alloc::{AllocError, Global};
use std::fmt;

// The number of thousandths that a text writes with one to three places, if it has 64 bits.
pub(crate) fn thousandths_in(alloc: Global, text: &str) -> Result<Option<i64>, AllocError>
    ensures { IfOk result (λ number. number ≡ thousandths_in (chars text.now)) }
{
    match text.split_once('.') {
        Some((whole, fraction)) => thousandths_of(alloc, whole, fraction),
        None => Ok(None),
    }
}

fn thousandths_of(alloc: Global, whole: &str, fraction: &str) -> Result<Option<i64>, AllocError>
    ensures { IfOk result (λ number. number ≡ thousandths_of whole.now fraction.now) }
{
    if !is_decimal(whole, fraction) {
        return Ok(None);
    }
    let digits = joined(alloc, whole, fraction)?;
    Ok(digits.parse::<i64>().ok())
}

fn is_decimal(whole: &str, fraction: &str) -> bool
    ensures { result ≡ is_decimal whole.now fraction.now }
{
    is_digits(without_minus(whole)) && is_digits(fraction) && fraction.len() <= 3
}

// The text without a leading `-`.
fn without_minus(text: &str) -> &str
    ensures { result.now ≡ without_minus text.now }
{
    match text.strip_prefix('-') {
        Some(rest) => rest,
        None => text,
    }
}

// Whether a text is one or more of the digits 0 to 9.
fn is_digits(text: &str) -> bool
    ensures { result ≡ is_digits text.now }
{
    !text.is_empty() && all_digits(text.as_bytes())
}

fn all_digits(bytes: &[u8]) -> bool
    ensures { result ≡ all_ascii_digits bytes.now }
{
    for byte in bytes {
        if !byte.is_ascii_digit() {
            return false;
        }
    }
    true
}

// The whole part, and after it the fraction with zeros up to three places.
fn joined(alloc: Global, whole: &str, fraction: &str) -> Result<String, AllocError>
    ensures { IfOk result (λ digits. string_bytes digits ≡ whole.now ++ filled fraction.now) }
{
    let zeros = zeros(fraction.len());
    format!(in alloc; "{whole}{fraction}{zeros}")
}

// The zeros that fill one to three places up to three.
fn zeros(places: usize) -> &'static str
    ensures { result.now ≡ zeros places }
{
    match places {
        1 => "00",
        2 => "0",
        _ => "",
    }
}

// Writes a number of thousandths with its three places.
pub(crate) fn write_decimal<W: fmt::Write>(f: &mut fmt::Formatter<W>, number: i64) -> fmt::Result
    ensures { DisplaysOnOk W.write_str_gives f.old result (Some (encode_utf8_all (milli_text number))) f.new }
{
    let sign = sign(number);
    let places = number.unsigned_abs();
    let whole = places / 1000;
    let hundreds = places % 1000 / 100;
    let tens = places % 100 / 10;
    let ones = places % 10;
    write!(f, "{sign}{whole}.{hundreds}{tens}{ones}")
}

fn sign(number: i64) -> &'static str
    ensures { result.now ≡ sign number }
{
    if number < 0 { "-" } else { "" }
}
