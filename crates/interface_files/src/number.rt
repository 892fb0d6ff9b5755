//! Decimal numbers in texts, and the faults of a text that is not a number.

ghost use Rattle.std.specs.Prelude.{◌≡◌, ◌≤◌, ◌&&◌, not, nat_lt, true, length, reverse, SomeIff};
ghost use Rattle.std.specs.Char.{is_ascii_digit};
ghost use Rattle.std.specs.List.{list_all, position};
ghost use Rattle.std.specs.Str.{all_ascii_digits};
ghost use Rattle.std.specs.Str.Parse.{digits_value};
ghost use Rattle.flat_model.specs.Values.{is_space, without_front, without_end, trimmed, begins_with_zero, read_number};
ghost use Rattle.interface_files.specs.FileMeaning.{reading_of};

use crate::fault::ValueFault;

fn is_space(b: u8) -> bool
    ensures { result ≡ is_space b }
{
    matches!(b, b' ' | b'\t' | b'\n' | b'\r')
}

fn text_start(text: &[u8]) -> Option<usize>
    ensures { result ≡ position (λ b. not (is_space b)) text.now }
{
    text.iter().position(|b| !is_space(*b))
}

// The number of spaces at the end; None if the text has nothing else.
fn text_end(text: &[u8]) -> Option<usize>
    ensures { result ≡ position (λ b. not (is_space b)) (reverse text.now) }
{
    text.iter().rev().position(|b| !is_space(*b))
}

fn without_front(text: &[u8]) -> &[u8]
    ensures { result.now ≡ without_front text.now }
{
    match text_start(text) {
        Some(start) => &text[start..],
        None => &text[text.len()..],
    }
}

fn without_end(text: &[u8]) -> &[u8]
    ensures { result.now ≡ without_end text.now }
{
    match text_end(text) {
        Some(count) if count <= text.len() => &text[..text.len() - count],
        _ => &text[..0],
    }
}

// The text without the spaces at both ends.
pub(crate) fn trimmed(text: &[u8]) -> &[u8]
    ensures { result.now ≡ trimmed text.now }
{
    without_end(without_front(text))
}

pub(crate) fn begins_with_zero(digits: &[u8]) -> bool
    ensures { result ≡ begins_with_zero digits.now }
{
    matches!(digits, [b'0', ..])
}

// Whether a zero comes before other digits.
fn is_padded(digits: &[u8]) -> bool
    ensures { result ≡ (nat_lt 1 (length digits.now) && begins_with_zero digits.now) }
{
    matches!(digits, [b'0', _, ..])
}

fn are_digits(bytes: &[u8]) -> bool
    ensures { result ≡ list_all (λ b. is_ascii_digit b) bytes.now }
{
    bytes.iter().all(|b| b.is_ascii_digit())
}

// The number of these decimal digits, if it is at most `high`. Stops at the digit that exceeds it.
fn value_of(digits: &[u8], high: u32) -> Option<u32>
    requires { all_ascii_digits digits.now ≡ true }
    ensures { SomeIff result (digits_value 10 digits.now ≤ high) (digits_value 10 digits.now) }
{
    let most = u64::from(high);
    let mut value = 0u64;
    for digit in digits {
        value = value * 10 + u64::from(*digit - b'0');
        if value > most {
            return None;
        }
    }
    Some(value as u32)
}

// Reads a number from `low` to `high`: decimal digits without a leading zero, of any length.
pub(crate) fn read_number(digits: &[u8], low: u32, high: u32) -> Result<u32, ValueFault>
    ensures { reading_of result ≡ read_number low high digits.now }
{
    if digits.is_empty() {
        return Err(ValueFault::Empty);
    }
    if !are_digits(digits) {
        return Err(ValueFault::NotANumber);
    }
    if is_padded(digits) {
        return Err(ValueFault::LeadingZero);
    }
    let Some(value) = value_of(digits, high) else {
        return Err(ValueFault::OutOfRange);
    };
    if value < low {
        return Err(ValueFault::OutOfRange);
    }
    Ok(value)
}
