//! Whole numbers in words.

ghost use Rattle.std.specs.Prelude.{◌≡◌};
ghost use Rattle.clone_server.specs.Numbers.{next_number, number_from, whole_number, whole_or_zero};

/// The number with one more digit, if the byte is one, no digit follows a 0, and the number is within the limit.
#[tactic(auto, unfolding(crate::specs::Numbers::next_number))]
fn next_number(number: u32, byte: u8, most: u32) -> Option<u32>
    ensures { result ≡ next_number most number byte }
{
    if !byte.is_ascii_digit() {
        return None;
    }
    let next = u64::from(number) * 10 + u64::from(byte - b'0');
    if 1 <= next && next <= u64::from(most) {
        Some(next as u32)
    } else {
        None
    }
}

/// The number whose digits so far write `number`, with the rest of its digits.
#[tactic(auto, unfolding(crate::specs::Numbers::number_from))]
fn number_from(number: u32, bytes: &[u8], most: u32) -> Option<u32>
    ensures { result ≡ number_from most number bytes.now }
{
    let mut value = number;
    let mut rest = bytes;
    while let [byte, after @ ..] = rest {
        value = next_number(value, *byte, most)?;
        rest = after;
    }
    Some(value)
}

/// The whole number that the bytes write, if it is from 1 to `most`: digits alone, of which the first is no 0.
pub(crate) fn whole_number(bytes: &[u8], most: u32) -> Option<u32>
    ensures { result ≡ whole_number most bytes.now }
{
    if bytes.is_empty() {
        return None;
    }
    number_from(0, bytes, most)
}

/// The whole number that the bytes write, if it is from 0 to `most`: digits alone, of which the first is no 0 unless it is the only one.
pub(crate) fn whole_or_zero(bytes: &[u8], most: u32) -> Option<u32>
    ensures { result ≡ whole_or_zero most bytes.now }
{
    if bytes == b"0".as_slice() {
        return Some(0);
    }
    whole_number(bytes, most)
}
