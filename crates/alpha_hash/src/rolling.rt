//! The arithmetic of the number, modulo 2^64.

ghost use Rattle.std.specs.Prelude.{◌≡◌};
ghost use Rattle.alpha_hash_defs.specs.Hash as hash;
ghost use Rattle.alpha_hash_defs.specs.Hash.{fold_from, gap, term, text_fold};

const PRIME: u64 = 1099511628211;
/// What each fold begins with.
pub const BASIS: u64 = 14695981039346656037;

/// One word mixed into a number.
pub fn mix(number: u64, word: u64) -> u64
    ensures { result ≡ hash.mix number word }
{
    (number ^ word).wrapping_mul(PRIME)
}

/// The fold of a text: its bytes mixed in one after the other.
pub fn text_fold(text: &[u8]) -> u64
    ensures { result ≡ text_fold text.now }
{
    let mut number = BASIS;
    for byte in text {
        number = mix(number, u64::from(*byte));
    }
    number
}

/// What a name of a local at a place adds, by the place of the name of the same local before.
pub fn term(place: u64, before: Option<u64>) -> u64
    ensures { result ≡ term place before }
{
    mix(mix(BASIS, place), gap(place, before))
}

/// How far a place lies behind the one before, if there is one.
fn gap(place: u64, before: Option<u64>) -> u64
    ensures { result ≡ gap place before }
{
    match before {
        Some(before) => place.saturating_sub(before),
        None => 0,
    }
}
