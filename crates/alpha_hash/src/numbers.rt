//! The numbers of rows of words.

ghost use Rattle.std.specs.Prelude.{◌≡◌, ◌≤◌, ℕ, List, Some, length, take, nat_eq, slice_get, IfOk, OnOk};
ghost use Rattle.std.specs.HashMap.{get};
ghost use Rattle.alpha_hash_defs.specs.Numbers.{words_hash};
ghost use Rattle.alpha_hash_defs.specs.Words.{word_value};
ghost use Rattle.alpha_hash.specs.Rolling.{HasPlaces, seen_at, term_at};
ghost use Rattle.alpha_hash.specs.Shown.{shown, word_view};

use crate::rolling::{BASIS, mix, term};
use crate::word::Word;
use std::alloc::{AllocError, Global};
use std::collections::HashMap;

/// The numbers of the first words, none of them to all, in one pass.
///
/// # Errors
///
/// Want of memory.
pub fn numbers_of(alloc: Global, words: &[Word]) -> Result<Vec<u64>, AllocError>
    ensures { IfOk result (λ v. (n : ℕ) → n ≤ length words.now → slice_get v.items n ≡ Some (words_hash (take n (shown words.now)))) }
{
    let mut places = HashMap::new(alloc);
    let mut fold = BASIS;
    let mut terms: u64 = 0;
    let mut numbers = Vec::with_capacity(alloc, words.len() + 1)?;
    numbers.push(mix(fold, terms))?;
    for index in 0..words.len() {
        let word = words[index];
        fold = mix(fold, value_of(word));
        terms = terms.wrapping_add(term_of(&mut places, word, index as u64 + 1)?);
        numbers.push(mix(fold, terms))?;
    }
    Ok(numbers)
}

/// The number that a word gives.
fn value_of(word: Word) -> u64
    ensures { result ≡ word_value (word_view word) }
{
    match word {
        Word::Number(number) => number,
        Word::Local(_) => 0,
    }
}

/// What a word at a place adds, by the last places of locals, which are kept up.
fn term_of(places: &mut HashMap<u32, u64>, word: Word, place: u64) -> Result<u64, AllocError>
    ensures term { IfOk result (λ t. (seen : List (ℕ × ℕ)) → HasPlaces (get nat_eq places.old) seen → t ≡ term_at seen place (word_view word)) }
    ensures places { OnOk result ((seen : List (ℕ × ℕ)) → HasPlaces (get nat_eq places.old) seen → HasPlaces (get nat_eq places.new) (seen_at seen place (word_view word))) }
{
    match word {
        Word::Number(_) => Ok(0),
        Word::Local(local) => {
            let before = places.insert(local, place)?;
            Ok(term(place, before))
        }
    }
}
