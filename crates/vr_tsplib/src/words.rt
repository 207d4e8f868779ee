//! Texts that are one word or one to three numbers; any other has the flaw `FaultyLine`. And what a word of a table
//! means.

ghost use Rattle.std.specs.Prelude.{◌≡◌, option_map, find, map};
ghost use Rattle.std.specs.Str.{bytes_eq};
ghost use Rattle.vr_json.specs.Kinds.{named};
ghost use Rattle.vr_json.specs.Reading.{seen};
ghost use Rattle.vr_tsplib.specs.Heads as heads;
ghost use Rattle.vr_tsplib.specs.Numbers as numbers;
ghost use Rattle.vr_tsplib.specs.Texts.{words};

use crate::flaws::Flaw;
use crate::numbers::number;
use crate::texts::first_word;

/// What the first word of a table means that is this one.
pub(crate) fn meaning<T: Copy>(table: &[(&str, T)], word: &[u8]) -> Option<T>
    ensures { result ≡ heads.meaning (map named table.now) word.now }
{
    for (name, choice) in table {
        if name.as_bytes() == word {
            return Some(*choice);
        }
    }
    None
}

/// The word that is all of a text.
#[tactic(auto, unfolding(crate::specs::Numbers::one_word))]
pub(crate) fn one_word(text: &[u8]) -> Result<&[u8], Flaw>
    ensures { seen (λ word. word.now) result ≡ numbers.one_word (words text.now) }
{
    match first_word(text) {
        Some((word, rest)) if first_word(rest).is_none() => Ok(word),
        _ => Err(Flaw::FaultyLine),
    }
}

/// The number that is all of a text.
#[tactic(auto, unfolding(vr_json::specs::Reading::and_then))]
pub(crate) fn one_number(text: &[u8]) -> Result<i64, Flaw>
    ensures { result ≡ numbers.one_number (words text.now) }
{
    number(one_word(text)?)
}

// The number that is the first word of a text, and what is after it.
#[tactic(auto, unfolding(vr_json::specs::Reading::and_then, crate::specs::Numbers::first_number))]
fn first_number(text: &[u8]) -> Result<(i64, &[u8]), Flaw>
    ensures { seen (λ p. (p.0, words p.1.now)) result ≡ numbers.first_number (words text.now) }
{
    let Some((word, rest)) = first_word(text) else {
        return Err(Flaw::FaultyLine);
    };
    let found = number(word)?;
    Ok((found, rest))
}

/// The two numbers that are all of a text.
#[tactic(auto, unfolding(vr_json::specs::Reading::and_then, crate::specs::Numbers::two_numbers))]
pub(crate) fn two_numbers(text: &[u8]) -> Result<(i64, i64), Flaw>
    ensures { result ≡ numbers.two_numbers (words text.now) }
{
    let (first, rest) = first_number(text)?;
    let second = one_number(rest)?;
    Ok((first, second))
}

/// The three numbers that are all of a text.
#[tactic(auto, unfolding(vr_json::specs::Reading::and_then, crate::specs::Numbers::three_numbers))]
pub(crate) fn three_numbers(text: &[u8]) -> Result<(i64, i64, i64), Flaw>
    ensures { result ≡ numbers.three_numbers (words text.now) }
{
    let (first, rest) = first_number(text)?;
    let (second, third) = two_numbers(rest)?;
    Ok((first, second, third))
}
