//! Values of one kind: whole numbers, strings, words, booleans and arrays. Readers go by `whole_in`, `flag_in`, `text`
//! and `list`. Tests alone ask `whole`, `flag` and `word` (`Choice` of `leaves` reads words).

ghost use Rattle.std.specs.Prelude.{◌≡◌, ◌≤ℤ◌, ◌<◌, length, map, position, IfOk, IfSome};
ghost use Rattle.std.specs.Str.{bytes_eq};
ghost use Rattle.serde_json.specs.View.{view};
ghost use Rattle.vr_json.specs.Kinds as kinds;
ghost use Rattle.vr_json.specs.Reading as reading;
ghost use Rattle.vr_json.specs.Reading.{Answers, seen};

use crate::fault::refusal;
use crate::reader::settle;
use crate::{Cause, Path, ReadFail};
use serde_json::Value;
use std::alloc::Global;
use vr_model::Text;

// A whole number in `lo..=hi`.
#[tactic(auto, unfolding(crate::specs::Reading::and_then))]
pub(crate) fn whole_in(value: &Value, lo: i64, hi: i64) -> Result<i64, Cause>
    ensures { result ≡ kinds.whole_in lo hi (view value.now) }
{
    let number = value.as_number().ok_or(Cause::OtherKind)?;
    let whole = number.as_i64().ok_or(Cause::NotWhole)?;
    if lo <= whole && whole <= hi {
        Ok(whole)
    } else {
        Err(Cause::OutOfRange)
    }
}

// The number of the first of some words that is this text.
fn place_of(words: &[&str], text: &str) -> Option<usize>
    ensures found { result ≡ position (λ word. bytes_eq word text.now) (map (λ w. w.now) words.now) }
    ensures within { IfSome result (λ k. k < length words.now) }
{
    words.iter().position(|word| *word == text)
}

// The number of the first of some words that the value is; `word` alone asks it.
#[tactic(auto, unfolding(crate::specs::Reading::and_then))]
pub(crate) fn word_in(value: &Value, words: &[&str]) -> Result<usize, Cause>
    ensures found { result ≡ kinds.word_in (map (λ w. w.now) words.now) (view value.now) }
    ensures within { IfOk result (λ k. k < length words.now) }
{
    let text = value.as_str().ok_or(Cause::OtherKind)?;
    place_of(words, text).ok_or(Cause::UnknownWord)
}

// A boolean.
pub(crate) fn flag_in(value: &Value) -> Result<bool, Cause>
    ensures { result ≡ kinds.flag_in (view value.now) }
{
    value.as_bool().ok_or(Cause::OtherKind)
}

/// A whole number in `lo..=hi`.
///
/// Refused at `path`; the first of these is the answer:
///
/// - `OtherKind` if it is no number;
/// - `NotWhole` if it is no `i64` (as `5.0`, `-0` or a number from 2^63 on);
/// - `OutOfRange` if it is outside the range.
#[tactic(auto, unfolding(crate::specs::Reading::and_then, crate::specs::Reading::at_path, crate::specs::Kinds::whole))]
pub fn whole(alloc: Global, value: &Value, lo: i64, hi: i64, path: &Path) -> Result<i64, ReadFail>
    ensures found { Answers result (kinds.whole lo hi path.now (view value.now)) }
    ensures low { IfOk result (λ z. lo ≤ℤ z) }
    ensures high { IfOk result (λ z. z ≤ℤ hi) }
{
    settle(alloc, whole_in(value, lo, hi), path.here())
}

/// The entries of an array of `lo` to `hi` entries.
///
/// Refused at `path`: `OtherKind` if it is no array, then `WrongLength`.
#[tactic(auto, using(crate::proofs::Lists::views), unfolding(crate::specs::Reading::and_then, crate::specs::Reading::at_path, crate::specs::Reading::list))]
pub fn list<'a>(
    alloc: Global,
    value: &'a Value,
    lo: usize,
    hi: usize,
    path: &Path,
) -> Result<&'a [Value], ReadFail>
    ensures { Answers (seen (λ s. map view s.now) result) (reading.list lo hi path.now (view value.now)) }
{
    match value.as_array() {
        None => Err(refusal(alloc, Cause::OtherKind, path.here())),
        Some(items) => {
            if lo <= items.len() && items.len() <= hi {
                Ok(items)
            } else {
                Err(refusal(alloc, Cause::WrongLength, path.here()))
            }
        }
    }
}

/// A string of `lo` to `hi` bytes.
///
/// Refused at `path`: `OtherKind` if it is no string, then `WrongLength`.
#[tactic(auto, unfolding(crate::specs::Reading::and_then, crate::specs::Reading::at_path, crate::specs::Kinds::text))]
pub fn text(
    alloc: Global,
    value: &Value,
    lo: usize,
    hi: usize,
    path: &Path,
) -> Result<Text, ReadFail>
    ensures { Answers result (kinds.text lo hi path.now (view value.now)) }
{
    match value.as_str() {
        None => Err(refusal(alloc, Cause::OtherKind, path.here())),
        Some(text) => {
            if lo <= text.len() && text.len() <= hi {
                Ok(Text::from_str(alloc, text)?)
            } else {
                Err(refusal(alloc, Cause::WrongLength, path.here()))
            }
        }
    }
}

/// A boolean. Refused at `path`, as `OtherKind`, if it is none.
#[tactic(auto, unfolding(crate::specs::Reading::at_path, crate::specs::Kinds::flag))]
pub fn flag(alloc: Global, value: &Value, path: &Path) -> Result<bool, ReadFail>
    ensures { Answers result (kinds.flag path.now (view value.now)) }
{
    settle(alloc, flag_in(value), path.here())
}

/// The number, from 0, of the first of `words` that the value is.
///
/// Refused at `path`: `OtherKind` if it is no string, then `UnknownWord` if it is no such word.
#[tactic(auto, unfolding(crate::specs::Reading::at_path, crate::specs::Kinds::word))]
pub fn word(alloc: Global, value: &Value, words: &[&str], path: &Path) -> Result<usize, ReadFail>
    ensures found { Answers result (kinds.word (map (λ w. w.now) words.now) path.now (view value.now)) }
    ensures within { IfOk result (λ k. k < length words.now) }
{
    settle(alloc, word_in(value, words), path.here())
}
