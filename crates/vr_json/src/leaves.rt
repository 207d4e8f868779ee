//! Readers of numbers, booleans, strings and words.

ghost use Rattle.std.specs.Prelude.{◌≡◌, ◌≤◌, ◌<◌, find, map, option_map, IfOk};
ghost use Rattle.std.specs.Str.{bytes_eq};
ghost use Rattle.serde_json.specs.View.{view};
ghost use Rattle.vr_json.specs.Kinds as kinds;
ghost use Rattle.vr_json.specs.Kinds.{named};

use crate::kinds::{flag_in, text, whole_in};
use crate::{Cause, Datum, ReadFail, Reader};
use serde_json::Value;
use vr_model::Text;

/// A whole number in `lo..=hi`.
#[derive(Clone, Copy)]
pub struct Whole {
    pub lo: i64,
    pub hi: i64,
}

/// A count in `lo..=hi`.
#[derive(Clone, Copy)]
pub struct Count {
    pub lo: u32,
    pub hi: u32,
}

/// The number of one of `count` things, from 0.
#[derive(Clone, Copy)]
pub struct Below {
    pub count: u32,
}

/// A boolean.
#[derive(Clone, Copy)]
pub struct Flag;

/// A string of `lo` to `hi` bytes.
#[derive(Clone, Copy)]
pub struct TextOf {
    pub lo: usize,
    pub hi: usize,
}

/// A string that is one of some words, as what the word means.
#[derive(Clone, Copy)]
pub struct Choice<'a, T> {
    pub words: &'a [(&'a str, T)],
}

#[tactic(auto, unfolding(crate::specs::Reading::at_path, crate::specs::Kinds::whole))]
impl Reader for Whole {
    type Item = i64;

    ghost reads = { λ it earlier path d. kinds.whole it.lo it.hi path d };

    fn read(&self, _earlier: &[Self::Item], datum: Datum<'_, '_>) -> Result<Self::Item, ReadFail> {
        datum.settle(whole_in(datum.value, self.lo, self.hi))
    }
}

// A whole number in `lo..=hi`, as a count.
#[tactic(auto, unfolding(crate::specs::Reading::and_then))]
fn count_in(value: &Value, lo: u32, hi: u32) -> Result<u32, Cause>
    ensures { result ≡ kinds.count_in lo hi (view value.now) }
{
    let whole = whole_in(value, i64::from(lo), i64::from(hi))?;
    Ok(whole as u32)
}

#[tactic(auto, unfolding(crate::specs::Reading::at_path, crate::specs::Kinds::count))]
impl Reader for Count {
    type Item = u32;

    ghost reads = { λ it earlier path d. kinds.count it.lo it.hi path d };

    fn read(&self, _earlier: &[Self::Item], datum: Datum<'_, '_>) -> Result<Self::Item, ReadFail> {
        datum.settle(count_in(datum.value, self.lo, self.hi))
    }
}

// A whole number in `0..count`.
#[tactic(auto, unfolding(crate::specs::Reading::and_then))]
fn below_in(value: &Value, count: u32) -> Result<u32, Cause>
    ensures { result ≡ kinds.below_in count (view value.now) }
{
    let whole = whole_in(value, 0, i64::from(count) - 1)?;
    Ok(whole as u32)
}

#[tactic(auto, unfolding(crate::specs::Reading::at_path, crate::specs::Kinds::below))]
impl Reader for Below {
    type Item = u32;

    ghost reads = { λ it earlier path d. kinds.below it.count path d };

    fn read(&self, _earlier: &[Self::Item], datum: Datum<'_, '_>) -> Result<Self::Item, ReadFail> {
        datum.settle(below_in(datum.value, self.count))
    }
}

#[tactic(auto, unfolding(crate::specs::Reading::at_path, crate::specs::Kinds::flag))]
impl Reader for Flag {
    type Item = bool;

    ghost reads = { λ it earlier path d. kinds.flag path d };

    fn read(&self, _earlier: &[Self::Item], datum: Datum<'_, '_>) -> Result<Self::Item, ReadFail> {
        datum.settle(flag_in(datum.value))
    }
}

impl Reader for TextOf {
    type Item = Text;

    ghost reads = { λ it earlier path d. kinds.text it.lo it.hi path d };

    fn read(&self, _earlier: &[Self::Item], datum: Datum<'_, '_>) -> Result<Self::Item, ReadFail> {
        let path = datum.place.path()?;
        text(datum.alloc, datum.value, self.lo, self.hi, &path)
    }
}

// What the first of some words that is this text means.
fn meaning<T: Copy>(words: &[(&str, T)], text: &str) -> Option<T>
    ensures { result
        ≡ option_map (λ w. w.1) (find (λ w. bytes_eq w.0 text.now) (map named words.now)) }
{
    for (word, choice) in words {
        if *word == text {
            return Some(*choice);
        }
    }
    None
}

// What the word means that the value is.
#[tactic(auto, unfolding(crate::specs::Reading::and_then))]
fn choice_in<T: Copy>(value: &Value, words: &[(&str, T)]) -> Result<T, Cause>
    ensures { result ≡ kinds.choice_in (map named words.now) (view value.now) }
{
    let text = value.as_str().ok_or(Cause::OtherKind)?;
    meaning(words, text).ok_or(Cause::UnknownWord)
}

#[tactic(auto, unfolding(crate::specs::Reading::at_path, crate::specs::Kinds::choice))]
impl<T: Copy + Drop> Reader for Choice<'_, T> {
    type Item = T;

    ghost reads = { λ it earlier path d. kinds.choice (map named it.words.now) path d };

    fn read(&self, _earlier: &[Self::Item], datum: Datum<'_, '_>) -> Result<Self::Item, ReadFail> {
        datum.settle(choice_in(datum.value, self.words))
    }
}
