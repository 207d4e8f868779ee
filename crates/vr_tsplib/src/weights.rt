//! Rows of weights.

ghost use Rattle.std.specs.Prelude.{◌≡◌};
ghost use Rattle.vr_json.specs.Reading.{seen};
ghost use Rattle.vr_tsplib.specs.Flaws.{AnswersLine};
ghost use Rattle.vr_tsplib.specs.Rows as row_tables;
ghost use Rattle.vr_tsplib.specs.Texts.{words};

use crate::flaws::{Flaw, LineFail, refuse_if};
use crate::numbers::{count_in, number};
use crate::texts::first_word;
use vr_model::Seq;
use vr_model::limits::GREATEST_COST;

// Whether the words of a line are numbers, and no more than `left`.
fn are_numbers(left: u64, line: &[u8]) -> bool
    ensures { result ≡ row_tables.are_numbers left (words line.now) }
{
    let mut rest = line;
    let mut left = left;
    while let Some((word, behind)) = first_word(rest) {
        if left == 0 || number(word).is_err() {
            return false;
        }
        left -= 1;
        rest = behind;
    }
    true
}

// The weight that a word is.
#[tactic(auto, unfolding(vr_json::specs::Reading::and_then, crate::specs::Rows::weight))]
fn weight(word: &[u8]) -> Result<u64, Flaw>
    ensures { result ≡ row_tables.weight word.now }
{
    let found = number(word)?;
    count_in(found, 0, GREATEST_COST as u64)
}

// Puts the words of a line after the weights. After an error nothing is said of the weights.
fn push_weights(weights: &mut Seq<u64>, line: &[u8]) -> Result<(), LineFail>
    ensures { AnswersLine (seen (λ u. weights.new) result) (row_tables.weights_behind weights.old (words line.now)) }
{
    let mut rest = line;
    while let Some((word, behind)) = first_word(rest) {
        weights.push(weight(word)?)?;
        rest = behind;
    }
    Ok(())
}

/// Puts a row of weights, of which `left` are still to come, after the others. All its words are looked at before any
/// is put, since in a line `FaultyLine` comes before `OutOfRange`. After an error nothing is said of the weights.
pub(crate) fn push_row(weights: &mut Seq<u64>, left: u64, line: &[u8]) -> Result<(), LineFail>
    ensures { AnswersLine (seen (λ u. weights.new) result) (row_tables.row_behind left weights.old (words line.now)) }
{
    refuse_if(!are_numbers(left, line), Flaw::FaultyLine)?;
    push_weights(weights, line)
}
