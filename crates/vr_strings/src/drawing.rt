//! Draws strings: stretches of a route that are taken out, one visit of which may stay.

ghost use Rattle.std.specs.Prelude.{◌≡◌, ◌+◌, ◌<◌, ◌≤◌};
ghost use Rattle.vr_strings.specs.Strings.{drawn_first, drawn_size, drawn_stay, drawn_string};
ghost use Rattle.vr_strings.specs.Strings.{IsSizeIn, IsStringAt};

use crate::words::Words;

/// How large a string is.
#[derive(Clone, Copy)]
pub struct StringSize {
    /// How many visits it takes out, 1 or more.
    pub out: u32,
    /// How many visits stay between them, 0 or 1.
    pub kept: u32,
}

/// Where a string is in a route.
#[derive(Clone, Copy)]
pub struct StringPlaces {
    /// Its first place, from 0 on.
    pub first: u32,
    /// How many places it has.
    pub width: u32,
    /// The place that stays, if one does: neither its first nor its last.
    pub stays: Option<u32>,
}

// Draws how large a string of a list of `n` visits is. A coin is thrown only if more than one visit is taken out, and
// not all of them.
fn draw_size(longest: u32, n: u32, words: &mut Words) -> StringSize
    requires longest { 1 ≤ longest }
    requires some { 1 ≤ n }
    requires few { n ≤ 1000 }
    ensures value { (result, words.new) ≡ drawn_size longest n words.old }
    ensures fits { IsSizeIn n result }
{
    let out = 1 + words.draw(longest.min(n));
    if 1 < out && out < n {
        let kept = if words.draw(2) == 0 { 1 } else { 0 };
        return StringSize { out, kept };
    }
    StringSize { out, kept: 0 }
}

// Draws the first place of a string of this width that contains place `p` of a list of `n` visits.
fn draw_first(width: u32, n: u32, p: u32, words: &mut Words) -> u32
    requires some { 1 ≤ width }
    requires width { width ≤ n }
    requires place { p < n }
    requires few { n ≤ 1000 }
    ensures value { (result, words.new) ≡ drawn_first width n p words.old }
    ensures from { result ≤ p }
    ensures until { p < result + width }
    ensures to { result + width ≤ n }
{
    let least = (p + 1).saturating_sub(width);
    let greatest = p.min(n - width);
    least + words.draw(greatest - least + 1)
}

// Draws the place that stays in a string that begins at place `first`, if one stays.
fn draw_stay(size: StringSize, first: u32, words: &mut Words) -> Option<u32>
    requires fits { IsSizeIn 1000 size }
    requires first { first ≤ 1000 }
    ensures { (result, words.new) ≡ drawn_stay size first words.old }
{
    if size.kept == 0 {
        return None;
    }
    Some(first + 1 + words.draw(size.out - 1))
}

/// Draws a string that contains place `p` of a route of `n` visits, and takes at most `longest` of them out. It makes
/// two to four draws and takes no memory.
pub fn draw_string(longest: u32, n: u32, p: u32, words: &mut Words) -> StringPlaces
    requires longest { 1 ≤ longest }
    requires place { p < n }
    requires few { n ≤ 1000 }
    ensures value { (result, words.new) ≡ drawn_string longest n p words.old }
    ensures there { IsStringAt n p result }
{
    let size = draw_size(longest, n, words);
    let width = size.out + size.kept;
    let first = draw_first(width, n, p, words);
    let stays = draw_stay(size, first, words);
    StringPlaces {
        first,
        width,
        stays,
    }
}
