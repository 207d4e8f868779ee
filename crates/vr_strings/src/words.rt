//! The row of words of a search.

ghost use Rattle.std.specs.Prelude.{◌≡◌, ◌<◌, ◌≤◌};
ghost use Rattle.vr_gen.specs.Draws as draws;
ghost use Rattle.vr_strings.specs.Zeros as zeros_of;

use rand_core::utils::NextWord;
use rand_pcg::Lcg64Xsh32;
use std::marker::Model;
use vr_gen::{draw, words_of};

/// The words (whole numbers of 32 bits) of a seed, one after another. Contracts see the generator of those that are
/// left.
#[derive(Drop)]
pub struct Words {
    generator: Lcg64Xsh32,
}

impl Model for Words {
    ghost use Rattle.rand_pcg.specs.Lcg.{Lcg};

    ghost Value = { Lcg };

    ghost view = { λ words. words.generator };
}

impl Words {
    /// All words of a seed. Those of seed 0 begin 298703107, 4236525527, 336081875.
    pub fn of_seed(seed: u64) -> Words
        ensures { result ≡ draws.words_of seed }
    {
        Words {
            generator: words_of(seed),
        }
    }

    /// The next word modulo `k`, which is at least 1.
    #[inline]
    pub fn draw(&mut self, k: u32) -> u32
        requires { 0 < k }
        ensures value { (result, self.new) ≡ draws.draw k self.old }
        ensures less { result < k }
    {
        draw(&mut self.generator, k)
    }

    /// How many leading zero bits the next word has, `0..=32`: half of all words have none, a quarter has one.
    #[inline]
    pub fn zeros(&mut self) -> u32
        ensures value { (result, self.new) ≡ zeros_of.zeros self.old }
        ensures few { result ≤ 32 }
    {
        self.generator.next_word().leading_zeros()
    }
}
