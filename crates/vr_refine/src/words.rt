//! The words that the program takes.

ghost use Rattle.std.specs.Prelude.{◌≡◌};
ghost use Rattle.vr_app.specs.Runs.{bytes_of};
ghost use Rattle.vr_refine.specs.Words as words_of;

use vr_app::Mode;

/// What is asked of an input.
#[derive(Clone, Copy)]
pub enum Request {
    /// What the given routes cost as they are, or the first rule that they break.
    Price,
    /// A solution: with `Mode::First` the routes with which a search begins, else the best that it finds from there.
    Find(Mode),
}

/// What the words ask for, `None` if they are not accepted.
pub fn request_of(words: &[String]) -> Option<Request>
    ensures { result ≡ words_of.request_of (bytes_of words.now) }
{
    match words {
        [word] => one_word(word.as_str()),
        [word, more] => two_words(word.as_str(), more.as_str()),
        _ => None,
    }
}

fn one_word(word: &str) -> Option<Request>
    ensures { result ≡ words_of.one_word word.now }
{
    if word == "price" {
        return Some(Request::Price);
    }
    if word == "first" {
        return Some(Request::Find(Mode::First));
    }
    if word == "solve" {
        return Some(Request::Find(Mode::Solve));
    }
    None
}

fn two_words(word: &str, more: &str) -> Option<Request>
    ensures { result ≡ words_of.two_words word.now more.now }
{
    if word == "solve" && more == "--log" {
        return Some(Request::Find(Mode::Log));
    }
    None
}
