//! The words that the program takes.

ghost use Rattle.std.specs.Char.{is_ascii_digit};
ghost use Rattle.std.specs.List.{list_all};
ghost use Rattle.std.specs.Prelude.{◌≡◌, IfSome, Some};
ghost use Rattle.vr_app.specs.Runs.{bytes_of};
ghost use Rattle.vr_app.specs.Words as words_of;
ghost use Rattle.vr_app.specs.Words.{HasFleet};

/// What is asked of a model.
#[derive(Clone, Copy)]
pub enum Mode {
    /// The first solution.
    First,
    /// The solution of the whole search.
    Solve,
    /// The same, and after it what the watchers report of the search.
    Log,
}

/// What is asked of a model and a solution beside it. Either question is answered if the solution meets the rules of
/// the model; else the first rule that it breaks is reported.
#[derive(Clone, Copy)]
pub enum Question {
    /// Whether the solution meets the rules.
    Check,
    /// How short each of its routes could be.
    Spans,
}

/// What is asked of an input that is JSON.
#[derive(Clone, Copy)]
pub enum Task {
    /// A solution of its model.
    Find(Mode),
    /// An answer about its solution.
    Ask(Question),
}

/// What the program is asked for.
#[derive(Clone, Copy)]
pub enum Request {
    /// An answer to the JSON that is read.
    Read(Task),
    /// The model of the TSPLIB file that is read, with this many vehicles.
    Import(u32),
    /// The model of a number.
    Generate(u64),
    /// A summary of the whole search of the model of a number.
    Demo(u64),
}

/// What the words ask for, `None` if they are not accepted.
pub fn request_of(words: &[String]) -> Option<Request>
    ensures request { result ≡ words_of.request_of (bytes_of words.now) }
    ensures vehicles { IfSome result HasFleet }
{
    match words {
        [word] => one_word(word.as_str()),
        [word, more] => two_words(word.as_str(), more.as_str()),
        _ => None,
    }
}

fn one_word(word: &str) -> Option<Request>
    ensures request { result ≡ words_of.one_word word.now }
    ensures vehicles { IfSome result HasFleet }
{
    if word == "first" {
        return Some(Request::Read(Task::Find(Mode::First)));
    }
    if word == "solve" {
        return Some(Request::Read(Task::Find(Mode::Solve)));
    }
    if word == "check" {
        return Some(Request::Read(Task::Ask(Question::Check)));
    }
    if word == "spans" {
        return Some(Request::Read(Task::Ask(Question::Spans)));
    }
    None
}

fn two_words(word: &str, more: &str) -> Option<Request>
    ensures request { result ≡ words_of.two_words word.now more.now }
    ensures vehicles { IfSome result HasFleet }
{
    if word == "solve" {
        return logged(more);
    }
    if word == "import" {
        return imported(more);
    }
    if word == "generate" {
        return number_in(more).map(Request::Generate);
    }
    if word == "demo" {
        return number_in(more).map(Request::Demo);
    }
    None
}

fn logged(word: &str) -> Option<Request>
    ensures request { result ≡ words_of.logged word.now }
    ensures vehicles { IfSome result HasFleet }
{
    if word == "--log" {
        return Some(Request::Read(Task::Find(Mode::Log)));
    }
    None
}

// The model of a file, with as many vehicles as a word says.
fn imported(word: &str) -> Option<Request>
    ensures request { result ≡ words_of.imported word.now }
    ensures vehicles { IfSome result HasFleet }
{
    match number_in(word) {
        Some(vehicles) => import_of(vehicles),
        None => None,
    }
}

// The model of a file with this many vehicles, if there may be this many.
fn import_of(vehicles: u64) -> Option<Request>
    ensures request { result ≡ words_of.import_of (Some vehicles) }
    ensures vehicles { IfSome result HasFleet }
{
    if 1 <= vehicles && vehicles <= 100 {
        Some(Request::Import(vehicles as u32))
    } else {
        None
    }
}

// The number that a word writes: in decimal digits, with no 0 in front of others, and at most 2^64 - 1. The digits are
// asked beside `parse`, so that each number has one word.
fn number_in(word: &str) -> Option<u64>
    ensures { result ≡ words_of.number_in word.now }
{
    if !is_numeral(word) {
        return None;
    }
    match word.parse::<u64>() {
        Ok(number) => Some(number),
        Err(_) => None,
    }
}

fn is_numeral(word: &str) -> bool
    ensures { result ≡ words_of.is_numeral word.now }
{
    are_digits(word) && !has_leading_zero(word) && !word.is_empty()
}

fn are_digits(word: &str) -> bool
    ensures { result ≡ list_all is_ascii_digit word.now }
{
    word.as_bytes().iter().all(|byte| byte.is_ascii_digit())
}

// Whether a 0 comes in front of others.
fn has_leading_zero(word: &str) -> bool
    ensures { result ≡ words_of.has_leading_zero word.now }
{
    match word.as_bytes() {
        [first, _, ..] => *first == b'0',
        _ => false,
    }
}
