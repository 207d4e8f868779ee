//! The words of a text, and what is before and after a mark in it.

ghost use Rattle.std.specs.Prelude.{◌≡◌, ◌==◌, ◌≤◌, ◌<◌, [], ◌∷◌, length, MatchOption, IfNone, IfSome, true, false};
ghost use Rattle.std.specs.List.{position_or_len};
ghost use Rattle.vr_tsplib.specs.Texts as texts;
ghost use Rattle.vr_tsplib.specs.Texts.{words};

/// Whether a byte lies between words: a space, a tab or a carriage return.
pub(crate) fn is_blank(b: u8) -> bool
    ensures { result ≡ texts.is_blank b }
{
    b == b' ' || b == b'\t' || b == b'\r'
}

// The text without the blanks at its front.
fn skip_blanks(text: &[u8]) -> &[u8]
    ensures same { words result.now ≡ words text.now }
    ensures begins { texts.BeginsWord result.now }
    ensures shorter { length result.now ≤ length text.now }
{
    let mut k = 0;
    while k < text.len() && is_blank(text[k]) {
        k += 1;
    }
    &text[k..]
}

// How long the word is with which a text begins.
fn word_len(text: &[u8]) -> usize
    ensures value { result ≡ position_or_len texts.is_blank text.now }
    ensures within { result ≤ length text.now }
{
    text.iter().position(|b| is_blank(*b)).unwrap_or(text.len())
}

/// The first word of a text, and what is after it.
pub(crate) fn first_word(text: &[u8]) -> Option<(&[u8], &[u8])>
    ensures words { MatchOption result (words text.now ≡ []) (λ p. words text.now ≡ p.0.now ∷ words p.1.now) }
    ensures shorter { IfSome result (λ p. length p.1.now < length text.now) }
{
    let rest = skip_blanks(text);
    if rest.is_empty() {
        return None;
    }
    let k = word_len(rest);
    Some((&rest[..k], &rest[k..]))
}

/// Whether a text has no word.
pub(crate) fn is_wordless(text: &[u8]) -> bool
    ensures { result ≡ texts.is_empty (words text.now) }
{
    first_word(text).is_none()
}

// The place of the first such byte; the length if there is none.
fn place_of(text: &[u8], mark: u8) -> usize
    ensures value { result ≡ position_or_len (λ b. b == mark) text.now }
    ensures within { result ≤ length text.now }
{
    text.iter().position(|b| *b == mark).unwrap_or(text.len())
}

/// What is before the first such byte and after it, if there is one.
pub(crate) fn cut_at(text: &[u8], mark: u8) -> Option<(&[u8], &[u8])>
    ensures none { IfNone result (texts.has_byte mark text.now ≡ false) }
    ensures some { IfSome result (λ p. texts.has_byte mark text.now ≡ true) }
    ensures before { IfSome result (λ p. p.0.now ≡ texts.before_byte mark text.now) }
    ensures after { IfSome result (λ p. p.1.now ≡ texts.after_byte mark text.now) }
{
    let k = place_of(text, mark);
    if k >= text.len() {
        return None;
    }
    Some((&text[..k], &text[k + 1..]))
}
