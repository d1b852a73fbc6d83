//! The words of a line, and the numbers and names that words spell.

ghost use Rattle.std.specs.Prelude.{◌≡◌, ℕ, ◌<◌, ◌≤◌, true, false, [], ◌∷◌, length, IfSome, MatchOption};
ghost use Rattle.std.specs.List.{position_or_len, list_all};
ghost use Rattle.std.specs.Char.{is_ascii_digit};
ghost use Rattle.std.specs.Str.{bytes_eq};
ghost use Rattle.std.specs.Str.Parse.{digits_value};
ghost use Rattle.hk_script.specs.Lex.{is_blank, ends_word, words, number_of, below, has_leading_zero, index_of};

/// The most digits of a number.
pub(crate) const MAX_DIGITS: usize = 20;

/// Whether a byte parts words.
fn is_blank(byte: u8) -> bool
    ensures { result ≡ is_blank byte }
{
    byte == b' ' || byte == b'\t' || byte == b'\r'
}

/// Whether a word ends before this byte: a blank, or the mark of a comment.
fn ends_word(byte: u8) -> bool
    ensures { result ≡ ends_word byte }
{
    is_blank(byte) || byte == b'#'
}

/// The length of the word that a text begins with.
fn word_length(text: &[u8]) -> usize
    ensures place { result ≡ position_or_len ends_word text.now }
    ensures within { result ≤ length text.now }
{
    for (place, byte) in text.iter().enumerate() {
        if ends_word(*byte) {
            return place;
        }
    }
    text.len()
}

/// The first word of a line, and what comes after it.
pub(crate) fn first_word(line: &[u8]) -> Option<(&[u8], &[u8])>
    ensures { MatchOption result (words line.now ≡ []) (λ found. words line.now ≡ found.0.now ∷ words found.1.now) }
{
    let mut rest = line;
    while let [first, after @ ..] = rest {
        if !is_blank(*first) {
            let length = word_length(rest);
            if length == 0 {
                return None;
            }
            return Some(rest.split_at(length));
        }
        rest = after;
    }
    None
}

/// Whether a word is this name.
pub(crate) fn is(word: &[u8], name: &str) -> bool
    ensures { result ≡ bytes_eq word.now name.now }
{
    word == name.as_bytes()
}

/// What the digits write, where each byte is one.
fn digits_of(word: &[u8]) -> Option<u128>
    requires { length word.now ≤ MAX_DIGITS }
    ensures { MatchOption result (list_all is_ascii_digit word.now ≡ false) (λ value. (list_all is_ascii_digit word.now ≡ true) × (value ≡ digits_value 10 word.now)) }
{
    let mut value: u128 = 0;
    for byte in word {
        if !byte.is_ascii_digit() {
            return None;
        }
        value = value * 10 + u128::from(*byte - b'0');
    }
    Some(value)
}

/// The number that a word of 1 to 20 decimal digits spells.
pub(crate) fn number(word: &[u8]) -> Option<u64>
    ensures { result ≡ number_of word.now }
{
    if word.is_empty() || word.len() > MAX_DIGITS {
        return None;
    }
    let value = digits_of(word)?;
    u64::try_from(value).ok()
}

/// The number that a word of 1 to 20 decimal digits spells, where it is below the limit.
pub(crate) fn number_below(word: &[u8], limit: u8) -> Option<u8>
    ensures value { result ≡ below limit (number_of word.now) }
    ensures small { IfSome result (λ found. found < limit) }
{
    let value = number(word)?;
    if value < u64::from(limit) {
        Some(value as u8)
    } else {
        None
    }
}

/// Whether digits begin with a 0 that could be left out.
fn has_leading_zero(digits: &[u8]) -> bool
    ensures { result ≡ has_leading_zero digits.now }
{
    match digits {
        [first, _, ..] => *first == b'0',
        _ => false,
    }
}

/// The number in a name: a letter, and a number below the limit without leading zeros.
pub(crate) fn index(word: &[u8], letter: u8, limit: u8) -> Option<u8>
    ensures value { result ≡ index_of letter limit word.now }
    ensures small { IfSome result (λ found. found < limit) }
{
    match word {
        [first, digits @ ..] if *first == letter && !has_leading_zero(digits) => {
            number_below(digits, limit)
        }
        _ => None,
    }
}
