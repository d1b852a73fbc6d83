//! The words of sections: NAME:RES:START:LEN.
ghost use Rattle.std.specs.Prelude.{◌≡◌, ℕ, ◌<◌, ◌≤◌, ◌^◌, true, false, List, length, map, min, IfOk, IfSome, MatchOption, option_map};
ghost use Rattle.std.specs.List.{list_all};
ghost use Rattle.std.specs.Char.{is_ascii_digit};
ghost use Rattle.std.specs.Str.Parse.{digits_value};
ghost use Rattle.hk_sheet.specs.Faults.{is_name, is_name_byte};
ghost use Rattle.hk_ceiling.specs.Words.{has_colon, head, rest, number_of, is_section, section_from, Tells, tells, are_sections, sections_from};

use crate::ceilings::MAX_SECTIONS;
use crate::told::{Section, Sections};
use hk_sheet::{MAX_NAME, Name};
use std::alloc::{AllocError, Global};

/// The most digits of a number.
const MAX_DIGITS: usize = 8;

/// The number of a resource above which all numbers are as good.
const MAX_RESOURCE: u32 = 255;

/// Whether a byte may stand in a name behind the first.
fn is_name_byte(byte: u8) -> bool
    ensures { result ≡ is_name_byte byte }
{
    byte.is_ascii_lowercase() || byte.is_ascii_digit() || byte == b'_'
}

/// Whether all of the bytes may.
fn are_name_bytes(bytes: &[u8]) -> bool
    ensures { result ≡ list_all is_name_byte bytes.now }
{
    bytes.iter().all(|byte| is_name_byte(*byte))
}

/// Whether the bytes are a task's name.
fn is_name(bytes: &[u8]) -> bool
    ensures { result ≡ is_name bytes.now }
{
    let Some((first, rest)) = bytes.split_first() else {
        return false;
    };
    first.is_ascii_lowercase() && are_name_bytes(rest) && bytes.len() <= MAX_NAME
}

/// What the digits write, where each byte is one.
fn digits_of(text: &[u8]) -> Option<u32>
    requires { length text.now ≤ 8 }
    ensures { MatchOption result (list_all is_ascii_digit text.now ≡ false) (λ value. (list_all is_ascii_digit text.now ≡ true) × (value ≡ digits_value 10 text.now)) }
{
    let mut value: u32 = 0;
    for byte in text {
        if !byte.is_ascii_digit() {
            return None;
        }
        value = value * 10 + u32::from(*byte - b'0');
    }
    Some(value)
}

/// The number that a text of 1 to 8 decimal digits spells.
fn number(text: &[u8]) -> Option<u32>
    ensures { result ≡ number_of text.now }
{
    if text.is_empty() || text.len() > MAX_DIGITS {
        return None;
    }
    digits_of(text)
}

/// What stands before the first colon, and what after it.
fn cut(text: &str) -> Option<(&str, &str)>
    ensures { MatchOption result (has_colon text.now ≡ false) (λ x. (has_colon text.now ≡ true) × (x.0.now ≡ head text.now) × (x.1.now ≡ rest text.now)) }
{
    text.split_once(':')
}

/// The name and the three numbers of a word.
fn told(word: &str) -> Option<(&str, u32, u32, u32)>
    ensures { MatchOption result (is_section word.now ≡ false) (λ x. (is_section word.now ≡ true) × Tells word.now x.0.now x.1 x.2 x.3) }
{
    let (name, behind) = cut(word)?;
    let (res, behind) = cut(behind)?;
    let (start, len) = cut(behind)?;
    if !is_name(name.as_bytes()) {
        return None;
    }
    let res = number(res.as_bytes())?;
    let start = number(start.as_bytes())?;
    let len = number(len.as_bytes())?;
    Some((name, res, start, len))
}

/// Whether a word tells a section.
fn tells(word: &str) -> bool
    ensures { result ≡ is_section word.now }
{
    told(word).is_some()
}

/// Whether each word tells a section.
fn all_tell(words: &[String]) -> bool
    ensures { result ≡ list_all tells words.now }
{
    words.iter().all(|word| tells(word.as_str()))
}

/// Whether there are at most 64 words and each tells a section. It takes no memory.
pub(crate) fn are_sections(words: &[String]) -> bool
    ensures { result ≡ are_sections words.now }
{
    words.len() <= MAX_SECTIONS && all_tell(words)
}

/// The section that a word tells, where it is of the form.
fn section(alloc: Global, word: &str) -> Result<Option<Section>, AllocError>
    ensures { IfOk result (λ found. MatchOption found (is_section word.now ≡ false) (λ s. (is_section word.now ≡ true) × (s ≡ section_from word.now))) }
{
    let Some((name, res, start, len)) = told(word) else {
        return Ok(None);
    };
    let items = Vec::from_slice(alloc, name.as_bytes())?;
    Ok(Some(Section {
        name: Name { items },
        res: res.min(MAX_RESOURCE) as u8,
        start,
        len,
    }))
}

/// The sections that the words tell, where there are at most 64 and each is of the form `NAME:RES:START:LEN`: a task's name,
/// and three numbers of 1 to 8 decimal digits. A resource above 255 is told as 255.
pub fn read_sections(alloc: Global, words: &[String]) -> Result<Option<Sections>, AllocError>
    ensures sections { IfOk result (λ found. MatchOption found (are_sections words.now ≡ false) (λ s. (are_sections words.now ≡ true) × (s ≡ sections_from words.now))) }
    ensures few { IfOk result (λ found. IfSome found (λ s. length s ≤ 64)) }
{
    if words.len() > MAX_SECTIONS {
        return Ok(None);
    }
    let mut items = Vec::new(alloc);
    for word in words {
        match section(alloc, word.as_str())? {
            Some(section) => items.push(section)?,
            None => return Ok(None),
        }
    }
    Ok(Some(Sections { items }))
}
