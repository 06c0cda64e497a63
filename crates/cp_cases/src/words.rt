//! Words and numbers of a line, and where two texts differ.

use std::alloc::{AllocError, Global};

/// The piece, after the word in quotation marks that has begun.
fn joined(alloc: Global, begun: Option<String>, piece: &str) -> Result<String, AllocError> {
    match begun {
        Some(front) => format!(in alloc; "{front} {piece}"),
        None => piece.to_string(alloc),
    }
}

/// Adds a word, without its quotation marks, and says whether it has ended.
fn add_word(alloc: Global, words: &mut Vec<String>, word: &str) -> Result<bool, AllocError> {
    let whole = match word.strip_prefix("\"") {
        Some(inside) => inside.strip_suffix("\""),
        None => Some(word),
    };
    let Some(whole) = whole else {
        return Ok(false);
    };
    if !word.is_empty() {
        words.push(whole.to_string(alloc)?)?;
    }
    Ok(true)
}

/// Adds a piece of a line to its words, or to the word in quotation marks that has begun; gives that which hasn't ended.
fn add_piece(
    alloc: Global,
    words: &mut Vec<String>,
    begun: Option<String>,
    piece: &str,
) -> Result<Option<String>, AllocError> {
    let word = joined(alloc, begun, piece)?;
    let has_ended = add_word(alloc, words, word.as_str())?;
    Ok(if has_ended { None } else { Some(word) })
}

/// The words of a line, between spaces. One that begins with a quotation mark reaches to the next that ends a word, so that
/// it may have spaces in it, and other quotation marks.
pub fn words_of(alloc: Global, line: &str) -> Result<Vec<String>, AllocError> {
    let mut words = Vec::new(alloc);
    let mut begun = None;
    for piece in line.split(' ') {
        begun = add_piece(alloc, &mut words, begun, piece)?;
    }
    Ok(words)
}

/// A line of an output without the curator, of several, to whom it goes.
pub fn line_of(line: &str) -> &str {
    match line.strip_prefix("@") {
        Some(rest) => rest.split_once(' ').map_or(line, |parts| parts.1),
        None => line,
    }
}

/// The numbers of a line; words that are none are left out.
pub fn numbers_of(alloc: Global, line: &str) -> Result<Vec<u64>, AllocError> {
    let mut numbers = Vec::new(alloc);
    for word in line.split_whitespace() {
        if let Ok(number) = word.parse::<u64>() {
            numbers.push(number)?;
        }
    }
    Ok(numbers)
}

/// The first number of a line, or 0.
pub fn number_of(line: &str) -> u64 {
    let (word, _) = line.split_once(' ').unwrap_or((line, ""));
    word.parse::<u64>().unwrap_or(0)
}

/// The number of the first line of the one text that isn't in the other, and what stands there in each.
fn first_difference<'a>(found: &'a str, wanted: &'a str) -> Option<(u64, &'a str, &'a str)> {
    let mut number = 0u64;
    let mut others = wanted.split('\n');
    for one in found.split('\n') {
        number = number.saturating_add(1);
        let other = others.next().unwrap_or("no line");
        if one != other {
            return Some((number, one, other));
        }
    }
    None
}

/// Says in what line texts that differ do so first.
fn difference(alloc: Global, found: &str, wanted: &str) -> Result<String, AllocError> {
    match first_difference(found, wanted) {
        Some((number, one, other)) => {
            format!(in alloc; "line {number} is {one:?}, wanted {other:?}")
        }
        None => format!(in alloc; "{} bytes came, wanted {}", found.len(), wanted.len()),
    }
}

/// Says in what line the texts differ first; `None` where they don't.
pub fn compare(alloc: Global, found: &[u8], wanted: &[u8]) -> Result<Option<String>, AllocError> {
    if found == wanted {
        return Ok(None);
    }
    match (std::str::from_utf8(found), std::str::from_utf8(wanted)) {
        (Ok(found), Ok(wanted)) => Ok(Some(difference(alloc, found, wanted)?)),
        _ => Ok(Some("the output isn't UTF-8".to_string(alloc)?)),
    }
}
