//! Words as they are read: places, labels, names, values and texts, and the order of places.

use cp_path::{Label, Loc, Name, PathFault, Text, Value};
use cp_spelling::{
    label_text, place_text, read_label, read_place, read_text, read_value, value_text,
};
use std::alloc::{AllocError, Global};

/// Adds that the word is another one than its spelling.
fn add_otherwise(line: &mut String, spelling: &str, word: &str) -> Result<(), AllocError> {
    if spelling != word {
        line.push_str(", written otherwise")?;
    }
    Ok(())
}

/// The place's name and its labels, each after a `|`.
fn place(alloc: Global, word: &str) -> Result<String, PathFault> {
    let place = read_place(alloc, word)?;
    let mut line = place.db.as_str().to_string(alloc)?;
    for label in place.path.labels() {
        line.push('|')?;
        line.push_str(label.as_str())?;
    }
    add_otherwise(&mut line, place_text(alloc, &place)?.as_str(), word)?;
    Ok(line)
}

/// The label after a `|`.
fn label(alloc: Global, word: &str) -> Result<String, PathFault> {
    let label = read_label(alloc, word)?;
    let mut line = "|".to_string(alloc)?;
    line.push_str(label.as_str())?;
    add_otherwise(&mut line, label_text(alloc, &label)?.as_str(), word)?;
    Ok(line)
}

/// The spelling of a value.
fn value(alloc: Global, word: &str) -> Result<String, PathFault> {
    let value = read_value(alloc, word)?;
    let text = value_text(alloc, &value);
    drop(value);
    Ok(text?)
}

/// The name.
fn name(alloc: Global, word: &str) -> Result<String, PathFault> {
    Ok(Name::read(alloc, word)?.as_str().to_string(alloc)?)
}

/// The text after a `|`, or `none`.
fn text(alloc: Global, word: &str) -> Result<String, PathFault> {
    let Some(text) = read_text(alloc, word)? else {
        return Ok("none".to_string(alloc)?);
    };
    let mut line = "|".to_string(alloc)?;
    line.push_str(text.as_str())?;
    Ok(line)
}

/// The places of these words.
fn places(alloc: Global, words: &str) -> Result<Vec<Loc>, PathFault> {
    let mut places = Vec::new(alloc);
    for word in words.split(' ') {
        places.push(read_place(alloc, word)?)?;
    }
    Ok(places)
}

/// Whether each place compares with the others as its number does.
fn are_rising(places: &[Loc]) -> bool {
    for (i, one) in places.iter().enumerate() {
        for (j, other) in places.iter().enumerate() {
            if one.cmp(other) != i.cmp(&j) || one.is_at(other) != (i == j) {
                return false;
            }
        }
    }
    true
}

/// Whether these places are in their order.
fn order(alloc: Global, words: &str) -> Result<String, PathFault> {
    let places = places(alloc, words)?;
    let line = if are_rising(places.as_slice()) {
        "rising"
    } else {
        "not rising"
    };
    Ok(line.to_string(alloc)?)
}

/// What the call of this name reads the word as; `None` where there is no such call.
fn line_of(alloc: Global, key: &str, word: &str) -> Result<Option<String>, PathFault> {
    let line = match key {
        "place" => place(alloc, word),
        "label" => label(alloc, word),
        "value" => value(alloc, word),
        "name" => name(alloc, word),
        "text" => text(alloc, word),
        "order" => order(alloc, word),
        _ => return Ok(None),
    };
    Ok(Some(line?))
}

/// The line of what the call of this name reads the word as, or of why it refuses the word; `None`
/// where there is no such call.
pub(crate) fn read(alloc: Global, key: &str, text: &[u8]) -> Result<Option<Vec<u8>>, AllocError> {
    let word = std::str::from_utf8(text).unwrap_or("");
    let line = match line_of(alloc, key, word) {
        Ok(Some(line)) => line,
        Ok(None) => return Ok(None),
        Err(fault) => fault.to_string(alloc)?,
    };
    Ok(Some(bytes_of(alloc, line.as_str())?))
}

/// The bytes of a line and of a line feed.
pub(crate) fn bytes_of(alloc: Global, line: &str) -> Result<Vec<u8>, AllocError> {
    let mut bytes = line.as_bytes().to_vec(alloc)?;
    bytes.push(b'\n')?;
    Ok(bytes)
}
