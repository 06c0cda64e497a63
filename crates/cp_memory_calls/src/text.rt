//! JSON texts of trees.

use std::alloc::{AllocError, Global};

/// Adds the last digit of a number.
fn push_digit(text: &mut String, number: u64) -> Result<(), AllocError> {
    text.push((b'0' + (number % 10) as u8) as char)
}

/// Adds a member's name: a letter and seven digits.
fn push_name(text: &mut String, number: u64) -> Result<(), AllocError> {
    text.push_str("\"n")?;
    push_digit(text, number / 1_000_000)?;
    push_digit(text, number / 100_000)?;
    push_digit(text, number / 10_000)?;
    push_digit(text, number / 1_000)?;
    push_digit(text, number / 100)?;
    push_digit(text, number / 10)?;
    push_digit(text, number)?;
    text.push_str("\":")
}

/// Adds one of five leaves.
fn push_leaf(text: &mut String, number: u64) -> Result<(), AllocError> {
    text.push_str(match number % 5 {
        0 => "null",
        1 => "true",
        2 => "\"a text of more than sixteen bytes\"",
        3 => "-17",
        _ => "18446744073709551615",
    })
}

/// Gives an object with that many leaves.
pub(crate) fn wide(alloc: Global, count: u64) -> Result<String, AllocError> {
    let mut text = "{".to_string(alloc)?;
    for number in 0..count {
        if number > 0 {
            text.push(',')?;
        }
        push_name(&mut text, number)?;
        push_leaf(&mut text, number)?;
    }
    text.push('}')?;
    Ok(text)
}

/// Gives that many objects, each the only member of the one before, and a leaf in the last.
pub(crate) fn deep(alloc: Global, count: u64) -> Result<String, AllocError> {
    let mut text = "null".to_string(alloc)?;
    for number in 0..count {
        let mut outer = "{".to_string(alloc)?;
        push_name(&mut outer, number)?;
        outer.push_str(text.as_str())?;
        outer.push('}')?;
        text = outer;
    }
    Ok(text)
}

/// Gives an object of that many members, which have other names each, that don't rise, and all this text.
fn object_of(alloc: Global, member: &str, width: u64) -> Result<String, AllocError> {
    let mut text = "{".to_string(alloc)?;
    for number in 0..width {
        if number > 0 {
            text.push(',')?;
        }
        push_name(&mut text, number % 10 * 7 % 10)?;
        text.push_str(member)?;
    }
    text.push('}')?;
    Ok(text)
}

/// Gives objects that many levels deep, of that many members each, with leaves in the last ones.
pub(crate) fn nested(alloc: Global, levels: u64, width: u64) -> Result<String, AllocError> {
    let mut text = String::new(alloc);
    push_leaf(&mut text, 2)?;
    for _ in 0..levels {
        text = object_of(alloc, text.as_str(), width)?;
    }
    Ok(text)
}
