//! Bytes as hexadecimal digits.
//!
//! Words of an even number of digits stand between white space; `*N` after one repeats it N times.

use std::alloc::{AllocError, Global};

/// The number that a digit stands for, or 0.
fn digit(byte: u8) -> u8 {
    match byte {
        b'0'..=b'9' => byte - b'0',
        b'a'..=b'f' => byte - b'a' + 10,
        b'A'..=b'F' => byte - b'A' + 10,
        _ => 0,
    }
}

/// Adds the bytes of a word of digits.
fn add_word(bytes: &mut Vec<u8>, word: &str) -> Result<(), AllocError> {
    for pair in word.as_bytes().chunks(2) {
        if let [high, low] = pair {
            bytes.push(digit(*high).wrapping_mul(16).wrapping_add(digit(*low)))?;
        }
    }
    Ok(())
}

/// Adds the bytes of a word, as often as it says.
fn add_times(bytes: &mut Vec<u8>, word: &str) -> Result<(), AllocError> {
    let (digits, times) = word.split_once('*').unwrap_or((word, "1"));
    for _ in 0..times.parse::<u32>().unwrap_or(0) {
        add_word(bytes, digits)?;
    }
    Ok(())
}

/// The bytes that a text spells.
pub fn bytes_in(alloc: Global, text: &[u8]) -> Result<Vec<u8>, AllocError> {
    let text = std::str::from_utf8(text).unwrap_or("");
    let mut bytes = Vec::new(alloc);
    for word in text.split_whitespace() {
        add_times(&mut bytes, word)?;
    }
    Ok(bytes)
}

/// A digit for a number below 16.
fn letter(half: u8) -> char {
    match half {
        0..=9 => (b'0' + half) as char,
        _ => (b'a' + (half - 10) % 6) as char,
    }
}

/// The bytes as digits, with a space between two.
pub fn hex_of(alloc: Global, bytes: &[u8]) -> Result<String, AllocError> {
    let mut text = String::new(alloc);
    for byte in bytes {
        if !text.is_empty() {
            text.push(' ')?;
        }
        text.push(letter(*byte / 16))?;
        text.push(letter(*byte % 16))?;
    }
    Ok(text)
}
