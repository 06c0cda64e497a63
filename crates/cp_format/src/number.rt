//! Numbers and letters, in bytes that may be anything.
ghost use Rattle.std.specs.Prelude.{◌≡◌, ◌≤◌, ◌<◌, ◌/◌, ◌^◌, ℕ, length, IfErr, IfOk};
ghost use Rattle.cp_format.specs.Faults.{FaultAt};
ghost use Rattle.cp_format.specs.Formats.{ReadsAt};
ghost use Rattle.cp_format.specs.Parts.{bounded_format, count_format, digit_format, letter_format, number_format};

use crate::fault::FormatFault;
use cp_model::RecOp;

/// The number in the next eight bytes, the highest first, and the offset after them. The fault is the end of the bytes,
/// where there are fewer.
pub fn number_at(bytes: &[u8], at: usize) -> Result<(u64, usize), FormatFault>
    requires { at ≤ length bytes.now }
    ensures read { IfOk result (λ x. ReadsAt number_format bytes.now at x.0 x.1) }
    ensures fault { IfErr result (FaultAt number_format bytes.now at) }
{
    match bytes[at..].split_first_chunk::<8>() {
        Some((first, _)) => Ok((u64::from_be_bytes(*first), at + 8)),
        None => Err(FormatFault::BadByte(bytes.len())),
    }
}

/// The operation whose letter the next byte is, and the offset after it. The fault is a byte that is no such letter, or the
/// end of the bytes.
pub fn letter_at(bytes: &[u8], at: usize) -> Result<(RecOp, usize), FormatFault>
    requires { at ≤ length bytes.now }
    ensures read { IfOk result (λ x. ReadsAt letter_format bytes.now at x.0 x.1) }
    ensures fault { IfErr result (FaultAt letter_format bytes.now at) }
{
    if at == bytes.len() {
        return Err(FormatFault::BadByte(at));
    }
    match bytes[at] {
        b'I' => Ok((RecOp::I, at + 1)),
        b'C' => Ok((RecOp::C, at + 1)),
        b'D' => Ok((RecOp::D, at + 1)),
        b'K' => Ok((RecOp::K, at + 1)),
        _ => Err(FormatFault::BadByte(at)),
    }
}

/// The number from `least` to `most` in the next byte, and the offset after it. The fault is a byte that is none, or the
/// end of the bytes.
pub fn count_at(
    bytes: &[u8],
    at: usize,
    least: usize,
    most: usize,
) -> Result<(usize, usize), FormatFault>
    requires at { at ≤ length bytes.now }
    requires some { least ≤ most }
    requires byte { least < 256 }
    ensures read { IfOk result (λ x. ReadsAt (count_format least most) bytes.now at x.0 x.1) }
    ensures fault { IfErr result (FaultAt (count_format least most) bytes.now at) }
{
    if at == bytes.len() {
        return Err(FormatFault::BadByte(at));
    }
    let count = bytes[at] as usize;
    if count < least || count > most {
        return Err(FormatFault::BadByte(at));
    }
    Ok((count, at + 1))
}

/// The number from `least` to `most` that the next byte makes with those before it, which make `high`.
fn digit_at(
    bytes: &[u8],
    at: usize,
    high: usize,
    least: usize,
    most: usize,
) -> Result<(usize, usize), FormatFault>
    requires at { at ≤ length bytes.now }
    requires some { least ≤ most }
    requires low { least / 256 ≤ high }
    requires high { high ≤ most / 256 }
    ensures read { IfOk result (λ x. ReadsAt (digit_format high least most) bytes.now at x.0 x.1) }
    ensures fault { IfErr result (FaultAt (digit_format high least most) bytes.now at) }
{
    let below = high * 256;
    let (digit, at) = count_at(bytes, at, least.saturating_sub(below), most - below)?;
    Ok((below + digit, at))
}

/// The number from `least` to `most` in the next four bytes, the highest first, and the offset after them. The fault is
/// the first byte with which no number within the bounds goes on, or the end of the bytes.
pub fn bounded_at(
    bytes: &[u8],
    at: usize,
    least: usize,
    most: usize,
) -> Result<(usize, usize), FormatFault>
    requires at { at ≤ length bytes.now }
    requires some { least ≤ most }
    requires four { least < 2 ^ 32 }
    ensures read { IfOk result (λ x. ReadsAt (bounded_format least most) bytes.now at x.0 x.1) }
    ensures fault { IfErr result (FaultAt (bounded_format least most) bytes.now at) }
{
    let (first, at) = digit_at(bytes, at, 0, least / 16_777_216, most / 16_777_216)?;
    let (second, at) = digit_at(bytes, at, first, least / 65_536, most / 65_536)?;
    let (third, at) = digit_at(bytes, at, second, least / 256, most / 256)?;
    digit_at(bytes, at, third, least, most)
}
