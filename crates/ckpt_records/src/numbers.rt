ghost use Rattle.std.specs.Prelude.{◌≡◌, ◌<◌, ◌^◌, ◌+◌, ◌++◌, OnOk, length, take, drop, nat_le, if◌then◌else◌, Some, None};
ghost use Rattle.std.specs.Int.{w64, from_le_bytes};
ghost use Rattle.ckpt_records.specs.Gives.{Gives};
ghost use Rattle.ckpt_records.specs.Codec.{number_from, small_at, text_at, number, text};
ghost use Rattle.ckpt_records.specs.Fits.{RegsInRange};
ghost use Rattle.ckpt_records.specs.Reading.{flag_at, regs_at};
ghost use Rattle.ckpt_records.specs.Spelling.{flag};
ghost use Rattle.std.specs.List.{flat_map};

use crate::error::ReadError;
use lists::Seq;
use std::alloc::{AllocError, Global};

/// The number in the eight bytes from a place on, the low byte first; none where fewer than eight follow.
pub fn num_at(bytes: &[u8], at: usize) -> Option<u64>
    ensures { result ≡ (if nat_le (at + 8) (length bytes.now) then Some
        (from_le_bytes w64 (take 8 (drop at bytes.now))) else None) }
{
    if bytes.len() < 8 || at > bytes.len() - 8 {
        return None;
    }
    let (_, rest) = bytes.split_at(at);
    let (front, _) = rest.split_at(8);
    Some(u64::from_le_bytes([
        front[0], front[1], front[2], front[3], front[4], front[5], front[6], front[7],
    ]))
}

#[tactic(auto, unfolding(crate::specs::Codec::number_from))]
pub fn u64_at(bytes: &[u8]) -> Result<(u64, &[u8]), ReadError>
    ensures { Gives (λ x. (x.0, x.1.now)) result (number_from bytes.now) }
{
    if bytes.len() < 8 {
        return Err(ReadError::Nothing);
    }
    let (front, rest) = bytes.split_at(8);
    let number = u64::from_le_bytes([
        front[0], front[1], front[2], front[3], front[4], front[5], front[6], front[7],
    ]);
    Ok((number, rest))
}

pub fn u32_at(bytes: &[u8]) -> Result<(u32, &[u8]), ReadError>
    ensures { Gives (λ x. (x.0, x.1.now)) result (small_at (2 ^ 32) bytes.now) }
{
    let (number, rest) = u64_at(bytes)?;
    if number >= 4_294_967_296 {
        return Err(ReadError::Nothing);
    }
    Ok((number as u32, rest))
}

pub fn u8_at(bytes: &[u8]) -> Result<(u8, &[u8]), ReadError>
    ensures { Gives (λ x. (x.0, x.1.now)) result (small_at 256 bytes.now) }
{
    let (number, rest) = u64_at(bytes)?;
    if number >= 256 {
        return Err(ReadError::Nothing);
    }
    Ok((number as u8, rest))
}

pub fn bool_at(bytes: &[u8]) -> Result<(bool, &[u8]), ReadError>
    ensures { Gives (λ x. (x.0, x.1.now)) result (flag_at bytes.now) }
{
    let (number, rest) = u64_at(bytes)?;
    match number {
        0 => Ok((false, rest)),
        1 => Ok((true, rest)),
        _ => Err(ReadError::Nothing),
    }
}

#[tactic(auto, unfolding(crate::specs::Codec::text_at))]
pub fn text_of(alloc: Global, bytes: &[u8]) -> Result<(Seq<u8>, &[u8]), ReadError>
    ensures { Gives (λ x. (x.0, x.1.now)) result (text_at bytes.now) }
{
    let (len, rest) = u64_at(bytes)?;
    let len = len as usize;
    if rest.len() < len {
        return Err(ReadError::Nothing);
    }
    let (text, rest) = rest.split_at(len);
    Ok((Seq::of(Vec::from_slice(alloc, text)?), rest))
}

#[tactic(auto, unfolding(crate::specs::Codec::number))]
pub fn put_u64(out: &mut Vec<u8>, n: u64) -> Result<(), AllocError>
    ensures bytes { OnOk result (out.new.items ≡ out.old.items ++ number n) }
    ensures fits { n < 2 ^ 64 }
{
    out.extend_from_slice(&n.to_le_bytes())
}

pub fn put_u32(out: &mut Vec<u8>, n: u32) -> Result<(), AllocError>
    ensures bytes { OnOk result (out.new.items ≡ out.old.items ++ number n) }
    ensures fits { n < 2 ^ 32 }
{
    put_u64(out, u64::from(n))
}

pub fn put_u8(out: &mut Vec<u8>, n: u8) -> Result<(), AllocError>
    ensures bytes { OnOk result (out.new.items ≡ out.old.items ++ number n) }
    ensures fits { n < 256 }
{
    put_u64(out, u64::from(n))
}

pub fn put_bool(out: &mut Vec<u8>, b: bool) -> Result<(), AllocError>
    ensures { OnOk result (out.new.items ≡ out.old.items ++ number (flag b)) }
{
    put_u64(out, u64::from(b))?;
    Ok(())
}

pub fn put_text(out: &mut Vec<u8>, bytes: &[u8]) -> Result<(), AllocError>
    ensures bytes { OnOk result (out.new.items ≡ out.old.items ++ text bytes.now) }
    ensures fits { length bytes.now < 2 ^ 64 }
{
    put_u64(out, bytes.len() as u64)?;
    out.extend_from_slice(bytes)
}

#[tactic(auto, unfolding(crate::specs::Reading::regs_at))]
pub fn regs_of(bytes: &[u8]) -> Result<([u64; 31], &[u8]), ReadError>
    ensures { Gives (λ x. (x.0, x.1.now)) result (regs_at bytes.now) }
{
    let mut regs = [0; 31];
    let mut rest = bytes;
    for i in 0..31 {
        let (number, after) = u64_at(rest)?;
        regs[i] = number;
        rest = after;
    }
    Ok((regs, rest))
}

pub fn put_regs(out: &mut Vec<u8>, regs: &[u64; 31]) -> Result<(), AllocError>
    ensures bytes { OnOk result (out.new.items ≡ out.old.items ++ flat_map number regs.now) }
    ensures fits { OnOk result (RegsInRange regs.now) }
{
    for reg in regs {
        put_u64(out, *reg)?;
    }
    Ok(())
}
