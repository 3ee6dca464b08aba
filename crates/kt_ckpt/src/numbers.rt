//! Numbers in bytes, the highest byte first, and truths in one byte.
//! Cited by act_bytes.rt, decode.rt, encode.rt, entry.rt, old.rt, old_parts.rt, old_state.rt, op.rt, shard.rt,
//!   tuple.rt, value.rt, worker.rt.

ghost use Rattle.std.specs.Prelude.{◌≡◌, ◌≤◌, ◌++◌, IfOk, OnOk};
ghost use Rattle.std.specs.Int.{w16, w32, w64, to_be_bytes};
ghost use Rattle.kt_ckpt.specs.Reading.{Gives, byte_at, bytes_at, byte_within, number_at};
ghost use Rattle.kt_ckpt.specs.Flag.{flag_bytes, flag_at};

use crate::error::CkptError;
use std::alloc::AllocError;

/// Appends the number in two bytes.
pub(crate) fn push_u16(out: &mut Vec<u8>, number: u16) -> Result<(), AllocError>
    ensures { OnOk result (out.new.items ≡ out.old.items ++ to_be_bytes w16 number) }
{
    out.extend_from_slice(&number.to_be_bytes())
}

/// Appends the number in four bytes.
pub(crate) fn push_u32(out: &mut Vec<u8>, number: u32) -> Result<(), AllocError>
    ensures { OnOk result (out.new.items ≡ out.old.items ++ to_be_bytes w32 number) }
{
    out.extend_from_slice(&number.to_be_bytes())
}

/// Appends the number in eight bytes.
pub(crate) fn push_u64(out: &mut Vec<u8>, number: u64) -> Result<(), AllocError>
    ensures { OnOk result (out.new.items ≡ out.old.items ++ to_be_bytes w64 number) }
{
    out.extend_from_slice(&number.to_be_bytes())
}

/// Appends 1 for `true` and 0 for `false`.
pub(crate) fn push_flag(out: &mut Vec<u8>, flag: bool) -> Result<(), AllocError>
    ensures { OnOk result (out.new.items ≡ out.old.items ++ flag_bytes flag) }
{
    Ok(out.push(if flag { 1 } else { 0 })?)
}

/// A byte, and the bytes behind it; `Cut` where there is none.
pub(crate) fn byte_at(bytes: &[u8]) -> Result<(u8, &[u8]), CkptError>
    ensures { Gives (λ x. (x.0, x.1.now)) result (byte_at bytes.now) }
{
    match bytes.split_first() {
        Some((byte, rest)) => Ok((*byte, rest)),
        None => Err(CkptError::Cut),
    }
}

/// A byte from `low` to `high`, and the bytes behind it; another byte is a bad `Field`.
#[tactic(auto, unfolding(crate::specs::Reading::byte_within))]
pub(crate) fn byte_within(low: u8, high: u8, bytes: &[u8]) -> Result<(u8, &[u8]), CkptError>
    ensures value { Gives (λ x. (x.0, x.1.now)) result (byte_within low high bytes.now) }
    ensures within { IfOk result (λ x. (low ≤ x.0) × (x.0 ≤ high)) }
{
    let (byte, rest) = byte_at(bytes)?;
    if low <= byte && byte <= high {
        Ok((byte, rest))
    } else {
        Err(CkptError::Field)
    }
}

/// The truth in the first byte, and the bytes behind it; a byte above 1 is a bad `Field`.
#[tactic(auto, unfolding(crate::specs::Flag::flag_at))]
pub(crate) fn flag_at(bytes: &[u8]) -> Result<(bool, &[u8]), CkptError>
    ensures { Gives (λ x. (x.0, x.1.now)) result (flag_at bytes.now) }
{
    let (flag, rest) = byte_within(0, 1, bytes)?;
    Ok((flag == 1, rest))
}

/// The number in the first two bytes, and the bytes behind them; `Cut` where there are fewer.
pub(crate) fn u16_at(bytes: &[u8]) -> Result<(u16, &[u8]), CkptError>
    ensures { Gives (λ x. (x.0, x.1.now)) result (number_at w16 bytes.now) }
{
    if bytes.len() < 2 {
        return Err(CkptError::Cut);
    }
    let (front, rest) = bytes.split_at(2);
    let number = u16::from_be_bytes([front[0], front[1]]);
    Ok((number, rest))
}

/// The number in the first four bytes, and the bytes behind them; `Cut` where there are fewer.
pub(crate) fn u32_at(bytes: &[u8]) -> Result<(u32, &[u8]), CkptError>
    ensures { Gives (λ x. (x.0, x.1.now)) result (number_at w32 bytes.now) }
{
    if bytes.len() < 4 {
        return Err(CkptError::Cut);
    }
    let (front, rest) = bytes.split_at(4);
    let number = u32::from_be_bytes([front[0], front[1], front[2], front[3]]);
    Ok((number, rest))
}

/// The number in the first eight bytes, and the bytes behind them; `Cut` where there are fewer.
pub(crate) fn u64_at(bytes: &[u8]) -> Result<(u64, &[u8]), CkptError>
    ensures { Gives (λ x. (x.0, x.1.now)) result (number_at w64 bytes.now) }
{
    if bytes.len() < 8 {
        return Err(CkptError::Cut);
    }
    let (front, rest) = bytes.split_at(8);
    let number = u64::from_be_bytes([
        front[0], front[1], front[2], front[3], front[4], front[5], front[6], front[7],
    ]);
    Ok((number, rest))
}

/// So many bytes, and the bytes behind them. They are one field: where there are fewer it is `Cut`, whatever stands in
/// them.
pub(crate) fn bytes_at(n: usize, bytes: &[u8]) -> Result<(&[u8], &[u8]), CkptError>
    ensures { Gives (λ x. (x.0.now, x.1.now)) result (bytes_at n bytes.now) }
{
    if bytes.len() < n {
        return Err(CkptError::Cut);
    }
    Ok(bytes.split_at(n))
}
