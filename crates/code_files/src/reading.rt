//! Fields of a code file, read from the front of the bytes.
ghost use Rattle.std.specs.Prelude.{◌≡◌, ◌<◌, ◌≤◌, length, IfOk, IfSome, IfNone, true, false};
ghost use Rattle.code_files.specs.Reading.{ReadingGives, field, byte_in, number_in};
ghost use Rattle.code_files.specs.ReadFiles.{is_head, profile_of, head_at};

use crate::fault::{Fault, Stop};
use crate::fields::head;
use stapl_code::CodeReason;
use stapl_meaning::Profile;

// The bytes end inside a field.
pub(crate) fn cut() -> Stop
    ensures { result ≡ Stop.At (record { left = 0; reason = CodeReason.Cut }) }
{
    Stop::At(Fault {
        left: 0,
        reason: CodeReason::Cut,
    })
}

// The field that begins here is outside its range.
pub(crate) fn wrong(bytes: &[u8]) -> Stop
    ensures { result ≡ Stop.At (record { left = length bytes.now; reason = CodeReason.Field }) }
{
    Stop::At(Fault {
        left: bytes.len(),
        reason: CodeReason::Field,
    })
}

#[tactic(auto, unfolding(crate::specs::Reading::byte_in))]
pub(crate) fn byte_in(low: u8, end: u8, bytes: &[u8]) -> Result<(u8, &[u8]), Stop>
    ensures gives { ReadingGives (λ x. (x.0, x.1.now)) result (byte_in low end bytes.now) }
    ensures inside { IfOk result (λ x. (low ≤ x.0) × (x.0 < end)) }
{
    if bytes.len() < 1 {
        return Err(cut());
    }
    let (front, rest) = bytes.split_at(1);
    let byte = front[0];
    if low <= byte && byte < end {
        Ok((byte, rest))
    } else {
        Err(wrong(bytes))
    }
}

#[tactic(auto, unfolding(crate::specs::Reading::number_in))]
pub(crate) fn number_in(low: usize, end: usize, bytes: &[u8]) -> Result<(u32, &[u8]), Stop>
    ensures gives { ReadingGives (λ x. (x.0, x.1.now)) result (number_in low end bytes.now) }
    ensures inside { IfOk result (λ x. (low ≤ x.0) × (x.0 < end)) }
{
    if bytes.len() < 4 {
        return Err(cut());
    }
    let (front, rest) = bytes.split_at(4);
    let number = u32::from_be_bytes([front[0], front[1], front[2], front[3]]);
    if low <= number as usize && (number as usize) < end {
        Ok((number, rest))
    } else {
        Err(wrong(bytes))
    }
}

// The profile that eight bytes say, if they are a head.
fn profile_of(front: &[u8]) -> Option<Profile>
    ensures some { IfSome result (λ profile. profile ≡ profile_of front.now) }
    ensures is_head { IfSome result (λ profile. is_head front.now ≡ true) }
    ensures none { IfNone result (is_head front.now ≡ false) }
{
    if front == head(Profile::One).as_slice() {
        Some(Profile::One)
    } else if front == head(Profile::Two).as_slice() {
        Some(Profile::Two)
    } else {
        None
    }
}

/// The profile that the head of a file says, and the bytes after it.
pub(crate) fn head_of(bytes: &[u8]) -> Result<(Profile, &[u8]), Stop>
    ensures { ReadingGives (λ x. (x.0, x.1.now)) result (head_at bytes.now) }
{
    if bytes.len() < 8 {
        return Err(cut());
    }
    let (front, rest) = bytes.split_at(8);
    match profile_of(front) {
        Some(profile) => Ok((profile, rest)),
        None => Err(wrong(bytes)),
    }
}
