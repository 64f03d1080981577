//! Literals of a code file, read from the front of the bytes.
ghost use Rattle.std.specs.Prelude.{◌≡◌, ◌<◌, ◌≤◌, ◌*◌, ℕ, [], not, length, take, drop, IfOk};
ghost use Rattle.std.specs.List.{flat_map, list_all};
ghost use Rattle.base.specs.Bits.{low_bits};
ghost use Rattle.stapl_code.specs.Fields.{bytes_for};
ghost use Rattle.code_files.specs.Reading.{ReadingGives, field, items_at, listed_in, any_end};
ghost use Rattle.code_files.specs.ReadFiles.{is_padded, literal_at};

use crate::fault::Stop;
use crate::reading::{cut, number_in, wrong};
use base::ItemList;
use bit_list::Bits;
use std::alloc::{AllocError, Global};

// Whether the bits of a byte from a place on are 0.
fn is_zero_from(byte: u8, used: u32) -> bool
    requires { used < 8 }
    ensures { result ≡ list_all not (drop used (low_bits 8 byte)) }
{
    byte >> used == 0
}

// Whether the bits after the last one of a literal are 0.
fn is_padded(len: u32, packed: &[u8]) -> bool
    requires { length packed.now ≡ bytes_for len }
    ensures { result ≡ is_padded len packed.now }
{
    let used = len % 8;
    used == 0 || is_zero_from(packed[packed.len() - 1], used)
}

// The bytes of a literal of so many bits.
fn packed_of(len: u32, bytes: &[u8]) -> Result<(&[u8], &[u8]), Stop>
    ensures gives { ReadingGives (λ x. (x.0.now, x.1.now)) result (field (bytes_for len) (is_padded len) bytes.now) }
    ensures length { IfOk result (λ x. length x.0.now ≡ bytes_for len) }
{
    let size = len.div_ceil(8) as usize;
    if bytes.len() < size {
        return Err(cut());
    }
    let (packed, rest) = bytes.split_at(size);
    if is_padded(len, packed) {
        Ok((packed, rest))
    } else {
        Err(wrong(bytes))
    }
}

// The word whose lowest bits are those of the bytes in front, of which it holds eight at most.
fn front_word(bytes: &[u8]) -> u64
    ensures { (n : ℕ) → n ≤ 64 → n ≤ 8 * length bytes.now →
        low_bits n result ≡ take n (flat_map (low_bits 8) bytes.now) }
{
    match bytes.first_chunk::<8>() {
        Some(word) => u64::from_le_bytes(*word),
        None => short_word(bytes),
    }
}

// The word whose lowest bits are those of these bytes, of which there are fewer than eight.
fn short_word(bytes: &[u8]) -> u64
    requires { length bytes.now < 8 }
    ensures { (n : ℕ) → n ≤ 8 * length bytes.now → low_bits n result ≡ take n (flat_map (low_bits 8) bytes.now) }
{
    let mut word = [0; 8];
    word[..bytes.len()].copy_from_slice(bytes);
    u64::from_le_bytes(word)
}

// The first bits of these bytes.
fn bits_of(alloc: Global, len: u32, packed: &[u8]) -> Result<Bits, AllocError>
    requires few { len ≤ 16777216 }
    requires size { length packed.now ≡ bytes_for len }
    ensures { IfOk result (λ bits. bits ≡ take len (flat_map (low_bits 8) packed.now)) }
{
    let mut bits = Bits::zeros(alloc, len)?;
    for k in 0..len.div_ceil(64) {
        let n = 64.min(len - 64 * k);
        bits.set_word(64 * k, n, front_word(&packed[8 * k as usize..]));
    }
    Ok(bits)
}

fn literal_of(alloc: Global, bytes: &[u8]) -> Result<(Bits, &[u8]), Stop>
    ensures { ReadingGives (λ x. (x.0, x.1.now)) result (literal_at bytes.now) }
{
    let (len, rest) = number_in(1, 16_777_217, bytes)?;
    let (packed, after) = packed_of(len, rest)?;
    let bits = bits_of(alloc, len, packed)?;
    Ok((bits, after))
}

fn literals_at(alloc: Global, count: u32, bytes: &[u8]) -> Result<(Vec<Bits>, &[u8]), Stop>
    ensures { ReadingGives (λ x. (x.0.items, x.1.now)) result (items_at (λ _. literal_at) [] count bytes.now) }
{
    let mut items = Vec::new(alloc);
    let mut rest = bytes;
    for _ in 0..count {
        let (item, after) = literal_of(alloc, rest)?;
        items.push(item)?;
        rest = after;
    }
    Ok((items, rest))
}

/// The literals of a code.
#[tactic(auto, unfolding(crate::specs::Reading::listed_in))]
pub(crate) fn literals_of(alloc: Global, bytes: &[u8]) -> Result<(ItemList<Bits>, &[u8]), Stop>
    ensures { ReadingGives (λ x. (x.0, x.1.now)) result (listed_in (λ _. literal_at) 0 any_end bytes.now) }
{
    let (count, rest) = number_in(0, 1 << 32, bytes)?;
    let (items, rest) = literals_at(alloc, count, rest)?;
    Ok((ItemList::of(items), rest))
}
