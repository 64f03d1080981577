//! The lines of registers.
ghost use Rattle.std.specs.Prelude.{◌≡◌, ◌≤◌, ◌<◌, ◌*◌, ◌+◌, ◌/◌, ◌↔◌, true, length, take, SomeIff, IfOk, IsTrue};
ghost use Rattle.std.specs.Option.{ForSome, option_map};
ghost use Rattle.bit_list.specs.Digits.{bits_of_hex};
ghost use Rattle.board_text.specs.Lines.{texts};
ghost use Rattle.board_text.specs.declared.shapes.Shape.TheVariants as shapes;
ghost use Rattle.board_text.specs.Shapes.{fits, places_of, are_hexadecimal};
ghost use Rattle.board_text.specs.Contents.{word, constant_digits, constant_bits, register_line};
ghost use Rattle.board_text.specs.Limits.{IsConstant, HasGoodLength};
ghost use Rattle.board_text.specs.Reading.{line_of};

use crate::digits::hexadecimal_digit;
use crate::fields::{name_at, number_within, opcode_at, word};
use bit_list::Bits;
use dev_card::RegDesc;
use stapl_lexer::Name;
use std::alloc::{AllocError, Global};

// What the line of a register says.
#[derive(Clone, Copy)]
pub struct RegisterWords<'a> {
    pub name: Name,
    pub op: u64,
    pub len: u32,
    // the digits of its constant
    digits: Option<&'a [u8]>,
}

// Whether the bits of a constant's first digit that its register has no room for are 0.
fn spare_bits_are_zero(digits: &[u8], len: u32) -> bool
    requires digits { are_hexadecimal digits.now ≡ true }
    requires some { 1 ≤ len }
    requires limit { len ≤ 65536 }
    requires whole { length digits.now ≡ (len + 3) / 4 }
    ensures { IsTrue result ↔ IsConstant len digits.now }
{
    // the first digit stands for so many bits of the register, 1 to 4
    let bits = (len - 1) % 4 + 1;
    hexadecimal_digit(digits[0]) < 1 << bits
}

// Whether a constant has exactly the bits of a register of this length.
fn is_constant(digits: &[u8], len: u32) -> bool
    requires digits { are_hexadecimal digits.now ≡ true }
    requires some { 1 ≤ len }
    requires limit { len ≤ 65536 }
    ensures { IsTrue result ↔ IsConstant len digits.now }
{
    digits.len() == len.div_ceil(4) as usize && spare_bits_are_zero(digits, len)
}

// The digits of the constant, if the line gives one; `None` where it is outside its limits.
fn own_constant<'a>(words: &[&'a [u8]], constant: bool, len: u32) -> Option<Option<&'a [u8]>>
    requires spelled { constant ≡ true → are_hexadecimal (word (texts words.now) 5) ≡ true }
    requires inside { constant ≡ true → 5 < length words.now }
    requires some { 1 ≤ len }
    requires limit { len ≤ 65536 }
    ensures { let digits = constant_digits constant (texts words.now) in
        SomeIff (option_map (option_map (λ d. d.now)) result) (ForSome digits (IsConstant len)) digits }
{
    if !constant {
        return Some(None);
    }
    let digits = word(words, 5);
    if is_constant(digits, len) {
        Some(Some(digits))
    } else {
        None
    }
}

// The register that a line describes, where its length and its constant are inside their limits.
pub fn register<'a>(constant: bool, words: &[&'a [u8]]) -> Option<RegisterWords<'a>>
    requires { fits (places_of (shapes.Register constant)) (texts words.now) ≡ true }
    ensures { SomeIff (option_map line_of result) (HasGoodLength (register_line constant (texts words.now)))
        (register_line constant (texts words.now)) }
{
    let len = number_within(words, 3, 1, 65_536)?;
    let digits = own_constant(words, constant, len)?;
    Some(RegisterWords {
        name: name_at(words, 1),
        op: opcode_at(words, 2),
        len,
        digits,
    })
}

// The bits of a constant.
fn constant_bits(alloc: Global, digits: &[u8], len: u32) -> Result<Bits, AllocError>
    requires constant { IsConstant len digits.now }
    requires limit { len ≤ 65536 }
    ensures { IfOk result (λ bits. bits ≡ constant_bits len digits.now) }
{
    let Ok(whole) = Bits::from_hex(alloc, digits) else {
        return Err(AllocError);
    };
    let mut bits = Bits::zeros(alloc, len)?;
    bits.copy_range(0, &whole, 0, len);
    Ok(bits)
}

impl RegisterWords<'_> {
    ghost use Rattle.board_text.specs.Limits.{HasGoodLength};
    ghost use Rattle.board_text.specs.Reading.{line_of};

    // The description of the register.
    pub fn description(&self, alloc: Global) -> Result<RegDesc, AllocError>
        requires { HasGoodLength (line_of self.now) }
        ensures { IfOk result (λ r. r ≡ (line_of self.now).description) }
    {
        let constant = match self.digits {
            Some(digits) => Some(constant_bits(alloc, digits, self.len)?),
            None => None,
        };
        Ok(RegDesc {
            name: self.name,
            op: self.op,
            len: self.len,
            constant,
        })
    }
}
