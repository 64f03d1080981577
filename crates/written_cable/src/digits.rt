//! Digits that wait for their line.
ghost use Rattle.std.specs.Prelude.{◌≡◌, ◌==◌, ◌+◌, ◌<◌, ◌≤◌, ◌∷◌, ◌++◌, [], length};
ghost use Rattle.stapl_meaning.specs.Texts.{pin_limit};

use std::marker::Model;

/// The digits of clocks that wait for their line: at most 64, the first one first. They take no memory.
#[derive(Drop)]
pub struct Digits {
    bytes: [u8; 64],
    filled: usize,
}

impl Model for Digits {
    ghost use Rattle.std.specs.Prelude.{ℕ, ◌≤◌, List, take};

    ghost Value = { List ℕ };

    ghost view = { λ d. take d.filled d.bytes };

    ghost invariant = { λ d. d.filled ≤ 64 };
}

impl Digits {
    /// No digit.
    pub fn none() -> Digits
        ensures { result ≡ [] }
    {
        Digits {
            bytes: [0u8; 64],
            filled: 0,
        }
    }

    /// The same digits.
    pub fn copied(&self) -> Digits
        ensures { result ≡ self.now }
    {
        Digits {
            bytes: self.bytes,
            filled: self.filled,
        }
    }

    /// The digits, the first one first.
    pub fn bytes(&self) -> &[u8]
        ensures { result.now ≡ self.now }
    {
        &self.bytes[..self.filled]
    }

    /// Whether no digit more fits.
    pub fn is_full(&self) -> bool
        ensures full { result ≡ (length self.now == pin_limit) }
        ensures most { length self.now ≤ pin_limit }
    {
        self.filled == 64
    }

    /// Adds a digit.
    pub fn push(&mut self, digit: u8)
        requires { length self.old < pin_limit }
        ensures { self.new ≡ self.old ++ digit ∷ [] }
    {
        let end = self.filled + 1;
        self.bytes[self.filled..end].copy_from_slice(&[digit]);
        self.filled = end;
    }

    /// How many more digits fit.
    pub fn room(&self) -> usize
        ensures { length self.now + result ≡ pin_limit }
    {
        64 - self.filled
    }

    /// Adds digits, the first one first.
    pub fn append(&mut self, line: &[u8])
        requires { length self.old + length line.now ≤ pin_limit }
        ensures { self.new ≡ self.old ++ line.now }
    {
        let end = self.filled + line.len();
        self.bytes[self.filled..end].copy_from_slice(line);
        self.filled = end;
    }

    /// Takes all digits off.
    pub fn clear(&mut self)
        ensures { self.new ≡ [] }
    {
        self.filled = 0;
    }
}
