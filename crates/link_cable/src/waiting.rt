//! Answers that wait.
ghost use Rattle.std.specs.Prelude.{◌≡◌, ◌+◌, ◌-◌, ◌≤◌, ℕ, List, [], ◌++◌, length, take, drop, min};

use std::marker::Model;

/// The most answers that wait.
pub const MOST_WAITING: usize = 64;

/// Up to 64 answers, the oldest first.
#[derive(Drop)]
pub struct Waiting {
    bytes: [u8; MOST_WAITING],
    filled: usize,
}

impl Model for Waiting {
    ghost Value = { List ℕ };

    ghost view = { λ w. take w.filled w.bytes };

    ghost invariant = { λ w. w.filled ≤ 64 };
}

impl Waiting {
    pub fn new() -> Waiting
        ensures { result ≡ [] }
    {
        Waiting {
            bytes: [0u8; MOST_WAITING],
            filled: 0,
        }
    }

    /// How many answers more may wait.
    pub fn room(&self) -> usize
        ensures room { result ≡ 64 - length self.now }
        ensures within { length self.now ≤ 64 }
    {
        MOST_WAITING - self.filled
    }

    /// Puts answers after those that wait.
    pub fn put(&mut self, answers: &[u8])
        requires { length self.old + length answers.now ≤ 64 }
        ensures { self.new ≡ self.old ++ answers.now }
    {
        let end = self.filled + answers.len();
        self.bytes[self.filled..end].copy_from_slice(answers);
        self.filled = end;
    }

    /// Gives the oldest answers, as many as fit, and how many those are.
    pub fn give(&mut self, into: &mut [u8]) -> usize
        ensures small { result ≤ 64 }
        ensures count { result ≡ min (length self.old) (length into.old) }
        ensures length { length into.new ≡ length into.old }
        ensures given { take result into.new ≡ take result self.old }
        ensures rest { self.new ≡ drop result self.old }
    {
        let n = self.filled.min(into.len());
        into[..n].copy_from_slice(&self.bytes[..n]);
        self.bytes.rotate_left(n);
        self.filled -= n;
        n
    }
}
