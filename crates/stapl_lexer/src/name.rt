//! Names of the language.
ghost use Rattle.std.specs.Prelude.{◌≡◌, ℕ, ◌≤◌, List, true, false, length, IfSome, IfNone, nat_eq};
ghost use Rattle.std.specs.Cmp.Lexicographic.{pointwise, nat_list_eq_equiv};
ghost use Rattle.std.specs.Cmp.{partial_equiv_from_equiv};
ghost use Rattle.std.specs.Hash as fed;
ghost use Rattle.std.specs.List.{list_all};
ghost use Rattle.std.specs.Str.{str_to_ascii_uppercase};
ghost use Rattle.std.proofs.Common.{ap};
ghost use Rattle.std.proofs.lemmas.Slice.Eq.{bytes_eq-Decides};
ghost use Rattle.stapl_lexer.specs.Names.{is_name_byte, is_name, IsUpperName};
ghost use Rattle.stapl_lexer.specs.ReservedWords.{is_reserved_word, is_free_name};

use crate::spelling::word_terminal;
use std::fmt;
use std::hash::{Hash, Hasher};
use std::marker::Model;

const MAX_LEN: usize = 32;

/// A name of the language: a letter, then letters, digits and `_`, 1 to 32 characters in all (JESD71, names). Letter
/// case is ignored, so contracts see a name as its bytes in upper case.
#[derive(Clone, Copy)]
pub struct Name {
    // The name in upper case, and zeros after it.
    bytes: [u8; MAX_LEN],
    len: u8,
}

impl Model for Name {
    ghost use Rattle.std.specs.Prelude.{List, ℕ, ◌-◌, ◌++◌, take, length, replicate};
    ghost use Rattle.std.proofs.Common.{sym};
    ghost use Rattle.stapl_lexer.specs.Names.{IsStored};

    ghost Value = { List ℕ };

    ghost view = { λ n. take n.len n.bytes };

    ghost invariant = { λ n. IsStored n.bytes n.len };

    ghost inverse = { λ name. record { bytes = name ++ replicate (32 - length name) 0; len = length name } };

    ghost inverse_ok = { λ n stored j. record { bytes = sym stored.padded j; len = sym stored.within j } };
}

pub(crate) fn is_name_byte(byte: u8) -> bool
    ensures { result ≡ is_name_byte byte }
{
    byte.is_ascii_alphanumeric() || byte == b'_'
}

fn has_name_bytes(bytes: &[u8]) -> bool
    ensures { result ≡ list_all is_name_byte bytes.now }
{
    bytes.iter().all(|byte| is_name_byte(*byte))
}

fn is_name(bytes: &[u8]) -> bool
    ensures { result ≡ is_name bytes.now }
{
    match bytes.first() {
        Some(first) => {
            first.is_ascii_alphabetic() && has_name_bytes(bytes) && bytes.len() <= MAX_LEN
        }
        None => false,
    }
}

impl Name {
    /// The name that the bytes spell, in either case; `None` exactly where they spell none. A reserved word is read
    /// too.
    #[tactic(auto, using(crate::proofs::NameLemmas::name_short, crate::proofs::NameLemmas::upper_more))]
    pub fn read(bytes: &[u8]) -> Option<Name>
        ensures value { IfSome result (λ name. name ≡ str_to_ascii_uppercase bytes.now) }
        ensures name { IfSome result IsUpperName }
        ensures some { IfSome result (λ _. is_name bytes.now ≡ true) }
        ensures none { IfNone result (is_name bytes.now ≡ false) }
    {
        if !is_name(bytes) {
            return None;
        }
        let mut upper = [0; MAX_LEN];
        for (i, byte) in bytes.iter().enumerate() {
            upper[i] = byte.to_ascii_uppercase();
        }
        Some(Name {
            bytes: upper,
            len: bytes.len() as u8,
        })
    }

    /// The name that the bytes spell, in either case; `None` exactly if they spell none, or a reserved word.
    pub fn read_free(bytes: &[u8]) -> Option<Name>
        ensures value { IfSome result (λ name. name ≡ str_to_ascii_uppercase bytes.now) }
        ensures name { IfSome result IsUpperName }
        ensures some { IfSome result (λ _. is_free_name bytes.now ≡ true) }
        ensures none { IfNone result (is_free_name bytes.now ≡ false) }
    {
        if word_terminal(bytes).is_some() {
            return None;
        }
        Name::read(bytes)
    }

    /// The bytes of the name, 1 to 32, in upper case.
    pub fn bytes(&self) -> &[u8]
        ensures value { result.now ≡ self.now }
        ensures name { IsUpperName self.now }
    {
        &self.bytes[..self.len as usize]
    }

    /// Whether the name is a reserved word of the language, which no block, variable, label or action may bear.
    pub fn is_reserved(&self) -> bool
        ensures { result ≡ is_reserved_word self.now }
    {
        word_terminal(self.bytes()).is_some()
    }
}

impl PartialEq for Name {
    ghost eq = { pointwise nat_eq };

    ghost laws = { partial_equiv_from_equiv nat_list_eq_equiv };

    fn eq(&self, other: &Name) -> bool {
        self.bytes() == other.bytes()
    }
}

impl Eq for Name {
    ghost laws = { nat_list_eq_equiv };
}

impl Hash for Name {
    ghost hash_input = { λ name. fed.slice fed.u8 name };

    ghost respects_eq = { λ a b same. ap (λ name. fed.slice fed.u8 name) ((bytes_eq-Decides a b).0 same) };

    fn hash<H: Hasher>(&self, state: &mut H) {
        self.bytes().hash(state);
    }
}

/// Shows the name as it is printed.
impl fmt::Debug for Name {
    fn fmt<W: fmt::Write>(&self, f: &mut fmt::Formatter<W>) -> fmt::Result {
        for byte in self.bytes() {
            f.write_char(char::from(*byte))?;
        }
        Ok(())
    }
}
