// A store in memory, whose calls fail where a test wants it.
ghost use Rattle.std.specs.Prelude.{◌≡◌, ℕ, List, ◌+◌, ◌<◌, ◌≤◌, [], None, Some, length, map, IfOk, OnOk, OnErr, ◌-◌, ◌^◌, min, drop, ◌↔◌, ◌⊎◌, IsTrue, Contains, slice_index, replicate, string_bytes, slice_index_or, drop};
ghost use Rattle.tool_io.specs.Causes.{HasCauseAt, CountKept, CountRose, IsSaturated};
ghost use Rattle.tool_io.specs.Files.{file_of, HasPicked, Gives};
ghost use Rattle.tool_io.specs.Shelves.{place_of, raised, count_at, IsCountLastAt, files_of, IsPicked, left_of, Picks, ReadsAt};

use crate::count::raise;
use crate::{Failed, Shelf};
use std::alloc::{AllocError, Global};
use std::marker::Model;

/// A store of files in memory, whose calls with the listed numbers fail.
///
/// It tells its files. Picks and reads are numbered together, from 1, and the number stays at 4,294,967,295 once it is
/// reached. A call fails exactly where its number is listed, or a pick asks for a name that is not held. Each held name
/// has a count of faults, and all other names share one; a failed call raises that of its name by one, up to the last
/// value of 64 bits.
#[derive(Drop)]
pub struct MemShelf {
    names: Vec<String>,
    files: Vec<Vec<u8>>,
    counts: Vec<u64>,
    failing: Vec<u32>,
    number: u32,
    picked: Option<usize>,
    at: usize,
}

impl Model for MemShelf {
    ghost use Rattle.std.specs.Prelude.{◌≡◌, ◌+◌, length, map, string_bytes};
    ghost use Rattle.tool_io.specs.Shelves.{ShelfState, Fits};

    ghost Value = { ShelfState };

    ghost view = { λ s. record {
      names = map string_bytes s.names.items;
      files = map (λ f. f.items) s.files.items;
      counts = s.counts.items;
      failing = s.failing.items;
      number = s.number;
      picked = s.picked;
      at = s.at;
    } };

    ghost invariant = { λ s. Fits (length s.names.items) (map (λ f. f.items) s.files.items) s.counts.items s.picked s.at };
}

impl MemShelf {
    /// A store of these files, each with the name at its place. Of equal names the first is held.
    ///
    /// `failing` has the numbers of the calls that fail. As many names as files are given.
    pub fn new(
        alloc: Global,
        names: Vec<String>,
        files: Vec<Vec<u8>>,
        failing: Vec<u32>,
    ) -> Result<MemShelf, AllocError>
        requires paired { length names.items ≡ length files.items }
        ensures no_faults { IfOk result (λ s. (name : List ℕ) → count_at s name ≡ 0) }
        ensures start { IfOk result (λ s. s ≡ record {
          names = map string_bytes names.items;
          files = map (λ f. f.items) files.items;
          counts = replicate (length names.items + 1) 0;
          failing = failing.items;
          number = 0;
          picked = None;
          at = 0;
        }) }
    {
        let counts = vec![in alloc; 0u64; names.len() + 1]?;
        Ok(MemShelf {
            names,
            files,
            counts,
            failing,
            number: 0,
            picked: None,
            at: 0,
        })
    }
}

impl Shelf for MemShelf {
    ghost told = { λ s. Some (files_of s) };

    ghost faults = { count_at };

    ghost is_last = { IsCountLastAt };

    ghost reads = { IsPicked };

    ghost left = { left_of };

    ghost picks = { λ _. None };

    fn pick(&mut self, name: &str) -> Result<(), Failed>
        ensures keeps { Some (files_of self.new) ≡ Some (files_of self.old) }
        ensures picks { OnOk result (IsPicked self.new name.now) }
        ensures start { OnOk result (file_of (files_of self.old) name.now ≡ Some (left_of self.new)) }
        ensures none { OnErr result ((name : List ℕ) → IsPicked self.new name → ⊥) }
        ensures once { HasPicked None name.now None result }
        ensures cause { HasCauseAt count_at IsCountLastAt name.now self.old self.new result }
        ensures exact { Picks self.old name.now result self.new }
    {
        self.number = self.number.saturating_add(1);
        self.picked = None;
        let place = place_of_name(&self.names, name);
        if fails(&self.failing, self.number, place, self.names.len()) {
            raise_at(&mut self.counts, place);
            return Err(Failed);
        }
        self.picked = Some(place);
        self.at = 0;
        Ok(())
    }

    fn read(&mut self, into: &mut [u8]) -> Result<u32, Failed>
        requires picked { (name : List ℕ) × IsPicked self.old name }
        requires room { 0 < length into.old }
        ensures keeps { Some (files_of self.new) ≡ Some (files_of self.old) }
        ensures same { (name : List ℕ) → IsPicked self.old name → IsPicked self.new name }
        ensures bound { IfOk result (λ n. n ≤ length into.new) }
        ensures bytes { IfOk result (λ n. Gives (left_of self.old) (left_of self.new) n into.new) }
        ensures lost { OnErr result (left_of self.new ≡ left_of self.old) }
        ensures cause { (name : List ℕ) → IsPicked self.old name → HasCauseAt count_at IsCountLastAt name self.old self.new result }
        ensures exact { (place : ℕ) → self.old.picked ≡ Some place → ReadsAt place self.old (length into.old) result self.new }
    {
        self.number = self.number.saturating_add(1);
        let file = self.picked.unwrap();
        if self.failing.contains(&self.number) {
            raise_at(&mut self.counts, file);
            return Err(Failed);
        }
        let n = fill(&self.files[file], self.at, into);
        self.at += n;
        Ok(n as u32)
    }
}

// The place of a name, and their number where it is not held.
fn place_of_name(names: &[String], name: &str) -> usize
    ensures place { result ≡ place_of (map string_bytes names.now) name.now }
    ensures within { result ≤ length names.now }
{
    for (i, held) in names.iter().enumerate() {
        if held.as_str() == name {
            return i;
        }
    }
    names.len()
}

// A call fails: it is listed, or the file is not held.
fn fails(failing: &[u32], number: u32, place: usize, held: usize) -> bool
    ensures { IsTrue result ↔ (Contains failing.now number ⊎ (place ≡ held)) }
{
    failing.contains(&number) || place == held
}

// Fills a front with the next bytes of a file, and says how many those are.
fn fill(bytes: &[u8], at: usize, into: &mut [u8]) -> usize
    requires within { at ≤ length bytes.now }
    requires room { 0 < length into.old }
    ensures count { result ≡ min (min (length (drop at bytes.now)) (length into.old)) (2 ^ 32 - 1) }
    ensures gives { Gives (drop at bytes.now) (drop (at + result) bytes.now) result into.new }
{
    let rest = &bytes[at..];
    let n = rest.len().min(into.len()).min(u32::MAX as usize);
    into[..n].copy_from_slice(&rest[..n]);
    n
}

// One more fault at a place.
#[tactic(auto, using(crate::proofs::ShelfLemmas::raised_kept))]
fn raise_at(counts: &mut [u64], place: usize)
    requires { place < length counts.old }
    ensures raised { counts.new ≡ raised counts.old place }
    ensures kept { (i : ℕ) → CountKept (slice_index counts.old i) (slice_index counts.new i)
        (IsSaturated (slice_index counts.old i)) (IsSaturated (slice_index counts.new i)) }
    ensures rose { CountRose (slice_index counts.old place) (slice_index counts.new place) (IsSaturated (slice_index counts.new place)) }
{
    raise(&mut counts[place]);
}
