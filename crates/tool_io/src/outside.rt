// The traits of the outside.
ghost use Rattle.std.specs.Prelude.{◌≡◌, ◌<◌, ◌≤◌, List, ℕ, Option, length, take, IfSome, IfOk, OnOk, OnErr, Some};
ghost use Rattle.tool_io.specs.Causes.{HasCause, HasCauseAt};
ghost use Rattle.tool_io.specs.Files.{file_of, HasPicked, Gives};
ghost use Rattle.tool_io.specs.Bytes.{then_bytes, MovesFront};

use thiserror::Error;

/// A call on the outside failed. A contract names the count of faults that has risen, or stands at its last value.
#[derive(Clone, Copy, Debug, PartialEq, Eq, Error)]
#[error("a call on the outside failed")]
pub struct Failed;

/// A store of named files, of which one at a time is read.
///
/// A shelf tells its files to contracts, as one in memory does, or tells nothing, as one over the files of a system;
/// either way it stays so, and a told file never changes. It may also tell which files were picked. It has a count of
/// faults for each name, which never falls.
pub trait Shelf {
    /// The names and their bytes, where the shelf tells them.
    ghost told: { Self → Option (List (List ℕ × List ℕ)) };

    /// How often calls on the file of a name have failed.
    ghost faults: { Self → List ℕ → ℕ };

    /// The count of a name stands at its last value.
    ghost is_last: { Self → List ℕ → Type 0 };

    /// The file of this name is the one that is read: the last pick picked it.
    ghost reads: { Self → List ℕ → Type 0 };

    /// The bytes of that file that no read has given yet, where the shelf tells.
    ghost left: { Self → List ℕ };

    /// The names of all picks, in their order, where the shelf tells these.
    ghost picks: { Self → Option (List (List ℕ)) };

    /// Picks the file that is read from now on, from its first byte.
    ///
    /// `Failed` if there is none of this name, or it can't be had; then no file is read until the next pick.
    fn pick(&mut self, name: &str) -> Result<(), Failed>
        ensures keeps { told self.new ≡ told self.old }
        ensures picks { OnOk result (reads self.new name.now) }
        ensures start { OnOk result (IfSome (told self.old) (λ files. file_of files name.now ≡ Some (left self.new))) }
        ensures none { OnErr result ((name : List ℕ) → reads self.new name → ⊥) }
        ensures once { HasPicked (picks self.old) name.now (picks self.new) result }
        ensures cause { HasCauseAt faults is_last name.now self.old self.new result };

    /// Fills a front of the slice with the next bytes of the picked file, and answers how many those are. 0 is the end.
    ///
    /// A file has been picked, and the slice has a place. `Failed` if no bytes could be had; then none is lost: what no
    /// read has given yet stays as it was.
    fn read(&mut self, into: &mut [u8]) -> Result<u32, Failed>
        requires picked { (name : List ℕ) × reads self.old name }
        requires room { 0 < length into.old }
        ensures keeps { told self.new ≡ told self.old }
        ensures same { (name : List ℕ) → reads self.old name → reads self.new name }
        ensures bound { IfOk result (λ n. n ≤ length into.new) }
        ensures bytes { IfOk result (λ n. IfSome (told self.old) (λ _. Gives (left self.old) (left self.new) n into.new)) }
        ensures lost { OnErr result (left self.new ≡ left self.old) }
        ensures unpicked { picks self.new ≡ picks self.old }
        ensures cause { (name : List ℕ) → reads self.old name → HasCauseAt faults is_last name self.old self.new result };
}

/// A sink of bytes.
///
/// A sink tells what was written to contracts, as one in memory does, or tells nothing, as standard output; either way
/// it stays so. It has a count of faults, which never falls.
pub trait Sink {
    /// All bytes that were written, where the sink tells them.
    ghost written: { Self → Option (List ℕ) };

    /// How often calls have failed.
    ghost faults: { Self → ℕ };

    /// The count stands at its last value.
    ghost is_last: { Self → Type 0 };

    /// Writes a front of the bytes, and answers how many those are: at least one where there are any.
    ///
    /// `Failed` if the sink could not take them; a front of them, perhaps none, was written then.
    fn write(&mut self, bytes: &[u8]) -> Result<u32, Failed>
        ensures bound { IfOk result (λ n. n ≤ length bytes.now) }
        ensures progress { IfOk result (λ n. 0 < length bytes.now → 0 < n) }
        ensures taken { IfOk result (λ n. written self.new ≡ then_bytes (written self.old) (take n bytes.now)) }
        ensures front { OnErr result (MovesFront (written self.old) bytes.now (written self.new)) }
        ensures cause { HasCause faults is_last self.old self.new result };

    /// Sends on what was written, and writes nothing. `Failed` if that could not be done.
    fn flush(&mut self) -> Result<(), Failed>
        ensures keeps { written self.new ≡ written self.old }
        ensures cause { HasCause faults is_last self.old self.new result };
}
