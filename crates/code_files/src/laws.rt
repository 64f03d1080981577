//! Laws of the definitions.
ghost use Rattle.std.specs.Prelude.{◌≡◌, ◌++◌, ◌⊎◌, ◌<◌, ℕ, List, Ok, All};
ghost use Rattle.stapl_meaning.specs.declared.profiles.Profile.{Profile};
ghost use Rattle.stapl_code.specs.declared.raw.CodeLists.{CodeLists};
ghost use Rattle.stapl_code.specs.Files.{file, example, example_bytes, HasFile};
ghost use Rattle.stapl_code.specs.declared.reason.CodeReason.{CodeReason};
ghost use Rattle.code_files.specs.ReadFiles.{code_at};
ghost use Rattle.code_files.specs.CodeFaults.{IsFileOf, IsCodeFault};

/// The file of the code of `ACTION A=P;PROCEDURE P;EXIT 0;ENDPROC;` has these 66 bytes: the eighth is 1 under profile
/// One and 2 under Two, and the others are the same.
pub fn example_has_its_bytes()
    ensures { (profile : Profile) → file (example profile) ≡ example_bytes profile }
{}

/// A file is of one code, and no file of a code begins another.
pub fn a_file_is_of_one_code()
    ensures { (a b : CodeLists) (x y : List ℕ) → HasFile a → HasFile b → file a ++ x ≡ file b ++ y → (a ≡ b) × (x ≡ y) }
{}

/// The file of a code is read as this code, whatever stands after it.
pub fn a_file_is_read_as_its_code()
    ensures { (code : CodeLists) (rest : List ℕ) → HasFile code → code_at (file code ++ rest) ≡ Ok (code, rest) }
{}

/// Bytes are the file of a valid code, or they have a fault.
pub fn bytes_are_a_file_or_have_a_fault()
    ensures { (bytes : List ℕ) → All (λ b. b < 256) bytes →
        ((code : CodeLists) × IsFileOf bytes code) ⊎
        ((offset : ℕ) × ((reason : CodeReason) × IsCodeFault bytes offset reason)) }
{}

/// The file of a valid code has no fault.
pub fn a_file_has_no_fault()
    ensures { (bytes : List ℕ) (code : CodeLists) (offset : ℕ) (reason : CodeReason) →
        IsFileOf bytes code → IsCodeFault bytes offset reason → ⊥ }
{}

/// Bytes have one fault at most.
pub fn one_fault()
    ensures { (bytes : List ℕ) (i j : ℕ) (a b : CodeReason) →
        IsCodeFault bytes i a → IsCodeFault bytes j b → (i ≡ j) × (a ≡ b) }
{}
