//! Why bytes are no file of a code.
ghost use Rattle.std.specs.Prelude.{◌≡◌};
ghost use Rattle.stapl_code.specs.Reasons.{reason_name};

/// What is wrong with the bytes at their first fault.
#[derive(Clone, Copy, Debug, PartialEq, Eq)]
pub enum CodeReason {
    /// The bytes end inside a field.
    Cut,
    /// A field is outside its range.
    Field,
    /// Bytes stand after the last field.
    Extra,
    /// An instruction breaks a rule of valid codes.
    Invalid,
    /// There are too many bytes.
    TooLong,
}

impl CodeReason {
    /// The name of the reason, as a refusal's line has it.
    pub fn name(self) -> &'static [u8]
        ensures { result.now ≡ reason_name self }
    {
        match self {
            CodeReason::Cut => b"Cut",
            CodeReason::Field => b"Field",
            CodeReason::Extra => b"Extra",
            CodeReason::Invalid => b"Invalid",
            CodeReason::TooLong => b"TooLong",
        }
    }
}
