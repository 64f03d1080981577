//! Names of files.
ghost use Rattle.std.specs.Prelude.{◌≡◌, IfOk};

use std::alloc::{AllocError, Global};
use std::marker::Model;

/// The name of a file, which contracts see as the list of its bytes.
#[derive(Drop)]
pub struct FileName {
    text: String,
}

impl Model for FileName {
    ghost use Rattle.std.specs.Prelude.{List, ℕ, string_bytes};

    ghost Value = { List ℕ };

    ghost view = { λ name. string_bytes name.text };
}

impl FileName {
    /// The name with these bytes.
    pub fn of(alloc: Global, path: &str) -> Result<FileName, AllocError>
        ensures { IfOk result (λ name. name ≡ path.now) }
    {
        let text = String::from_str(alloc, path)?;
        Ok(FileName { text })
    }

    /// The name as a text.
    pub fn as_str(&self) -> &str
        ensures { result.now ≡ self.now }
    {
        self.text.as_str()
    }
}
