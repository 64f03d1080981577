//! How many elements statements declare, and which declarations pass a limit (JESD71, INTEGER and BOOLEAN). The limits
//! are this profile's.
ghost use Rattle.std.specs.Prelude.{◌≡◌, ◌+◌, ◌<◌, ◌≤◌, ◌^◌, nat_abs};
ghost use Rattle.stapl_syntax.specs.Trees.{body_tree};
ghost use Rattle.stapl_syntax.specs.Rules.{is_boolean, is_too_large, has_too_many_values, passes_a_limit};
ghost use Rattle.checker_rules.specs.Counts.{totals_of, totals_after};

use stapl_syntax::{Body, Declaration, VarKind};

// The most elements of one BOOLEAN array, of all BOOLEAN variables, and of all INTEGER variables.
const BOOLEAN_LIMIT: u64 = 4_194_304;

const BOOLEANS_LIMIT: u64 = 16_777_216;

const INTEGERS_LIMIT: u64 = 1_048_576;

/// How many elements some statements declare.
#[derive(Clone, Copy)]
pub struct Totals {
    pub booleans: u64,
    pub integers: u64,
}

fn is_boolean(kind: VarKind) -> bool
    ensures { result ≡ is_boolean kind }
{
    matches!(kind, VarKind::Boolean | VarKind::BooleanArray)
}

// How many elements a size stands for.
fn elements(size: i32) -> u64
    ensures exact { result ≡ nat_abs size }
    ensures small { result ≤ 2 ^ 31 }
{
    size.unsigned_abs() as u64
}

// Whether a declaration has no element, or passes a limit alone or with those before it.
fn is_too_large(before: Totals, declaration: &Declaration) -> bool
    requires booleans { before.booleans + 2 ^ 31 < 2 ^ 64 }
    requires integers { before.integers + 2 ^ 31 < 2 ^ 64 }
    ensures { result ≡ is_too_large (totals_of before) declaration.now }
{
    let size = elements(declaration.size);
    if size == 0 {
        return true;
    }
    if is_boolean(declaration.kind) {
        BOOLEAN_LIMIT < size || BOOLEANS_LIMIT < before.booleans + size
    } else {
        INTEGERS_LIMIT < before.integers + size
    }
}

// Whether an INTEGER array has more initial values than elements.
fn has_too_many_values(body: &Body) -> bool
    ensures { result ≡ has_too_many_values (body_tree body.now) }
{
    match body {
        Body::IntegerArray(_, size, Some(values)) => elements(*size) < values.len() as u64,
        _ => false,
    }
}

/// Whether a statement declares no element, or passes a limit alone or with those before it.
pub(crate) fn passes_a_limit(before: Totals, body: &Body) -> bool
    requires booleans { before.booleans + 2 ^ 31 < 2 ^ 64 }
    requires integers { before.integers + 2 ^ 31 < 2 ^ 64 }
    ensures { result ≡ passes_a_limit (totals_of before) (body_tree body.now) }
{
    match body.declaration() {
        Some(declaration) => is_too_large(before, &declaration) || has_too_many_values(body),
        None => false,
    }
}

impl Totals {
    /// Nothing is declared.
    pub(crate) fn none() -> Totals
        ensures { totals_of result ≡ record { booleans = 0; integers = 0 } }
    {
        Totals {
            booleans: 0,
            integers: 0,
        }
    }

    /// The totals after one more statement.
    pub(crate) fn after(self, body: &Body) -> Totals
        requires booleans { self.booleans + 2 ^ 31 < 2 ^ 64 }
        requires integers { self.integers + 2 ^ 31 < 2 ^ 64 }
        ensures after { totals_of result ≡ totals_after (totals_of self) (body_tree body.now) }
        ensures booleans { result.booleans ≤ self.booleans + 2 ^ 31 }
        ensures integers { result.integers ≤ self.integers + 2 ^ 31 }
    {
        let Some(declaration) = body.declaration() else {
            return self;
        };
        let size = elements(declaration.size);
        if is_boolean(declaration.kind) {
            Totals {
                booleans: self.booleans + size,
                integers: self.integers,
            }
        } else {
            Totals {
                booleans: self.booleans,
                integers: self.integers + size,
            }
        }
    }
}
