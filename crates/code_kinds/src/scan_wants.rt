//! What scans and paddings want of variables.
ghost use Rattle.std.specs.Prelude.{◌≡◌};
ghost use Rattle.std.specs.List.{list_all};
ghost use Rattle.stapl_code.specs.Machine.{given_wants, target_wants, cell_want, compare_wants, scan_wants};
ghost use Rattle.stapl_code.specs.Kinds.{is_met};

use crate::kinds::{dest_is_met, is_of_kind, source_is_met};
use stapl_code::{Cell, Compare, Dest, Scan, Source, VarDef};

/// Whether the variable of a source that may be left out is what it has to be.
pub(crate) fn given_is_met(variables: &[VarDef], source: Option<Source>) -> bool
    ensures { result ≡ list_all (is_met variables.now) (given_wants source) }
{
    match source {
        None => true,
        Some(source) => source_is_met(variables, source),
    }
}

#[tactic(auto, using(stapl_code::proofs::ScanKinds::all_one))]
fn target_is_met(variables: &[VarDef], target: Option<Dest>) -> bool
    ensures { result ≡ list_all (is_met variables.now) (target_wants target) }
{
    match target {
        None => true,
        Some(dest) => dest_is_met(variables, dest),
    }
}

fn cell_is_met(variables: &[VarDef], cell: Cell) -> bool
    ensures { result ≡ is_met variables.now (cell_want cell) }
{
    match cell {
        Cell::Scalar(n) => is_of_kind(variables, 1, n),
        Cell::Element(n) => is_of_kind(variables, 3, n),
    }
}

#[tactic(auto, using(stapl_code::proofs::ScanKinds::all_both))]
fn compare_is_met(variables: &[VarDef], compare: Option<Compare>) -> bool
    ensures { result ≡ list_all (is_met variables.now) (compare_wants compare) }
{
    match compare {
        None => true,
        Some(compare) => {
            cell_is_met(variables, compare.cell)
                && (source_is_met(variables, compare.expected)
                    && source_is_met(variables, compare.mask))
        }
    }
}

/// Whether the variables of a scan are what they have to be.
#[tactic(auto, using(stapl_code::proofs::ScanKinds::all_both))]
pub(crate) fn scan_is_met(variables: &[VarDef], scan: &Scan) -> bool
    ensures { result ≡ list_all (is_met variables.now) (scan_wants scan.now) }
{
    source_is_met(variables, scan.source)
        && (target_is_met(variables, scan.target) && compare_is_met(variables, scan.compare))
}
