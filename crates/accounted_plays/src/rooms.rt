//! The room for the runs of a play.
ghost use Rattle.std.specs.Prelude.{◌≤◌, IfOk, IfSome};
ghost use Rattle.bit_list.specs.declared.TheConstants.{MOST_BITS};
ghost use Rattle.scan_paths.specs.Scans.{lengths_of};
ghost use Rattle.scan_accounts.specs.Rooms.{turn_bits};
ghost use Rattle.accounted_plays.specs.CodeAccounts.{AreFirstRuns};

use bit_list::MOST_BITS;
use run_cable::Runs;
use scan_paths::BasePads;
use std::alloc::{AllocError, Global};

// The most bits of a scan with the paddings of its program.
const SCAN_BITS: u64 = 4_325_376;

// For how many bits there has to be room: of a program whose statements list at most so many states. There is no answer
// if a list of bits cannot have as many.
fn bits_for(base: &BasePads, states: usize) -> Option<u32>
    ensures enough { IfSome result (λ bits. turn_bits (lengths_of base.now) states ≤ bits) }
    ensures few { IfSome result (λ bits. bits ≤ MOST_BITS) }
{
    if states > MOST_BITS as usize {
        return None;
    }
    let ir = u64::from(base.pre_ir) + u64::from(base.post_ir);
    let dr = u64::from(base.pre_dr) + u64::from(base.post_dr);
    let bits = SCAN_BITS + ir + dr + states as u64;
    if bits > u64::from(MOST_BITS) {
        return None;
    }
    Some(bits as u32)
}

/// Room for the runs of each turn of a program whose statements list at most so many states, and nothing heard yet.
///
/// `AllocError` also says that there is no list of as many bits.
pub(crate) fn runs_for(alloc: Global, base: &BasePads, states: usize) -> Result<Runs, AllocError>
    ensures { IfOk result (AreFirstRuns (lengths_of base.now) states) }
{
    let Some(bits) = bits_for(base, states) else {
        return Err(AllocError);
    };
    Runs::new(alloc, bits, states + 1)
}
