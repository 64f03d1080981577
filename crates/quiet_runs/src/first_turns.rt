//! The turn of the first deed that is not quiet.
ghost use Rattle.std.specs.Prelude.{◌≡◌, ◌≤◌, length, map, Some, IfOk};
ghost use Rattle.board_text.specs.Boards.{CanBeFitted};
ghost use Rattle.chain_sim.specs.Rack.{IsRack};
ghost use Rattle.stapl_code.specs.Safe.{AllBelow};
ghost use Rattle.quiet_runs.specs.Verdicts.{JudgesPlay, JudgesTurn, IsCodeBetween};

use crate::judging::judge;
use crate::pieces::turn_piece;
use dev_card::{Desc, Device};
use padded_plays::Unquiet;
use stapl_meaning::Ending;
use std::alloc::{AllocError, Global};
use valid_codes::Code;

/// Whether a play is quiet for its turns, and how it ended; or the turn and the piece of its first deed that is not
/// quiet, counted from 1, and why that is not. Turn 0 of piece 0 is what sets the play up.
#[derive(Clone, Copy)]
pub enum Verdict {
    Quiet(Ending),
    NotQuiet(u32, u32, Unquiet),
}

// The turn of the first deed that is not quiet, between two numbers: the play is not quiet for the higher one, for this
// reason, and is quiet for a turn less than the lower one.
fn first_between(
    alloc: Global,
    code: &Code,
    chosen: &[u32],
    rack: &mut Vec<Box<dyn Device>>,
    descs: &[Desc],
    low: u32,
    high: u32,
    why: Unquiet,
) -> Result<(u32, Unquiet), AllocError>
    requires below { AllBelow (length code.now.procedures) chosen.now }
    requires devices { CanBeFitted descs.now }
    requires rack { IsRack (map kind_of rack.old.items) }
    requires order { low ≤ high }
    requires between { IsCodeBetween code.now chosen.now descs.now low high why }
    ensures found { IfOk result (λ found. JudgesTurn code.now chosen.now high descs.now found.0 found.1) }
    ensures kinds { map kind_of rack.new.items ≡ map kind_of rack.old.items }
{
    if low == high {
        return Ok((high, why));
    }
    let middle = low + (high - low) / 2;
    let judged = judge(alloc, code, chosen, rack, descs, middle)?;
    match judged.unquiet {
        Some(found) => first_between(alloc, code, chosen, rack, descs, low, middle, found),
        None => first_between(alloc, code, chosen, rack, descs, middle + 1, high, why),
    }
}

// The same with its piece.
fn first_piece(
    alloc: Global,
    code: &Code,
    chosen: &[u32],
    rack: &mut Vec<Box<dyn Device>>,
    descs: &[Desc],
    turns: u32,
    why: Unquiet,
) -> Result<Verdict, AllocError>
    requires below { AllBelow (length code.now.procedures) chosen.now }
    requires devices { CanBeFitted descs.now }
    requires rack { IsRack (map kind_of rack.old.items) }
    requires unquiet { IsCodeBetween code.now chosen.now descs.now 0 turns why }
    ensures verdict { IfOk result (JudgesPlay code.now chosen.now turns descs.now) }
    ensures kinds { map kind_of rack.new.items ≡ map kind_of rack.old.items }
{
    let (turn, reason) = first_between(alloc, code, chosen, rack, descs, 0, turns, why)?;
    if turn == 0 {
        return Ok(Verdict::NotQuiet(0, 0, reason));
    }
    let piece = turn_piece(alloc, code, chosen, rack, descs, turn - 1)?;
    Ok(Verdict::NotQuiet(turn, piece, reason))
}

/// Whether the play of the chosen procedures of a code on a board of these devices alone is quiet for at most so many
/// turns, and how it ended then; or the first deed that is not quiet. The devices are fitted into the rack.
///
/// `AllocError` comes for want of memory, or if a scan has 2 ^ 64 bits or more. Each device keeps its kind.
pub fn quiet_play(
    alloc: Global,
    code: &Code,
    chosen: &[u32],
    rack: &mut Vec<Box<dyn Device>>,
    descs: &[Desc],
    turns: u32,
) -> Result<Verdict, AllocError>
    requires below { AllBelow (length code.now.procedures) chosen.now }
    requires devices { CanBeFitted descs.now }
    requires rack { IsRack (map kind_of rack.old.items) }
    ensures verdict { IfOk result (JudgesPlay code.now chosen.now turns descs.now) }
    ensures kinds { map kind_of rack.new.items ≡ map kind_of rack.old.items }
{
    let judged = judge(alloc, code, chosen, rack, descs, turns)?;
    match judged.unquiet {
        Some(why) => first_piece(alloc, code, chosen, rack, descs, turns, why),
        None => Ok(Verdict::Quiet(judged.ending)),
    }
}
