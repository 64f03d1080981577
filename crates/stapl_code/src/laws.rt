//! Laws of the definitions.
ghost use Rattle.std.specs.Prelude.{◌≡◌, ℕ, List, Some};
ghost use Rattle.stapl_meaning.specs.declared.events.Ending.TheVariants.{Spent};
ghost use Rattle.stapl_meaning.specs.declared.values.Held.{Held};
ghost use Rattle.stapl_meaning.specs.Deeds.{Chain};
ghost use Rattle.stapl_meaning.specs.Plays.{ending_of, IsGoing};
ghost use Rattle.stapl_code.specs.declared.instr.Instr.{Instr};
ghost use Rattle.stapl_code.specs.Machine.{Constants, code_play};
ghost use Rattle.stapl_code.specs.Safe.{NeverStuck, DepthIsKept, TurnsAreBounded, PlaysAreBounded};
ghost use Rattle.stapl_code.specs.Rooms.{CodesHoldTheirDepth, StepsLeaveTheirCount};

/// A valid code in range never gets stuck: where the chosen procedures exist, the variables hold what their kinds say,
/// and the chain is in a stable state when the play begins, no play of it finds an operand missing or of the wrong
/// kind, goes to a place where no turn begins, or waits in a state that is not stable or scans from one, whatever
/// answers the clocks of the chain.
pub fn never_stuck()
    ensures { NeverStuck }
{}

/// A play of any code is spent only if it still goes on after its turns.
pub fn only_a_play_that_goes_on_is_spent()
    ensures { (entries : List ℕ) (constants : Constants) (code : List Instr) (chosen : List ℕ) (variables : List Held) (n : ℕ) (k : Chain) →
        ending_of (code_play entries constants code chosen variables n k).outcome ≡ Some Spent →
        IsGoing (code_play entries constants code chosen variables n k).outcome }
{}

/// No play of a valid code in range holds more operands at once than its depth, if the chain is in a stable state when
/// the play begins.
pub fn operands_keep_the_depth()
    ensures { DepthIsKept }
{}

/// A valid code in range that runs straight on from any place, where no operand is there at first, holds no more
/// operands at once than its depth, by what the table says that its instructions take and give.
pub fn codes_hold_their_depth()
    ensures { CodesHoldTheirDepth }
{}

/// An instruction that goes on to the one after it leaves no more operands than the table says.
pub fn steps_leave_their_count()
    ensures { StepsLeaveTheirCount }
{}

/// From one Turn to the next a code takes at most as many instructions as it has.
pub fn turns_are_bounded()
    ensures { TurnsAreBounded }
{}

/// A play of some turns takes at most as many instructions as the code has, times the turns and one more.
pub fn plays_are_bounded()
    ensures { PlaysAreBounded }
{}
