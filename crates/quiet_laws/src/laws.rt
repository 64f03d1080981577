//! Laws: which plays are quiet, from the other side.
ghost use Rattle.std.specs.Prelude.{◌≡◌, ◌≢◌, Bool, true, false, List, [], ◌∷◌, length};
ghost use Rattle.tap_states.specs.declared.Tap.{Tap};
ghost use Rattle.tap_states.specs.declared.Tap.TheVariants.{DrShift, IrCapture, IrShift};
ghost use Rattle.tap_states.specs.Tap.{next_of};
ghost use Rattle.tap_states.specs.Path.{path_of};
ghost use Rattle.dev_card.specs.Card.{Card};
ghost use Rattle.dev_card.specs.Line.{pause_state};
ghost use Rattle.dev_card.specs.Padding.{program_bits};
ghost use Rattle.dev_card.specs.Clocks.{at_shift};
ghost use Rattle.dev_card.specs.Scans.{BoardScan};
ghost use Rattle.dev_card.specs.Sound.{register_lengths};
ghost use Rattle.padded_plays.specs.QuietClocks.{IsQuietWalk, IsQuietScan};
ghost use Rattle.padded_plays.specs.declared.unquiet.Unquiet.TheVariants.{Instruction, Data, NotLoaded, ScanState};
ghost use Rattle.quiet_laws.specs.Needs.{IsNeeded};
ghost use Rattle.quiet_laws.specs.Examples.{part, neighbour, enough, too_long_instruction, too_long_data};
ghost use Rattle.quiet_laws.specs.Examples.{without_instruction, instruction_reset, through_capture};
ghost use Rattle.quiet_laws.specs.Examples.{through_instruction_shift, through_data_shift, stop_behind_capture};

/// A scan that has not as many bits as the registers, of instructions or of data, makes a play differ at a place of a
/// board, if all else in it is quiet.
pub fn the_length_of_a_scan_is_needed()
    ensures of_instruction { IsNeeded too_long_instruction enough (neighbour ∷ []) (part ∷ []) [] (Instruction 5 4) }
    ensures of_data { IsNeeded too_long_data enough (neighbour ∷ []) (part ∷ []) [] (Data 2 1) }
{}

/// So does a scan of data before an instruction was loaded, and one after a reset.
pub fn a_loaded_instruction_is_needed()
    ensures first { IsNeeded without_instruction enough (neighbour ∷ []) (part ∷ []) [] NotLoaded }
    ensures since { IsNeeded instruction_reset enough (neighbour ∷ []) (part ∷ []) [] NotLoaded }
{}

/// So does a move into each of three states, and the way to the stop state of a scan.
pub fn each_state_of_scans_is_needed()
    ensures capture { IsNeeded through_capture enough (neighbour ∷ []) (part ∷ []) [] ScanState }
    ensures instruction_shift { IsNeeded through_instruction_shift enough [] (part ∷ []) (neighbour ∷ []) ScanState }
    ensures data_shift { IsNeeded through_data_shift enough [] (part ∷ []) (neighbour ∷ []) ScanState }
    ensures stop { IsNeeded stop_behind_capture enough (neighbour ∷ []) (part ∷ []) [] ScanState }
{}

/// Nothing else is asked: a clock that leads into none of the three states is quiet, and so is a walk of such clocks. A
/// scan of as many bits as the registers have is quiet, if its way to the stop state is, and of data if an instruction
/// was loaded.
pub fn nothing_else_is_asked()
    ensures clock { (at : Tap) (tms : Bool) (rest : List Bool) →
        next_of at tms ≢ DrShift → next_of at tms ≢ IrCapture → next_of at tms ≢ IrShift →
        IsQuietWalk (next_of at tms) rest → IsQuietWalk at (tms ∷ rest) }
    ensures of_instruction { (loaded : Bool) (at : Tap) (alone : List Card) (s : BoardScan) → s.ir ≡ true →
        length (program_bits s.paddings s.bits) ≡ register_lengths true (at_shift at true alone) →
        IsQuietWalk (pause_state true) (path_of (pause_state true) s.stop) → IsQuietScan loaded at alone s }
    ensures of_data { (at : Tap) (alone : List Card) (s : BoardScan) → s.ir ≡ false →
        length (program_bits s.paddings s.bits) ≡ register_lengths false (at_shift at false alone) →
        IsQuietWalk (pause_state false) (path_of (pause_state false) s.stop) → IsQuietScan true at alone s }
{}
