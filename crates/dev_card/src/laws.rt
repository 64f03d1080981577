//! Laws of the definitions.
ghost use Rattle.std.specs.Prelude.{◌≡◌, ◌≢◌, ◌<◌, ◌≤◌, ◌-◌, ◌^◌, ◌&&◌, ℕ, suc, Bool, true, false, [], ◌∷◌, ◌++◌, All, List, Option, Some, length, take, drop, slice_get};
ghost use Rattle.tap_states.specs.declared.Tap.{Tap};
ghost use Rattle.tap_states.specs.declared.Tap.TheVariants.{DrShift, Reset};
ghost use Rattle.tap_states.specs.Path.{five_ones};
ghost use Rattle.tap_states.specs.Tap.{is_stable_state};
ghost use Rattle.dev_card.specs.declared.desc.Desc.{Desc};
ghost use Rattle.dev_card.specs.Descriptions.{IsGood, opcodes_of};
ghost use Rattle.dev_card.specs.Card.{Card, bypass, fresh, selected_by, step};
ghost use Rattle.dev_card.specs.Board.{Input, Clock, board_after, AllIn};
ghost use Rattle.dev_card.specs.Line.{shift_state, line_of, IsShifting, AllShift};
ghost use Rattle.dev_card.specs.Padding.{Paddings, Neighbours, only, in_run, before_run, after_run, base_pre_of, base_post_of, base_lengths};
ghost use Rattle.dev_card.specs.PaddedScan.{IsSameScan, IsOneScan, base_of_cards, descriptions_of};
ghost use Rattle.dev_card.specs.Clocks.{with_zero, move_inputs, is_nil, shift_inputs, part_inputs, at_shift, board_scanned, StaysShifting, ShiftsAsLine, ScansAsLine};
ghost use Rattle.dev_card.specs.Scans.{BoardScan, inputs_of_scan, clocks_of_scan, captured_bits, captured_from, HasBaseAround, IsScanOfRun};
ghost use Rattle.dev_card.specs.Blocks.{RunsCardByCard, ShiftsCardByCard, ShiftsBlock};
ghost use Rattle.dev_card.specs.Reports.{report_of};
ghost use Rattle.dev_card.specs.ReportExample.{example_plain, example_registers, example_flash, example_report};
ghost use Rattle.dev_card.specs.Sound.{IsSound, AllSound, AllBypass, register_lengths, SoundCard, card_in};

/// Every opcode that a description doesn't name selects BYPASS.
pub fn unnamed_opcodes_select_bypass()
    ensures { (d : Desc) (op : ℕ) → All (λ named. named ≢ op) (opcodes_of d) → selected_by d op ≡ bypass }
{}

/// The opcode of all ones selects BYPASS on a device of a good description (IEEE 1149.1, clause 8, BYPASS instruction).
pub fn all_ones_select_bypass()
    ensures { (d : Desc) → IsGood d → selected_by d (2 ^ d.ir_len - 1) ≡ bypass }
{}

/// The fresh card of a good description is sound.
pub fn a_fresh_card_is_sound()
    ensures { (d : Desc) → IsGood d → IsSound (fresh d) }
{}

/// Each clock keeps a card sound.
pub fn a_clock_keeps_a_card_sound()
    ensures { (c : Card) (tms tdi : Bool) → IsSound c → IsSound (step c tms tdi) }
{}

/// The card of a fitted device is sound.
pub fn a_fitted_card_is_sound()
    ensures { (fitted : Option SoundCard) (c : Card) → card_in fitted ≡ Some c → IsSound c }
{}

/// Clocks keep a board sound.
pub fn clocks_keep_a_board_sound()
    ensures { (cs : List Card) (inputs : List Input) → AllSound cs → AllSound (board_after cs inputs) }
{}

/// Clocks with TMS 0 on a board that shifts shift its line, and the board goes on shifting.
pub fn clocks_with_tms_0_shift_the_line()
    ensures { (ir : Bool) (cs : List Card) (bits : List Bool) → AllShift ir cs → StaysShifting ir cs bits }
{}

/// A board that shifts, clocked with TMS 0 and at the last bit with TMS 1, shifts its line.
pub fn shift_clocks_shift_the_line()
    ensures { (ir : Bool) (cs : List Card) (bits : List Bool) → 0 < length bits → AllShift ir cs →
        ShiftsAsLine ir cs bits }
{}

/// The clocks of a scan, made one after another on a board of sound cards in one stable state, are those of the scan of
/// its line.
pub fn a_scan_is_the_scan_of_the_line()
    ensures { (at : Tap) (ir : Bool) (stop : Tap) (cs : List Card) (bits : List Bool) → is_stable_state at ≡ true →
        0 < length bits → AllIn at cs →
        AllSound cs → ScansAsLine at ir stop cs bits }
{}

/// Sound cards in one stable state come through the entry list of a scan to the shift, each with a list to shift.
pub fn a_scan_comes_to_the_shift()
    ensures { (at : Tap) (ir : Bool) (cs : List Card) → is_stable_state at ≡ true → AllIn at cs → AllSound cs →
        AllShift ir (at_shift at ir cs) }
{}

/// A move brings all controllers from one state to another.
pub fn a_move_leads_there()
    ensures { (at to : Tap) (cs : List Card) → AllIn at cs → AllIn to (board_after cs (move_inputs at to)) }
{}

/// A scan leaves all controllers in its stop state.
pub fn a_scan_leads_to_its_stop()
    ensures { (at : Tap) (ir : Bool) (stop : Tap) (cs : List Card) (bits : List Bool) →
        AllIn stop (board_scanned at ir stop cs bits) }
{}

/// A scan with base padding around a run of neighbours, as long as the lines of the other devices, is the scan of the
/// run alone, as far as its length allows.
pub fn a_padded_scan_is_the_scan_alone()
    ensures { (ir : Bool) (before run after : List Card) (p : Paddings) (bits : List Bool) →
        p.base_pre ≡ length (line_of ir before) → p.base_post ≡ length (line_of ir after) →
        IsSameScan ir before run after p bits }
{}

/// One scan of a board of sound cards in one stable state, with base padding around a run of neighbours, is the scan of
/// the run alone, where the other devices have BYPASS selected or it is a scan of the instruction registers.
pub fn one_padded_scan_is_the_scan_alone()
    ensures { (at : Tap) (ir : Bool) (before run after : List Card) (p : Paddings) (bits : List Bool) →
        is_stable_state at ≡ true → AllIn at (before ++ (run ++ after)) → AllSound (before ++ (run ++ after)) →
        p.base_pre ≡ base_pre_of ir (base_of_cards before after) →
        p.base_post ≡ base_post_of ir (base_of_cards before after) →
        IsOneScan at ir before run after p bits }
{}

/// Clocks of a board can be taken card by card, from the last to the first: TDO of each card before a clock does not
/// hang on its TDI at that clock.
pub fn a_board_runs_card_by_card()
    ensures { (c : Card) (cs : List Card) (inputs : List Input) → RunsCardByCard c cs inputs }
{}

/// A block of a board is a block of each card, from the last to the first, and each gets what the one after it
/// answers.
pub fn a_board_shifts_card_by_card()
    ensures { (c : Card) (cs : List Card) (tdi n : ℕ) (last : Bool) → ShiftsCardByCard c cs tdi n last }
{}

/// A block of a card that shifts is one equation of lists.
pub fn a_shifting_card_shifts_a_block()
    ensures { (ir : Bool) (c : Card) (tdi n : ℕ) (last : Bool) → 1 ≤ n → IsShifting ir c → ShiftsBlock ir c tdi n last }
{}

/// All bits of a scan are one part of it, with which it ends.
pub fn a_whole_shift_is_one_part()
    ensures { (bits : List Bool) → shift_inputs bits ≡ part_inputs true bits }
{}

/// A part of a scan that is cut in two is both parts in a row. Only the last part that has a bit has the last bit.
pub fn a_part_of_a_shift_is_its_parts()
    ensures { (last : Bool) (front back : List Bool) →
        part_inputs last (front ++ back) ≡ part_inputs (last && is_nil back) front ++ part_inputs last back }
{}

/// The clocks of a scan hold what it captures of its board.
pub fn clocks_of_a_scan_hold_what_it_captures()
    ensures { (at : Tap) (s : BoardScan) (cs : List Card) →
        captured_from at s (clocks_of_scan at s cs) ≡ captured_bits at s cs }
{}

/// A scan captures as many bits as its data has, whatever answers its clocks.
pub fn a_scan_captures_as_many_bits_as_its_data()
    ensures { (at : Tap) (s : BoardScan) (clocks : List Clock) → length clocks ≡ length (inputs_of_scan at s) →
        length (captured_from at s clocks) ≡ length s.bits }
{}

/// What a scan captures of a board of sound cards in one stable state, with base padding around a run of neighbours, is
/// what it captures of the run alone, if it is short enough, and if the other devices have BYPASS selected or it is a
/// scan of the instruction registers.
pub fn a_padded_scan_captures_what_the_run_gives()
    ensures { (at : Tap) (before run after : List Card) (s : BoardScan) → is_stable_state at ≡ true →
        AllIn at (before ++ (run ++ after)) → AllSound (before ++ (run ++ after)) → HasBaseAround before after s →
        IsScanOfRun at before run after s (captured_bits at s (before ++ (run ++ after))) }
{}

/// A board has the cards before a run of neighbours, those of the run, and those after it, and base padding for the run
/// is that around its cards.
pub fn a_run_stands_between_the_cards_around_it()
    ensures board { (cs : List Card) (run : Neighbours) → 1 ≤ run.first → run.first ≤ run.last →
        cs ≡ before_run run cs ++ (in_run run cs ++ after_run run cs) }
    ensures base { (cs : List Card) (run : Neighbours) →
        base_lengths (descriptions_of cs) (Some run) ≡ base_of_cards (before_run run cs) (after_run run cs) }
{}

/// A run of a board has as many cards before it as the place of its first one says, and as many as its places in it. So
/// in scans of the data registers base PRE has one bit less than that place, and base POST one for each card after the
/// last place.
pub fn a_run_has_a_card_for_each_of_its_places()
    ensures before { (cs : List Card) (run : Neighbours) → 1 ≤ run.first → run.first ≤ run.last →
        run.last ≤ length cs → length (before_run run cs) ≡ run.first - 1 }
    ensures run { (cs : List Card) (run : Neighbours) → 1 ≤ run.first → run.first ≤ run.last →
        run.last ≤ length cs → length (in_run run cs) ≡ suc run.last - run.first }
    ensures pads { (ds : List Desc) (run : Neighbours) → 1 ≤ run.first → run.first ≤ run.last →
        run.last ≤ length ds → ((base_lengths ds (Some run)).dr_pre ≡ run.first - 1)
        × ((base_lengths ds (Some run)).dr_post ≡ length ds - run.last) }
{}

/// A single place of a board is a run of the card there.
pub fn a_place_is_a_run_of_one_card()
    ensures { (cs : List Card) (place : ℕ) (c : Card) → 1 ≤ place → slice_get cs (place - 1) ≡ Some c →
        in_run (only place) cs ≡ c ∷ [] }
{}

/// The line of sound cards that shift is as long as their registers together.
pub fn length_of_the_line()
    ensures { (ir : Bool) (cs : List Card) → AllIn (shift_state ir) cs → AllSound cs →
        length (line_of ir cs) ≡ register_lengths ir cs }
{}

/// The line of cards with BYPASS selected has one bit for each card.
pub fn a_bypass_line_has_one_bit_a_card()
    ensures { (cs : List Card) → AllIn DrShift cs → AllSound cs → AllBypass cs → length (line_of false cs) ≡ length cs }
{}

/// Five clocks with TMS 1 bring every board to reset, whatever states its controllers are in.
pub fn five_ones_reset_a_board()
    ensures { (cs : List Card) → AllIn Reset (board_after cs (with_zero five_ones)) }
{}

/// Clocks keep the descriptions of a board.
pub fn clocks_keep_the_descriptions()
    ensures { (cs : List Card) (inputs : List Input) → descriptions_of (board_after cs inputs) ≡ descriptions_of cs }
{}

/// The report of a device of each kind, written out: the Regs has a register with a constant that holds another value,
/// and the Flash words of ones after those that were programmed.
pub fn a_report_of_three_devices()
    ensures { report_of (example_plain ∷ example_registers ∷ example_flash ∷ []) ≡ example_report }
{}
