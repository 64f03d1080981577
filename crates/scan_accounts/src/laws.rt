//! Laws of the definitions.
ghost use Rattle.std.specs.Prelude.{◌≡◌, ◌⊎◌, ◌<◌, ◌≤◌, ℕ, ◌+◌, pos, true, false, None, Some};
ghost use Rattle.std.specs.Prelude.{List, [], ◌∷◌, ◌++◌, All, flat_map, length, map, codes};
ghost use Rattle.dev_card.specs.declared.desc.Desc.{Desc};
ghost use Rattle.dev_card.specs.Descriptions.{IsGood};
ghost use Rattle.dev_card.specs.FarEnds.{FarEnd, Told};
ghost use Rattle.dev_card.specs.Padding.{BaseLengths, base_pre_of, base_post_of, base_around, Neighbours, in_run, base_lengths};
ghost use Rattle.dev_card.specs.Scans.{BoardScan};
ghost use Rattle.tap_states.specs.declared.Tap.{Tap};
ghost use Rattle.tap_states.specs.Tap.{is_stable_state};
ghost use Rattle.dev_card.specs.Board.{Clock};
ghost use Rattle.stapl_lexer.specs.declared.terminal.Register.{Register};
ghost use Rattle.stapl_syntax.specs.Trees.{StmtTree, ExprTree, ArrayTree, if_then, scan, state_list};
ghost use Rattle.stapl_syntax.specs.Programs.{IsProgram};
ghost use Rattle.stapl_meaning.specs.declared.events.Ending.{Ending};
ghost use Rattle.stapl_meaning.specs.declared.events.Ending.TheVariants.{Exit};
ghost use Rattle.stapl_meaning.specs.Scopes.{Played, as_played};
ghost use Rattle.stapl_meaning.specs.Plays.{play};
ghost use Rattle.stapl_meaning.specs.Texts.{events_text, text_of};
ghost use Rattle.stapl_meaning.specs.Deeds.{Chain};
ghost use Rattle.padded_plays.specs.PaddedRuns.{fresh_board};
ghost use Rattle.padded_plays.specs.QuietPlays.{no_base, IsQuietPlay};
ghost use Rattle.pin_lines.specs.PinLines.{pins_in};
ghost use Rattle.scan_accounts.specs.ShiftRuns.{ShiftRun, shift_runs};
ghost use Rattle.scan_accounts.specs.LongestRuns.{AreLongestRuns};
ghost use Rattle.scan_accounts.specs.MadeTurns.{does_scan, MadeTurn, made_play, made_events, clocks_among};
ghost use Rattle.scan_accounts.specs.TurnByTurn.{AreNextTurns};
ghost use Rattle.scan_accounts.specs.Accounts.{Passage, passages, passages_of, most_bits, account_of, HasScanRun};
ghost use Rattle.scan_accounts.specs.Rooms.{FitIn, states_in, most_states, turn_bits, turn_runs};
ghost use Rattle.scan_accounts.specs.SameAccounts.{IsSameAccount};
ghost use Rattle.scan_accounts.specs.AccountTexts.{CutText, account_line, account_text, passage_line, turn_lines};
ghost use Rattle.scan_accounts.specs.PinRuns.{runs_of_pins};
ghost use Rattle.scan_accounts.specs.AccountExamples.{example_run, instruction_run, one_clock_run, padded_run};
ghost use Rattle.scan_accounts.specs.AccountExamples.{example_text, scanning_turn, walking_turn, example_play, full_account};

use stapl_meaning::laws::programs_are_typed;

/// A play as it was made has the events of the play, turn by turn. So the lines of its turns but for those of their
/// runs are those of the play without its pins. After so many turns the play goes on at the place of the next turn,
/// from its state of the controllers, and with one turn more it has the events of that turn, too.
pub fn a_made_play_is_the_play_turn_by_turn()
    ensures events { (program : Played) (chosen : List ℕ) (n : ℕ) (base : BaseLengths) (far : FarEnd) →
        made_events (made_play program chosen n base far) ≡ (play program chosen n base far).events }
    ensures lines { (program : Played) (chosen : List ℕ) (n : ℕ) (base : BaseLengths) (far : FarEnd) →
        let made = made_play program chosen n base far in
        events_text false [] made.first ++ flat_map (λ (t : MadeTurn). events_text false [] t.events) made.turns
        ≡ events_text false [] (play program chosen n base far).events }
    ensures turns { (program : Played) (chosen : List ℕ) (n : ℕ) (base : BaseLengths) (far : FarEnd) →
        AreNextTurns (λ m. play program chosen m base far) (made_play program chosen n base far).turns }
{}

/// The runs of clocks are the longest parts of them at which the same registers shift, in order, and all of these.
pub fn runs_are_the_longest_parts()
    ensures { (at : Tap) (clocks : List Clock) → AreLongestRuns (shift_runs at clocks) at clocks }
{}

/// Before each turn of a program the controllers stand in a stable state.
pub fn turns_begin_in_stable_states()
    ensures { (text : List ℕ) (program : List StmtTree) (chosen : List ℕ) (n : ℕ) (base : BaseLengths) (far : FarEnd) →
        IsProgram text program → All (λ (t : MadeTurn). is_stable_state t.from ≡ true)
        (made_play (as_played program) chosen n base far).turns }
{
    programs_are_typed();
}

/// A turn never has both runs and lines of its own: it writes nothing else, or it has no run. So it is the same whether
/// the lines of its runs are written before what else it writes, or after it.
pub fn a_turn_has_runs_or_lines()
    ensures either { (text : List ℕ) (program : List StmtTree) (chosen : List ℕ) (n : ℕ) (base : BaseLengths)
        (far : FarEnd) → IsProgram text program → All (λ (t : MadeTurn). (events_text false [] t.events ≡ [])
        ⊎ (shift_runs t.from (clocks_among t.events) ≡ [])) (made_play (as_played program) chosen n base far).turns }
    ensures order { (text : List ℕ) (program : List StmtTree) (chosen : List ℕ) (n : ℕ) (base : BaseLengths)
        (far : FarEnd) (cut : CutText) → IsProgram text program → All (λ (t : MadeTurn). turn_lines cut base t
        ≡ events_text false [] t.events ++ flat_map (passage_line cut) (passages_of base t))
        (made_play (as_played program) chosen n base far).turns }
{
    programs_are_typed();
}

/// What is said of the run of a scan has no more bits than a scan may have and two paddings of the program. A run of
/// any other turn, as of a STATE through DRSHIFT, has one bit. On the chain a run has at most the base padding more.
/// Each run has as many bits out as bits in.
pub fn runs_fit_the_room()
    ensures said { (text : List ℕ) (program : List StmtTree) (chosen : List ℕ) (n : ℕ) (base : BaseLengths)
        (far : FarEnd) → IsProgram text program → All (λ (p : Passage). length p.run.bits_in ≤ most_bits p.scan)
        (passages (made_play (as_played program) chosen n base far)) }
    ensures whole { (text : List ℕ) (program : List StmtTree) (chosen : List ℕ) (n : ℕ) (base : BaseLengths)
        (far : FarEnd) → IsProgram text program → All (λ (t : MadeTurn). All (λ (run : ShiftRun). length run.bits_in
        ≤ most_bits true + (base_pre_of run.ir base + base_post_of run.ir base))
        (shift_runs t.from (clocks_among t.events))) (made_play (as_played program) chosen n base far).turns }
    ensures out { (at : Tap) (clocks : List Clock) →
        All (λ (run : ShiftRun). length run.bits_out ≡ length run.bits_in) (shift_runs at clocks) }
{
    programs_are_typed();
}

/// The runs of one turn fit into a room that the program and the base padding alone tell. They have no more bits
/// together than a scan may have with all its padding, and one for each state of the longest STATE more; and there is
/// one run more than such states at most.
pub fn turns_fit_the_room()
    ensures { (text : List ℕ) (program : List StmtTree) (chosen : List ℕ) (n : ℕ) (base : BaseLengths) (far : FarEnd) →
        IsProgram text program → All (λ (t : MadeTurn). FitIn (turn_bits base (most_states program))
        (turn_runs (most_states program)) (shift_runs t.from (clocks_among t.events)))
        (made_play (as_played program) chosen n base far).turns }
{
    programs_are_typed();
}

/// What is said of the runs of a play without base padding are the runs of its text with pins, in their order, whatever
/// answers its clocks. With any base padding, the account has as many clocks as that text.
pub fn the_account_of_a_play_is_that_of_its_pins()
    ensures runs { (text : List ℕ) (program : List StmtTree) (chosen : List ℕ) (n : ℕ) (far : FarEnd)
        (ending : Ending) → IsProgram text program →
        map (λ (p : Passage). p.run) (passages (made_play (as_played program) chosen n no_base far))
        ≡ runs_of_pins (text_of true (play (as_played program) chosen n no_base far).events [] ending) }
    ensures clocks { (program : Played) (chosen : List ℕ) (n : ℕ) (base : BaseLengths) (far : FarEnd)
        (ending : Ending) → (account_of (made_play program chosen n base far)).clocks
        ≡ length (pins_in (text_of true (play program chosen n base far).events [] ending)) }
{
    programs_are_typed();
}

/// The clocks of a scan, from a stable state to one, have one run. Its bits in are those that the program shifts, with
/// the program's paddings, and those of its bits out at the places of the data are what the scan captures.
pub fn a_scan_has_one_run()
    ensures { (k : Chain) (scan : BoardScan) → is_stable_state k.tap ≡ true → is_stable_state scan.stop ≡ true →
        0 < length scan.bits → HasScanRun k scan }
{}

/// A play that is quiet on the devices of a run alone has the same account on the whole board, with base padding for
/// the run: line by line, but for the count of clocks. This is said of the lists of devices before, in and after the
/// run, and of a board and the places of the run in it.
pub fn a_quiet_play_has_the_same_account_at_each_place()
    ensures lists { (text : List ℕ) (program : List StmtTree) (chosen : List ℕ) (n : ℕ) (before run after : List Desc) →
        IsProgram text program → All IsGood (before ++ (run ++ after)) → 0 < length run →
        let p = as_played program in IsQuietPlay p chosen n run →
        IsSameAccount (made_play p chosen n (base_around before after) (Told (fresh_board (before ++ (run ++ after)))))
        (made_play p chosen n no_base (Told (fresh_board run))) }
    ensures places { (text : List ℕ) (program : List StmtTree) (chosen : List ℕ) (n : ℕ) (devices : List Desc)
        (run : Neighbours) → IsProgram text program → All IsGood devices → 1 ≤ run.first → run.first ≤ run.last →
        run.last ≤ length devices → let p = as_played program in IsQuietPlay p chosen n (in_run run devices) →
        IsSameAccount (made_play p chosen n (base_lengths devices (Some run)) (Told (fresh_board devices)))
        (made_play p chosen n no_base (Told (fresh_board (in_run run devices)))) }
{
    programs_are_typed();
}

/// A scan of three bits and one of four; a run that goes over the end of a line; a walk through a shift state, which
/// makes a run of one clock; two runs with a pause between them; and clocks that end in a run.
pub fn examples_of_runs()
    ensures scans { runs_of_pins (codes "C 5555515112141551551112241551\nE exit 0\n")
        ≡ example_run ∷ instruction_run ∷ [] }
    ensures lines { runs_of_pins (codes "C 555551511\nC 21\nC 41551\n") ≡ example_run ∷ [] }
    ensures walk { runs_of_pins (codes "C 555551511451\n") ≡ one_clock_run ∷ [] }
    ensures pause { runs_of_pins (codes "C 555551511415141\n") ≡ one_clock_run ∷ one_clock_run ∷ [] }
    ensures front { runs_of_pins (codes "C 5555515110\n") ≡ one_clock_run ∷ [] }
    ensures none { runs_of_pins (codes "C 555551\nP A\n") ≡ [] }
{}

/// Base padding is taken off the run of a turn that scans, and off no other. The line of a run stands before what else
/// its turn writes, and the sums before the ending. An IF over a scan scans, and a STATE does not, whose states are
/// counted. A sum that is larger than the largest number is written as that.
pub fn examples_of_accounts()
    ensures scan { passages_of example_play.base scanning_turn
        ≡ record { place = 0; scan = true; run = example_run } ∷ [] }
    ensures whole { passages_of example_play.base (record scanning_turn { scans = false })
        ≡ record { place = 0; scan = false; run = padded_run } ∷ [] }
    ensures line { passage_line example_text (record { place = 2; scan = true; run = instruction_run })
        ≡ codes "S 3 line 8 IRSCAN 4 in 6 out 1\n" }
    ensures under_if { (register : Register) (e count : ExprTree) (source : ArrayTree) →
        does_scan (if_then e (if_then e (scan register count source None None))) ≡ true }
    ensures states { (e : ExprTree) (states : List ℕ) → does_scan (if_then e (state_list states)) ≡ false }
    ensures listed { (e : ExprTree) → states_in (if_then e (state_list (1 ∷ 4 ∷ 1 ∷ []))) ≡ 3 }
    ensures walk { passages_of example_play.base walking_turn
        ≡ record { place = 1; scan = false; run = one_clock_run } ∷ [] }
    ensures text { account_text example_text example_play (Exit (pos 0))
        ≡ codes "S 1 line 7 DRSCAN 3 in 1 out 2\nS 2 line 8 WALK DR 1 in 0 out 0\nP A\nW 7\n"
        ++ codes "S turns 3 clocks 26 usec 7 irscans 0 drscans 1\nE exit 0\n" }
    ensures sums { account_line full_account
        ≡ codes "S turns 1 clocks 9223372036854775807 usec 9223372036854775807 irscans 0 drscans 2\n" }
{}
