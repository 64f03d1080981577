//! Laws of the definitions.
ghost use Rattle.std.specs.Prelude.{◌≡◌, ◌<◌, ℕ, Bool, true, false, List, ◌++◌, All, length, replicate, ◌≤◌, ◌-◌, ◌⊎◌, suc, Some};
ghost use Rattle.tap_states.specs.declared.Tap.{Tap};
ghost use Rattle.tap_states.specs.declared.Tap.TheVariants.{Reset};
ghost use Rattle.tap_states.specs.Tap.{is_stable_state};
ghost use Rattle.tap_states.specs.Path.{walk, five_ones, path_of};
ghost use Rattle.dev_card.specs.declared.desc.Desc.{Desc};
ghost use Rattle.dev_card.specs.Descriptions.{IsGood};
ghost use Rattle.dev_card.specs.Card.{Card};
ghost use Rattle.dev_card.specs.Board.{board_after};
ghost use Rattle.dev_card.specs.Clocks.{with_zero, rest_tms, move_inputs, stay_inputs, entry_inputs};
ghost use Rattle.dev_card.specs.Scans.{BoardScan};
ghost use Rattle.dev_card.specs.FarEnds.{FarEnd, Told};
ghost use Rattle.dev_card.specs.Padding.{BaseLengths, Neighbours, in_run, before_run, after_run, base_lengths};
ghost use Rattle.padded_plays.specs.QuietClocks.{IsQuietWalk, IsQuietScan, loaded_after};
ghost use Rattle.padded_plays.specs.PaddedRuns.{IsPaddedRun, IsPaddedFor, KeepsPaddedRun, fresh_board};
ghost use Rattle.stapl_meaning.specs.Deeds.{Deed, Chain, deeds_events};
ghost use Rattle.stapl_meaning.specs.Scopes.{Played};
ghost use Rattle.stapl_meaning.specs.Plays.{play, chain_reset, reset_events};
ghost use Rattle.padded_plays.specs.LoadedDeeds.{StaysOutOfReset, AreWholeScans, WasLoaded, EachIsQuiet};
ghost use Rattle.padded_plays.specs.QuietPlays.{AreQuietDeeds, loaded_by_deeds, deeds_of_play, first_chain};
ghost use Rattle.padded_plays.specs.QuietPlays.{IsQuietDeed, IsQuietPlay, play_alone, padded_play};
ghost use Rattle.padded_plays.specs.QuietExamples.{example_chain, quiet_deeds, without_instruction, reset_between};
ghost use Rattle.padded_plays.specs.QuietExamples.{too_long, into_the_shift};
ghost use Rattle.padded_plays.specs.SamePlays.{IsSamePlay, IsSameText};
ghost use Rattle.padded_plays.specs.declared.unquiet.Unquiet.{Unquiet};
ghost use Rattle.padded_plays.specs.Reasons.{IsUnquiet, IsReason, HasReason};
ghost use Rattle.padded_plays.specs.FirstDeeds.{IsFirstUnquiet, HasFirstUnquiet, AreSameDeed};

/// A quiet walk keeps a padded run.
pub fn a_quiet_walk_keeps_a_padded_run()
    ensures { (before run after : List Desc) (loaded : Bool) (at : Tap) (board alone : List Card) (ms : List Bool) →
        IsQuietWalk at ms → IsPaddedRun before run after loaded at board alone →
        IsPaddedRun before run after (loaded_after at ms loaded) (walk at ms)
        (board_after board (with_zero ms)) (board_after alone (with_zero ms)) }
{}

/// A quiet move keeps a padded run.
pub fn a_quiet_move_keeps_a_padded_run()
    ensures { (before run after : List Desc) (loaded : Bool) (at to : Tap) (board alone : List Card) →
        IsQuietWalk at (path_of at to) → IsPaddedRun before run after loaded at board alone →
        IsPaddedRun before run after (loaded_after at (path_of at to) loaded) to
        (board_after board (move_inputs at to)) (board_after alone (move_inputs at to)) }
{}

/// A stay in a stable state keeps a padded run.
pub fn a_stay_keeps_a_padded_run()
    ensures { (before run after : List Desc) (loaded : Bool) (at : Tap) (n : ℕ) (board alone : List Card) →
        is_stable_state at ≡ true → IsPaddedRun before run after loaded at board alone →
        IsPaddedRun before run after (loaded_after at (replicate n (rest_tms at)) loaded) at
        (board_after board (stay_inputs at n)) (board_after alone (stay_inputs at n)) }
{}

/// A quiet scan keeps a padded run, and captures what it captures of the run alone.
pub fn a_quiet_scan_keeps_a_padded_run()
    ensures { (before run after : List Desc) (loaded : Bool) (at : Tap) (board alone : List Card) (s : BoardScan) →
        0 < length run → is_stable_state at ≡ true → IsPaddedFor before after s → IsQuietScan loaded at alone s →
        IsPaddedRun before run after loaded at board alone →
        KeepsPaddedRun before run after loaded at board alone s }
{}

/// A run of new devices of good descriptions is padded after the five clocks that bring them to reset.
pub fn a_reset_run_is_padded()
    ensures { (before run after : List Desc) → All IsGood (before ++ (run ++ after)) →
        IsPaddedRun before run after false Reset
        (board_after (fresh_board (before ++ (run ++ after))) (with_zero five_ones))
        (board_after (fresh_board run) (with_zero five_ones)) }
{}

/// If the play on a run of devices alone is quiet for n turns, then after each number of turns up to n it is the same
/// play in a board with base padding around the run, whatever devices are before and after it. It has the same outcome,
/// state and TAP state, the same events but for the clocks, and the same cards of the run. This is said of the lists of
/// devices before, in and after the run, and of a board and the places of the run in it.
pub fn a_quiet_play_is_the_same_at_each_place()
    ensures lists { (program : Played) (chosen : List ℕ) (before run after : List Desc) (n k : ℕ) →
        All IsGood (before ++ (run ++ after)) → 0 < length run → IsQuietPlay program chosen n run → k ≤ n →
        IsSamePlay before run after (padded_play program chosen k before run after) (play_alone program chosen k run) }
    ensures places { (program : Played) (chosen : List ℕ) (devices : List Desc) (run : Neighbours) (n k : ℕ) →
        All IsGood devices → 1 ≤ run.first → run.first ≤ run.last → run.last ≤ length devices →
        IsQuietPlay program chosen n (in_run run devices) → k ≤ n →
        IsSamePlay (before_run run devices) (in_run run devices) (after_run run devices)
        (play program chosen k (base_lengths devices (Some run)) (Told (fresh_board devices)))
        (play_alone program chosen k (in_run run devices)) }
{}

/// Plays that are the same have the same text without pins and the same ending, and the same cards of the run, so the
/// same report of it.
pub fn the_same_play_has_the_same_text()
    ensures { (program : Played) (chosen : List ℕ) (before run after : List Desc) (k : ℕ) →
        IsSamePlay before run after (padded_play program chosen k before run after) (play_alone program chosen k run) →
        IsSameText (length before) (length run)
        (padded_play program chosen k before run after) (play_alone program chosen k run) }
{}

/// A play that is quiet on the devices of a run alone has the same text, ending and report of these devices, in their
/// order, on the whole board, with base padding for the run.
pub fn a_quiet_play_of_a_run_has_the_text_of_its_devices()
    ensures { (program : Played) (chosen : List ℕ) (devices : List Desc) (run : Neighbours) (n k : ℕ) →
        All IsGood devices → 1 ≤ run.first → run.first ≤ run.last → run.last ≤ length devices →
        IsQuietPlay program chosen n (in_run run devices) → k ≤ n →
        IsSameText (run.first - 1) (suc run.last - run.first)
        (play program chosen k (base_lengths devices (Some run)) (Told (fresh_board devices)))
        (play_alone program chosen k (in_run run devices)) }
{}

/// The events of a play are those of the five first clocks, and then those of its deeds.
pub fn a_play_has_the_events_of_its_deeds()
    ensures { (program : Played) (chosen : List ℕ) (n : ℕ) (base : BaseLengths) (far : FarEnd) →
        (play program chosen n base far).events
        ≡ reset_events far
        ++ deeds_events (chain_reset base far) (deeds_of_play program chosen n (chain_reset base far)) }
{}

/// A quiet play takes an instruction for loaded exactly if a scan of the instruction registers was made, and no clock
/// since its last shift clock has led into Test-Logic-Reset. On its way to the shift no scan comes there. The scans of
/// a play are whole.
pub fn what_it_is_that_an_instruction_was_loaded()
    ensures loaded { (k : Chain) (deeds : List Deed) → AreWholeScans k deeds →
        loaded_by_deeds false k deeds ≡ true → WasLoaded k deeds }
    ensures taken { (k : Chain) (deeds : List Deed) → AreWholeScans k deeds →
        WasLoaded k deeds → loaded_by_deeds false k deeds ≡ true }
    ensures whole { (program : Played) (chosen : List ℕ) (n : ℕ) (k : Chain) →
        AreWholeScans k (deeds_of_play program chosen n k) }
    ensures entry { (at : Tap) (ir : Bool) → is_stable_state at ≡ true → StaysOutOfReset at (entry_inputs at ir) }
{}

/// A play is quiet exactly if each of its deeds is quiet after those before it.
pub fn what_a_quiet_play_is()
    ensures each { (program : Played) (chosen : List ℕ) (n : ℕ) (run : List Desc) → IsQuietPlay program chosen n run →
        EachIsQuiet (first_chain run) (deeds_of_play program chosen n (first_chain run)) }
    ensures all { (program : Played) (chosen : List ℕ) (n : ℕ) (run : List Desc) →
        EachIsQuiet (first_chain run) (deeds_of_play program chosen n (first_chain run)) →
        IsQuietPlay program chosen n run }
{}

/// A scan of an instruction and then scans of the bypass register are quiet. A scan of data is not quiet if no
/// instruction was loaded since the last reset. Nor is a scan of more bits than the register has, or a move into a
/// shift state.
pub fn examples_of_quiet_deeds()
    ensures quiet { AreQuietDeeds false example_chain quiet_deeds }
    ensures loaded { ¬ AreQuietDeeds false example_chain without_instruction }
    ensures since { ¬ AreQuietDeeds false example_chain reset_between }
    ensures bits { ¬ AreQuietDeeds false example_chain too_long }
    ensures shift { ¬ AreQuietDeeds false example_chain into_the_shift }
{}

/// A deed is quiet, or there is one reason why it is not, which is the first in the order of reasons.
pub fn a_deed_is_quiet_or_has_one_reason()
    ensures none { (loaded : Bool) (k : Chain) (d : Deed) (why : Unquiet) →
        IsQuietDeed loaded k d → IsUnquiet loaded k d why → ⊥ }
    ensures some { (loaded : Bool) (k : Chain) (d : Deed) → IsQuietDeed loaded k d ⊎ HasReason loaded k d }
    ensures one { (loaded : Bool) (k : Chain) (d : Deed) (why other : Unquiet) →
        IsReason loaded k d why → IsReason loaded k d other → why ≡ other }
{}

/// A play has a first deed within n turns that is not quiet exactly if it is not quiet for n turns.
pub fn a_play_is_quiet_or_has_a_first_deed_that_is_not()
    ensures none { (program : Played) (chosen : List ℕ) (n : ℕ) (run : List Desc) →
        IsQuietPlay program chosen n run → HasFirstUnquiet program chosen n run → ⊥ }
    ensures some { (program : Played) (chosen : List ℕ) (n : ℕ) (run : List Desc) →
        IsQuietPlay program chosen n run ⊎ HasFirstUnquiet program chosen n run }
{}

/// It is the first: for fewer turns the play is quiet, and for its turn and any more it is not. There is at most one,
/// whatever turns come after it.
pub fn the_first_deed_is_the_first()
    ensures fewer { (program : Played) (chosen : List ℕ) (run : List Desc) (turn piece n : ℕ) (why : Unquiet) →
        IsFirstUnquiet program chosen run turn piece why → n < turn → IsQuietPlay program chosen n run }
    ensures more { (program : Played) (chosen : List ℕ) (run : List Desc) (turn piece n : ℕ) (why : Unquiet) →
        IsFirstUnquiet program chosen run turn piece why → turn ≤ n → IsQuietPlay program chosen n run → ⊥ }
    ensures one { (program : Played) (chosen : List ℕ) (run : List Desc) (turn piece other_turn other_piece : ℕ)
        (why other : Unquiet) → IsFirstUnquiet program chosen run turn piece why →
        IsFirstUnquiet program chosen run other_turn other_piece other →
        AreSameDeed turn piece why other_turn other_piece other }
{}
