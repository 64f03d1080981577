//! Laws of the definitions.
ghost use Rattle.std.specs.Prelude.{◌≡◌, ◌<◌, ◌^◌, ◌↔◌, ◌++◌, ℕ, List, [], codes, map};
ghost use Rattle.tap_states.specs.declared.Tap.{Tap};
ghost use Rattle.tap_states.specs.declared.Tap.TheVariants.{Reset, Idle, DrSelect, DrShift};
ghost use Rattle.tap_states.specs.Tap.{tap_number};
ghost use Rattle.tap_states.specs.Path.{walk};
ghost use Rattle.wave_tool.specs.Items.{Item, Clocked};
ghost use Rattle.wave_tool.specs.Waves.{wave_text};
ghost use Rattle.wave_laws.specs.States.{tms_values, shown_after, LeadFromEach, LeadsFromReset};
ghost use Rattle.wave_laws.specs.Readers.{view_of, seen_clocks, states_before, state_levels, IsShown, AreShown, clocks_of, length_of};

/// A state is shown exactly if the clocks lead to it from each of the sixteen states. If there is no such state, it is
/// unknown, which is shown by 16.
pub fn a_state_is_shown_if_each_state_leads_to_it()
    ensures shown { (items : List Item) (tap : Tap) →
        (shown_after items ≡ tap_number tap) ↔ LeadFromEach (tms_values items) tap }
    ensures unknown { (items : List Item) →
        (shown_after items ≡ 16) ↔ ((tap : Tap) → LeadFromEach (tms_values items) tap → ⊥) }
{}

/// Five ones in a row lead to Test-Logic-Reset, whatever came before them, and the clocks since then to the state that
/// is shown. Once a state is shown, further clocks lead from it to the state that is shown after them.
pub fn a_state_that_is_shown_stays_known()
    ensures five_ones { (items : List Item) (tap : Tap) → LeadsFromReset (tms_values items) tap →
        shown_after items ≡ tap_number tap }
    ensures stays { (items more : List Item) (tap : Tap) → shown_after items ≡ tap_number tap →
        shown_after (items ++ more) ≡ tap_number (walk tap (tms_values more)) }
{}

/// Six clocks may show a state without five ones in a row, while the first five of them show none. Zeros alone show
/// none, nor do four ones, nor seven clocks that lead to one state from all but Run-Test/Idle, Update-DR and Update-IR.
/// A digit 4 is a clock with TMS 1, and 0 one with TMS 0.
pub fn examples_of_shown_states()
    ensures idle { shown_after (map Clocked (codes "040440")) ≡ tap_number Idle }
    ensures a_clock_before { shown_after (map Clocked (codes "04044")) ≡ 16 }
    ensures select { shown_after (map Clocked (codes "040444")) ≡ tap_number DrSelect }
    ensures shift { shown_after (map Clocked (codes "04044400")) ≡ tap_number DrShift }
    ensures five_ones { shown_after (map Clocked (codes "44444")) ≡ tap_number Reset }
    ensures four_ones { shown_after (map Clocked (codes "4444")) ≡ 16 }
    ensures four_ones_twice { shown_after (map Clocked (codes "444404444")) ≡ 16 }
    ensures all_but_three { shown_after (map Clocked (codes "4404044")) ≡ 16 }
    ensures zeros { shown_after (map Clocked (codes "0000000000000000")) ≡ 16 }
{}

/// A reader of the dump sees TCK rise for each clock, at its time and with its TMS, TDI and TDO, and for no other, and
/// how long all takes. When TCK rises for a clock, and at the end, the four wires of the state show in binary digits
/// the state to which the earlier clocks lead from each of the sixteen, and are unknown if there is none.
pub fn a_reader_sees_the_clocks()
    ensures clocks { (items : List Item) → length_of items < 2 ^ 64 →
        seen_clocks (view_of (wave_text items)) ≡ clocks_of 0 items }
    ensures time { (items : List Item) → length_of items < 2 ^ 64 →
        (view_of (wave_text items)).time ≡ length_of items }
    ensures before { (items : List Item) → length_of items < 2 ^ 64 →
        AreShown [] (tms_values items) (states_before (view_of (wave_text items))) }
    ensures end { (items : List Item) → length_of items < 2 ^ 64 →
        IsShown (state_levels (view_of (wave_text items))) (tms_values items) }
{}

/// Two lists of clocks and waits with one dump have the same clocks at the same times, and take as long.
pub fn a_dump_tells_its_clocks_and_waits()
    ensures clocks { (a b : List Item) → length_of a < 2 ^ 64 → length_of b < 2 ^ 64 → wave_text a ≡ wave_text b →
        clocks_of 0 a ≡ clocks_of 0 b }
    ensures time { (a b : List Item) → length_of a < 2 ^ 64 → length_of b < 2 ^ 64 → wave_text a ≡ wave_text b →
        length_of a ≡ length_of b }
{}
