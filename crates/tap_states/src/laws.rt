//! Laws of the definitions.
ghost use Rattle.std.specs.Prelude.{◌≡◌, Bool, List, []};
ghost use Rattle.tap_states.specs.declared.Tap.{Tap};
ghost use Rattle.tap_states.specs.declared.Tap.TheVariants.{Reset};
ghost use Rattle.tap_states.specs.Tap.{tap_number};
ghost use Rattle.tap_states.specs.Path.{five_ones, path_of, IsPath, Leads};
ghost use Rattle.tap_states.specs.PathTable.{path_in_table};

/// Five clocks with TMS 1 lead to reset from each of the sixteen states (IEEE 1149.1, TAP controller).
pub fn five_ones_lead_to_reset()
    ensures { (from : Tap) → Leads from five_ones Reset }
{}

/// There is at most one path from one state to another.
pub fn there_is_at_most_one_path()
    ensures { (from to : Tap) (bits other : List Bool) → IsPath from to bits → IsPath from to other → bits ≡ other }
{}

/// A path leads from its first state to its last one.
pub fn a_path_leads_there()
    ensures { (from to : Tap) (bits : List Bool) → IsPath from to bits → Leads from bits to }
{}

/// The path from a state to itself is empty, but for reset.
pub fn the_path_to_itself_is_empty()
    ensures { (state : Tap) → ¬ (state ≡ Reset) → IsPath state state [] }
{}

/// The path from one state to another, by the state diagram alone, is the path.
pub fn the_definition_gives_the_path()
    ensures { (from to : Tap) → IsPath from to (path_of from to) }
{}

/// The table of the code holds the paths.
pub fn the_table_holds_the_paths()
    ensures { (from to : Tap) → path_in_table from to ≡ path_of from to }
{}

/// Two states with one number are one state.
pub fn numbers_tell_states_apart()
    ensures { (state other : Tap) → tap_number state ≡ tap_number other → state ≡ other }
{}
