//! Laws of the definitions.
ghost use Rattle.code_rules.specs.Leads.{FirstTurnsBegin, TurnsBeginAtTurns, TurnsLeadWell};
ghost use Rattle.code_rules.specs.Rules.{NamesFirstBreak, ValidBreaksNone};

/// A refusal of a code in range names an instruction exactly if it is the first one that breaks a rule.
pub fn a_refusal_names_the_first_break()
    ensures { NamesFirstBreak }
{}

/// A code in range is valid exactly if no instruction breaks a rule.
pub fn a_valid_code_breaks_no_rule()
    ensures { ValidBreaksNone }
{}

/// In each play of a valid code in range the first turn begins where a procedure does, and each turn begins at a Turn.
/// It leads to a Turn of its own procedure, to the beginning of a procedure, or to what follows a Call of its own.
pub fn where_turns_lead()
    ensures first { FirstTurnsBegin }
    ensures begin { TurnsBeginAtTurns }
    ensures lead { TurnsLeadWell }
{}
