//! Why symbols are no statement.
use crate::cursor::Cursor;
use crate::looks::is_left_out;
use stapl_lexer::Reason;
use stapl_syntax::Sign;

impl<'a> Cursor<'a> {
    ghost use Rattle.std.specs.Prelude.{◌≡◌};
    ghost use Rattle.stapl_syntax.specs.Reasons.{begins_statement, after_label, is_unknown, holds_left_out};
    ghost use Rattle.stapl_grammar.specs.Answers.{reason_of};

    // Whether a statement begins with this sign, with the rest after it.
    #[tactic(auto, unfolding(stapl_syntax::specs::Reasons::begins_statement))]
    fn begins_statement(&self, first: Sign) -> bool
        ensures { result ≡ begins_statement first self.now }
    {
        match first {
            Sign::Outer(_) => true,
            Sign::Inner(_) => true,
            Sign::Simple(_) => true,
            Sign::If => true,
            Sign::Port(_) => true,
            Sign::LeftOutStatement => true,
            Sign::Name(_) => self.begins_assignment(),
            _ => false,
        }
    }

    // Whether something stands after the label, and it begins no statement.
    #[tactic(auto, using(crate::proofs::ReasonSteps::after_is, crate::proofs::ReasonSteps::unknown_is, crate::proofs::ReasonSteps::unknown_nothing))]
    fn is_unknown(&self) -> bool
        ensures { result ≡ is_unknown (after_label self.now) }
    {
        let mut ahead = self.ahead();
        let _ = ahead.label();
        match ahead.next() {
            Some(first) => !ahead.begins_statement(first),
            None => false,
        }
    }

    // Whether a word stands there that this profile leaves out.
    #[tactic(auto, using(crate::proofs::ReasonSteps::left_out_here, crate::proofs::ReasonSteps::left_out_after, crate::proofs::ReasonSteps::left_out_nothing))]
    fn holds_left_out(&self) -> bool
        ensures { result ≡ holds_left_out self.now }
    {
        let mut ahead = self.ahead();
        'symbols: while let Some(first) = ahead.next() {
            if is_left_out(first) {
                return true;
            }
        }
        false
    }

    // The smallest reason why the symbols are no statement, where they are none.
    #[tactic(auto, unfolding(crate::specs::Answers::reason_of))]
    pub(crate) fn reason(&self) -> Reason
        ensures { result ≡ reason_of self.now }
    {
        if self.is_unknown() {
            Reason::UnknownStatement
        } else if self.holds_left_out() {
            Reason::Unsupported
        } else {
            Reason::Syntax
        }
    }
}
