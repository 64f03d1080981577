//! Single signs.
ghost use Rattle.std.specs.Prelude.{◌≡◌, ◌<◌};
ghost use Rattle.stapl_syntax.specs.Expressions.{level_of};
ghost use Rattle.stapl_syntax.specs.Reasons.{is_left_out, is_assign_sign};
ghost use Rattle.stapl_grammar.specs.Looks.{mark_number, join_number, is_mark, is_join, is_state, choice_of};
ghost use Rattle.stapl_grammar.specs.Reading.{operator_of, unary_of};
ghost use Rattle.stapl_grammar.specs.PartReading.{is_minus, is_character, is_hz};

use stapl_lexer::{BinOp, Function, JoinWord, Mark};
use stapl_syntax::{ItemChoice, Sign, UnOp};

// How tightly an operator binds: 1 is the tightest, 10 the loosest.
#[tactic(auto, unfolding(stapl_syntax::specs::Expressions::level_of))]
pub(crate) fn level(op: BinOp) -> u32
    ensures level { result ≡ level_of op }
    ensures above { 0 < result }
{
    match op {
        BinOp::Multiply | BinOp::Divide | BinOp::Remainder => 1,
        BinOp::Add | BinOp::Subtract => 2,
        BinOp::ShiftLeft | BinOp::ShiftRight => 3,
        BinOp::Less | BinOp::AtMost | BinOp::Greater | BinOp::AtLeast => 4,
        BinOp::Equal | BinOp::NotEqual => 5,
        BinOp::BitAnd => 6,
        BinOp::BitXor => 7,
        BinOp::BitOr => 8,
        BinOp::And => 9,
        BinOp::Or => 10,
    }
}

// The operator with two operands that a sign is.
#[tactic(auto, unfolding(crate::specs::Reading::operator_of))]
pub(crate) fn operator_of(sign: Sign) -> Option<BinOp>
    ensures { result ≡ operator_of sign }
{
    match sign {
        Sign::Operator(op) => Some(op),
        _ => None,
    }
}

// The operator with one operand that a sign is.
#[tactic(auto, unfolding(crate::specs::Reading::unary_of))]
pub(crate) fn unary_of(sign: Sign) -> Option<UnOp>
    ensures { result ≡ unary_of sign }
{
    match sign {
        Sign::Operator(BinOp::Subtract) => Some(UnOp::Negate),
        Sign::Mark(Mark::Tilde) => Some(UnOp::Complement),
        Sign::Mark(Mark::Exclamation) => Some(UnOp::Not),
        _ => None,
    }
}

// The place of a mark among the marks.
#[tactic(auto, unfolding(crate::specs::Looks::mark_number))]
fn mark_number(mark: Mark) -> u8
    ensures { result ≡ mark_number mark }
{
    match mark {
        Mark::Tilde => 0,
        Mark::Exclamation => 1,
        Mark::LeftRound => 2,
        Mark::RightRound => 3,
        Mark::LeftSquare => 4,
        Mark::RightSquare => 5,
        Mark::Dots => 6,
        Mark::Comma => 7,
        Mark::Equals => 8,
        Mark::Colon => 9,
    }
}

// The place of a word inside statements among those words.
#[tactic(auto, unfolding(crate::specs::Looks::join_number))]
fn join_number(word: JoinWord) -> u8
    ensures { result ≡ join_number word }
{
    match word {
        JoinWord::Capture => 0,
        JoinWord::Compare => 1,
        JoinWord::Cycles => 2,
        JoinWord::Optional => 3,
        JoinWord::Recommended => 4,
        JoinWord::Step => 5,
        JoinWord::Then => 6,
        JoinWord::To => 7,
        JoinWord::Usec => 8,
        JoinWord::Uses => 9,
    }
}

// Whether a sign is this mark.
#[tactic(auto, unfolding(crate::specs::Looks::is_mark))]
pub(crate) fn is_mark(sign: Sign, mark: Mark) -> bool
    ensures { result ≡ is_mark sign mark }
{
    match sign {
        Sign::Mark(own) => mark_number(own) == mark_number(mark),
        _ => false,
    }
}

// Whether a sign is this word.
#[tactic(auto, unfolding(crate::specs::Looks::is_join))]
pub(crate) fn is_join(sign: Sign, word: JoinWord) -> bool
    ensures { result ≡ is_join sign word }
{
    match sign {
        Sign::Join(own) => join_number(own) == join_number(word),
        _ => false,
    }
}

// Whether a sign is a minus.
#[tactic(auto, unfolding(crate::specs::PartReading::is_minus))]
pub(crate) fn is_minus(sign: Sign) -> bool
    ensures { result ≡ is_minus sign }
{
    matches!(sign, Sign::Operator(BinOp::Subtract))
}

// Whether a sign is CHR$.
#[tactic(auto, unfolding(crate::specs::PartReading::is_character))]
pub(crate) fn is_character(sign: Sign) -> bool
    ensures { result ≡ is_character sign }
{
    matches!(sign, Sign::Function(Function::Character))
}

// Whether a sign is a state.
#[tactic(auto, unfolding(crate::specs::Looks::is_state))]
pub(crate) fn is_state(sign: Sign) -> bool
    ensures { result ≡ is_state sign }
{
    matches!(sign, Sign::State(_))
}

// Whether a sign is the word HZ, which is no reserved word.
#[tactic(auto, unfolding(crate::specs::PartReading::is_hz))]
pub(crate) fn is_hz(sign: Sign) -> bool
    ensures { result ≡ is_hz sign }
{
    match sign {
        Sign::Name(v) => v.bytes() == b"HZ".as_slice(),
        _ => false,
    }
}

// The choice of an item that a sign is.
#[tactic(auto, unfolding(crate::specs::Looks::choice_of))]
pub(crate) fn choice_of(sign: Sign) -> Option<ItemChoice>
    ensures { result ≡ choice_of sign }
{
    match sign {
        Sign::Join(JoinWord::Optional) => Some(ItemChoice::Optional),
        Sign::Join(JoinWord::Recommended) => Some(ItemChoice::Recommended),
        _ => None,
    }
}

// Whether a sign is a word that this profile leaves out.
#[tactic(auto, unfolding(stapl_syntax::specs::Reasons::is_left_out))]
pub(crate) fn is_left_out(sign: Sign) -> bool
    ensures { result ≡ is_left_out sign }
{
    match sign {
        Sign::LeftOutStatement => true,
        Sign::LeftOutWord => true,
        _ => false,
    }
}

// Whether a sign may stand after the first name of an assignment.
#[tactic(auto, unfolding(stapl_syntax::specs::Reasons::is_assign_sign))]
pub(crate) fn is_assign_sign(sign: Sign) -> bool
    ensures { result ≡ is_assign_sign sign }
{
    match sign {
        Sign::Mark(Mark::Equals) => true,
        Sign::Mark(Mark::LeftSquare) => true,
        _ => false,
    }
}
