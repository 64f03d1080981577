//! Laws of values: what operators give, in the words of arithmetic and of bits.
ghost use Rattle.std.specs.Prelude.{◌≡◌, ◌≢◌, ◌<◌, ◌≤◌, ◌⊎◌, ◌^◌, ℕ, suc, ℤ, pos, negsuc, ◌+ℤ◌, ◌-ℤ◌, ◌*ℤ◌, ◌<ℤ◌, Bool};
ghost use Rattle.std.specs.Prelude.{true, false, List, [], ◌∷◌, ◌++◌, length, Some, slice_get};
ghost use Rattle.stapl_lexer.specs.declared.terminal.BinOp.{BinOp};
ghost use Rattle.stapl_lexer.specs.declared.terminal.BinOp.TheVariants.{Add, Subtract, Multiply, Divide, Remainder};
ghost use Rattle.stapl_lexer.specs.declared.terminal.BinOp.TheVariants.{ShiftLeft, ShiftRight, BitAnd, BitOr, BitXor};
ghost use Rattle.stapl_lexer.specs.declared.terminal.BinOp.TheVariants.{Less, AtMost, Greater, AtLeast, Equal};
ghost use Rattle.stapl_lexer.specs.declared.terminal.BinOp.TheVariants.{NotEqual, And, Or};
ghost use Rattle.stapl_syntax.specs.declared.signs.UnOp.{UnOp};
ghost use Rattle.stapl_syntax.specs.declared.signs.UnOp.TheVariants.{Negate, Complement, Not};
ghost use Rattle.stapl_syntax.specs.Trees.{ExprTree, number, scalar, element, unary, binary, abs, int};
ghost use Rattle.stapl_syntax.specs.Trees.{PartTree, character};
ghost use Rattle.stapl_syntax.specs.Trees.{literal, whole, range, of_int};
ghost use Rattle.stapl_meaning.specs.declared.events.RunFault.TheVariants.{ShiftCount, BadChar};
ghost use Rattle.stapl_meaning.specs.declared.profiles.Profile.TheVariants.{Two};
ghost use Rattle.stapl_meaning.specs.declared.values.Held.{Held};
ghost use Rattle.stapl_meaning.specs.declared.values.Held.TheVariants.{Bits};
ghost use Rattle.stapl_meaning.specs.declared.values.Held.TheVariants as held;
ghost use Rattle.stapl_meaning.specs.declared.values.Value.{Value};
ghost use Rattle.stapl_meaning.specs.declared.values.Value.TheVariants.{Int, Bit};
ghost use Rattle.stapl_meaning.specs.declared.values.ValueKind.{ValueKind};
ghost use Rattle.stapl_meaning.specs.declared.values.ValueKind.TheVariants as kinds;
ghost use Rattle.stapl_meaning.specs.Values.{Known, Faults, combined, signed, absolute, source_of, source_bits};
ghost use Rattle.stapl_meaning.specs.Values.{bits_between, Lookup, value_of};
ghost use Rattle.stapl_meaning.specs.Operands.{character_of};
ghost use Rattle.stapl_meaning.specs.Effects.{joined};
ghost use Rattle.meaning_laws.specs.Numbers.{FitsInteger, IsWrapped, IsDivided, IsRoundedDown, IsBelow};
ghost use Rattle.meaning_laws.specs.Numbers.{least_integer, minus_one};
ghost use Rattle.meaning_laws.specs.Bits.{HasBit, HasBitsWhere};
ghost use Rattle.meaning_laws.specs.Sides.{TakesSides, TakesOperand};
ghost use Rattle.meaning_laws.specs.Outcomes.{GivesInteger, GivesDivision, GivesTruth, HasTable};

/// A sum, a difference, a product and a negated integer are the exact result, wrapped around to the one integer of 32
/// bits that is congruent to it.
pub fn exact_results_wrap_around()
    ensures sum { (a b : ℤ) → GivesInteger (combined Add (Int a) (Int b)) (IsWrapped (a +ℤ b)) }
    ensures difference { (a b : ℤ) → GivesInteger (combined Subtract (Int a) (Int b)) (IsWrapped (a -ℤ b)) }
    ensures product { (a b : ℤ) → GivesInteger (combined Multiply (Int a) (Int b)) (IsWrapped (a *ℤ b)) }
    ensures negated { (a : ℤ) → GivesInteger (signed Negate (Int a)) (IsWrapped (pos 0 -ℤ a)) }
    ensures one { (exact y z : ℤ) → IsWrapped exact y → IsWrapped exact z → y ≡ z }
{}

/// A quotient is rounded toward zero, a remainder is what it leaves, and the one quotient that does not fit, that of
/// -2147483648 by -1, wraps around to -2147483648.
pub fn a_quotient_leaves_its_remainder()
    ensures division { (a b : ℤ) → FitsInteger a → b ≢ pos 0 → (a ≡ least_integer → b ≢ minus_one) → GivesDivision a b }
    ensures wraps { (combined Divide (Int least_integer) (Int minus_one) ≡ Known (Int least_integer)) ×
        (combined Remainder (Int least_integer) (Int minus_one) ≡ Known (Int (pos 0))) }
    ensures one { (a b quotient remainder other rest : ℤ) → b ≢ pos 0 → IsDivided a b quotient remainder →
        IsDivided a b other rest → (quotient ≡ other) × (remainder ≡ rest) }
{}

/// A shift to the left multiplies by a power of two and wraps around, one to the right divides by it and rounds down,
/// and a count below 0 or above 31 is the fault ShiftCount.
pub fn shifts_go_by_powers_of_two()
    ensures to_left { (a : ℤ) (n : ℕ) → n < 32 →
        GivesInteger (combined ShiftLeft (Int a) (Int (pos n))) (IsWrapped (a *ℤ pos (2 ^ n))) }
    ensures to_right { (a : ℤ) (n : ℕ) → n < 32 →
        GivesInteger (combined ShiftRight (Int a) (Int (pos n))) (IsRoundedDown a (2 ^ n)) }
    ensures outside { (a n : ℤ) → (n <ℤ pos 0) ⊎ (pos 31 <ℤ n) →
        (combined ShiftLeft (Int a) (Int n) ≡ Faults ShiftCount) ×
        (combined ShiftRight (Int a) (Int n) ≡ Faults ShiftCount) }
    ensures one { (a y z : ℤ) (divisor : ℕ) → IsRoundedDown a divisor y → IsRoundedDown a divisor z → y ≡ z }
{}

/// Two integers are compared by their order: one is below another if something above 0 is to be added to reach it.
pub fn integers_are_compared_by_their_order()
    ensures less { (a b : ℤ) → GivesTruth (combined Less (Int a) (Int b)) (IsBelow a b) }
    ensures at_most { (a b : ℤ) → GivesTruth (combined AtMost (Int a) (Int b)) (IsBelow a b ⊎ (a ≡ b)) }
    ensures greater { (a b : ℤ) → GivesTruth (combined Greater (Int a) (Int b)) (IsBelow b a) }
    ensures at_least { (a b : ℤ) → GivesTruth (combined AtLeast (Int a) (Int b)) (IsBelow b a ⊎ (a ≡ b)) }
    ensures equal { (a b : ℤ) → GivesTruth (combined Equal (Int a) (Int b)) (a ≡ b) }
    ensures not_equal { (a b : ℤ) → GivesTruth (combined NotEqual (Int a) (Int b)) (a ≢ b) }
{}

/// The operators between two bits, and `!` before one, have their truth tables.
pub fn operators_of_bits_have_their_tables()
    ensures both { HasTable BitAnd true false false false }
    ensures either { HasTable BitOr true true true false }
    ensures just_one { HasTable BitXor false true true false }
    ensures and { HasTable And true false false false }
    ensures or { HasTable Or true true true false }
    ensures equal { HasTable Equal true false false true }
    ensures not_equal { HasTable NotEqual false true true false }
    ensures not { (signed Not (Bit true) ≡ Known (Bit false)) × (signed Not (Bit false) ≡ Known (Bit true)) }
{}

/// Each of the 32 bits of `a & b`, `a | b`, `a ^ b` and `~a` is 1 exactly if that bit is 1 of both, of one or both, of
/// just one of a and b, or not of a; and no two integers have the same bits.
pub fn operators_of_integers_go_bit_by_bit()
    ensures both { (a b : ℤ) → FitsInteger a → FitsInteger b →
        GivesInteger (combined BitAnd (Int a) (Int b)) (λ z. HasBitsWhere z (λ i. HasBit i a × HasBit i b)) }
    ensures either { (a b : ℤ) → FitsInteger a → FitsInteger b →
        GivesInteger (combined BitOr (Int a) (Int b)) (λ z. HasBitsWhere z (λ i. HasBit i a ⊎ HasBit i b)) }
    ensures just_one { (a b : ℤ) → FitsInteger a → FitsInteger b →
        GivesInteger (combined BitXor (Int a) (Int b))
        (λ z. HasBitsWhere z (λ i. (HasBit i a × ¬ HasBit i b) ⊎ (¬ HasBit i a × HasBit i b))) }
    ensures turned { (a : ℤ) → FitsInteger a →
        GivesInteger (signed Complement (Int a)) (λ z. HasBitsWhere z (λ i. ¬ HasBit i a)) }
    ensures one { (y z : ℤ) → FitsInteger z → HasBitsWhere y (λ i. HasBit i z) → y ≡ z }
{}

/// ABS of an integer is the integer without its sign, except that ABS of -2147483648 wraps around to -2147483648.
pub fn an_absolute_value_has_no_sign()
    ensures positive { (n : ℕ) → FitsInteger (pos n) → absolute (Int (pos n)) ≡ Known (Int (pos n)) }
    ensures negative { (n : ℕ) → suc n < 2147483648 → absolute (Int (negsuc n)) ≡ Known (Int (pos (suc n))) }
    ensures wraps { absolute (Int least_integer) ≡ Known (Int least_integer) }
{}

/// INT of an array is the integer with its first 32 bits, of which missing ones are 0, BOOL of an integer is its 32
/// bits, and INT of these is that integer again.
pub fn an_array_and_an_integer_have_the_same_bits()
    ensures literal { (look : Lookup) (variables : List Held) (kind : ValueKind) (bits : List Bool) →
        GivesInteger (value_of look variables kind (int (literal bits)))
        (λ z. HasBitsWhere z (λ i. slice_get bits i ≡ Some true)) }
    ensures whole { (look : Lookup) (variables : List Held) (kind : ValueKind) (name : List ℕ) (bits : List Bool) →
        slice_get variables (look.variable name) ≡ Some (Bits bits) →
        GivesInteger (value_of look variables kind (int (whole name)))
        (λ z. HasBitsWhere z (λ i. slice_get bits i ≡ Some true)) }
    ensures range { (look : Lookup) (variables : List Held) (kind : ValueKind) (name : List ℕ) (first second : ExprTree)
        (x y : Value) (bits : List Bool) → value_of look variables kinds.Int first ≡ Known x →
        value_of look variables kinds.Int second ≡ Known y →
        bits_between Two (slice_get variables (look.variable name)) x y ≡ Known bits →
        GivesInteger (value_of look variables kind (int (range name first second)))
        (λ z. HasBitsWhere z (λ i. slice_get bits i ≡ Some true)) }
    ensures to_bits { (look : Lookup) (variables : List Held) (a : ExprTree) (z : ℤ) → FitsInteger z →
        (bits : List Bool) × (source_bits variables (source_of look (of_int a)) (Int z ∷ []) ≡ Known bits) ×
        (length bits ≡ 32) × HasBitsWhere z (λ i. slice_get bits i ≡ Some true) }
    ensures back { (look : Lookup) (variables : List Held) (kind : ValueKind) (a : ExprTree) (z : ℤ) → FitsInteger z →
        value_of look variables kinds.Int a ≡ Known (Int z) →
        value_of look variables kind (int (of_int a)) ≡ Known (Int z) }
{}

/// CHR$ of a number from 0 to 255 is printed as that one byte, and of any other number it is the fault BadChar.
pub fn a_character_is_one_byte()
    ensures byte { (parts : List PartTree) (e : ExprTree) (n : ℕ) (values : List Value) (text : List ℕ) → n ≤ 255 →
        joined parts values ≡ Known text → joined (character e ∷ parts) (Int (pos n) ∷ values) ≡ Known (n ∷ text) }
    ensures other { (z : ℤ) → (z <ℤ pos 0) ⊎ (pos 255 <ℤ z) → character_of (Int z) ≡ Faults BadChar }
{}

/// An expression has the value of its operator at the values of its sides, each taken as an integer or as a bit by the
/// table of kinds.
pub fn an_expression_has_the_value_of_its_operator()
    ensures between { (look : Lookup) (variables : List Held) (kind side : ValueKind) (op : BinOp) (a b : ExprTree)
        (x y : Value) → TakesSides look.kind op a b side → value_of look variables side a ≡ Known x →
        value_of look variables side b ≡ Known y → value_of look variables kind (binary op a b) ≡ combined op x y }
    ensures before { (look : Lookup) (variables : List Held) (kind side : ValueKind) (op : UnOp) (a : ExprTree)
        (x : Value) → TakesOperand op side → value_of look variables side a ≡ Known x →
        value_of look variables kind (unary op a) ≡ signed op x }
    ensures of_absolute { (look : Lookup) (variables : List Held) (kind : ValueKind) (a : ExprTree) (x : Value) →
        value_of look variables kinds.Int a ≡ Known x → value_of look variables kind (abs a) ≡ absolute x }
{}

/// A number is itself, and where a bit is wanted, 0 and 1 are the bits. A variable has the value that it holds, and an
/// element of an array the value that has as many before it as the index says.
pub fn operands_have_the_values_that_they_hold()
    ensures number { (look : Lookup) (variables : List Held) (z : ℤ) →
        value_of look variables kinds.Int (number z) ≡ Known (Int z) }
    ensures bits { (look : Lookup) (variables : List Held) →
        (value_of look variables kinds.Bit (number (pos 0)) ≡ Known (Bit false)) ×
        (value_of look variables kinds.Bit (number (pos 1)) ≡ Known (Bit true)) }
    ensures integer { (look : Lookup) (variables : List Held) (kind : ValueKind) (name : List ℕ) (z : ℤ) →
        slice_get variables (look.variable name) ≡ Some (held.Int z) →
        value_of look variables kind (scalar name) ≡ Known (Int z) }
    ensures boolean { (look : Lookup) (variables : List Held) (kind : ValueKind) (name : List ℕ) (bit : Bool) →
        slice_get variables (look.variable name) ≡ Some (held.Bit bit) →
        value_of look variables kind (scalar name) ≡ Known (Bit bit) }
    ensures of_integers { (look : Lookup) (variables : List Held) (kind : ValueKind) (name : List ℕ) (e : ExprTree)
        (before after : List ℤ) (z : ℤ) →
        slice_get variables (look.variable name) ≡ Some (held.Ints (before ++ z ∷ after)) →
        value_of look variables kinds.Int e ≡ Known (Int (pos (length before))) →
        value_of look variables kind (element name e) ≡ Known (Int z) }
    ensures of_bits { (look : Lookup) (variables : List Held) (kind : ValueKind) (name : List ℕ) (e : ExprTree)
        (before after : List Bool) (bit : Bool) →
        slice_get variables (look.variable name) ≡ Some (Bits (before ++ bit ∷ after)) →
        value_of look variables kinds.Int e ≡ Known (Int (pos (length before))) →
        value_of look variables kind (element name e) ≡ Known (Bit bit) }
{}
