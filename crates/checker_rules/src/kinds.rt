//! The kinds of expressions, and whether the operands of a statement have the kinds that it wants (JESD71, expressions
//! and Boolean arrays).
ghost use Rattle.std.specs.Prelude.{◌≡◌, if◌then◌else◌};
ghost use Rattle.std.specs.List.{list_all};
ghost use Rattle.std.specs.Box.{box_value};
ghost use Rattle.std.specs.Option.{option_map};
ghost use Rattle.stapl_syntax.specs.Trees.{expr_tree, array_tree, item_tree, part_tree, export_tree, compare_tree, scan_tree, body_tree};
ghost use Rattle.stapl_syntax.specs.Kinds.{is_int, is_bit, is_bit_alone, scalar_kind, element_kind, is_bit_array, is_integer, if_ints, if_bits, if_alike, if_equal, binary_kind, unary_kind, number_kind, indexed_kind, expr_kind, is_array, wants_int, wants_bit, has_kind, suits, part_suits, export_suits, compare_suits, if_given, operands_suit};
ghost use Rattle.stapl_syntax.specs.Mentions.{item_name, procedures_named};
ghost use Rattle.stapl_syntax.specs.Rules.{is_well_kinded};
ghost use Rattle.checker_rules.specs.Scopes.{known_of};
ghost use Rattle.checker_rules.specs.Mentioned.{is_no_data};

use crate::scope::Scope;
use stapl_names::{
    VariableKinds, element_kind, expr_kind, is_array, is_bit, is_bit_array, is_int, is_integer,
    scalar_kind,
};
use stapl_syntax::{ArrayExpr, Body, Compare, Exported, Expr, Item, Kind, PrintPart, Scan};

fn wants_int(scope: &Scope, expr: &Expr) -> bool
    ensures { result ≡ wants_int (known_of scope.now).kind (expr_tree expr.now) }
{
    is_int(expr_kind(scope, expr))
}

fn wants_bit(scope: &Scope, expr: &Expr) -> bool
    ensures { result ≡ wants_bit (known_of scope.now).kind (expr_tree expr.now) }
{
    is_bit(expr_kind(scope, expr))
}

fn has_kind(scope: &Scope, expr: &Expr) -> bool
    ensures { result ≡ has_kind (known_of scope.now).kind (expr_tree expr.now) }
{
    expr_kind(scope, expr).is_some()
}

// Whether an expression that may be missing is an integer where it is given.
fn is_int_if_given(scope: &Scope, expr: &Option<Box<Expr>>) -> bool
    ensures { result ≡ if_given (wants_int (known_of scope.now).kind) (option_map (λ e. expr_tree (box_value e)) expr.now) }
{
    match expr {
        Some(expr) => wants_int(scope, expr),
        None => true,
    }
}

fn is_array_if_given(scope: &Scope, array: &Option<Box<ArrayExpr>>) -> bool
    ensures { result ≡ if_given (is_array (known_of scope.now).kind) (option_map (λ a. array_tree (box_value a)) array.now) }
{
    match array {
        Some(array) => is_array(scope, array),
        None => true,
    }
}

// Whether something of the kind of an expression may be given to a variable of a kind.
fn suits(target: Option<Kind>, given: Option<Kind>) -> bool
    ensures { result ≡ suits target given }
{
    match target {
        Some(Kind::Int) => is_int(given),
        Some(Kind::Bool) => is_bit(given),
        _ => false,
    }
}

fn part_suits(scope: &Scope, part: &PrintPart) -> bool
    ensures { result ≡ part_suits (known_of scope.now).kind (part_tree part.now) }
{
    match part {
        PrintPart::Text(_) => true,
        PrintPart::Value(expr) => has_kind(scope, expr),
        PrintPart::Character(expr) => wants_int(scope, expr),
    }
}

fn parts_suit(scope: &Scope, parts: &[PrintPart]) -> bool
    ensures { result ≡ list_all (λ part. part_suits (known_of scope.now).kind (part_tree part)) parts.now }
{
    parts.iter().all(|part| part_suits(scope, part))
}

fn export_suits(scope: &Scope, exported: &Exported) -> bool
    ensures { result ≡ export_suits (known_of scope.now).kind (export_tree exported.now) }
{
    match exported {
        Exported::Value(expr) => has_kind(scope, expr),
        Exported::Array(array) => is_array(scope, array),
    }
}

fn compare_suits(scope: &Scope, compare: &Option<Box<Compare>>) -> bool
    ensures { result ≡ if_given (compare_suits (known_of scope.now).kind) (option_map (λ c. compare_tree (box_value c)) compare.now) }
{
    match compare {
        Some(compare) => {
            is_array(scope, &compare.expected)
                && is_array(scope, &compare.mask)
                && wants_bit(scope, &compare.cell)
        }
        None => true,
    }
}

fn scan_suits(scope: &Scope, scan: &Scan) -> bool
    ensures { result ≡ operands_suit (known_of scope.now).kind (scan_tree scan.now) }
{
    wants_int(scope, &scan.length)
        && is_array(scope, &scan.source)
        && is_array_if_given(scope, &scan.target)
        && compare_suits(scope, &scan.compare)
}

// Whether no rule of kinds is broken in the expressions and variables of a statement.
#[tactic(auto, using(stapl_syntax::proofs::MappedLists::mapped_lists))]
fn operands_suit(scope: &Scope, body: &Body) -> bool
    ensures { result ≡ operands_suit (known_of scope.now).kind (body_tree body.now) }
{
    match body {
        Body::Assign(name, expr) => suits(scalar_kind(scope.kind(name)), expr_kind(scope, expr)),
        Body::AssignElement(name, index, expr) => {
            wants_int(scope, index) && suits(element_kind(scope.kind(name)), expr_kind(scope, expr))
        }
        Body::AssignArray(name, array) => {
            is_bit_array(scope.kind(name)) && is_array(scope, array)
        }
        Body::AssignRange(name, high, low, array) => {
            is_bit_array(scope.kind(name))
                && wants_int(scope, high)
                && wants_int(scope, low)
                && is_array(scope, array)
        }
        Body::If(condition, body) => wants_bit(scope, condition) && operands_suit(scope, body),
        Body::For(name, from, to, step) => {
            is_integer(scope.kind(name))
                && wants_int(scope, from)
                && wants_int(scope, to)
                && is_int_if_given(scope, step)
        }
        Body::Next(name) => is_integer(scope.kind(name)),
        Body::Push(expr) => has_kind(scope, expr),
        Body::Pop(cell) => has_kind(scope, cell),
        Body::Print(parts) => parts_suit(scope, parts.as_slice()),
        Body::Export(_, exported) => export_suits(scope, exported),
        Body::Exit(code) => wants_int(scope, code),
        Body::Scan(scan) => scan_suits(scope, scan),
        Body::Pad(_, length, bits) => wants_int(scope, length) && is_array_if_given(scope, bits),
        Body::WaitCycles(_, cycles, usec, _) => {
            wants_int(scope, cycles) && is_int_if_given(scope, usec)
        }
        Body::WaitUsec(_, usec, _) => wants_int(scope, usec),
        Body::Frequency(hertz) => is_int_if_given(scope, hertz),
        _ => true,
    }
}

// Whether none of the items is a DATA block.
fn has_no_data_item(scope: &Scope, items: &[Item]) -> bool
    ensures { result ≡ list_all (λ item. is_no_data (known_of scope.now) (item_name (item_tree item))) items.now }
{
    items.iter().all(|item| !scope.is_data(&item.procedure))
}

// Whether no DATA block stands where a statement names a procedure.
#[tactic(auto, using(stapl_syntax::proofs::MappedLists::mapped_lists))]
fn names_no_data(scope: &Scope, body: &Body) -> bool
    ensures { result ≡ list_all (is_no_data (known_of scope.now)) (procedures_named (body_tree body.now)) }
{
    match body {
        Body::Action(_, _, items) => has_no_data_item(scope, items.as_slice()),
        Body::Call(name) => !scope.is_data(name),
        Body::If(_, body) => names_no_data(scope, body),
        _ => true,
    }
}

/// Whether each procedure that a statement names is one, and its operands have the kinds that it wants.
pub(crate) fn is_well_kinded(scope: &Scope, body: &Body) -> bool
    ensures { result ≡ is_well_kinded (known_of scope.now) (body_tree body.now) }
{
    names_no_data(scope, body) && operands_suit(scope, body)
}
