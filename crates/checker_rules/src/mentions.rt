//! Which names of a statement are not declared, or not visible (JESD71, variables, CALL, USES, ACTION, GOTO).
ghost use Rattle.std.specs.Prelude.{◌≡◌, fold};
ghost use Rattle.std.specs.List.{list_any};
ghost use Rattle.std.specs.Box.{box_value};
ghost use Rattle.std.specs.Option.{option_map};
ghost use Rattle.stapl_syntax.specs.Trees.{expr_tree, array_tree, part_tree, export_tree, item_tree, compare_tree, scan_tree, body_tree};
ghost use Rattle.stapl_syntax.specs.Mentions.{expr_variables, array_variables, part_variables, export_variables, compare_variables, variables_named, item_name, procedures_named, blocks_used, labels_named};
ghost use Rattle.stapl_syntax.specs.Rules.{names_undefined, names_hidden};
ghost use Rattle.checker_rules.specs.Scopes.{known_of};
ghost use Rattle.checker_rules.specs.Mentioned.{is_no_block, is_no_label, no_faults, faults_of, joined, faults_in, given_faults, parts_joined};

use crate::scope::Scope;
use stapl_lexer::Name;
use stapl_syntax::{ArrayExpr, Body, Compare, Exported, Expr, Found, Item, PrintPart, Scan};

/// What is wrong with some names.
#[derive(Clone, Copy)]
pub(crate) struct NameFaults {
    /// Whether no piece declares one of them.
    pub undefined: bool,
    /// Whether only other blocks declare one of them.
    pub hidden: bool,
}

impl NameFaults {
    /// Nothing.
    fn none() -> NameFaults
        ensures { result ≡ no_faults }
    {
        NameFaults {
            undefined: false,
            hidden: false,
        }
    }

    /// What is wrong with these or those names.
    #[tactic(auto, unfolding(crate::specs::Mentioned::joined))]
    fn and(self, others: NameFaults) -> NameFaults
        ensures { result ≡ joined self others }
    {
        NameFaults {
            undefined: self.undefined || others.undefined,
            hidden: self.hidden || others.hidden,
        }
    }
}

// What is wrong with the name of a variable.
fn variable_faults(scope: &Scope, name: &Name) -> NameFaults
    ensures { result ≡ faults_of ((known_of scope.now).found name.now) }
{
    let found = scope.found(name);
    NameFaults {
        undefined: matches!(found, Found::Absent),
        hidden: matches!(found, Found::Hidden),
    }
}

// What is wrong with the variables of an expression.
#[cycle(mentions)]
#[tactic(auto, using(crate::proofs::MentionLemmas::joined_names))]
fn expr_faults(scope: &Scope, expr: &Expr) -> NameFaults
    ensures { result ≡ faults_in (known_of scope.now) (expr_variables (expr_tree expr.now)) }
{
    match expr {
        Expr::Number(_) => NameFaults::none(),
        Expr::Scalar(name) => variable_faults(scope, name),
        Expr::Element(name, index) => variable_faults(scope, name).and(expr_faults(scope, index)),
        Expr::Unary(_, operand) => expr_faults(scope, operand),
        Expr::Binary(_, left, right) => expr_faults(scope, left).and(expr_faults(scope, right)),
        Expr::Abs(operand) => expr_faults(scope, operand),
        Expr::Int(array) => array_faults(scope, array),
    }
}

// What is wrong with the variables of an expression for a list of bits.
#[cycle(mentions)]
#[tactic(auto, using(crate::proofs::MentionLemmas::joined_names))]
fn array_faults(scope: &Scope, array: &ArrayExpr) -> NameFaults
    ensures { result ≡ faults_in (known_of scope.now) (array_variables (array_tree array.now)) }
{
    match array {
        ArrayExpr::Literal(_) => NameFaults::none(),
        ArrayExpr::Whole(name) => variable_faults(scope, name),
        ArrayExpr::Range(name, high, low) => variable_faults(scope, name)
            .and(expr_faults(scope, high))
            .and(expr_faults(scope, low)),
        ArrayExpr::OfInt(operand) => expr_faults(scope, operand),
    }
}

#[tactic(auto, using(crate::proofs::MentionLemmas::joined_names))]
fn part_faults(scope: &Scope, part: &PrintPart) -> NameFaults
    ensures { result ≡ faults_in (known_of scope.now) (part_variables (part_tree part.now)) }
{
    match part {
        PrintPart::Text(_) => NameFaults::none(),
        PrintPart::Value(expr) => expr_faults(scope, expr),
        PrintPart::Character(expr) => expr_faults(scope, expr),
    }
}

// What is wrong with the variables of PRINT.
fn parts_faults(scope: &Scope, parts: &[PrintPart]) -> NameFaults
    ensures { result ≡ fold (parts_joined (known_of scope.now)) no_faults parts.now }
{
    parts.iter().fold(
        NameFaults::none(),
        |faults, part| faults.and(part_faults(scope, part)),
    )
}

fn export_faults(scope: &Scope, exported: &Exported) -> NameFaults
    ensures { result ≡ faults_in (known_of scope.now) (export_variables (export_tree exported.now)) }
{
    match exported {
        Exported::Value(expr) => expr_faults(scope, expr),
        Exported::Array(array) => array_faults(scope, array),
    }
}

// What is wrong with the variables of an expression that may be missing.
#[tactic(auto, using(crate::proofs::MentionLemmas::joined_names))]
fn given_expr_faults(scope: &Scope, expr: &Option<Box<Expr>>) -> NameFaults
    ensures { result ≡ given_faults (known_of scope.now) expr_variables (option_map (λ e. expr_tree (box_value e)) expr.now) }
{
    match expr {
        Some(expr) => expr_faults(scope, expr),
        None => NameFaults::none(),
    }
}

#[tactic(auto, using(crate::proofs::MentionLemmas::joined_names))]
fn given_array_faults(scope: &Scope, array: &Option<Box<ArrayExpr>>) -> NameFaults
    ensures { result ≡ given_faults (known_of scope.now) array_variables (option_map (λ a. array_tree (box_value a)) array.now) }
{
    match array {
        Some(array) => array_faults(scope, array),
        None => NameFaults::none(),
    }
}

#[tactic(auto, using(crate::proofs::MentionLemmas::joined_names))]
fn compare_faults(scope: &Scope, compare: &Option<Box<Compare>>) -> NameFaults
    ensures { result ≡ given_faults (known_of scope.now) compare_variables (option_map (λ c. compare_tree (box_value c)) compare.now) }
{
    match compare {
        Some(compare) => array_faults(scope, &compare.expected)
            .and(array_faults(scope, &compare.mask))
            .and(expr_faults(scope, &compare.cell)),
        None => NameFaults::none(),
    }
}

#[tactic(auto, using(crate::proofs::MentionLemmas::joined_names))]
fn scan_faults(scope: &Scope, scan: &Scan) -> NameFaults
    ensures { result ≡ faults_in (known_of scope.now) (variables_named (scan_tree scan.now)) }
{
    expr_faults(scope, &scan.length)
        .and(array_faults(scope, &scan.source))
        .and(given_array_faults(scope, &scan.target))
        .and(compare_faults(scope, &scan.compare))
}

// What is wrong with the variables that a statement reads or sets.
#[tactic(auto, using(crate::proofs::MentionLemmas::joined_names))]
fn statement_faults(scope: &Scope, body: &Body) -> NameFaults
    ensures { result ≡ faults_in (known_of scope.now) (variables_named (body_tree body.now)) }
{
    match body {
        Body::Assign(name, expr) => variable_faults(scope, name).and(expr_faults(scope, expr)),
        Body::AssignElement(name, index, expr) => variable_faults(scope, name)
            .and(expr_faults(scope, index))
            .and(expr_faults(scope, expr)),
        Body::AssignArray(name, array) => {
            variable_faults(scope, name).and(array_faults(scope, array))
        }
        Body::AssignRange(name, high, low, array) => variable_faults(scope, name)
            .and(expr_faults(scope, high))
            .and(expr_faults(scope, low))
            .and(array_faults(scope, array)),
        Body::If(condition, body) => {
            expr_faults(scope, condition).and(statement_faults(scope, body))
        }
        Body::For(name, from, to, step) => variable_faults(scope, name)
            .and(expr_faults(scope, from))
            .and(expr_faults(scope, to))
            .and(given_expr_faults(scope, step)),
        Body::Next(name) => variable_faults(scope, name),
        Body::Push(expr) => expr_faults(scope, expr),
        Body::Pop(cell) => expr_faults(scope, cell),
        Body::Print(parts) => parts_faults(scope, parts.as_slice()),
        Body::Export(_, exported) => export_faults(scope, exported),
        Body::Exit(code) => expr_faults(scope, code),
        Body::Scan(scan) => scan_faults(scope, scan),
        Body::Pad(_, length, bits) => {
            expr_faults(scope, length).and(given_array_faults(scope, bits))
        }
        Body::WaitCycles(_, cycles, usec, _) => {
            expr_faults(scope, cycles).and(given_expr_faults(scope, usec))
        }
        Body::WaitUsec(_, usec, _) => expr_faults(scope, usec),
        Body::Frequency(hertz) => given_expr_faults(scope, hertz),
        _ => NameFaults::none(),
    }
}

// Whether one of the items is no block.
fn has_unknown_item(scope: &Scope, items: &[Item]) -> bool
    ensures { result ≡ list_any (λ item. is_no_block (known_of scope.now) (item_name (item_tree item))) items.now }
{
    items.iter().any(|item| !scope.is_block(&item.procedure))
}

// Whether one of the names is that of no block.
fn has_unknown_block(scope: &Scope, names: &[Name]) -> bool
    ensures { result ≡ list_any (is_no_block (known_of scope.now)) names.now }
{
    names.iter().any(|name| !scope.is_block(name))
}

// Whether a statement names a procedure that is no block.
#[tactic(auto, using(stapl_syntax::proofs::MappedLists::mapped_lists))]
fn names_unknown_procedure(scope: &Scope, body: &Body) -> bool
    ensures { result ≡ list_any (is_no_block (known_of scope.now)) (procedures_named (body_tree body.now)) }
{
    match body {
        Body::Action(_, _, items) => has_unknown_item(scope, items.as_slice()),
        Body::Call(name) => !scope.is_block(name),
        Body::If(_, body) => names_unknown_procedure(scope, body),
        _ => false,
    }
}

// Whether a statement uses what is no block.
fn uses_unknown_block(scope: &Scope, body: &Body) -> bool
    ensures { result ≡ list_any (is_no_block (known_of scope.now)) (blocks_used (body_tree body.now)) }
{
    match body {
        Body::Procedure(_, Some(uses)) => has_unknown_block(scope, uses.as_slice()),
        _ => false,
    }
}

// Whether a statement names what is no label of its procedure.
fn names_unknown_label(scope: &Scope, body: &Body) -> bool
    ensures { result ≡ list_any (is_no_label (known_of scope.now)) (labels_named (body_tree body.now)) }
{
    match body {
        Body::Goto(label) => !scope.has_label(label),
        Body::If(_, body) => names_unknown_label(scope, body),
        _ => false,
    }
}

/// What is wrong with the names that a statement mentions.
#[tactic(auto, using(stapl_syntax::proofs::MappedLists::joined_lists), unfolding(crate::specs::Mentioned::faults_in))]
pub(crate) fn name_faults(scope: &Scope, body: &Body) -> NameFaults
    ensures undefined { result.undefined ≡ names_undefined (known_of scope.now) (body_tree body.now) }
    ensures hidden { result.hidden ≡ names_hidden (known_of scope.now) (body_tree body.now) }
{
    let variables = statement_faults(scope, body);
    NameFaults {
        undefined: variables.undefined
            || names_unknown_procedure(scope, body)
            || uses_unknown_block(scope, body)
            || names_unknown_label(scope, body),
        hidden: variables.hidden,
    }
}
