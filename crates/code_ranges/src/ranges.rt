//! The test of the ranges of a code's fields.
ghost use Rattle.std.specs.Prelude.{◌≡◌, ◌≢◌, ◌<◌, ◌≤◌, ◌↔◌, IsTrue, All, AllPairs, sum_by, length, slice_get};
ghost use Rattle.stapl_syntax.specs.Contents.{IsFreeName};
ghost use Rattle.stapl_code.specs.Ranges.{IsVariable, elements_of, AreVariables, AreProcedures, IsItem, IsAction, AreActions, IsPart, IsSource, IsExport, IsDest, IsGiven, IsCell, IsCompare, IsScan, size_of, IsInstr, IsLiteral, IsInRange};

use bit_list::Bits;
use stapl_code::{
    ActionDef, Cell, CodeLists, Compare, Dest, ExportPart, Instr, ItemDef, PrintPart, ProcDef,
    Scan, Source, VarDef,
};
use stapl_lexer::Name;
use stapl_meaning::Text;

fn is_variable(variable: &VarDef) -> bool
    ensures { IsTrue result ↔ IsVariable variable.now }
{
    match variable.kind {
        0 | 1 => variable.size == 1,
        2 => variable.size >= 1,
        3 => variable.size >= 1 && variable.size <= 4_194_304,
        _ => false,
    }
}

fn elements_of(scalar: u8, array: u8, variable: &VarDef) -> u32
    ensures { result ≡ elements_of scalar array variable.now }
{
    if variable.kind == scalar || variable.kind == array {
        variable.size
    } else {
        0
    }
}

/// Whether the elements of these two kinds keep a limit.
fn keep_limit(scalar: u8, array: u8, limit: u32, variables: &[VarDef]) -> bool
    ensures { IsTrue result ↔ (sum_by (elements_of scalar array) variables.now ≤ limit) }
{
    let mut left = limit;
    for variable in variables {
        let size = elements_of(scalar, array, variable);
        if size > left {
            return false;
        }
        left -= size;
    }
    true
}

fn are_variables(variables: &[VarDef]) -> bool
    ensures { IsTrue result ↔ AreVariables variables.now }
{
    variables.iter().all(|variable| is_variable(variable))
        && keep_limit(0, 2, 1_048_576, variables)
        && keep_limit(1, 3, 16_777_216, variables)
}

fn is_literal(bits: &Bits) -> bool
    ensures { IsTrue result ↔ IsLiteral bits.now }
{
    1 <= bits.len() && bits.len() <= 16_777_216
}

fn are_literals(literals: &[Bits]) -> bool
    ensures { IsTrue result ↔ All IsLiteral literals.now }
{
    literals.iter().all(|bits| is_literal(bits))
}

fn are_texts(texts: &[Text]) -> bool
    ensures { IsTrue result ↔ All (λ text. length text ≤ 4194304) texts.now }
{
    texts.iter().all(|text| text.len() <= 4_194_304)
}

fn is_free_name(name: &Name) -> bool
    ensures { IsTrue result ↔ IsFreeName name.now }
{
    let _bytes = name.bytes();
    !name.is_reserved()
}

fn is_item(procedures: usize, item: &ItemDef) -> bool
    ensures { IsTrue result ↔ IsItem procedures item.now }
{
    (item.procedure as usize) < procedures && item.flag <= 2
}

fn is_action(procedures: usize, action: &ActionDef) -> bool
    ensures { IsTrue result ↔ IsAction procedures action.now }
{
    let items = action.items.as_slice();
    is_free_name(&action.name)
        && !items.is_empty()
        && items.iter().all(|item| is_item(procedures, item))
}

fn is_part(texts: usize, part: &PrintPart) -> bool
    ensures { IsTrue result ↔ IsPart texts part.now }
{
    match part {
        PrintPart::Text(n) => (*n as usize) < texts,
        PrintPart::Int | PrintPart::Bit | PrintPart::Char => true,
    }
}

fn is_source(variables: usize, literals: usize, source: Source) -> bool
    ensures { IsTrue result ↔ IsSource variables literals source }
{
    match source {
        Source::Literal(n) => (n as usize) < literals,
        Source::Whole(n) | Source::Range(n) => (n as usize) < variables,
        Source::FromInt => true,
    }
}

fn is_export(variables: usize, literals: usize, part: ExportPart) -> bool
    ensures { IsTrue result ↔ IsExport variables literals part }
{
    match part {
        ExportPart::Int | ExportPart::Bit => true,
        ExportPart::Array(source) => is_source(variables, literals, source),
    }
}

fn is_dest(variables: usize, dest: Dest) -> bool
    ensures { IsTrue result ↔ IsDest variables dest }
{
    match dest {
        Dest::Whole(n) | Dest::Range(n) => (n as usize) < variables,
    }
}

fn is_given_source(variables: usize, literals: usize, source: Option<Source>) -> bool
    ensures { IsTrue result ↔ IsGiven (IsSource variables literals) source }
{
    match source {
        None => true,
        Some(source) => is_source(variables, literals, source),
    }
}

fn is_cell(variables: usize, cell: Cell) -> bool
    ensures { IsTrue result ↔ IsCell variables cell }
{
    match cell {
        Cell::Scalar(n) | Cell::Element(n) => (n as usize) < variables,
    }
}

fn is_compare(variables: usize, literals: usize, compare: Compare) -> bool
    ensures { IsTrue result ↔ IsCompare variables literals compare }
{
    is_source(variables, literals, compare.expected)
        && is_source(variables, literals, compare.mask)
        && is_cell(variables, compare.cell)
}

fn is_given_target(variables: usize, target: Option<Dest>) -> bool
    ensures { IsTrue result ↔ IsGiven (IsDest variables) target }
{
    match target {
        None => true,
        Some(dest) => is_dest(variables, dest),
    }
}

fn is_given_compare(variables: usize, literals: usize, compare: Option<Compare>) -> bool
    ensures { IsTrue result ↔ IsGiven (IsCompare variables literals) compare }
{
    match compare {
        None => true,
        Some(compare) => is_compare(variables, literals, compare),
    }
}

fn is_scan(variables: usize, literals: usize, scan: &Scan) -> bool
    ensures { IsTrue result ↔ IsScan variables literals scan.now }
{
    is_source(variables, literals, scan.source)
        && is_given_target(variables, scan.target)
        && is_given_compare(variables, literals, scan.compare)
}

fn size_at(variables: &[VarDef], n: u32) -> u32
    ensures { result ≡ size_of (slice_get variables.now n) }
{
    match variables.get(n as usize) {
        None => 0,
        Some(variable) => variable.size,
    }
}

/// Whether there is a variable with at least so many elements, and at least one.
fn has_elements(variables: &[VarDef], n: u32, count: usize) -> bool
    ensures { IsTrue result ↔ ((n < length variables.now) × (1 ≤ count) × (count ≤ size_of (slice_get variables.now n))) }
{
    (n as usize) < variables.len() && 1 <= count && count <= size_at(variables, n) as usize
}

fn is_instr(
    variables: &[VarDef],
    literals: usize,
    texts: usize,
    procedures: usize,
    instr: &Instr,
) -> bool
    ensures { IsTrue result ↔ IsInstr variables.now literals texts procedures instr.now }
{
    match instr {
        Instr::Turn(piece) => 1 <= *piece && *piece <= 100_000,
        Instr::Load(n)
        | Instr::LoadAt(n)
        | Instr::CheckIndex(n)
        | Instr::CheckRange(n)
        | Instr::Store(n)
        | Instr::StoreAt(n)
        | Instr::For(n, _)
        | Instr::Next(n) => (*n as usize) < variables.len(),
        Instr::PushBit(bit) => *bit <= 1,
        Instr::Unary(op) => *op < 4,
        Instr::Binary(op) => *op < 23,
        Instr::ToInt(source) => is_source(variables.len(), literals, *source),
        Instr::CopyBits(dest, source) => {
            is_dest(variables.len(), *dest) && is_source(variables.len(), literals, *source)
        }
        Instr::SetBits(n, literal) => {
            (*n as usize) < variables.len() && (*literal as usize) < literals
        }
        Instr::SetInts(n, values) => has_elements(variables, *n, values.len()),
        Instr::Print(parts) => {
            let parts = parts.as_slice();
            !parts.is_empty() && parts.iter().all(|part| is_part(texts, part))
        }
        Instr::Export(key, part) => {
            (*key as usize) < texts && is_export(variables.len(), literals, *part)
        }
        Instr::Call(procedure) => (*procedure as usize) < procedures,
        Instr::State(states) => !states.is_empty(),
        Instr::Scan(scan) => is_scan(variables.len(), literals, scan),
        Instr::Pad(_, source) => is_given_source(variables.len(), literals, *source),
        Instr::Stop(_, _)
        | Instr::Wait(_, _, _)
        | Instr::Frequency(_)
        | Instr::Push(_)
        | Instr::PushRecord(_)
        | Instr::PopRecord(_)
        | Instr::Jump(_)
        | Instr::JumpIfZero(_)
        | Instr::EndProc
        | Instr::CheckChar
        | Instr::Exit => true,
    }
}

/// Whether a procedure has another name than each of these, and begins after each of them.
fn is_after(procedures: &[ProcDef], procedure: &ProcDef) -> bool
    ensures { IsTrue result ↔ All (λ p. (p.name ≢ procedure.now.name) × (p.entry < procedure.now.entry)) procedures.now }
{
    procedures
        .iter()
        .all(|p| p.name != procedure.name && p.entry < procedure.entry)
}

fn are_in_order(procedures: &[ProcDef]) -> bool
    ensures { IsTrue result ↔ AllPairs (λ p q. (p.name ≢ q.name) × (p.entry < q.entry)) procedures.now }
{
    for i in 0..procedures.len() {
        if !is_after(&procedures[..i], &procedures[i]) {
            return false;
        }
    }
    true
}

/// Whether an action has another name than each of these.
fn is_apart(actions: &[ActionDef], action: &ActionDef) -> bool
    ensures { IsTrue result ↔ All (λ a. a.name ≢ action.now.name) actions.now }
{
    actions.iter().all(|a| a.name != action.name)
}

fn are_apart(actions: &[ActionDef]) -> bool
    ensures { IsTrue result ↔ AllPairs (λ a b. a.name ≢ b.name) actions.now }
{
    for i in 0..actions.len() {
        if !is_apart(&actions[..i], &actions[i]) {
            return false;
        }
    }
    true
}

fn have_free_names(procedures: &[ProcDef]) -> bool
    ensures { IsTrue result ↔ All (λ p. IsFreeName p.name) procedures.now }
{
    procedures.iter().all(|p| is_free_name(&p.name))
}

fn are_procedures(procedures: &[ProcDef]) -> bool
    ensures { IsTrue result ↔ AreProcedures procedures.now }
{
    if procedures.is_empty() || !have_free_names(procedures) {
        return false;
    }
    are_in_order(procedures)
}

fn are_actions(procedures: usize, actions: &[ActionDef]) -> bool
    ensures { IsTrue result ↔ AreActions procedures actions.now }
{
    !actions.is_empty() && actions.iter().all(|a| is_action(procedures, a)) && are_apart(actions)
}

fn are_instrs(lists: &CodeLists) -> bool
    ensures { IsTrue result ↔ All (IsInstr lists.now.variables (length lists.now.literals) (length lists.now.texts)
        (length lists.now.procedures)) lists.now.instrs }
{
    let variables = lists.variables.as_slice();
    let literals = lists.literals.len();
    let texts = lists.texts.len();
    let procedures = lists.procedures.len();
    lists.instrs.as_slice().iter().all(|instr| is_instr(
        variables, literals, texts, procedures, instr,
    ))
}

/// Whether the fields of a code are in their ranges, as `RawCode::of` wants. It compares the names of procedures, and
/// those of actions, pair by pair.
pub fn is_in_range(code: &CodeLists) -> bool
    ensures { IsTrue result ↔ IsInRange code.now }
{
    are_variables(code.variables.as_slice())
        && are_literals(code.literals.as_slice())
        && are_texts(code.texts.as_slice())
        && are_procedures(code.procedures.as_slice())
        && are_actions(code.procedures.len(), code.actions.as_slice())
        && are_instrs(code)
        && code.instrs.len() < 1 << 32
}
