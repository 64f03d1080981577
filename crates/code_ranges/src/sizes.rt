//! The test of the length of a code's file. Each function takes the bytes of a part off those that are left.
ghost use Rattle.std.specs.Prelude.{◌≡◌, ◌≤◌, ◌↔◌, ◌+◌, ◌*◌, IsTrue, length};
ghost use Rattle.stapl_code.specs.Fields.{integer, literal, text};
ghost use Rattle.stapl_code.specs.Instrs.{source, part, export_part, given, dest, compare, scan, padding, state, instr};
ghost use Rattle.stapl_code.specs.Files.{variable, procedure, item, action, file, IsShort};
ghost use Rattle.stapl_code.specs.Sizes.{Takes, bytes_of};

use bit_list::Bits;
use stapl_code::{
    ActionDef, Cell, CodeLists, Compare, Dest, ExportPart, FILE_LIMIT, Instr, ItemDef, PrintPart,
    ProcDef, Scan, Source, VarDef,
};
use stapl_meaning::Text;
use tap_states::Tap;

fn take(left: &mut usize, bytes: usize) -> bool
    ensures { Takes bytes left.old left.new result }
{
    if *left < bytes {
        return false;
    }
    *left -= bytes;
    true
}

// Five bytes for each of so many items.
fn take_fives(left: &mut usize, count: usize) -> bool
    ensures { Takes (5 * count) left.old left.new result }
{
    if *left / 5 < count {
        return false;
    }
    *left -= 5 * count;
    true
}

#[tactic(auto, using(stapl_code::proofs::SizeLemmas::length_of_variables))]
fn take_variables(left: &mut usize, variables: &[VarDef]) -> bool
    ensures { Takes (bytes_of variable variables.now) left.old left.new result }
{
    take_fives(left, variables.len())
}

#[tactic(auto, using(stapl_code::proofs::SizeLemmas::length_of_literal))]
fn literal_size(bits: &Bits) -> usize
    ensures { result ≡ length (literal bits.now) }
{
    4 + bits.len().div_ceil(8) as usize
}

fn take_literals(left: &mut usize, literals: &[Bits]) -> bool
    ensures { Takes (bytes_of literal literals.now) left.old left.new result }
{
    for bits in literals {
        if !take(left, literal_size(bits)) {
            return false;
        }
    }
    true
}

fn take_texts(left: &mut usize, texts: &[Text]) -> bool
    ensures { Takes (bytes_of text texts.now) left.old left.new result }
{
    for bytes in texts {
        if !take(left, 4) || !take(left, bytes.len()) {
            return false;
        }
    }
    true
}

fn take_procedures(left: &mut usize, procedures: &[ProcDef]) -> bool
    ensures { Takes (bytes_of procedure procedures.now) left.old left.new result }
{
    for procedure in procedures {
        if !take(left, 5 + procedure.name.bytes().len()) {
            return false;
        }
    }
    true
}

#[tactic(auto, using(stapl_code::proofs::SizeLemmas::length_of_action_items))]
fn take_items(left: &mut usize, items: &[ItemDef]) -> bool
    ensures { Takes (bytes_of item items.now) left.old left.new result }
{
    take_fives(left, items.len())
}

fn take_action(left: &mut usize, taken: &ActionDef) -> bool
    ensures { Takes (length (action taken.now)) left.old left.new result }
{
    take(left, 5 + taken.name.bytes().len()) && take_items(left, taken.items.as_slice())
}

fn take_actions(left: &mut usize, actions: &[ActionDef]) -> bool
    ensures { Takes (bytes_of action actions.now) left.old left.new result }
{
    for action in actions {
        if !take_action(left, action) {
            return false;
        }
    }
    true
}

fn source_size(bits: Source) -> usize
    ensures size { result ≡ length (source bits) }
    ensures most { result ≤ 5 }
{
    match bits {
        Source::Literal(_) | Source::Whole(_) | Source::Range(_) => 5,
        Source::FromInt => 1,
    }
}

fn given_size(bits: Option<Source>) -> usize
    ensures size { result ≡ length (given source bits) }
    ensures most { result ≤ 5 }
{
    match bits {
        None => 0,
        Some(bits) => source_size(bits),
    }
}

fn export_size(exported: ExportPart) -> usize
    ensures size { result ≡ length (export_part exported) }
    ensures most { result ≤ 6 }
{
    match exported {
        ExportPart::Int | ExportPart::Bit => 1,
        ExportPart::Array(bits) => 1 + source_size(bits),
    }
}

fn target_size(target: Option<Dest>) -> usize
    ensures size { result ≡ length (given dest target) }
    ensures most { result ≤ 5 }
{
    match target {
        None => 0,
        Some(Dest::Whole(_)) | Some(Dest::Range(_)) => 5,
    }
}

fn cell_size(compared: Compare) -> usize
    ensures size { result + length (source compared.expected) + length (source compared.mask) ≡ length (compare compared) }
    ensures most { result ≤ 5 }
{
    match compared.cell {
        Cell::Scalar(_) | Cell::Element(_) => 5,
    }
}

fn compare_size(compared: Option<Compare>) -> usize
    ensures size { result ≡ length (given compare compared) }
    ensures most { result ≤ 15 }
{
    match compared {
        None => 0,
        Some(compared) => {
            cell_size(compared) + source_size(compared.expected) + source_size(compared.mask)
        }
    }
}

fn scan_size(taken: &Scan) -> usize
    ensures size { result ≡ length (scan taken.now) }
    ensures most { result ≤ 30 }
{
    2 + source_size(taken.source) + target_size(taken.target) + compare_size(taken.compare)
}

fn part_size(printed: PrintPart) -> usize
    ensures size { result ≡ length (part printed) }
{
    match printed {
        PrintPart::Text(_) => 5,
        PrintPart::Int | PrintPart::Bit | PrintPart::Char => 1,
    }
}

fn take_parts(left: &mut usize, parts: &[PrintPart]) -> bool
    ensures { Takes (bytes_of part parts.now) left.old left.new result }
{
    for part in parts {
        if !take(left, part_size(*part)) {
            return false;
        }
    }
    true
}

fn integer_size(_value: i32) -> usize
    ensures { result ≡ length (integer _value) }
{
    4
}

fn take_integers(left: &mut usize, values: &[i32]) -> bool
    ensures { Takes (bytes_of integer values.now) left.old left.new result }
{
    for value in values {
        if !take(left, integer_size(*value)) {
            return false;
        }
    }
    true
}

#[tactic(auto, using(stapl_code::proofs::SizeLemmas::length_of_states))]
fn take_states(left: &mut usize, states: &[Tap]) -> bool
    ensures { Takes (bytes_of state states.now) left.old left.new result }
{
    take(left, states.len())
}

fn take_instr(left: &mut usize, taken: &Instr) -> bool
    ensures { Takes (length (instr taken.now)) left.old left.new result }
{
    match taken {
        Instr::EndProc | Instr::CheckChar | Instr::Exit => take(left, 1),
        Instr::PushBit(_)
        | Instr::Unary(_)
        | Instr::Binary(_)
        | Instr::PushRecord(_)
        | Instr::PopRecord(_)
        | Instr::Frequency(_) => take(left, 2),
        Instr::Stop(_, _) => take(left, 3),
        Instr::Wait(_, _, _) => take(left, 4),
        Instr::Turn(_)
        | Instr::Push(_)
        | Instr::Load(_)
        | Instr::LoadAt(_)
        | Instr::CheckIndex(_)
        | Instr::CheckRange(_)
        | Instr::Store(_)
        | Instr::StoreAt(_)
        | Instr::Next(_)
        | Instr::Call(_)
        | Instr::Jump(_)
        | Instr::JumpIfZero(_) => take(left, 5),
        Instr::SetBits(_, _) | Instr::For(_, _) => take(left, 9),
        Instr::ToInt(source) => take(left, 1 + source_size(*source)),
        Instr::CopyBits(_, source) => take(left, 6 + source_size(*source)),
        Instr::Pad(_, source) => take(left, 3 + given_size(*source)),
        Instr::Export(_, exported) => take(left, 5 + export_size(*exported)),
        Instr::Scan(scan) => take(left, 1 + scan_size(scan)),
        Instr::SetInts(_, values) => take(left, 9) && take_integers(left, values.as_slice()),
        Instr::Print(parts) => take(left, 5) && take_parts(left, parts.as_slice()),
        Instr::State(states) => take(left, 5) && take_states(left, states.as_slice()),
    }
}

fn take_instrs(left: &mut usize, instrs: &[Instr]) -> bool
    ensures { Takes (bytes_of instr instrs.now) left.old left.new result }
{
    for instr in instrs {
        if !take_instr(left, instr) {
            return false;
        }
    }
    true
}

// The head, the counts of the lists, and what instructions speak of.
#[tactic(auto, using(stapl_code::proofs::SizeLemmas::taken_both))]
fn take_constants(left: &mut usize, code: &CodeLists) -> bool
    ensures { Takes (32 + bytes_of variable code.now.variables + bytes_of literal code.now.literals + bytes_of text code.now.texts)
        left.old left.new result }
{
    take(left, 32)
        && take_variables(left, code.variables.as_slice())
        && take_literals(left, code.literals.as_slice())
        && take_texts(left, code.texts.as_slice())
}

// The procedures, actions and instructions.
#[tactic(auto, using(stapl_code::proofs::SizeLemmas::taken_both))]
fn take_procedures_and_actions(left: &mut usize, code: &CodeLists) -> bool
    ensures { Takes (bytes_of procedure code.now.procedures + bytes_of action code.now.actions + bytes_of instr code.now.instrs)
        left.old left.new result }
{
    take_procedures(left, code.procedures.as_slice())
        && take_actions(left, code.actions.as_slice())
        && take_instrs(left, code.instrs.as_slice())
}

fn take_file(left: &mut usize, code: &CodeLists) -> bool
    ensures { Takes (length (file code.now)) left.old left.new result }
{
    take_constants(left, code) && take_procedures_and_actions(left, code)
}

/// Whether the file of a code has at most `FILE_LIMIT` bytes, as `RawCode::of` wants.
#[tactic(auto, using(stapl_code::proofs::SizeLemmas::short_if_taken))]
pub fn is_short(code: &CodeLists) -> bool
    ensures { IsTrue result ↔ IsShort code.now }
{
    let mut left = FILE_LIMIT;
    take_file(&mut left, code)
}
