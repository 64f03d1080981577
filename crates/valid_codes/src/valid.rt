//! Valid codes.
ghost use Rattle.std.specs.Prelude.{◌≡◌, ◌<◌, ◌^◌, [], Some, None, drop, nat_lt, slice_get, slice_range, IfOk, IfErr, if◌then◌else◌};
ghost use Rattle.std.specs.List.{list_all};
ghost use Rattle.stapl_code.specs.Depth.{depth_of};
ghost use Rattle.stapl_code.specs.Kinds.{kinds_after};
ghost use Rattle.stapl_code.specs.Ranges.{IsInRange};
ghost use Rattle.stapl_code.specs.Files.{IsShort};
ghost use Rattle.stapl_code.specs.Valid.{is_turn, is_end, sets_up, departs, kinds_kept, is_target, leads_well, ends_stable, rests_well, stands_well, prologue_break, procedure_break, next_entry, procedures_break, entry_break, first_break, IsValid};
ghost use Rattle.valid_codes.specs.Refusals.{NamesFirst};

use crate::depth::depth_of;
use crate::parts::{between, next_entry};
use base::Stack;
use code_kinds::follow;
use stapl_code::{CodeLists, Instr, ProcDef, RawCode, VarDef};
use stapl_meaning::ValueKind;
use std::alloc::{AllocError, Global};
use std::marker::Model;
use tap_states::Tap;
use thiserror::Error;

/// A valid code. Contracts see it as its lists.
#[derive(Drop)]
pub struct Code {
    raw: RawCode,
    depth: u32,
}

impl Model for Code {
    ghost use Rattle.stapl_code.specs.declared.raw.CodeLists.{CodeLists};

    ghost Value = { CodeLists };

    ghost use Rattle.std.specs.Prelude.{◌≡◌};
    ghost use Rattle.stapl_code.specs.Valid.{IsValid};
    ghost use Rattle.stapl_code.specs.Depth.{depth_of};

    ghost view = { λ code. code.raw };

    ghost invariant = { λ code. IsValid code.raw × (code.depth ≡ depth_of code.raw) };
}

/// Why a raw code is refused: `Invalid` with the number of its first instruction that breaks a rule, which is 0 where
/// there is no instruction, or `Memory` for want of memory alone.
#[derive(Clone, Copy, Debug, PartialEq, Eq, Error)]
pub enum ValidateRefused {
    #[error("instruction {0} breaks a rule")]
    Invalid(usize),
    #[error("out of memory")]
    Memory,
}

fn is_turn(instr: &Instr) -> bool
    ensures { result ≡ is_turn (Some instr.now) }
{
    match instr {
        Instr::Turn(_) => true,
        _ => false,
    }
}

fn turn_at(instrs: &[Instr], i: usize) -> bool
    ensures { result ≡ is_turn (slice_get instrs.now i) }
{
    match instrs.get(i) {
        Some(Instr::Turn(_)) => true,
        _ => false,
    }
}

fn is_end(instr: &Instr) -> bool
    ensures { result ≡ is_end instr.now }
{
    match instr {
        Instr::EndProc => true,
        _ => false,
    }
}

fn sets_up(instr: &Instr) -> bool
    ensures { result ≡ sets_up instr.now }
{
    match instr {
        Instr::Push(_)
        | Instr::PushBit(_)
        | Instr::Store(_)
        | Instr::SetBits(_, _)
        | Instr::SetInts(_, _) => true,
        _ => false,
    }
}

fn departs(instr: &Instr) -> bool
    ensures { result ≡ departs instr.now }
{
    match instr {
        Instr::For(_, _) | Instr::Next(_) | Instr::Call(_) | Instr::Jump(_) | Instr::Exit => true,
        _ => false,
    }
}

fn is_target(entry: usize, procedure: &[Instr], to: u32) -> bool
    ensures { result ≡ is_target entry procedure.now to }
{
    let to = to as usize;
    entry <= to && turn_at(procedure, to - entry)
}

fn leads_well(entry: usize, procedure: &[Instr], instr: &Instr) -> bool
    ensures { result ≡ leads_well entry procedure.now instr.now }
{
    match instr {
        Instr::For(_, to) | Instr::Jump(to) | Instr::JumpIfZero(to) => {
            is_target(entry, procedure, *to)
        }
        _ => true,
    }
}

// Whether the last one of these states is stable.
fn ends_stable(states: &[Tap]) -> bool
    ensures { result ≡ ends_stable states.now }
{
    match states.get(states.len().saturating_sub(1)) {
        Some(state) => state.is_stable(),
        None => true,
    }
}

fn rests_well(instr: &Instr) -> bool
    ensures { result ≡ rests_well instr.now }
{
    match instr {
        Instr::State(states) => ends_stable(states.as_slice()),
        Instr::Stop(_, state) => state.is_stable(),
        Instr::Wait(at, _, last) => at.is_stable() && last.is_stable(),
        _ => true,
    }
}

/// Does to the kinds what an instruction of the prologue does, and answers whether it found its operands and, as the
/// last one, left none.
fn follow_prologue(
    variables: &[VarDef],
    instr: &Instr,
    last: bool,
    kinds: &mut Stack<ValueKind>,
) -> Result<bool, AllocError>
    ensures { IfOk result (λ found. kinds_kept last (kinds_after variables.now instr.now kinds.old) ≡ (if found then Some kinds.new else None)) }
{
    let found = follow(variables, instr, kinds)?;
    Ok(found && (!last || kinds.len() == 0))
}

/// The first break of the prologue.
fn prologue_break(
    alloc: Global,
    variables: &[VarDef],
    prologue: &[Instr],
) -> Result<Option<usize>, AllocError>
    ensures { IfOk result (λ first. first ≡ prologue_break variables.now 0 [] prologue.now) }
{
    let mut kinds = Stack::new(alloc);
    for i in 0..prologue.len() {
        let instr = &prologue[i];
        let last = i + 1 == prologue.len();
        let found = follow_prologue(variables, instr, last, &mut kinds)?;
        if !found || !sets_up(instr) {
            return Ok(Some(i));
        }
    }
    Ok(None)
}

/// The first break of a procedure, which begins at the entry.
fn procedure_break(
    alloc: Global,
    variables: &[VarDef],
    entry: usize,
    procedure: &[Instr],
) -> Result<Option<usize>, AllocError>
    requires { entry < 2 ^ 32 }
    ensures { IfOk result (λ first. first ≡ procedure_break variables.now entry procedure.now) }
{
    let mut kinds = Stack::new(alloc);
    let mut must_turn = true;
    for i in 0..procedure.len() {
        let instr = &procedure[i];
        let last = i + 1 == procedure.len();
        let found = follow(variables, instr, &mut kinds)?;
        let stands = stands_well(entry, procedure, must_turn, instr, last);
        if !found || !stands {
            return Ok(Some(entry + i));
        }
        must_turn = departs(instr);
    }
    Ok(None)
}

fn stands_well(
    entry: usize,
    procedure: &[Instr],
    must_turn: bool,
    instr: &Instr,
    last: bool,
) -> bool
    ensures { result ≡ stands_well entry procedure.now must_turn instr.now last }
{
    (!must_turn || is_turn(instr))
        && is_end(instr) == last
        && leads_well(entry, procedure, instr)
        && rests_well(instr)
}

/// The first break of the procedures.
fn procedures_break(
    alloc: Global,
    variables: &[VarDef],
    instrs: &[Instr],
    procedures: &[ProcDef],
) -> Result<Option<usize>, AllocError>
    ensures { IfOk result (λ first. first ≡ procedures_break variables.now instrs.now procedures.now) }
{
    for p in 0..procedures.len() {
        let entry = procedures[p].entry as usize;
        let procedure = between(instrs, entry, next_entry(instrs.len(), procedures, p + 1));
        let first = procedure_break(alloc, variables, entry, procedure)?;
        if first.is_some() {
            return Ok(first);
        }
    }
    Ok(None)
}

fn begin_within(total: usize, procedures: &[ProcDef]) -> bool
    ensures { result ≡ list_all (λ p. nat_lt p.entry total) procedures.now }
{
    procedures.iter().all(|p| (p.entry as usize) < total)
}

fn entry_break(total: usize, procedures: &[ProcDef]) -> Option<usize>
    ensures { result ≡ entry_break total procedures.now }
{
    if begin_within(total, procedures) {
        None
    } else {
        Some(total.saturating_sub(1))
    }
}

/// The first instruction that breaks a rule.
fn first_break(alloc: Global, code: &CodeLists) -> Result<Option<usize>, AllocError>
    ensures { IfOk result (λ first. first ≡ first_break code.now) }
{
    let variables = code.variables.as_slice();
    let instrs = code.instrs.as_slice();
    let procedures = code.procedures.as_slice();
    let prologue = between(instrs, 0, next_entry(instrs.len(), procedures, 0));
    let first = prologue_break(alloc, variables, prologue)?;
    if first.is_some() {
        return Ok(first);
    }
    let first = procedures_break(alloc, variables, instrs, procedures)?;
    if first.is_some() {
        return Ok(first);
    }
    Ok(entry_break(instrs.len(), procedures))
}

/// The code, if it is valid. It reads each instruction twice.
///
/// `Invalid` names exactly the first instruction that breaks a rule, and `Memory` comes only for want of memory. A
/// refused code is dropped.
pub fn validate(alloc: Global, raw: RawCode) -> Result<Code, ValidateRefused>
    ensures same { IfOk result (λ code. code ≡ raw) }
    ensures valid { IfOk result (λ _. IsValid raw) }
    ensures invalid { IfErr result (λ e. NamesFirst e raw) }
{
    let lists = raw.lists();
    match first_break(alloc, lists) {
        Err(_) => Err(ValidateRefused::Memory),
        Ok(Some(i)) => Err(ValidateRefused::Invalid(i)),
        Ok(None) => match depth_of(alloc, lists) {
            Err(_) => Err(ValidateRefused::Memory),
            Ok(depth) => Ok(Code { raw, depth }),
        },
    }
}

impl Code {
    /// The raw code.
    pub fn raw(&self) -> &RawCode
        ensures raw { result.now ≡ self.now }
        ensures valid { IsValid self.now }
        ensures in_range { IsInRange self.now }
        ensures short { IsShort self.now }
    {
        let _lists = self.raw.lists();
        &self.raw
    }

    /// The most operands that are held at once.
    pub fn depth(&self) -> u32
        ensures { result ≡ depth_of self.now }
    {
        self.depth
    }
}
