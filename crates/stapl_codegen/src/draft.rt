//! The instructions of a program: first with targets that are places of the program, then with numbers of instructions.
ghost use Rattle.std.specs.Prelude.{◌≡◌, [], ◌++◌, None, ◌<◌, ◌^◌, ◌-◌, map, OnOk, IfOk, if◌then◌else◌};
ghost use Rattle.stapl_syntax.specs.Trees.{end_data, body_tree, stmt_tree, trees};
ghost use Rattle.stapl_syntax.specs.Statements.{is_outer};
ghost use Rattle.stapl_meaning.specs.Scopes.{idle, plays, preset_of, program_names, as_played};
ghost use Rattle.stapl_code.specs.Machine.{nowhere};
ghost use Rattle.stapl_codegen.specs.Emit.{row_literals, preset_items, body_texts, body_literals, texts_of, literals_of, program_code, start_of, retarget};
ghost use Rattle.stapl_codegen.specs.Drafts.{with_code, with_texts, with_literals, passed, piece_code_in, preset_code_in, ArePresetsWritten, AreDrafted, AreStarts, IsDraft};
ghost use Rattle.stapl_codegen.specs.Accepted.{IsAccepted};
ghost use Rattle.stapl_codegen.specs.Numbers.{numbers_from};

use crate::blocks::{data_after, has_initial_value, plays};
use crate::definitions::Numbers;
use crate::emit::Emitter;
use crate::literals::{own_literals, preset_literals, sum};
use bit_list::Bits;
use stapl_code::Instr;
use stapl_lexer::Name;
use stapl_meaning::Text;
use stapl_syntax::{Body, Stmt};
use std::alloc::{AllocError, Global};

/// The instructions of a program, its texts, its literals, and where the code of each place begins.
#[derive(Drop)]
pub(crate) struct Written {
    pub(crate) code: Vec<Instr>,
    pub(crate) texts: Vec<Text>,
    pub(crate) literals: Vec<Bits>,
    pub(crate) starts: Vec<u32>,
}

// Where the code of a piece begins, after so many instructions. A piece that does not play has no code.
fn start_at(before: usize, playing: bool, st: &Stmt) -> u32
    requires { before < 2 ^ 32 - 1 }
    ensures { result ≡ (if is_outer (if playing then body_tree st.now.body else end_data) then nowhere else before) }
{
    if !playing || st.body.is_outer() {
        return u32::MAX;
    }
    before as u32
}

// Keeps the literal of the initial value of a statement, if it stands in a DATA block and has one.
fn keep_preset(emitter: &mut Emitter, block: &Option<Name>, body: &Body) -> Result<(), AllocError>
    ensures { OnOk result (emitter.new ≡
        with_literals emitter.old (preset_items row_literals (preset_of block.now (body_tree body.now)))) }
{
    if block.is_none() || !has_initial_value(body) {
        return Ok(());
    }
    emitter.keep(body)?;
    Ok(())
}

// Writes a piece, which does nothing if it does not play, and keeps its initial value, if it has one.
fn draft_piece(
    emitter: &mut Emitter,
    playing: bool,
    block: &Option<Name>,
    st: &Stmt,
) -> Result<(), AllocError>
    requires piece { emitter.old.site.piece < 2 ^ 32 - 1 }
    requires playing { playing ≡ plays block.now (body_tree st.now.body) }
    ensures { OnOk result (emitter.new ≡ passed
        (with_literals (with_texts (with_code emitter.old
        (piece_code_in emitter.old (if playing then stmt_tree st.now else idle)))
        (body_texts (if playing then stmt_tree st.now else idle).body))
        (body_literals (if playing then stmt_tree st.now else idle).body
        ++ preset_items row_literals (preset_of block.now (body_tree st.now.body))))
        (if playing then stmt_tree st.now else idle).body) }
{
    if playing {
        emitter.statement(st)?;
        return Ok(());
    }
    keep_preset(emitter, block, &st.body)?;
    emitter.skip();
    Ok(())
}

// Writes the initial value of a statement, if it stands in a DATA block and has one; so many literals are before it.
fn draft_preset(
    emitter: &mut Emitter,
    block: &Option<Name>,
    body: &Body,
    literals: usize,
) -> Result<(), AllocError>
    requires { emitter.old.site.inside ≡ None }
    ensures { OnOk result (emitter.new ≡
        with_code emitter.old (preset_code_in emitter.old literals (preset_of block.now (body_tree body.now)))) }
{
    let Some(name) = block else {
        return Ok(());
    };
    if !has_initial_value(body) {
        return Ok(());
    }
    let number = u32::try_from(literals).map_err(|_| AllocError)?;
    emitter.preset(name, body, number)?;
    Ok(())
}

// Writes the initial values of the DATA blocks of a program, before its pieces. Their literals are numbered among those
// of all pieces.
fn draft_presets(emitter: &mut Emitter, program: &[Stmt]) -> Result<(), AllocError>
    requires { ArePresetsWritten (as_played (trees program.now)) 0 emitter.old 0 }
    ensures { OnOk result (AreDrafted (as_played (trees program.now)) 0 emitter.new []) }
{
    let mut literals = 0;
    let mut block = None;
    for st in program {
        let own = sum(literals, own_literals(&block, &st.body))?;
        draft_preset(emitter, &block, &st.body, own)?;
        literals = sum(own, preset_literals(&block, &st.body))?;
        block = data_after(block, &st.body);
    }
    Ok(())
}

// Writes a program with targets that are places of it.
fn draft_program(alloc: Global, program: &[Stmt], numbers: &Numbers) -> Result<Written, AllocError>
    requires names { numbers.now.names.now ≡ program_names (trees program.now) }
    requires next { numbers.now.next.items ≡ numbers_from 0 numbers.now.names.now.blocks }
    requires accepted { IsAccepted (as_played (trees program.now)) }
    ensures { IfOk result (λ w.
        IsDraft (as_played (trees program.now)) w.code.items w.texts.items w.literals.items w.starts.items) }
{
    let mut emitter = Emitter::new(alloc, numbers, program.len() as u32);
    draft_presets(&mut emitter, program)?;
    let mut starts = Vec::new(alloc);
    let mut block = None;
    for st in program {
        let playing = plays(&block, &st.body);
        starts.push(start_at(emitter.len(), playing, st))?;
        draft_piece(&mut emitter, playing, &block, st)?;
        block = data_after(block, &st.body);
    }
    let (code, texts, literals) = emitter.into_parts();
    Ok(Written {
        code,
        texts,
        literals,
        starts,
    })
}

/// Where the code of a place of the program begins.
pub(crate) fn start_of_place(program: &[Stmt], starts: &[u32], place: u32) -> u32
    requires { AreStarts (as_played (trees program.now)) starts.now }
    ensures { result ≡ start_of (as_played (trees program.now)) place }
{
    let _program = program;
    match starts.get(place as usize) {
        Some(start) => *start,
        None => u32::MAX,
    }
}

fn retargeted(program: &[Stmt], starts: &[u32], instr: Instr) -> Instr
    requires { AreStarts (as_played (trees program.now)) starts.now }
    ensures { result ≡ retarget (start_of (as_played (trees program.now))) instr }
{
    match instr {
        Instr::Jump(to) => Instr::Jump(start_of_place(program, starts, to)),
        Instr::JumpIfZero(to) => Instr::JumpIfZero(start_of_place(program, starts, to)),
        Instr::For(n, body) => Instr::For(n, start_of_place(program, starts, body)),
        other => other,
    }
}

// The same instructions, whose targets are numbers of instructions.
fn retarget_all(
    alloc: Global,
    program: &[Stmt],
    starts: &[u32],
    draft: Vec<Instr>,
) -> Result<Vec<Instr>, AllocError>
    requires { AreStarts (as_played (trees program.now)) starts.now }
    ensures { IfOk result (λ code. code.items ≡ map (retarget (start_of (as_played (trees program.now)))) draft.items) }
{
    let mut code = Vec::new(alloc);
    for instr in draft {
        code.push(retargeted(program, starts, instr))?;
    }
    Ok(code)
}

/// Writes the instructions of a program.
pub(crate) fn write_program(
    alloc: Global,
    program: &[Stmt],
    numbers: &Numbers,
) -> Result<Written, AllocError>
    requires names { numbers.now.names.now ≡ program_names (trees program.now) }
    requires next { numbers.now.next.items ≡ numbers_from 0 numbers.now.names.now.blocks }
    requires accepted { IsAccepted (as_played (trees program.now)) }
    ensures code { IfOk result (λ w. w.code.items ≡ program_code (as_played (trees program.now))) }
    ensures texts { IfOk result (λ w. w.texts.items ≡ texts_of (as_played (trees program.now))) }
    ensures literals { IfOk result (λ w. w.literals.items ≡ literals_of (as_played (trees program.now))) }
    ensures starts { IfOk result (λ w. AreStarts (as_played (trees program.now)) w.starts.items) }
{
    let draft = draft_program(alloc, program, numbers)?;
    let Written {
        code,
        texts,
        literals,
        starts,
    } = draft;
    let code = retarget_all(alloc, program, &starts, code)?;
    Ok(Written {
        code,
        texts,
        literals,
        starts,
    })
}
