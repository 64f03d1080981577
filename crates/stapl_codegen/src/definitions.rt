//! The definitions of procedures, actions and variables in a code.
ghost use Rattle.std.specs.Prelude.{◌≡◌, [], ◌∷◌, ◌++◌, ◌<◌, ◌^◌, ◌-◌, suc, All, length, map, replicate, OnOk, IfOk, if◌then◌else◌};
ghost use Rattle.stapl_syntax.specs.Trees.{StmtTree, end_data, item_tree, body_tree, stmt_tree, trees};
ghost use Rattle.stapl_meaning.specs.Scopes.{as_played};
ghost use Rattle.stapl_meaning.specs.Typed.{NamesProcedure, NamesProcedures};
ghost use Rattle.stapl_codegen.specs.Emit.{start_of, procedure_def, procedures_from, procedures_of, choice_flag, item_def, action_def, actions_from, actions_of};
ghost use Rattle.stapl_codegen.specs.Drafts.{AreStarts};
ghost use Rattle.stapl_codegen.specs.Generated.{kind_number, variable_def};
ghost use Rattle.stapl_codegen.specs.Numbers.{numbers_from, AreNumbers};

use crate::blocks::{data_after, plays};
use crate::draft::start_of_place;
use base::ItemList;
use stapl_code::{ActionDef, ItemDef, ProcDef, VarDef};
use stapl_names::Names;
use stapl_syntax::{Block, Body, Item, ItemChoice, Key, Stmt, VarKind, Variable};
use std::alloc::{AllocError, Global};

// The number of a kind of variables.
fn kind_number(kind: VarKind) -> u8
    ensures { result ≡ kind_number kind }
{
    match kind {
        VarKind::Integer => 0,
        VarKind::Boolean => 1,
        VarKind::IntegerArray => 2,
        VarKind::BooleanArray => 3,
    }
}

// A variable: its kind and how many elements it has.
fn variable_def(variable: &Variable) -> VarDef
    ensures { (key : Key) → result ≡ variable_def (key, variable.now) }
{
    VarDef {
        kind: kind_number(variable.kind),
        size: variable.size.unsigned_abs(),
    }
}

/// The variables of a program.
pub(crate) fn variables(alloc: Global, names: &Names) -> Result<Vec<VarDef>, AllocError>
    ensures { IfOk result (λ defs. defs.items ≡ map variable_def names.now.variables) }
{
    let mut defs = Vec::new(alloc);
    for number in 0..names.variables() {
        defs.push(variable_def(names.variable(number)))?;
    }
    Ok(defs)
}

// The procedure that a statement begins, whose code begins at an entry, if it plays and begins one.
fn put_procedure(
    procedures: &mut Vec<ProcDef>,
    entry: u32,
    playing: bool,
    body: &Body,
) -> Result<(), AllocError>
    ensures { OnOk result (procedures.new.items
        ≡ procedures.old.items ++ procedure_def entry (if playing then body_tree body.now else end_data) []) }
{
    if !playing {
        return Ok(());
    }
    if let Body::Procedure(name, _) = body {
        procedures.push(ProcDef { name: *name, entry })?;
    }
    Ok(())
}

/// The procedures of a program.
pub(crate) fn procedures(
    alloc: Global,
    program: &[Stmt],
    starts: &[u32],
) -> Result<Vec<ProcDef>, AllocError>
    requires starts { AreStarts (as_played (trees program.now)) starts.now }
    requires countable { length program.now < 2 ^ 32 - 1 }
    ensures { IfOk result (λ procedures. procedures.items ≡ procedures_of (as_played (trees program.now))) }
{
    let mut procedures = Vec::new(alloc);
    let mut block = None;
    for i in 0..program.len() {
        let st = &program[i];
        let entry = start_of_place(program, starts, i as u32 + 1);
        put_procedure(&mut procedures, entry, plays(&block, &st.body), &st.body)?;
        block = data_after(block, &st.body);
    }
    Ok(procedures)
}

/// The names of a program, and at each of its blocks and after them the number of the next procedure.
#[derive(Drop)]
pub(crate) struct Numbers<'a> {
    pub(crate) names: &'a Names,
    pub(crate) next: Vec<u32>,
}

// The number of the next procedure after a block, if it is this one before it.
fn number_after(block: &Block, next: u32) -> u32
    requires { next < 2 ^ 32 - 1 }
    ensures { result ≡ (if block.now.is_data then next else suc next) }
{
    if block.is_data { next } else { next + 1 }
}

/// The number of the next procedure at each block, and after them: a DATA block is no procedure.
pub(crate) fn procedure_numbers(alloc: Global, names: &Names) -> Result<Vec<u32>, AllocError>
    ensures { IfOk result (λ numbers. numbers.items ≡ numbers_from 0 names.now.blocks) }
{
    let mut numbers = Vec::new(alloc);
    let mut next = 0;
    for block in 0..names.blocks() {
        numbers.push(next)?;
        next = number_after(names.block_at(block), next);
    }
    numbers.push(next)?;
    Ok(numbers)
}

// The flag of an item.
fn choice_flag(choice: Option<ItemChoice>) -> u8
    ensures { result ≡ choice_flag choice }
{
    match choice {
        None => 0,
        Some(ItemChoice::Optional) => 1,
        Some(ItemChoice::Recommended) => 2,
    }
}

// An item of an action: the number of its procedure, and whether it runs by choice.
fn item_def(program: &[Stmt], numbers: &Numbers, item: &Item) -> ItemDef
    requires known { AreNumbers (as_played (trees program.now)) numbers.now }
    requires there { NamesProcedure (as_played (trees program.now)) (item_tree item.now) }
    ensures { result ≡ item_def (as_played (trees program.now)) (item_tree item.now) }
{
    let _program = program;
    let names = numbers.names;
    let block = names.block(&item.procedure).unwrap_or(names.blocks());
    ItemDef {
        procedure: numbers.next[block as usize],
        flag: choice_flag(item.choice),
    }
}

// The items of an action.
fn item_defs(
    alloc: Global,
    program: &[Stmt],
    numbers: &Numbers,
    items: &[Item],
) -> Result<Vec<ItemDef>, AllocError>
    requires known { AreNumbers (as_played (trees program.now)) numbers.now }
    requires there { All (NamesProcedure (as_played (trees program.now))) (map item_tree items.now) }
    ensures { IfOk result (λ defs.
        defs.items ≡ map (item_def (as_played (trees program.now))) (map item_tree items.now)) }
{
    let mut defs = Vec::new(alloc);
    for item in items {
        defs.push(item_def(program, numbers, item))?;
    }
    Ok(defs)
}

// The action that a statement is, if it plays and is one.
fn put_action(
    actions: &mut Vec<ActionDef>,
    alloc: Global,
    program: &[Stmt],
    numbers: &Numbers,
    playing: bool,
    body: &Body,
) -> Result<(), AllocError>
    requires known { AreNumbers (as_played (trees program.now)) numbers.now }
    requires there { NamesProcedures (as_played (trees program.now)) (if playing then body_tree body.now else end_data) }
    ensures { OnOk result (actions.new.items ≡ actions.old.items
        ++ action_def (as_played (trees program.now)) (if playing then body_tree body.now else end_data) []) }
{
    if !playing {
        return Ok(());
    }
    if let Body::Action(name, _, items) = body {
        let items = item_defs(alloc, program, numbers, items.as_slice())?;
        actions.push(ActionDef {
            name: **name,
            items: ItemList::of(items),
        })?;
    }
    Ok(())
}

/// The actions of a program.
pub(crate) fn actions(
    alloc: Global,
    program: &[Stmt],
    numbers: &Numbers,
) -> Result<Vec<ActionDef>, AllocError>
    requires known { AreNumbers (as_played (trees program.now)) numbers.now }
    requires there { All (λ (st : StmtTree). NamesProcedures (as_played (trees program.now)) st.body)
        (as_played (trees program.now)).pieces }
    ensures { IfOk result (λ actions. actions.items ≡ actions_of (as_played (trees program.now))) }
{
    let mut actions = Vec::new(alloc);
    let mut block = None;
    for st in program {
        let playing = plays(&block, &st.body);
        put_action(&mut actions, alloc, program, numbers, playing, &st.body)?;
        block = data_after(block, &st.body);
    }
    Ok(actions)
}
