//! The play of a code.
ghost use Rattle.std.specs.Prelude.{◌≡◌, [], true, length, map, OnOk, IfOk, IsErrOf};
ghost use Rattle.tool_io.specs.Lines.{IsWhole, HasPut};
ghost use Rattle.tool_frame.specs.Answers.{Says};
ghost use Rattle.stapl_meaning.specs.Choices.{no_action, bad_choice, chosen};
ghost use Rattle.stapl_meaning.specs.Texts.{events_text, far_report, asked_report};
ghost use Rattle.stapl_code.specs.Safe.{AllBelow};
ghost use Rattle.stapl_machine.specs.Machines.{IsPrepared};
ghost use Rattle.stapl_player.specs.Choices.{code_choice};
ghost use Rattle.board_text.specs.Boards.{CanBeFitted};
ghost use Rattle.chain_sim.specs.Chains.{devices_of, chain_places};
ghost use Rattle.chain_sim.specs.Chains.{IsOverSame as IsSameRack};
ghost use Rattle.chain_sim.specs.Rack.{IsRack, places_of};
ghost use Rattle.code_plays.specs.Plays.{done_with, has_place, reported_far, PlaysCode};
ghost use Rattle.code_plays.specs.CodePlays.{task_play, IsPlayable, IsFittedAt, AreDescribedAt, PlaysRun, HasEnding, run_lines, Ends};
ghost use Rattle.code_plays.specs.Racks.{far_at, AreLeft, CodeHoldsFinal, KeepsRack};

use crate::endings::put_ending;
use crate::over_cable::play_over_cable;
use chain_sim::{Chain, fit_board, put_report};
use dev_card::{Desc, Device};
use play_words::{PlayRequest, Status};
use stapl_code::laws::never_stuck;
use stapl_machine::Machine;
use stapl_meaning::Ending;
use stapl_player::{ChoiceRefused, choose};
use std::alloc::Global;
use std::marker::Brand;
use std::sync::ledger::Blank;
use tool_frame::NoAnswer;
use tool_io::{Failed, Lines, Sink};
use valid_codes::Code;

/// What is asked: a play, and the devices of the board that it takes place on, the first nearest TDO.
#[derive(Clone, Copy)]
pub struct Task<'a> {
    pub request: &'a PlayRequest,
    pub devices: &'a [Desc],
}

// Tells the proofs that a play of a code comes to an ending.
fn check_ending(code: &Code, chosen: &[u32], task: &Task)
    requires { AllBelow (length code.now.procedures) chosen.now }
    ensures { HasEnding (task_play code.now chosen.now task.now) }
{
    let _raw = code.raw();
    never_stuck();
}

// Plays the chosen procedures of a code, as the task asks for it, over a chain with the fresh board of the task, and
// puts the lines of the events. The devices of the chain are then as the play leaves them.
fn play_over_chain<K: Sink>(
    machine: &mut Machine,
    task: &Task,
    code: &Code,
    chosen: &[u32],
    chain: &mut Chain,
    lines: &mut Lines<K>,
) -> Result<Ending, Failed>
    requires prepared { IsPrepared code.now machine.old }
    requires playable { IsPlayable code.now chosen.now task.now }
    requires fitted { IsFittedAt (map fitted (devices_of chain.old)) (chain_places chain.old) task.now }
    requires whole { IsWhole lines.old }
    ensures plays { PlaysRun K.Sink (task_play code.now chosen.now task.now) (events_text task.now.request.now.pins []
        (task_play code.now chosen.now task.now).events) (AreLeft (map fitted (devices_of chain.new))
        (chain_places chain.old) task.now.devices.now (task_play code.now chosen.now task.now).chain.far)
        lines.old lines.new result }
    ensures same_rack { IsSameRack chain.old chain.new }
    ensures kinds { map kind_of (devices_of chain.new) ≡ map kind_of (devices_of chain.old) }
{
    let blank = Blank::new(1);
    play_over_cable::<Chain, K, Brand>(machine, code, chosen, task, chain, lines, blank)
}

// The same on the devices at these places of the rack. It is a function of its own since a lender gets back only what
// is a parameter: the rack is lent to a chain that ends here.
fn play_on_chain<K: Sink>(
    machine: &mut Machine,
    task: &Task,
    code: &Code,
    chosen: &[u32],
    rack: &mut Vec<Box<dyn Device>>,
    places: &[u32],
    lines: &mut Lines<K>,
) -> Result<Ending, Failed>
    requires prepared { IsPrepared code.now machine.old }
    requires playable { IsPlayable code.now chosen.now task.now }
    requires fitted { IsFittedAt (map fitted rack.old.items) places.now task.now }
    requires whole { IsWhole lines.old }
    ensures plays { PlaysRun K.Sink (task_play code.now chosen.now task.now) (events_text task.now.request.now.pins []
        (task_play code.now chosen.now task.now).events) (AreLeft (map fitted rack.new.items) places.now
        task.now.devices.now (task_play code.now chosen.now task.now).chain.far) lines.old lines.new result }
    ensures kinds { map kind_of rack.new.items ≡ map kind_of rack.old.items }
{
    let mut chain = Chain::over(rack, places);
    play_over_chain(machine, task, code, chosen, &mut chain, lines)
}

// Puts the report of a task, whose devices stand at these places of the rack: of the devices of the run that its
// request names, in order, or of all devices.
fn put_reported<K: Sink>(
    lines: &mut Lines<K>,
    task: &Task,
    rack: &[Box<dyn Device>],
    places: &[u32],
) -> Result<(), Failed>
    requires whole { IsWhole lines.old }
    requires board { AreDescribedAt (map fitted rack.now) places.now task.now.devices.now }
    requires placed { has_place task.now.request.now.place task.now.devices.now ≡ true }
    ensures { HasPut K.Sink lines.old (far_report (reported_far task.now.request.now.place
        (far_at (map fitted rack.now) places.now))) lines.new result }
{
    match task.request.place {
        Some(run) => {
            let (from, to) = (run.first as usize - 1, run.last as usize);
            put_report(lines, rack, &places[from..to], &task.devices[from..to])
        }
        None => put_report(lines, rack, places, task.devices),
    }
}

// The same, if the request of the task asks for a report.
fn put_asked_report<K: Sink>(
    lines: &mut Lines<K>,
    task: &Task,
    rack: &[Box<dyn Device>],
    places: &[u32],
) -> Result<(), Failed>
    requires whole { IsWhole lines.old }
    requires board { AreDescribedAt (map fitted rack.now) places.now task.now.devices.now }
    requires placed { has_place task.now.request.now.place task.now.devices.now ≡ true }
    ensures { HasPut K.Sink lines.old (asked_report task.now.request.now.report
        (reported_far task.now.request.now.place (far_at (map fitted rack.now) places.now))) lines.new result }
{
    if task.request.report {
        put_reported(lines, task, rack, places)?;
    }
    Ok(())
}

// Puts the lines of a play on the devices at these places of the rack, where the board of a task is fitted: those of
// its events, the report of the devices after it, if that is asked for, and its ending.
fn put_play<K: Sink>(
    machine: &mut Machine,
    task: &Task,
    code: &Code,
    chosen: &[u32],
    rack: &mut Vec<Box<dyn Device>>,
    places: &[u32],
    lines: &mut Lines<K>,
) -> Result<Ending, Failed>
    requires prepared { IsPrepared code.now machine.old }
    requires playable { IsPlayable code.now chosen.now task.now }
    requires fitted { IsFittedAt (map fitted rack.old.items) places.now task.now }
    requires whole { IsWhole lines.old }
    ensures plays { PlaysRun K.Sink (task_play code.now chosen.now task.now)
        (run_lines task.now.request.now (task_play code.now chosen.now task.now)) (AreLeft (map fitted rack.new.items)
        places.now task.now.devices.now (task_play code.now chosen.now task.now).chain.far)
        lines.old lines.new result }
    ensures kinds { map kind_of rack.new.items ≡ map kind_of rack.old.items }
{
    let ending = play_on_chain(machine, task, code, chosen, rack, places, lines)?;
    put_asked_report(lines, task, rack, places)?;
    put_ending(lines, ending)?;
    Ok(ending)
}

/// The status of a play that ends so.
pub fn status_of(ending: Ending) -> Status
    ensures { result ≡ done_with ending }
{
    match ending {
        Ending::Exit(code) => Status::Done(code),
        Ending::Fault(fault, piece) => Status::Fault(fault, piece),
        Ending::Spent => Status::Spent,
    }
}

// Fits the board of a task into the rack, and plays the chosen procedures of a code. All memory is taken before the
// first line is put.
fn play_on_board<K: Sink>(
    alloc: Global,
    task: &Task,
    code: &Code,
    chosen: &[u32],
    rack: &mut Vec<Box<dyn Device>>,
    lines: &mut Lines<K>,
) -> Result<Status, NoAnswer>
    requires playable { IsPlayable code.now chosen.now task.now }
    requires rack { IsRack (map kind_of rack.old.items) }
    requires whole { IsWhole lines.old }
    ensures says { Says K.Sink (Ends task.now.request.now (task_play code.now chosen.now task.now)) ⊥
        lines.old lines.new result }
    ensures left { OnOk result (AreLeft (map fitted rack.new.items) (places_of task.now.devices.now)
        task.now.devices.now (task_play code.now chosen.now task.now).chain.far) }
    ensures kinds { map kind_of rack.new.items ≡ map kind_of rack.old.items }
{
    check_ending(code, chosen, task);
    let places = fit_board(alloc, rack, task.devices)?;
    let mut machine = Machine::prepare(alloc, code)?;
    let ending = put_play(&mut machine, task, code, chosen, rack, &places, lines)?;
    Ok(status_of(ending))
}

/// The procedures of a code that run, by the action and the choices of a request, in their order.
///
/// `NoAction` says that the code has no such action, `BadChoice` that a name cannot be chosen in it; `Memory` is want of
/// memory.
pub fn choose_asked(
    alloc: Global,
    code: &Code,
    request: &PlayRequest,
) -> Result<Vec<u32>, ChoiceRefused>
    ensures ok { IfOk result (λ procedures. code_choice code.now request.now.action request.now.todo request.now.skip
        ≡ chosen procedures.items) }
    ensures below { IfOk result (λ procedures. AllBelow (length code.now.procedures) procedures.items) }
    ensures action { IsErrOf result ChoiceRefused.NoAction →
        code_choice code.now request.now.action request.now.todo request.now.skip ≡ no_action }
    ensures choice { IsErrOf result ChoiceRefused.BadChoice →
        code_choice code.now request.now.action request.now.todo request.now.skip ≡ bad_choice }
{
    let asked = request.todo.as_slice();
    let skipped = request.skip.as_slice();
    choose(alloc, code, &request.action, asked, skipped)
}

/// Whether the board of a task has the run of devices that its request names, if it names one.
pub fn has_place(task: &Task) -> bool
    ensures { result ≡ has_place task.now.request.now.place task.now.devices.now }
{
    match task.request.place {
        Some(run) => {
            1 <= run.first && run.first <= run.last && run.last as usize <= task.devices.len()
        }
        None => true,
    }
}

/// Plays a code, as a task asks for it: on its board, which is fitted into the rack, the procedures that
/// run by the choices of the request, for at most so many turns.
///
/// If the code has no such action, or a name cannot be chosen in it, or the board lacks the run, the rack stays as it
/// was. If it is played, the devices of the board are as the play leaves them.
pub fn play_code<K: Sink>(
    alloc: Global,
    code: &Code,
    task: &Task,
    rack: &mut Vec<Box<dyn Device>>,
    lines: &mut Lines<K>,
) -> Result<Status, NoAnswer>
    requires rack { IsRack (map kind_of rack.old.items) }
    requires devices { CanBeFitted task.now.devices.now }
    requires whole { IsWhole lines.old }
    ensures says { Says K.Sink (PlaysCode code.now task.now.request.now task.now.devices.now) ⊥
        lines.old lines.new result }
    ensures rack { KeepsRack kind_of fitted (Unit {0})
        (CodeHoldsFinal code.now task.now.request.now task.now.devices.now)
        rack.old.items rack.new.items result }
{
    match choose_asked(alloc, code, task.request) {
        Ok(chosen) if has_place(task) => play_on_board(alloc, task, code, &chosen, rack, lines),
        Ok(_) => {
            lines.put(b"R place\n")?;
            Ok(Status::BadPlace)
        }
        Err(ChoiceRefused::NoAction) => {
            lines.put(b"R action\n")?;
            Ok(Status::NoAction)
        }
        Err(ChoiceRefused::BadChoice) => {
            lines.put(b"R choice\n")?;
            Ok(Status::BadChoice)
        }
        Err(ChoiceRefused::Memory) => Err(NoAnswer::Memory),
    }
}
