//! Scans, paddings, and the states in which scans end.
ghost use Rattle.std.specs.Prelude.{◌≡◌, ◌≤◌, ◌∷◌, ℕ, List, length, IfOk, OnOk, true, None, Some};
ghost use Rattle.std.specs.Option.{option_map};
ghost use Rattle.stapl_meaning.specs.Values.{Known, then_get};
ghost use Rattle.stapl_meaning.specs.Scans.{with_padding, with_stop, scan_limit, padding_limit, caught, agree, known_or, cell_written, judged, target_asked, compare_asked, scan_asked, scanned, padding_bits, surrounded, stopped};
ghost use Rattle.stapl_code.specs.Machine.{Constants, known_given, known_scan, does};
ghost use Rattle.stapl_code.specs.Safe.{constants_of};
ghost use Rattle.machine_memory.specs.Found.{IsGot};
ghost use Rattle.machine_memory.specs.Acts.{IsMade, Told, state_in};
ghost use Rattle.machine_memory.specs.Arrays.{HasSpan, with_bits};
ghost use Rattle.machine_memory.specs.Jobs.{is_known, is_given_known, is_scan_known, resolved, compare_resolved, scan_resolved, IsPartIf, HasRoom, IsAsLong, AreCompared, IsCompareFound, AreFound, places_of, cell_of, cell_at, compared_at, compare_at, found_at, compared_by, both_asked, job_compare, job_lands, CanBeDone};

use crate::scan_parts::{
    fill_bits, find_known, find_parts, is_given_known, is_scan_known, padding_length, scan_length,
};
use machine_memory::arrays::store_at;
use machine_memory::effects::{CellAt, ComparedAt, Made, PartsAt, ScanJob, store};
use machine_memory::memory::{Memory, Shifted};
use machine_memory::operate::Stop;
use machine_memory::part_bits::{copy_turned, first_places};
use machine_memory::parts::{Part, Span};
use machine_memory::scan_bits::ScanBits;
use stapl_code::{CodeLists, Compare, Scan, Source};
use stapl_lexer::{Padding, Register};
use stapl_meaning::{Held, RunFault, Value};
use tap_states::Tap;

// Whether a target has room for so many bits.
fn test_room(target: Option<Part>, n: u32) -> Result<(), Stop>
    ensures is { IsGot (λ done g. g ≡ Known (places_of target)) result (target_asked n (places_of target)) }
    ensures room { IfOk result (λ done. HasRoom target n) }
{
    match target {
        Some(part) => {
            if n > part.span.count {
                return Err(Stop::Fault(RunFault::LengthMismatch));
            }
            Ok(())
        }
        None => Ok(()),
    }
}

// Takes the bits that a scan compares with.
fn take_both(
    expected: &mut ScanBits,
    mask: &mut ScanBits,
    code: &CodeLists,
    variables: &[Held],
    at: ComparedAt,
    n: u32,
) -> Result<(), Stop>
    requires few { n ≤ scan_limit }
    requires there { AreCompared code.now.literals variables.now at }
    ensures is { IsGot (λ done g. g ≡ Known (compared_by expected.new mask.new at.cell)) result
        (both_asked n at (compared_at code.now.literals variables.now at)) }
    ensures expected { OnOk result (length expected.new ≡ n) }
    ensures mask { OnOk result (length mask.new ≡ n) }
{
    fill_bits(expected, code, variables, at.expected, n)?;
    fill_bits(mask, code, variables, at.mask, n)?;
    Ok(())
}

// The same, if the scan compares.
fn take_compared(
    expected: &mut ScanBits,
    mask: &mut ScanBits,
    code: &CodeLists,
    variables: &[Held],
    compare: Option<Compare>,
    at: Option<ComparedAt>,
    n: u32,
) -> Result<(), Stop>
    requires few { n ≤ scan_limit }
    requires found { IsCompareFound (constants_of code.now) variables.now compare at }
    ensures is { IsGot (λ done g. g ≡ Known (job_compare expected.new mask.new (cell_at at))) result
        (compare_asked n (option_map (compare_resolved (constants_of code.now)) compare)
        (compare_at code.now.literals variables.now at)) }
    ensures expected { OnOk result (IsAsLong (cell_at at) n expected.new) }
    ensures mask { OnOk result (IsAsLong (cell_at at) n mask.new) }
{
    match at {
        Some(at) => take_both(expected, mask, code, variables, at, n),
        None => Ok(()),
    }
}

fn cell_at(compare: Option<ComparedAt>) -> Option<CellAt>
    ensures { result ≡ cell_at compare }
{
    match compare {
        Some(compare) => Some(compare.cell),
        None => None,
    }
}

// Takes the bits of a scan whose parts were found.
fn take_scan(
    code: &CodeLists,
    scan: &Scan,
    found: PartsAt,
    n: u32,
    memory: &mut Memory,
) -> Result<Made, Stop>
    requires found { AreFound (constants_of code.now) memory.old.variables.items scan.now found }
    requires some { 1 ≤ n }
    requires few { n ≤ scan_limit }
    ensures { (text : List ℕ) (constants : Constants) (states : List Tap) (chosen : List ℕ) →
        IsMade result (record { text = text; constants = constants; states = states; shifted = memory.new.shifted })
        (state_in chosen memory.old) (state_in chosen memory.new)
        (does (scan_asked (scan_resolved (constants_of code.now) scan.now)
        (found_at code.now.literals memory.old.variables.items found)
        (state_in chosen memory.old) n)) }
{
    memory.shifted.captured.resize(n);
    fill_bits(
        &mut memory.shifted.data,
        code,
        &memory.variables,
        found.source,
        n,
    )?;
    test_room(found.target, n)?;
    take_compared(
        &mut memory.shifted.expected,
        &mut memory.shifted.mask,
        code,
        &memory.variables,
        scan.compare,
        found.compare,
        n,
    )?;
    Ok(Made::Scans(ScanJob {
        register: scan.register,
        target: found.target,
        cell: cell_at(found.compare),
    }))
}

// Takes the bits of a scan whose length is the first value.
fn scan_first(
    code: &CodeLists,
    scan: &Scan,
    first: Value,
    values: &[Value],
    memory: &mut Memory,
) -> Result<Made, Stop>
    requires { is_scan_known code.now.literals scan.now ≡ true }
    ensures { (text : List ℕ) (constants : Constants) (states : List Tap) (chosen : List ℕ) →
        IsMade result (record { text = text; constants = constants; states = states; shifted = memory.new.shifted })
        (state_in chosen memory.old) (state_in chosen memory.new)
        (does (scanned (scan_resolved (constants_of code.now) scan.now) (first ∷ values.now)
        (state_in chosen memory.old))) }
{
    match first {
        Value::Int(length) => {
            let found = find_parts(code, scan, values, &memory.variables)?;
            let n = scan_length(length)?;
            take_scan(code, scan, found, n, memory)
        }
        Value::Bit(_) => Err(Stop::Wrong),
    }
}

fn scan_known(
    code: &CodeLists,
    scan: &Scan,
    values: &[Value],
    memory: &mut Memory,
) -> Result<Made, Stop>
    requires { is_scan_known code.now.literals scan.now ≡ true }
    ensures { (text : List ℕ) (constants : Constants) (states : List Tap) (chosen : List ℕ) →
        IsMade result (record { text = text; constants = constants; states = states; shifted = memory.new.shifted })
        (state_in chosen memory.old) (state_in chosen memory.new)
        (does (scanned (scan_resolved (constants_of code.now) scan.now) values.now (state_in chosen memory.old))) }
{
    match values.split_first() {
        Some((first, rest)) => scan_first(code, scan, *first, rest, memory),
        None => Err(Stop::Wrong),
    }
}

/// Takes the bits of a scan, which is still to be done.
#[tactic(auto, using(crate::proofs::ScanLemmas::scan_known, crate::proofs::ScanLemmas::scan_unknown))]
pub fn scan(
    code: &CodeLists,
    scan: &Scan,
    values: &[Value],
    memory: &mut Memory,
) -> Result<Made, Stop>
    ensures { (text : List ℕ) (constants : Constants) (states : List Tap) (chosen : List ℕ) →
        IsMade result (record { text = text; constants = constants; states = states; shifted = memory.new.shifted })
        (state_in chosen memory.old) (state_in chosen memory.new)
        (does (then_get (known_scan (constants_of code.now) scan.now)
        (λ parts. scanned parts values.now (state_in chosen memory.old)))) }
{
    if !is_scan_known(code, scan) {
        return Err(Stop::Wrong);
    }
    scan_known(code, scan, values, memory)
}

// Takes so many ones.
fn ones_of(target: &mut ScanBits, values: &[Value], asked: i32) -> Result<(), Stop>
    ensures is { (variables : List Held) →
        IsGot (λ done g. g ≡ Known target.new) result (padding_bits variables None values.now asked) }
    ensures few { OnOk result (length target.new ≤ padding_limit) }
{
    match values {
        [] => {
            let n = padding_length(asked)?;
            target.take_ones(n);
            Ok(())
        }
        _ => Err(Stop::Wrong),
    }
}

fn padding_of(
    target: &mut ScanBits,
    code: &CodeLists,
    source: Source,
    values: &[Value],
    asked: i32,
    variables: &[Held],
) -> Result<(), Stop>
    requires { is_known code.now.literals source ≡ true }
    ensures is { IsGot (λ done g. g ≡ Known target.new) result
        (padding_bits variables.now (Some (resolved (constants_of code.now) source)) values.now asked) }
    ensures few { OnOk result (length target.new ≤ padding_limit) }
{
    let at = find_known(code, source, values, variables)?;
    let n = padding_length(asked)?;
    fill_bits(target, code, variables, at, n)
}

// Sets a padding to the bits that were taken.
fn set_padding(memory: &mut Memory, which: Padding)
    requires { length memory.old.shifted.data ≤ padding_limit }
    ensures { (chosen : List ℕ) →
        state_in chosen memory.new ≡ with_padding which memory.old.shifted.data (state_in chosen memory.old) }
{
    match which {
        Padding::PreData => memory.dr.set_pre(&memory.shifted.data),
        Padding::PostData => memory.dr.set_post(&memory.shifted.data),
        Padding::PreInstruction => memory.ir.set_pre(&memory.shifted.data),
        Padding::PostInstruction => memory.ir.set_post(&memory.shifted.data),
    }
}

fn take_padding(
    target: &mut ScanBits,
    code: &CodeLists,
    source: Option<Source>,
    values: &[Value],
    asked: i32,
    variables: &[Held],
) -> Result<(), Stop>
    requires { is_given_known code.now.literals source ≡ true }
    ensures is { IsGot (λ done g. g ≡ Known target.new) result
        (padding_bits variables.now (option_map (resolved (constants_of code.now)) source) values.now asked) }
    ensures few { OnOk result (length target.new ≤ padding_limit) }
{
    match source {
        None => ones_of(target, values, asked),
        Some(source) => padding_of(target, code, source, values, asked, variables),
    }
}

// A padding of the length that is the first value is set.
fn pad_first(
    code: &CodeLists,
    which: Padding,
    source: Option<Source>,
    first: Value,
    values: &[Value],
    memory: &mut Memory,
) -> Result<Made, Stop>
    requires { is_given_known code.now.literals source ≡ true }
    ensures { (told : Told) (chosen : List ℕ) →
        IsMade result told (state_in chosen memory.old) (state_in chosen memory.new)
        (does (surrounded which (option_map (resolved (constants_of code.now)) source) (first ∷ values.now)
        (state_in chosen memory.old))) }
{
    match first {
        Value::Int(length) => {
            take_padding(
                &mut memory.shifted.data,
                code,
                source,
                values,
                length,
                &memory.variables,
            )?;
            set_padding(memory, which);
            Ok(Made::On)
        }
        Value::Bit(_) => Err(Stop::Wrong),
    }
}

fn pad_known(
    code: &CodeLists,
    which: Padding,
    source: Option<Source>,
    values: &[Value],
    memory: &mut Memory,
) -> Result<Made, Stop>
    requires { is_given_known code.now.literals source ≡ true }
    ensures { (told : Told) (chosen : List ℕ) →
        IsMade result told (state_in chosen memory.old) (state_in chosen memory.new)
        (does (surrounded which (option_map (resolved (constants_of code.now)) source) values.now
        (state_in chosen memory.old))) }
{
    match values.split_first() {
        Some((first, rest)) => pad_first(code, which, source, *first, rest, memory),
        None => Err(Stop::Wrong),
    }
}

/// A padding is set.
#[tactic(auto, using(crate::proofs::ScanLemmas::given_known, crate::proofs::ScanLemmas::given_unknown))]
pub fn pad(
    code: &CodeLists,
    which: Padding,
    source: Option<Source>,
    values: &[Value],
    memory: &mut Memory,
) -> Result<Made, Stop>
    ensures { (told : Told) (chosen : List ℕ) →
        IsMade result told (state_in chosen memory.old) (state_in chosen memory.new)
        (does (then_get (known_given (constants_of code.now) source)
        (λ from. surrounded which from values.now (state_in chosen memory.old)))) }
{
    if !is_given_known(code, source) {
        return Err(Stop::Wrong);
    }
    pad_known(code, which, source, values, memory)
}

fn set_stop(memory: &mut Memory, register: Register, state: Tap)
    ensures { (chosen : List ℕ) →
        state_in chosen memory.new ≡ with_stop register state (state_in chosen memory.old) }
{
    match register {
        Register::Data => memory.dr.set_stop(state),
        Register::Instruction => memory.ir.set_stop(state),
    }
}

/// The state in which scans end is set.
pub fn stop(
    register: Register,
    state: Tap,
    values: &[Value],
    memory: &mut Memory,
) -> Result<Made, Stop>
    ensures { (told : Told) (chosen : List ℕ) →
        IsMade result told (state_in chosen memory.old) (state_in chosen memory.new)
        (does (stopped register state values.now (state_in chosen memory.old))) }
{
    match values {
        [] => {
            if !state.is_stable() {
                return Err(Stop::Wrong);
            }
            set_stop(memory, register, state);
            Ok(Made::On)
        }
        _ => Err(Stop::Wrong),
    }
}

// Captured bits go to the first places of a part of an array.
fn put_captured(held: &mut Held, span: Span, bits: &ScanBits)
    requires is_part { HasSpan held.old span }
    requires room { length bits.now ≤ span.count }
    ensures { held.new ≡ with_bits held.old span bits.now }
{
    if let Held::Bits(own) = held {
        let n = bits.len();
        let at = first_places(own, span, n);
        copy_turned(own, at, bits.as_bits(), 0, n, span.falls);
    }
}

fn catch(variables: &mut Vec<Held>, target: Option<Part>, bits: &ScanBits)
    requires there { IsPartIf variables.old.items target }
    requires room { HasRoom target (length bits.now) }
    ensures { variables.new.items ≡ caught (places_of target) bits.now variables.old.items }
{
    if let Some(part) = target {
        put_captured(&mut variables[part.array as usize], part.span, bits);
    }
}

// Whether each captured bit whose mask bit is 1 is the expected one.
fn agree(mask: &ScanBits, expected: &ScanBits, captured: &ScanBits) -> bool
    requires expected { length expected.now ≡ length captured.now }
    requires mask { length mask.now ≡ length captured.now }
    ensures { result ≡ agree mask.now expected.now captured.now }
{
    captured.agrees_under(mask, expected)
}

fn put_result(variables: &mut Vec<Held>, cell: CellAt, same: bool)
    ensures { variables.new.items
        ≡ known_or variables.old.items (cell_written (cell_of cell) same variables.old.items) }
{
    match cell {
        CellAt::Scalar(n) => {
            store(variables, n, Value::Bit(same));
        }
        CellAt::Element(n, index) => {
            let _written = store_at(variables, n, index, Value::Bit(same));
        }
    }
}

fn judge(variables: &mut Vec<Held>, cell: Option<CellAt>, shifted: &Shifted)
    requires expected { IsAsLong cell (length shifted.now.captured) shifted.now.expected }
    requires mask { IsAsLong cell (length shifted.now.captured) shifted.now.mask }
    ensures { variables.new.items
        ≡ judged (job_compare shifted.now.expected shifted.now.mask cell) shifted.now.captured variables.old.items }
{
    if let Some(cell) = cell {
        let same = agree(&shifted.mask, &shifted.expected, &shifted.captured);
        put_result(variables, cell, same);
    }
}

/// The captured bits land where they go, and then the result of the comparison does.
pub fn land(memory: &mut Memory, job: ScanJob)
    requires { CanBeDone memory.old.variables.items memory.old.shifted job }
    ensures { (chosen : List ℕ) → state_in chosen memory.new
        ≡ job_lands memory.old.shifted job (state_in chosen memory.old) memory.old.shifted.captured }
{
    catch(&mut memory.variables, job.target, &memory.shifted.captured);
    judge(&mut memory.variables, job.cell, &memory.shifted);
}
