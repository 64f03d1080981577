//! The parts of scans and paddings: where they lie, and the bits that are taken of them.
ghost use Rattle.std.specs.Prelude.{◌≡◌, ◌≤◌, ℕ, Bool, List, length, take, drop, IfOk, OnOk, true, Some};
ghost use Rattle.std.specs.Option.{option_map};
ghost use Rattle.stapl_meaning.specs.declared.profiles.Profile.{Profile};
ghost use Rattle.stapl_meaning.specs.Values.{Known, asked, bits_of, source_bits};
ghost use Rattle.stapl_meaning.specs.Scans.{scan_limit, padding_limit, length_between, source_width, target_width, target_found, cell_found, comparison_found, compare_found, scan_found};
ghost use Rattle.stapl_code.specs.Machine.{Constants, target_of, cell_part};
ghost use Rattle.stapl_code.specs.Safe.{constants_of};
ghost use Rattle.machine_memory.specs.Arrays.{HasSpan, first_bits};
ghost use Rattle.machine_memory.specs.Found.{IsGot};
ghost use Rattle.machine_memory.specs.Exports.{bits_at};
ghost use Rattle.machine_memory.specs.Jobs.{is_known, is_given_known, is_compare_known, is_scan_known, resolved, compare_resolved, scan_resolved, asked_at, IsThere, IsPartIf, places_of, cell_of, AreCompared, AskAlike, IsCompareFound, AreFound, compared_at, compare_at, found_at};

use crate::exporting::find_bits;
use machine_memory::arrays::index_of;
use machine_memory::effects::{BitsAt, CellAt, ComparedAt, PartsAt};
use machine_memory::operate::Stop;
use machine_memory::parts::{Part, Span, holder, literal_at, range, whole};
use machine_memory::scan_bits::{SCAN_LIMIT, ScanBits};
use machine_memory::settings::PADDING_LIMIT;
use stapl_code::{Cell, CodeLists, Compare, Dest, Scan, Source};
use stapl_meaning::{Held, Profile, RunFault, Value};

fn is_known(code: &CodeLists, source: Source) -> bool
    ensures { result ≡ is_known code.now.literals source }
{
    match source {
        Source::Literal(n) => literal_at(code.literals.as_slice(), n).is_some(),
        Source::Whole(_) | Source::Range(_) | Source::FromInt => true,
    }
}

/// Whether the literal of a source is there, if there is a source.
pub fn is_given_known(code: &CodeLists, source: Option<Source>) -> bool
    ensures { result ≡ is_given_known code.now.literals source }
{
    match source {
        None => true,
        Some(source) => is_known(code, source),
    }
}

fn is_compare_known(code: &CodeLists, compare: Option<Compare>) -> bool
    ensures { result ≡ is_compare_known code.now.literals compare }
{
    match compare {
        None => true,
        Some(compare) => is_known(code, compare.expected) && is_known(code, compare.mask),
    }
}

/// Whether the literals of a scan are there.
pub fn is_scan_known(code: &CodeLists, scan: &Scan) -> bool
    ensures { result ≡ is_scan_known code.now.literals scan.now }
{
    is_known(code, scan.source) && is_compare_known(code, scan.compare)
}

/// Where the bits of a source lie whose literal is there.
pub fn find_known(
    code: &CodeLists,
    source: Source,
    values: &[Value],
    variables: &[Held],
) -> Result<BitsAt, Stop>
    requires { is_known code.now.literals source ≡ true }
    ensures is { IsGot (λ at g. g ≡ Known (bits_at code.now.literals variables.now at)) result
        (source_bits variables.now (resolved (constants_of code.now) source) values.now) }
    ensures there { IfOk result (IsThere code.now.literals variables.now) }
    ensures kind { IfOk result (λ at. (n : ℕ) (list : List Bool) →
        asked (resolved (constants_of code.now) source) n list ≡ asked_at at n list) }
{
    find_bits(code, source, values, variables)
}

// How many values the parts of a scan have.
fn source_takes(source: Source) -> usize
    ensures { (constants : Constants) → result ≡ source_width (resolved constants source) }
{
    match source {
        Source::Literal(_) | Source::Whole(_) => 0,
        Source::Range(_) => 2,
        Source::FromInt => 1,
    }
}

fn target_takes(target: Option<Dest>) -> usize
    ensures { (profile : Profile) → result ≡ target_width (option_map (target_of profile) target) }
{
    match target {
        None | Some(Dest::Whole(_)) => 0,
        Some(Dest::Range(_)) => 2,
    }
}

// The first values, and those after them.
fn front(values: &[Value], count: usize) -> &[Value]
    ensures { result.now ≡ take count values.now }
{
    &values[..count.min(values.len())]
}

fn after(values: &[Value], count: usize) -> &[Value]
    ensures { result.now ≡ drop count values.now }
{
    &values[count.min(values.len())..]
}

// Where captured bits go.
fn find_target(
    profile: Profile,
    target: Option<Dest>,
    values: &[Value],
    variables: &[Held],
) -> Result<Option<Part>, Stop>
    ensures is { IsGot (λ part g. g ≡ Known (places_of part)) result
        (target_found variables.now (option_map (target_of profile) target) values.now) }
    ensures there { IfOk result (IsPartIf variables.now) }
{
    match (target, values) {
        (None, []) => Ok(None),
        (Some(Dest::Whole(n)), []) => Ok(Some(whole(variables, n)?)),
        (Some(Dest::Range(n)), [first, second]) => {
            Ok(Some(range(profile, variables, n, *first, *second)?))
        }
        _ => Err(Stop::Wrong),
    }
}

// Where the result of a comparison goes.
fn find_cell(cell: Cell, values: &[Value], variables: &[Held]) -> Result<CellAt, Stop>
    ensures { IsGot (λ at g. g ≡ Known (cell_of at)) result
        (cell_found variables.now (cell_part cell) values.now) }
{
    match (cell, values) {
        (Cell::Scalar(n), []) => Ok(CellAt::Scalar(n)),
        (Cell::Element(n), [Value::Int(index)]) => {
            index_of(variables, n, *index)?;
            Ok(CellAt::Element(n, *index))
        }
        _ => Err(Stop::Wrong),
    }
}

// What a scan compares with.
fn find_compared(
    code: &CodeLists,
    compare: Compare,
    values: &[Value],
    variables: &[Held],
) -> Result<ComparedAt, Stop>
    requires { is_compare_known code.now.literals (Some compare) ≡ true }
    ensures is { IsGot (λ at g. g ≡ Known (compared_at code.now.literals variables.now at)) result
        (comparison_found variables.now (compare_resolved (constants_of code.now) compare) values.now) }
    ensures there { IfOk result (AreCompared code.now.literals variables.now) }
    ensures kind { IfOk result (AskAlike (constants_of code.now) compare) }
{
    let wide = source_takes(compare.expected);
    let expected = find_known(code, compare.expected, front(values, wide), variables)?;
    let values = after(values, wide);
    let wide = source_takes(compare.mask);
    let mask = find_known(code, compare.mask, front(values, wide), variables)?;
    let cell = find_cell(compare.cell, after(values, wide), variables)?;
    Ok(ComparedAt {
        expected,
        mask,
        cell,
    })
}

fn find_compare(
    code: &CodeLists,
    compare: Option<Compare>,
    values: &[Value],
    variables: &[Held],
) -> Result<Option<ComparedAt>, Stop>
    requires { is_compare_known code.now.literals compare ≡ true }
    ensures is { IsGot (λ at g. g ≡ Known (compare_at code.now.literals variables.now at)) result
        (compare_found variables.now (option_map (compare_resolved (constants_of code.now)) compare) values.now) }
    ensures found { IfOk result (IsCompareFound (constants_of code.now) variables.now compare) }
{
    match (compare, values) {
        (None, []) => Ok(None),
        (None, _) => Err(Stop::Wrong),
        (Some(compare), values) => Ok(Some(find_compared(code, compare, values, variables)?)),
    }
}

/// Where the parts of a scan lie, whose literals are there. Each is tested before the next.
pub fn find_parts(
    code: &CodeLists,
    scan: &Scan,
    values: &[Value],
    variables: &[Held],
) -> Result<PartsAt, Stop>
    requires { is_scan_known code.now.literals scan.now ≡ true }
    ensures is { IsGot (λ at g. g ≡ Known (found_at code.now.literals variables.now at)) result
        (scan_found variables.now (scan_resolved (constants_of code.now) scan.now) values.now) }
    ensures found { IfOk result (AreFound (constants_of code.now) variables.now scan.now) }
{
    let wide = source_takes(scan.source);
    let source = find_known(code, scan.source, front(values, wide), variables)?;
    let values = after(values, wide);
    let wide = target_takes(scan.target);
    let target = find_target(code.profile, scan.target, front(values, wide), variables)?;
    let compare = find_compare(code, scan.compare, after(values, wide), variables)?;
    Ok(PartsAt {
        source,
        target,
        compare,
    })
}

/// The length of a scan without its paddings: 1 to 4,194,304 bits.
pub fn scan_length(length: i32) -> Result<u32, Stop>
    ensures is { IsGot (λ (n : ℕ) g. g ≡ Known n) result (length_between 1 scan_limit length) }
    ensures some { IfOk result (λ n. 1 ≤ n) }
    ensures most { IfOk result (λ n. n ≤ scan_limit) }
{
    if length < 1 || length > SCAN_LIMIT as i32 {
        return Err(Stop::Fault(RunFault::BadLength));
    }
    Ok(length.cast_unsigned())
}

/// The length of a padding: 0 to 65,536 bits.
pub fn padding_length(length: i32) -> Result<u32, Stop>
    ensures is { IsGot (λ (n : ℕ) g. g ≡ Known n) result (length_between 0 padding_limit length) }
    ensures most { IfOk result (λ n. n ≤ padding_limit) }
{
    if length < 0 || length > PADDING_LIMIT as i32 {
        return Err(Stop::Fault(RunFault::BadLength));
    }
    Ok(length.cast_unsigned())
}

// Becomes the first n bits of a part of an array.
fn fill_part(target: &mut ScanBits, held: &Held, span: Span, n: u32)
    requires few { n ≤ scan_limit }
    requires is_part { HasSpan held.now span }
    requires enough { n ≤ span.count }
    ensures { target.new ≡ first_bits n span (bits_of held.now) }
{
    match held {
        Held::Bits(from) => target.take_part(from, span, n),
        _ => unreachable!(),
    }
}

/// Becomes so many of the bits that lie somewhere. It takes no memory.
pub fn fill_bits(
    target: &mut ScanBits,
    code: &CodeLists,
    variables: &[Held],
    at: BitsAt,
    n: u32,
) -> Result<(), Stop>
    requires few { n ≤ scan_limit }
    requires there { IsThere code.now.literals variables.now at }
    ensures is { IsGot (λ done g. g ≡ Known target.new) result
        (asked_at at n (bits_at code.now.literals variables.now at)) }
    ensures count { OnOk result (length target.new ≡ n) }
{
    match at {
        BitsAt::Literal(k) => {
            target.take_padded(&code.literals.as_slice()[k as usize], n);
            Ok(())
        }
        BitsAt::Part(part) => {
            if n > part.span.count {
                return Err(Stop::Fault(RunFault::LengthMismatch));
            }
            fill_part(target, holder(variables, part), part.span, n);
            Ok(())
        }
        BitsAt::Integer(value) => {
            if n > 32 {
                return Err(Stop::Fault(RunFault::LengthMismatch));
            }
            target.take_integer(value, n);
            Ok(())
        }
    }
}
