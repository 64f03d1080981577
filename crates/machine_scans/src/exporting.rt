//! What an Export exports.
ghost use Rattle.std.specs.Prelude.{◌≡◌, ◌∷◌, [], IfOk, List, ℕ, slice_get};
ghost use Rattle.stapl_meaning.specs.declared.events.Event.TheVariants as events;
ghost use Rattle.stapl_meaning.specs.declared.records.Record.{Record};
ghost use Rattle.stapl_meaning.specs.Values.{Known, Whole, Range, OfInt, then_get, source_bits};
ghost use Rattle.stapl_meaning.specs.Deeds.{Says};
ghost use Rattle.stapl_meaning.specs.States.{ScanSettings, State, Falls};
ghost use Rattle.stapl_meaning.specs.Effects.{exported, bits_exported};
ghost use Rattle.stapl_code.specs.Machine.{known_text, known_literal, known_source, part_exported, does};
ghost use Rattle.stapl_code.specs.Safe.{constants_of};
ghost use Rattle.machine_memory.specs.declared.memory.Shifted.{Shifted};
ghost use Rattle.machine_memory.specs.Found.{IsGot};
ghost use Rattle.machine_memory.specs.Exports.{bits_at, value_exported};
ghost use Rattle.machine_memory.specs.Jobs.{IsThere, IsOf};
ghost use Rattle.machine_memory.specs.Acts.{IsMade, state_with};

use machine_memory::effects::{BitsAt, Doing, Export, Exported, Made};
use machine_memory::operate::Stop;
use machine_memory::parts::{literal_at, range, whole};
use stapl_code::{CodeLists, ExportPart, Source};
use stapl_meaning::{Held, Value};

fn literal_bits(
    code: &CodeLists,
    n: u32,
    values: &[Value],
    variables: &[Held],
) -> Result<BitsAt, Stop>
    ensures is { IsGot (λ at g. g ≡ Known (bits_at code.now.literals variables.now at)) result
        (then_get (known_literal (slice_get code.now.literals n)) (λ from. source_bits variables.now from values.now)) }
    ensures there { IfOk result (IsThere code.now.literals variables.now) }
    ensures kind { IfOk result (IsOf (Source.Literal n)) }
{
    match literal_at(code.literals.as_slice(), n) {
        Some(_) => match values {
            [] => Ok(BitsAt::Literal(n)),
            _ => Err(Stop::Wrong),
        },
        None => Err(Stop::Wrong),
    }
}

fn whole_bits(
    code: &CodeLists,
    n: u32,
    values: &[Value],
    variables: &[Held],
) -> Result<BitsAt, Stop>
    ensures is { IsGot (λ at g. g ≡ Known (bits_at code.now.literals variables.now at)) result
        (source_bits variables.now (Whole n) values.now) }
    ensures there { IfOk result (IsThere code.now.literals variables.now) }
    ensures kind { IfOk result (IsOf (Source.Whole n)) }
{
    match values {
        [] => Ok(BitsAt::Part(whole(variables, n)?)),
        _ => Err(Stop::Wrong),
    }
}

fn range_bits(
    code: &CodeLists,
    n: u32,
    values: &[Value],
    variables: &[Held],
) -> Result<BitsAt, Stop>
    ensures is { IsGot (λ at g. g ≡ Known (bits_at code.now.literals variables.now at)) result
        (source_bits variables.now (Range code.now.profile n) values.now) }
    ensures there { IfOk result (IsThere code.now.literals variables.now) }
    ensures kind { IfOk result (IsOf (Source.Range n)) }
{
    match values {
        [first, second] => {
            let part = range(code.profile, variables, n, *first, *second)?;
            Ok(BitsAt::Part(part))
        }
        _ => Err(Stop::Wrong),
    }
}

fn integer_bits(code: &CodeLists, values: &[Value], variables: &[Held]) -> Result<BitsAt, Stop>
    ensures is { IsGot (λ at g. g ≡ Known (bits_at code.now.literals variables.now at)) result
        (source_bits variables.now OfInt values.now) }
    ensures there { IfOk result (IsThere code.now.literals variables.now) }
    ensures kind { IfOk result (IsOf Source.FromInt) }
{
    match values {
        [Value::Int(z)] => Ok(BitsAt::Integer(*z)),
        _ => Err(Stop::Wrong),
    }
}

/// Where the bits of a source lie.
pub fn find_bits(
    code: &CodeLists,
    source: Source,
    values: &[Value],
    variables: &[Held],
) -> Result<BitsAt, Stop>
    ensures is { IsGot (λ at g. g ≡ Known (bits_at code.now.literals variables.now at)) result
        (then_get (known_source (constants_of code.now) source)
        (λ from. source_bits variables.now from values.now)) }
    ensures there { IfOk result (IsThere code.now.literals variables.now) }
    ensures kind { IfOk result (IsOf source) }
{
    match source {
        Source::Literal(n) => literal_bits(code, n, values, variables),
        Source::Whole(n) => whole_bits(code, n, values, variables),
        Source::Range(n) => range_bits(code, n, values, variables),
        Source::FromInt => integer_bits(code, values, variables),
    }
}

fn one_value(code: &CodeLists, values: &[Value], variables: &[Held]) -> Result<Exported, Stop>
    ensures { (key : List ℕ) (s : State) → IsGot
        (λ value g. g
        ≡ Known (Falls (Says (events.Export key (value_exported code.now.literals variables.now value)) ∷ []) s))
        result (exported key values.now s) }
{
    match values {
        [value] => Ok(Exported::Value(*value)),
        _ => Err(Stop::Wrong),
    }
}

fn array_value(
    code: &CodeLists,
    source: Source,
    values: &[Value],
    variables: &[Held],
) -> Result<Exported, Stop>
    ensures { (key chosen : List ℕ) (records : List Record) (ir dr : ScanSettings) → IsGot
        (λ value g. g
        ≡ Known (Falls (Says (events.Export key (value_exported code.now.literals variables.now value)) ∷ [])
        (state_with chosen records ir dr variables.now))) result
        (then_get (known_source (constants_of code.now) source)
        (λ from. bits_exported key from values.now (state_with chosen records ir dr variables.now))) }
{
    Ok(Exported::Bits(find_bits(code, source, values, variables)?))
}

// What a part exports.
fn exported(
    code: &CodeLists,
    part: ExportPart,
    values: &[Value],
    variables: &[Held],
) -> Result<Exported, Stop>
    ensures { (key chosen : List ℕ) (records : List Record) (ir dr : ScanSettings) → IsGot
        (λ value g. g
        ≡ Known (Falls (Says (events.Export key (value_exported code.now.literals variables.now value)) ∷ [])
        (state_with chosen records ir dr variables.now))) result
        (part_exported (constants_of code.now) part key values.now (state_with chosen records ir dr variables.now)) }
{
    match part {
        ExportPart::Int | ExportPart::Bit => one_value(code, values, variables),
        ExportPart::Array(source) => array_value(code, source, values, variables),
    }
}

/// What an Export exports.
pub fn export(
    code: &CodeLists,
    key: u32,
    part: ExportPart,
    values: &[Value],
    variables: &[Held],
) -> Result<Made, Stop>
    ensures { (text chosen : List ℕ) (shifted : Shifted) (records : List Record) (ir dr : ScanSettings) →
        IsMade result (record { text = text; constants = constants_of code.now; states = []; shifted = shifted })
        (state_with chosen records ir dr variables.now) (state_with chosen records ir dr variables.now)
        (does (then_get (known_text (slice_get code.now.texts key))
        (λ bytes. part_exported (constants_of code.now) part bytes values.now
        (state_with chosen records ir dr variables.now)))) }
{
    if key as usize >= code.texts.len() {
        return Err(Stop::Wrong);
    }
    let value = exported(code, part, values, variables)?;
    Ok(Made::Acts(Doing::Exports(Export { key, value })))
}
