// What a line asks for.
ghost use Rattle.std.specs.Prelude.{◌≡◌, ◌≤◌, [], length, drop, slice_index, Some, IfOk};
ghost use Rattle.text.specs.Split.{before, tally, parted};
ghost use Rattle.sheet.specs.Reading.{letter, offset_of, value_of, spotted, on_ok, values_of, steps_of, call_for, reading_of, call_of, asking};

use crate::fault::{LineFault, Spot};
use crate::kind::Kind;
use hall::step::Step;
use hall::vehicle::MOST_STEPS;
use short::Short;
use text::bytes::{count, find};
use text::number::{NumberFault, read_minutes, read_number};

// The byte that parts fields.
const TAB: u8 = b'\t';

// The most numbers behind the kind of a line: two for each step of a vehicle.
const MOST_NUMBERS: usize = 2 * MOST_STEPS;

// A call of the board with its arguments.
#[derive(Clone, Copy)]
pub(crate) enum Request {
    Enter(Short<Step, MOST_STEPS>),
    Begin(u32),
    Finish(u32),
    Pass(u32),
}

impl Request {
    // The kind of the lines that ask for it.
    pub(crate) fn kind(&self) -> Kind
        ensures { result ≡ asking self.now }
    {
        match self {
            Request::Enter(_) => Kind::Vehicle,
            Request::Begin(_) => Kind::Begin,
            Request::Finish(_) => Kind::Finish,
            Request::Pass(_) => Kind::Pass,
        }
    }
}

// The byte offset of a field in its line; past the last field, where the line ends, so that there is always an answer.
pub(crate) fn offset(line: &[u8], field: usize) -> usize
    ensures { result ≡ offset_of (parted 9 line.now) field }
{
    let before: usize = line
        .split(|b| *b == TAB)
        .take(field)
        .map(|bytes| bytes.len() + 1)
        .sum();
    before.min(line.len())
}

// What a field of a line of this kind writes: a length or minutes, or the number of a station or a vehicle.
fn value(kind: Kind, field: usize, bytes: &[u8]) -> Result<u32, NumberFault>
    ensures { result ≡ value_of kind field bytes.now }
{
    match kind {
        Kind::Vehicle if field % 2 == 0 => read_minutes(bytes),
        Kind::Pass => read_minutes(bytes),
        _ => read_number(bytes),
    }
}

// What a field of a line writes, with a fault put at its number and offset.
fn value_at(kind: Kind, line: &[u8], field: usize, bytes: &[u8]) -> Result<u32, LineFault>
    ensures { result ≡ spotted field (offset_of (parted 9 line.now) field) (value_of kind field bytes.now) }
{
    Ok(value(kind, field, bytes).map_err(|fault| {
        let offset = offset(line, field);
        (Spot { field, offset }, fault)
    })?)
}

// Reads the numbers behind the kind of a line, whose kind is one byte with a tab behind it, into a list without items. The
// list is lent, so that it is not copied.
fn read_numbers(
    kind: Kind,
    line: &[u8],
    numbers: &mut Short<u32, MOST_NUMBERS>,
) -> Result<(), LineFault>
    requires empty { numbers.old.items ≡ [] }
    requires few { tally 9 line.now ≤ 16 }
    requires some { 1 ≤ tally 9 line.now }
    requires kind { length (before 9 line.now) ≡ 1 }
    ensures value { on_ok (λ _. numbers.new.items) result ≡ values_of kind 1 2 (drop 1 (parted 9 line.now)) }
    ensures len { IfOk result (λ _. length numbers.new.items ≡ tally 9 line.now) }
{
    for (k, bytes) in line[2..].split(|b| *b == TAB).enumerate() {
        numbers.push(value_at(kind, line, k + 1, bytes)?);
    }
    Ok(())
}

// The steps that pairs of numbers give.
fn pair_steps(numbers: &Short<u32, MOST_NUMBERS>) -> Short<Step, MOST_STEPS>
    ensures { result.items ≡ steps_of numbers.now.items }
{
    let mut steps = Short::empty(Step {
        station: 0,
        length: 0,
    });
    for pair in numbers.as_slice().chunks_exact(2) {
        steps.push(Step {
            station: pair[0],
            length: pair[1],
        });
    }
    steps
}

// The call that a line of this kind with these numbers asks for.
fn asked(kind: Kind, numbers: &Short<u32, MOST_NUMBERS>) -> Request
    requires { 1 ≤ length numbers.now.items }
    ensures call { call_of result ≡ call_for kind numbers.now.items }
    ensures kind { asking result ≡ kind }
{
    let first = numbers.as_slice()[0];
    match kind {
        Kind::Vehicle => Request::Enter(pair_steps(numbers)),
        Kind::Begin => Request::Begin(first),
        Kind::Finish => Request::Finish(first),
        Kind::Pass => Request::Pass(first),
    }
}

// The call that a line asks for.
pub(crate) fn read(bytes: &[u8]) -> Result<Request, LineFault>
    ensures call { on_ok call_of result ≡ reading_of bytes.now }
    ensures kind { IfOk result (λ request. letter (slice_index bytes.now 0) ≡ Some (asking request)) }
{
    let end = find(bytes, 0, TAB);
    let kind = Kind::try_from(&bytes[..end])?;
    if !kind.fits(count(bytes, TAB)) {
        return Err(LineFault::FieldCount);
    }
    let mut numbers = Short::empty(0);
    read_numbers(kind, bytes, &mut numbers)?;
    Ok(asked(kind, &numbers))
}
