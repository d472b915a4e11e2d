// One line of a sheet, run on the board.
ghost use Rattle.std.specs.Prelude.{◌≡◌, IfOk, Some, slice_index};
ghost use Rattle.hall.specs.Hall.{Called};
ghost use Rattle.text.specs.Split.{parted};
ghost use Rattle.sheet.specs.Line.{placed_of, LineCalled};
ghost use Rattle.sheet.specs.Reading.{letter, on_ok, call_of, FieldsStand, NumbersSpotted};

use crate::fault::LineFault;
use crate::kind::Kind;
use crate::reading::{Request, offset, read};
use hall::board::Board;
use hall::fault::BoardFault;

// Makes a call of the board.
fn make(board: &mut Board, request: &Request) -> Result<u32, BoardFault>
    ensures called { Called board.old (call_of request.now) result board.new }
{
    match request {
        Request::Enter(steps) => board.enter(steps.as_slice()),
        Request::Begin(vehicle) => board.begin(*vehicle),
        Request::Finish(vehicle) => board.finish(*vehicle),
        Request::Pass(minutes) => board.pass(*minutes),
    }
}

// The board's answer to a line, with a fault put at the byte offset of the field that it is about.
fn place(bytes: &[u8], answer: Result<u32, BoardFault>) -> Result<u32, LineFault>
    ensures { result ≡ placed_of (parted 9 bytes.now) answer }
{
    Ok(answer.map_err(|fault| (offset(bytes, fault.field()), fault))?)
}

// Makes the call that a line asks for, and answers the line's kind and what the board answered.
#[tactic(auto, using(crate::proofs::Offsets::fields_stand, crate::proofs::Spotted::numbers_spotted))]
pub(crate) fn run(board: &mut Board, bytes: &[u8]) -> Result<(Kind, u32), LineFault>
    ensures called { LineCalled board.old bytes.now (on_ok (λ a. a.1) result) board.new }
    ensures fields { FieldsStand bytes.now }
    ensures spots { NumbersSpotted bytes.now }
    ensures kind { IfOk result (λ a. letter (slice_index bytes.now 0) ≡ Some a.0) }
{
    let request = read(bytes)?;
    let answer = place(bytes, make(board, &request))?;
    Ok((request.kind(), answer))
}

// Makes the call that a line asks for, and answers what the board answered.
pub fn line(board: &mut Board, bytes: &[u8]) -> Result<u32, LineFault>
    ensures called { LineCalled board.old bytes.now result board.new }
    ensures fields { FieldsStand bytes.now }
    ensures spots { NumbersSpotted bytes.now }
{
    run(board, bytes).map(|(_, answer)| answer)
}
