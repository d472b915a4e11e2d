// Why a line or a sheet is refused, and the numbers by which that is told.
ghost use Rattle.std.specs.Prelude.{◌≡◌};
ghost use Rattle.sheet.specs.Faults.{whole_report, report_of, sheet_report_of};
ghost use Rattle.sheet.specs.declared.fault.LineFault.TheVariants as lines;
ghost use Rattle.sheet.specs.declared.fault.SheetFault.TheVariants as sheets;

use hall::fault::BoardFault;
use text::cells::PrintFault;
use text::number::NumberFault;

// A field of a line and its byte offset. Fields are counted from 0, and an offset is that of the field's first byte.
#[derive(Clone, Copy, Debug, PartialEq, Eq)]
pub struct Spot {
    pub field: usize,
    pub offset: usize,
}

// Why a line is refused.
#[derive(Clone, Copy, Debug, PartialEq, Eq)]
pub enum LineFault {
    Number { fault: NumberFault, spot: Spot },
    KindUnknown,
    FieldCount,
    Board { fault: BoardFault, offset: usize },
}

// Why a sheet is refused. Lines are counted from 1.
#[derive(Clone, Copy, Debug, PartialEq, Eq)]
pub enum SheetFault {
    TooLong,
    NoRoom,
    AtLine { line: usize, fault: LineFault },
}

// What refuses: the text of a number, the record of a line, the board, or the sheet itself. The rules number the layers.
#[derive(Clone, Copy, Debug, PartialEq, Eq)]
pub enum Layer {
    Text = 1,
    Record = 2,
    Board = 3,
    Sheet = 4,
}

// What is told of a fault, as it is printed: five numbers, of which a spot would be two. The rules number refusals, over all
// layers, of which the cases are those of the fault types; and they say 0 of no line, no field and no offset.
#[derive(Clone, Copy, Debug, PartialEq, Eq)]
pub struct FaultReport {
    pub line: usize,
    pub layer: Layer,
    pub refusal: u32,
    pub field: usize,
    pub offset: usize,
}

// The report of a fault that is about no field.
fn whole(line: usize, layer: Layer, refusal: u32) -> FaultReport
    ensures { result ≡ whole_report line layer refusal }
{
    FaultReport {
        line,
        layer,
        refusal,
        field: 0,
        offset: 0,
    }
}

impl LineFault {
    // The numbers of the fault, where it is that of this line.
    pub fn report(&self, line: usize) -> FaultReport
        ensures { result ≡ report_of line self.now }
    {
        match self {
            LineFault::Number { spot, .. } => FaultReport {
                line,
                layer: Layer::Text,
                refusal: 1,
                field: spot.field,
                offset: spot.offset,
            },
            LineFault::KindUnknown => whole(line, Layer::Record, 2),
            LineFault::FieldCount => whole(line, Layer::Record, 3),
            LineFault::Board { fault, offset } => FaultReport {
                line,
                layer: Layer::Board,
                refusal: fault.refusal(),
                field: fault.field(),
                offset: *offset,
            },
        }
    }
}

impl SheetFault {
    // The numbers of the fault; those of a line's fault are the line's.
    pub fn report(&self) -> FaultReport
        ensures { result ≡ sheet_report_of self.now }
    {
        match self {
            SheetFault::TooLong => whole(0, Layer::Sheet, 5),
            SheetFault::NoRoom => whole(0, Layer::Sheet, 35),
            SheetFault::AtLine { line, fault } => fault.report(*line),
        }
    }
}

// By a rule of the project `From` lifts a fault into a case of the layer above, with what that says beside it.
impl From<(Spot, NumberFault)> for LineFault {
    ghost from_gives = { λ e r. r ≡ lines.Number e.1 e.0 };

    fn from(e: (Spot, NumberFault)) -> LineFault {
        LineFault::Number {
            fault: e.1,
            spot: e.0,
        }
    }
}

impl From<(usize, BoardFault)> for LineFault {
    ghost from_gives = { λ e r. r ≡ lines.Board e.1 e.0 };

    fn from(e: (usize, BoardFault)) -> LineFault {
        LineFault::Board {
            fault: e.1,
            offset: e.0,
        }
    }
}

impl From<(usize, LineFault)> for SheetFault {
    ghost from_gives = { λ e r. r ≡ sheets.AtLine e.0 e.1 };

    fn from(e: (usize, LineFault)) -> SheetFault {
        SheetFault::AtLine {
            line: e.0,
            fault: e.1,
        }
    }
}

impl From<PrintFault> for SheetFault {
    ghost from_gives = { λ _ r. r ≡ sheets.NoRoom };

    fn from(_e: PrintFault) -> SheetFault {
        SheetFault::NoRoom
    }
}
