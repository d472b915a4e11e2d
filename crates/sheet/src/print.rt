// A fault and an entry, each printed as a line.
ghost use Rattle.std.specs.Prelude.{◌≡◌, ℕ, ◌≤◌, List, length};
ghost use Rattle.text.specs.Cells.{line_text};
ghost use Rattle.text.specs.Print.{printed_into};
ghost use Rattle.sheet.specs.Texts.{fault_cells, fault_text, lettered_text, entry_text, sheet_answer};

use crate::fault::{FaultReport, SheetFault};
use crate::run::Entry;
use text::cells::{Cell, print_line};

// What is printed as a line, all of it or none: `Display` writes piece by piece, and would not leave a place that is too
// short as it was.
pub trait Printed {
    // the bytes of its line
    ghost text: { Self → List ℕ };

    // the most bytes that such a line has
    ghost most: { ℕ };

    // Prints its line at the front of `place`, and answers how many bytes it took; where there is no room for it,
    // refuses and leaves `place` as it was.
    fn print(&self, place: &mut [u8]) -> Result<usize, SheetFault>
        ensures answer { result ≡ sheet_answer (printed_into (text self.now) place.old).0 }
        ensures after { place.new ≡ (printed_into (text self.now) place.old).1 }
        ensures short { length (text self.now) ≤ most };
}

// Prints a line of cells, with its refusal as the sheet's.
fn print_cells(place: &mut [u8], first: Cell, rest: &[Cell]) -> Result<usize, SheetFault>
    ensures answer { result ≡ sheet_answer (printed_into (line_text first rest.now) place.old).0 }
    ensures after { place.new ≡ (printed_into (line_text first rest.now) place.old).1 }
{
    Ok(print_line(place, first, rest)?)
}

// The numbers of a fault as cells.
fn fault_cells(report: &FaultReport) -> [Cell; 5]
    ensures { result ≡ fault_cells report.now }
{
    [
        Cell::Number(report.line as u64),
        Cell::Number(report.layer as u64),
        Cell::Number(u64::from(report.refusal)),
        Cell::Number(report.field as u64),
        Cell::Number(report.offset as u64),
    ]
}

// A fault is printed as the letter E and its numbers.
impl Printed for SheetFault {
    ghost text = { fault_text };

    ghost most = { 107 };

    fn print(&self, place: &mut [u8]) -> Result<usize, SheetFault> {
        let report = self.report();
        print_cells(place, Cell::Symbol(b'E'), &fault_cells(&report))
    }
}

// Prints the number of a line, a letter, which may be any byte, and an answer; where there is no room for them, refuses and
// leaves `place` as it was.
pub fn print_entry(
    place: &mut [u8],
    line: usize,
    letter: u8,
    answer: u32,
) -> Result<usize, SheetFault>
    ensures answer { result ≡ sheet_answer (printed_into (lettered_text line letter answer) place.old).0 }
    ensures after { place.new ≡ (printed_into (lettered_text line letter answer) place.old).1 }
    ensures short { length (lettered_text line letter answer) ≤ 44 }
{
    let cells = [Cell::Symbol(letter), Cell::Number(u64::from(answer))];
    print_cells(place, Cell::Number(line as u64), &cells)
}

// What an accepted line did is printed as its number, its kind's letter and its call's answer.
impl Printed for Entry {
    ghost text = { entry_text };

    ghost most = { 44 };

    fn print(&self, place: &mut [u8]) -> Result<usize, SheetFault> {
        print_entry(place, self.line, self.kind.letter(), self.answer)
    }
}
