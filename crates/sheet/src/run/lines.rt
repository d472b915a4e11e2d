// The lines of a sheet, run in order.
ghost use Rattle.std.specs.Prelude.{◌≡◌, drop, OnErr, OnOk};
ghost use Rattle.hall.specs.Hall.{hall_log};
ghost use Rattle.sheet.specs.Reading.{on_ok};
ghost use Rattle.sheet.specs.Run.{left, number, standing, opened_of, next_of, log_next, number_next, Lettered};

use super::{Cursor, Entry};
use crate::fault::SheetFault;
use crate::line::run;
use hall::board::Board;
use text::bytes::find;

// The byte that ends a line.
const NEWLINE: u8 = b'\n';

// The most bytes that a sheet has.
pub const MOST_BYTES: usize = 60_000;

impl Cursor {
    // A cursor at the first line of `text`.
    pub fn new(text: &[u8]) -> Result<Cursor, SheetFault>
        ensures { on_ok (standing text.now) result ≡ opened_of text.now }
    {
        if text.len() > MOST_BYTES {
            return Err(SheetFault::TooLong);
        }
        Ok(Cursor { at: 0, behind: 0 })
    }

    // Runs the next line of `text` on the board, and answers what it did, or None where no line is left. A line that
    // is refused leaves the board and the cursor as they were.
    #[tactic(auto, using(crate::proofs::Running::next_log, crate::proofs::Running::next_rest, crate::proofs::Running::lettered))]
    pub fn next(&mut self, text: &[u8], board: &mut Board) -> Result<Option<Entry>, SheetFault>
        ensures answer { result ≡ next_of (number self.old) (left text.now self.old) (hall_log board.old) }
        ensures log { hall_log board.new ≡ log_next (left text.now self.old) (hall_log board.old) }
        ensures unchanged { OnErr result ((board.new ≡ board.old) × (self.new ≡ self.old)) }
        ensures rest { OnOk result (left text.now self.new ≡ drop 1 (left text.now self.old)) }
        ensures counted { OnOk result (number self.new ≡ number_next (number self.old) (left text.now self.old)) }
        ensures lettered { Lettered }
    {
        let at = self.at;
        if at >= text.len() {
            return Ok(None);
        }
        let end = find(text, at, NEWLINE);
        let line = self.behind + 1;
        let (kind, answer) = run(board, &text[at..end]).map_err(|fault| (line, fault))?;
        self.at = (end + 1).min(text.len());
        self.behind = line;
        Ok(Some(Entry { line, kind, answer }))
    }
}
