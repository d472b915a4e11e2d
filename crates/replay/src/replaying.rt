// A sheet run line by line, with a text of what each line did.
ghost use Rattle.std.specs.Prelude.{◌≡◌, ◌≤◌, ◌++◌, IfOk, OnOk};
ghost use Rattle.replay.specs.Replay.{replay_text, Told, Ran};
ghost use Rattle.replay.specs.declared.replaying.Stop.TheVariants.{Memory, Fault};

use hall::board::Board;
use sheet::fault::SheetFault;
use sheet::print::Printed;
use sheet::run::Cursor;
use std::alloc::{AllocError, Global};

// Why a run ends before the last line: want of memory, or a fault of the sheet.
#[derive(Drop)]
pub enum Stop {
    Memory(AllocError),
    Fault(SheetFault),
}

impl From<AllocError> for Stop {
    ghost from_gives = { λ e r. r ≡ Memory e };

    fn from(e: AllocError) -> Stop {
        Stop::Memory(e)
    }
}

impl From<SheetFault> for Stop {
    ghost from_gives = { λ e r. r ≡ Fault e };

    fn from(e: SheetFault) -> Stop {
        Stop::Fault(e)
    }
}

// Enough bytes for a printed entry or fault.
const LINE_BYTES: usize = 128;

// Adds the line of an entry or a fault to `shown`.
fn add<P: Printed>(shown: &mut Vec<u8>, printed: &P) -> Result<(), AllocError>
    requires { P.most ≤ 128 }
    ensures { OnOk result (shown.new.items ≡ shown.old.items ++ P.text printed.now) }
{
    // lent to the printer, as a console lends its own; what is behind the line is not shown
    let mut place = [0u8; LINE_BYTES];
    let Ok(n) = printed.print(&mut place) else {
        unreachable()
    };
    shown.extend_from_slice(&place[..n])
}

// Runs the lines of a sheet in order, up to the first that is refused, and adds to `shown` what each of them did.
fn run(shown: &mut Vec<u8>, text: &[u8]) -> Result<(), Stop>
    ensures { Ran shown.old.items shown.new.items text.now result }
{
    let mut cursor = Cursor::new(text)?;
    let mut board = Board::new();
    while let Some(entry) = cursor.next(text, &mut board)? {
        add(shown, &entry)?;
    }
    Ok(())
}

// The text of what each line of a sheet did, up to the first that is refused, and then that one's fault.
#[tactic(auto, using(crate::proofs::Telling::told))]
pub fn replay(heap: Global, text: &[u8]) -> Result<Vec<u8>, AllocError>
    ensures shown { IfOk result (λ shown. shown.items ≡ replay_text text.now) }
    ensures told { Told text.now (replay_text text.now) }
{
    let mut shown = Vec::new(heap);
    match run(&mut shown, text) {
        Ok(()) => Ok(shown),
        Err(Stop::Fault(fault)) => {
            add(&mut shown, &fault)?;
            Ok(shown)
        }
        Err(Stop::Memory(e)) => Err(e),
    }
}
