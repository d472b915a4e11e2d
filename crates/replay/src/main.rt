// Replays a day sheet: reads it from standard input, runs its lines on a new board, and prints what each of them did, or
// the fault of the first that is refused.
#![tactic(auto)]

use replaying::replay;
use sheet::run::lines::MOST_BYTES;
use std::io;
use std::io::{Read, Write};

mod replaying;

// One byte more than a sheet may have, so that a longer one is refused.
const MOST_READ: u64 = MOST_BYTES as u64 + 1;

fn main(rt: HostRuntime) -> io::Result<()> {
    let mut text = Vec::new(rt.alloc());
    let mut input = rt.stdin().take(MOST_READ);
    input.read_to_end(&mut text)?;
    let shown = replay(rt.alloc(), &text)?;
    rt.stdout().write_all(&shown)
}
