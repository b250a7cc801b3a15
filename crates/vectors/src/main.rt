// Replays recorded cases: each line of standard input is numbers, the first of them the call; what the call answers is written as a
// line of numbers. The cases, and the answers that standard output is held to, are made by oracle/record.
#![tactic(auto)]

mod lines;
mod stores_cases;
mod streams_cases;

use std::io;
use std::io::{BufWriter, Write};

fn main(rt: HostRuntime) -> io::Result<()> {
    let mut to = BufWriter::new(rt.alloc(), rt.stdout())?;
    let ran = lines::run_all(&mut rt.stdin(), &mut to);
    to.flush()?;
    ran
}
