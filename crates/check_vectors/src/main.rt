// Document 01's checked values, the standards' published vectors and whole cells, run through the proved functions.
// A Rust version, written separately, from the documents alone, computes the same lines. reference/tests/vectors.rs
// compares them with the file stdout beside src/. The check compares this program's output with it too.
#![tactic(auto)]

use std::io;

mod cells;
mod changes;
mod checks;
mod opening;
mod print;
mod rates;
mod turned;

fn main(rt: HostRuntime) -> io::Result<()> {
    rates::show(&rt)?;
    opening::show(&rt)?;
    checks::show(&rt)?;
    cells::show(&rt)?;
    changes::show(&rt)?;
    turned::show(&rt)
}
