//! Compares whole programs with what is wanted of them: each row of the files `*.rows` in this crate's `data/`, which the gate
//! runs the program in a copy of. That no row got lost is told by the number in `stdout`, which a new row changes.
#![tactic(auto)]

mod calls;
mod count;
mod rows;

use std::io;

fn main(rt: HostRuntime) -> io::Result<()> {
    let rows = rows::compared(&rt)?;
    println!(rt; "{} rows agree, {} differ", rows.agree, rows.differ)
}
