//! Rows of constant expressions: each line of the input is a formula, and the value is printed, or `none`.
#![tactic(auto)]

mod formulas;
mod rows;
mod stopped;
mod unit;

use crate::rows::value_of;
use crate::stopped::Stopped;
use std::io;

fn main(rt: HostRuntime) -> io::Result<()> {
    let alloc = rt.alloc();
    for line in rt.lines(alloc) {
        let line = line?;
        if line.as_str().starts_with('#') {
            continue;
        }
        match value_of(alloc, line.as_str()) {
            Ok(Some(value)) => println!(rt; "{value}")?,
            Ok(None) => println!(rt; "none")?,
            Err(Stopped::IllRow) => println!(rt; "ill row: {line}")?,
            Err(Stopped::OutOfMemory) => println!(rt; "out of memory: {line}")?,
        }
    }
    Ok(())
}
