//! Rows of lookups: each line of the input is a graph, with what some lookups in it find. What they find is compared, and
//! where it is something else the line is printed with it.
#![tactic(auto)]

ghost use Rattle.cxx_lookup_tests.specs.Units.{IsUnit};

mod answers;
mod asking;
mod fits;
mod kinds;
mod rows;
mod stopped;
mod unit;

use crate::asking::check;
use crate::rows::{first, item_of, step};
use crate::stopped::Stopped;
use crate::unit::Unit;
use std::alloc::Global;
use std::io;
use std::marker::Brand;
use std::sync::ledger::Blank;

/// How many lookups there were, and how many found something else.
#[derive(Clone, Copy)]
struct Tally {
    asked: u64,
    otherwise: u64,
}

fn counted(tally: Tally, holds: bool) -> Tally {
    Tally {
        asked: tally.asked.saturating_add(1),
        otherwise: if holds {
            tally.otherwise
        } else {
            tally.otherwise.saturating_add(1)
        },
    }
}

// Whether a lookup finds what a row says; else what it finds is added to a text.
fn is_found(alloc: Global, unit: &Unit, query: &[u8], report: &mut String) -> Result<bool, Stopped>
    requires { IsUnit unit.now }
{
    check::<Brand>(alloc, unit, query, report, Blank::new(1))
}

// Reads a line; what is found in place of what it says is added to a text.
fn read(alloc: Global, tally: Tally, line: &str, report: &mut String) -> Result<Tally, Stopped> {
    let mut tally = tally;
    let mut unit = first(alloc)?;
    for word in line.split_whitespace() {
        match word.as_bytes() {
            [b'?', query @ ..] => {
                let holds = is_found(alloc, &unit, query, report)?;
                tally = counted(tally, holds);
            }
            other => unit = step(alloc, unit, item_of(other))?,
        }
    }
    Ok(tally)
}

fn main(rt: HostRuntime) -> io::Result<()> {
    let alloc = rt.alloc();
    let mut tally = Tally {
        asked: 0,
        otherwise: 0,
    };
    for line in rt.lines(alloc) {
        let line = line?;
        if line.as_str().starts_with('#') {
            continue;
        }
        let mut report = String::new(alloc);
        match read(alloc, tally, line.as_str(), &mut report) {
            Ok(now) => tally = now,
            Err(Stopped::IllRow) => println!(rt; "ill row: {line}")?,
            Err(Stopped::OutOfMemory) => println!(rt; "out of memory: {line}")?,
        }
        if !report.is_empty() {
            println!(rt; "{line} finds{report}")?;
        }
    }
    let Tally { asked, otherwise } = tally;
    println!(rt; "{asked} lookups, {otherwise} otherwise")
}
