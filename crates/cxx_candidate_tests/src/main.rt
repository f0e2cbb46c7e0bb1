//! Rows of built-in operators: each line of the input is a unit, with the candidates for some operators in it. The candidates
//! are compared, and where they are others the line is printed with them.
#![tactic(auto)]

mod asking;
mod fits;
mod graphs;
mod letters;
mod parts;
mod rows;
mod stopped;
mod texts;
mod unit;

use crate::asking::operator_of;
use crate::rows::{declare, typed};
use crate::stopped::Stopped;
use crate::unit::Unit;
use cxx_model::{ConstantKind, Listed, Operand, OperandList, TypeId};
use std::alloc::Global;
use std::io;

/// How many operators there were, and how many had other candidates.
#[derive(Clone, Copy)]
struct Tally {
    asked: u64,
    otherwise: u64,
}

/// A line that is read: what is declared so far, and the operator that was begun last with its operands.
#[derive(Drop)]
struct Row {
    unit: Unit,
    operator: u8,
    operands: OperandList,
}

fn counted(tally: &mut Tally, holds: bool) {
    tally.asked = tally.asked.saturating_add(1);
    if !holds {
        tally.otherwise = tally.otherwise.saturating_add(1);
    }
}

fn operand(of: TypeId) -> Operand {
    Operand {
        of,
        lvalue: true,
        constant: ConstantKind::No,
    }
}

// Whether the candidates are those of a row; else they are added to a text.
fn has_candidates(
    alloc: Global,
    row: &mut Row,
    expected: &[u8],
    report: &mut String,
) -> Result<bool, Stopped> {
    let text = row.unit.candidates(alloc, row.operator, &row.operands)?;
    let holds = text.as_bytes() == expected;
    if !holds {
        report.push(' ')?;
        report.push_str(text.as_str())?;
    }
    Ok(holds)
}

fn step(
    alloc: Global,
    row: &mut Row,
    tally: &mut Tally,
    word: &[u8],
    report: &mut String,
) -> Result<(), Stopped> {
    match word {
        [b'?', spelling @ ..] => {
            row.operator = operator_of(spelling)?;
            row.operands = Listed::new(alloc);
        }
        [b'@', letters @ ..] => {
            let of = typed(&mut row.unit, letters)?;
            row.operands.push(operand(of))?;
        }
        [b'=', expected @ ..] => {
            let holds = has_candidates(alloc, row, expected, report)?;
            counted(tally, holds);
        }
        other => declare(alloc, &mut row.unit, other)?,
    }
    Ok(())
}

// Reads a line; the candidates in place of those that it says are added to a text.
fn read(alloc: Global, tally: &mut Tally, line: &str, report: &mut String) -> Result<(), Stopped> {
    let mut row = Row {
        unit: Unit::start(alloc)?,
        operator: 0,
        operands: Listed::new(alloc),
    };
    for word in line.split_whitespace() {
        step(alloc, &mut row, tally, word.as_bytes(), report)?;
    }
    Ok(())
}

fn main(rt: HostRuntime) -> io::Result<()> {
    let alloc = rt.alloc();
    let mut tally = Tally {
        asked: 0,
        otherwise: 0,
    };
    for line in rt.lines(alloc) {
        let line = line?;
        if line.as_str().starts_with('#') {
            continue;
        }
        let mut report = String::new(alloc);
        match read(alloc, &mut tally, line.as_str(), &mut report) {
            Ok(()) => {}
            Err(Stopped::IllRow) => println!(rt; "ill row: {line}")?,
            Err(Stopped::OutOfMemory) => println!(rt; "out of memory: {line}")?,
        }
        if !report.is_empty() {
            println!(rt; "{line} has{report}")?;
        }
    }
    let Tally { asked, otherwise } = tally;
    println!(rt; "{asked} candidates, {otherwise} otherwise")
}
