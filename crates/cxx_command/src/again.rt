//! What reading a plain form again shows.
ghost use Rattle.std.specs.Prelude.{◌≡◌, ◌++◌, IfOk, OnOk, codes, decimal};
ghost use Rattle.cxx_form.specs.Printed.{IsPrinted};
ghost use Rattle.cxx_model.specs.declared.options.Options.{Options as OptionsOfRun};
ghost use Rattle.cxx_model.specs.Printing.Reports.{report as report_of};
ghost use Rattle.cxx_reading.specs.Units.{CxxReading};
ghost use Rattle.cxx_units.specs.Read.{reading_of};
ghost use Rattle.cxx_command.specs.Again as definition;
ghost use Rattle.cxx_command.specs.Again.{OtherCall, OtherLine, difference_of, heading, numbered};
ghost use Rattle.cxx_command.specs.Outcome.{Whole};
ghost use Rattle.cxx_command.specs.Shown.{IsShown, IsTextOf};

use crate::unit::{Outcome, read_bytes};
use cxx_form::{PlainFault, Printed, print_reading};
use cxx_model::{Fault, Options};
use cxx_report::report;
use cxx_tree::State;
use itoa::Buffer;
use std::alloc::{AllocError, Global};

/// How a plain form differs from what is read of it again.
#[derive(Drop)]
pub(crate) enum Shown {
    /// It does not, or is too large to be read again.
    Nothing,
    /// What is said of the difference.
    Differs(Vec<u8>),
    NoMemory,
}

// The number of the first line in which two texts differ.
fn difference(one: &[u8], two: &[u8]) -> Option<u128>
    ensures { result ≡ difference_of one.now two.now }
{
    let mut line = 1u128;
    let mut left = one;
    let mut right = two;
    while let [x, xs @ ..] = left {
        let [y, ys @ ..] = right else {
            return Some(line);
        };
        if x != y {
            return Some(line);
        }
        if *x == b'\n' {
            line += 1;
        }
        left = xs;
        right = ys;
    }
    if right.is_empty() { None } else { Some(line) }
}

fn write(text: &mut Vec<u8>, part: &[u8]) -> Result<(), AllocError>
    ensures { OnOk result (text.new.items ≡ text.old.items ++ part.now) }
{
    text.extend_from_slice(part)
}

// The text of a difference that has a number.
fn number_text(alloc: Global, front: &[u8], number: u128) -> Result<Vec<u8>, AllocError>
    ensures { IfOk result (λ text. text.items ≡ heading ++ numbered front.now number) }
{
    let mut digits = Buffer::new();
    let mut text = Vec::from_slice(alloc, b"does not read back\n")?;
    write(&mut text, front)?;
    write(&mut text, digits.format(number).as_bytes())?;
    write(&mut text, b"\n")?;
    Ok(text)
}

// The text of a plain form that is a broken unit.
fn broken_text(alloc: Global, fault: &Fault) -> Result<Vec<u8>, AllocError>
    ensures { IfOk result (λ text. text.items ≡ heading ++ report_of fault.now) }
{
    let mut text = Vec::from_slice(alloc, b"does not read back\n")?;
    let report = report(alloc, fault)?;
    write(&mut text, report.as_slice())?;
    Ok(text)
}

fn told(text: Result<Vec<u8>, AllocError>) -> Shown
    ensures { (wanted : definition.Difference) → IfOk text (λ given. IsTextOf wanted given.items) → IsShown (Some wanted) result }
{
    match text {
        Ok(text) => Shown::Differs(text),
        Err(_) => Shown::NoMemory,
    }
}

// The text of an other line.
fn line_text(alloc: Global, number: u128) -> Result<Vec<u8>, AllocError>
    ensures { IfOk result (λ text. IsTextOf (OtherLine number) text.items) }
{
    number_text(alloc, b"  line ", number)
}

// The text of an other call.
fn call_text(alloc: Global, number: u128) -> Result<Vec<u8>, AllocError>
    ensures { IfOk result (λ text. IsTextOf (OtherCall number) text.items) }
{
    number_text(alloc, b"  call ", number)
}

// The calls of two readings with the same text.
fn between_calls(alloc: Global, one: &Printed, two: &Printed) -> Shown
    ensures { IsShown (definition.by_calls (difference_of (one.now).functions.items (two.now).functions.items)) result }
{
    match difference(one.functions.as_slice(), two.functions.as_slice()) {
        None => Shown::Nothing,
        Some(number) => told(call_text(alloc, number)),
    }
}

fn between(alloc: Global, one: &Printed, two: &Printed) -> Shown
    ensures { IsShown (definition.by_lines (difference_of (one.now).text.items (two.now).text.items) (definition.by_calls (difference_of (one.now).functions.items (two.now).functions.items))) result }
{
    match difference(one.text.as_slice(), two.text.as_slice()) {
        None => between_calls(alloc, one, two),
        Some(number) => told(line_text(alloc, number)),
    }
}

// The plain form is a whole unit.
fn printed_again(alloc: Global, one: &Printed, state: &State) -> Shown
    ensures { (options : OptionsOfRun) (first : CxxReading) → IsPrinted first one.now → IsShown (definition.shown_by first (Whole (reading_of options state.now))) result }
{
    match print_reading(alloc, state) {
        Ok(two) => between(alloc, one, &two),
        Err(PlainFault::Limit) => Shown::Nothing,
        Err(PlainFault::OutOfMemory) => Shown::NoMemory,
    }
}

/// What reading the plain form of a reading again shows.
#[tactic(auto, unfolding(crate::specs::Again::read_again))]
pub(crate) fn again(alloc: Global, one: &Printed, options: Options) -> Shown
    ensures { (first : CxxReading) → IsPrinted first one.now → IsShown (definition.read_again options first) result }
{
    match read_bytes(alloc, one.text.as_slice(), options) {
        Outcome::Whole(state) => {
            let shown = printed_again(alloc, one, &state);
            state.let_go();
            shown
        }
        Outcome::Broken(fault) => told(broken_text(alloc, &fault)),
        Outcome::PassesLimit(_) => Shown::Nothing,
        Outcome::NoMemory => Shown::NoMemory,
    }
}
