//! What is due for the bytes of a unit.
ghost use Rattle.std.specs.Prelude.{◌≡◌, true, Err, IfOk, Option};
ghost use Rattle.cxx_form.specs.Called.{is_past_output};
ghost use Rattle.cxx_form.specs.Printed.{IsPrinted};
ghost use Rattle.cxx_listing.specs.Lines.{calls_text as listing_of};
ghost use Rattle.cxx_model.specs.declared.options.Options.{Options as OptionsOfRun};
ghost use Rattle.cxx_form.specs.Text.{plain_text};
ghost use Rattle.cxx_reading.specs.Units.{CxxReading};
ghost use Rattle.cxx_units.specs.Read.{reading_of};
ghost use Rattle.cxx_words.specs.Words.{options_of as options_said};
ghost use Rattle.cxx_words.specs.declared.job.Mode.TheVariants as mode;
ghost use Rattle.cxx_command.specs.Again.{Difference, read_again};
ghost use Rattle.cxx_command.specs.Answers.{IsUnitAnswer};
ghost use Rattle.cxx_command.specs.Run as spec;
ghost use Rattle.cxx_command.specs.Run.{due, due_again, due_whole};
ghost use Rattle.cxx_command.specs.Shown.{IsShown};

use crate::again::{Shown, again};
use crate::answers::Answer;
use crate::unit::{Outcome, read_bytes};
use cxx_form::{PlainFault, Printed, print_reading};
use cxx_listing::calls_text;
use cxx_model::{Fault, LimitKind, Options};
use cxx_report::report;
use cxx_tree::State;
use cxx_words::{Job, Mode};
use std::alloc::{AllocError, Global};

fn reported(alloc: Global, fault: &Fault) -> Answer
    ensures { IsUnitAnswer (spec.Reports fault.now) result }
{
    match report(alloc, fault) {
        Ok(text) => Answer::Reports(text),
        Err(_) => Answer::NoMemory,
    }
}

// The plain form, once it was read again.
fn written(printed: Printed, shown: Shown) -> Answer
    ensures { (reading : CxxReading) (found : Option Difference) → printed.text.items ≡ plain_text reading → IsShown found shown → IsUnitAnswer (due_again reading found) result }
{
    match shown {
        Shown::Nothing => {
            let Printed { text, .. } = printed;
            Answer::Writes(text)
        }
        Shown::Differs(text) => Answer::DoesNotReadBack(text),
        Shown::NoMemory => Answer::NoMemory,
    }
}

fn read_back(alloc: Global, printed: Printed, options: Options) -> Answer
    ensures { (reading : CxxReading) → IsPrinted reading printed → IsUnitAnswer (due_again reading (read_again options reading)) result }
{
    let shown = again(alloc, &printed, options);
    written(printed, shown)
}

// Prints a whole unit, and lets go of it.
fn printed_unit(alloc: Global, state: State) -> Result<Printed, PlainFault>
    ensures is { (options : OptionsOfRun) → IfOk result (IsPrinted (reading_of options state)) }
    ensures full { (options : OptionsOfRun) → result ≡ Err PlainFault.Limit → is_past_output (reading_of options state) ≡ true }
{
    let printed = print_reading(alloc, &state);
    state.let_go();
    printed
}

// The plain form of a whole unit.
fn bound(alloc: Global, state: State, options: Options) -> Answer
    ensures { IsUnitAnswer (due_whole mode.Bind options (reading_of options state)) result }
{
    match printed_unit(alloc, state) {
        Ok(printed) => read_back(alloc, printed, options),
        Err(PlainFault::Limit) => Answer::PassesLimit(LimitKind::Output),
        Err(PlainFault::OutOfMemory) => Answer::NoMemory,
    }
}

// Lists the calls of a whole unit, and lets go of it.
fn listed_unit(alloc: Global, state: State) -> Result<Vec<u8>, AllocError>
    ensures { (options : OptionsOfRun) → IfOk result (λ text. text.items ≡ listing_of (reading_of options state)) }
{
    let text = calls_text(alloc, &state);
    state.let_go();
    text
}

// The calls of a whole unit.
fn listed(alloc: Global, state: State) -> Answer
    ensures { (options : OptionsOfRun) → IsUnitAnswer (due_whole mode.Calls options (reading_of options state)) result }
{
    match listed_unit(alloc, state) {
        Ok(text) => Answer::Writes(text),
        Err(_) => Answer::NoMemory,
    }
}

fn whole(alloc: Global, state: State, mode: Mode, options: Options) -> Answer
    ensures { IsUnitAnswer (due_whole mode options (reading_of options state)) result }
{
    match mode {
        Mode::Bind => bound(alloc, state, options),
        Mode::Calls => listed(alloc, state),
    }
}

// What the words choose for a reading.
fn options_of(job: Job) -> Options
    ensures { result ≡ options_said job }
{
    Options { depth: job.depth }
}

/// The answer for the bytes of a unit, by what the words want of it.
#[tactic(auto, unfolding(crate::specs::Run::due))]
pub(crate) fn answer_unit(alloc: Global, job: Job, bytes: &[u8]) -> Answer
    ensures { IsUnitAnswer (due job bytes.now) result }
{
    let options = options_of(job);
    match read_bytes(alloc, bytes, options) {
        Outcome::Whole(state) => whole(alloc, state, job.mode, options),
        Outcome::Broken(fault) => reported(alloc, &fault),
        Outcome::PassesLimit(limit) => Answer::PassesLimit(limit),
        Outcome::NoMemory => Answer::NoMemory,
    }
}
