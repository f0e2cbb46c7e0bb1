//! What stands in the lines of a call.
ghost use Rattle.std.specs.Prelude.{◌≡◌, ◌-◌, ◌++◌, flat_map, OnOk};
ghost use Rattle.std.specs.List.{slice_get};
ghost use Rattle.std.specs.Option.{option_copied};
ghost use Rattle.cxx_form.specs.Views.{facts_in};
ghost use Rattle.cxx_listing.specs.Lines as lines;
ghost use Rattle.cxx_listing.specs.Lines.{chosen_line, chosen_of, line_text, other_line, outcome_text, place_of_fact};
ghost use Rattle.cxx_listing.specs.Views.{other_lines, others_of};
ghost use Rattle.cxx_model.specs.declared.evidence.Shown.TheVariants.{Declared};
ghost use Rattle.cxx_model.specs.Printing.Reports.{shown_text};
ghost use Rattle.cxx_tree.specs.Arena.{number_of_option};
ghost use Rattle.cxx_tree.specs.Held.{call_at, numbers_at};

use cxx_model::{Fact, FactId, Outcome, Place};
use cxx_report::{write, write_count, write_place, write_reason};
use cxx_tree::{Decided, State};
use std::alloc::AllocError;

// The declaration with a number, where there is one.
fn fact_in(facts: &[Fact], number: FactId) -> Option<&Fact>
    ensures { option_copied result ≡ slice_get facts.now number.0 }
{
    facts.get(number.0 as usize)
}

// Where a declaration stands.
#[tactic(auto, using(crate::proofs::Written::fact_found, crate::proofs::Written::fact_missing))]
fn place_of_number(state: &State, number: FactId) -> Place
    ensures { result ≡ place_of_fact (slice_get (facts_in state.now) number.0) }
{
    match fact_in(state.graph().facts(), number) {
        Some(fact) => fact.place,
        None => Place { line: 0, column: 0 },
    }
}

fn place_of(state: &State, number: Option<FactId>) -> Place
    ensures { result ≡ lines.place_of (facts_in state.now) (number_of_option number) }
{
    match number {
        Some(number) => place_of_number(state, number),
        None => Place { line: 0, column: 0 },
    }
}

// The candidate at a position, counted from 1.
fn candidate_at(candidates: &[FactId], position: u32) -> Option<FactId>
    ensures { result ≡ slice_get candidates.now (position - 1) }
{
    candidates.get(position.saturating_sub(1) as usize).copied()
}

// Where the chosen candidate is declared.
#[tactic(auto, using(crate::proofs::Written::number_found))]
fn chosen_place(state: &State, call: &Decided) -> Place
    ensures { result ≡ lines.place_of (facts_in state.now) (slice_get (numbers_at call.now.candidates) (call.now.chosen - 1)) }
{
    let number = candidate_at(call.candidates.as_slice(), call.chosen);
    place_of(state, number)
}

// Writes a candidate with its number and where it is declared.
fn write_candidate(out: &mut Vec<u8>, position: u64, place: Place) -> Result<(), AllocError>
    ensures { OnOk result (out.new.items ≡ out.old.items ++ shown_text (Declared position place)) }
{
    write(out, b"candidate ")?;
    write_count(out, position)?;
    write(out, b" at ")?;
    write_place(out, place)
}

// Writes the place of a call and its chosen candidate.
fn write_first(out: &mut Vec<u8>, of: Place, position: u64, place: Place) -> Result<(), AllocError>
    ensures { OnOk result (out.new.items ≡ out.old.items ++ line_text (chosen_line of (Declared position place))) }
{
    write_place(out, of)?;
    write(out, b": ")?;
    write_candidate(out, position, place)?;
    write(out, b"\n")
}

// Writes the first line of a call.
#[tactic(auto, using(crate::proofs::Written::first_written))]
fn write_chosen(out: &mut Vec<u8>, state: &State, call: &Decided) -> Result<(), AllocError>
    ensures { OnOk result (out.new.items ≡ out.old.items ++ line_text (chosen_line call.now.place (chosen_of (facts_in state.now) (call_at (state.now).types call.now)))) }
{
    let place = chosen_place(state, call);
    write_first(out, call.place, u64::from(call.chosen), place)?;
    Ok(())
}

// Writes why a candidate is not called.
fn write_outcome(out: &mut Vec<u8>, outcome: Outcome) -> Result<(), AllocError>
    ensures { OnOk result (out.new.items ≡ out.old.items ++ outcome_text outcome) }
{
    match outcome {
        Outcome::Viable => write(out, b"beaten"),
        Outcome::NotViable(reason) => write_reason(out, reason),
    }
}

// Writes the line of another candidate.
fn write_other(
    out: &mut Vec<u8>,
    position: u64,
    place: Place,
    outcome: Outcome,
) -> Result<(), AllocError>
    ensures { OnOk result (out.new.items ≡ out.old.items ++ line_text (other_line (Declared position place) outcome)) }
{
    write(out, b"  ")?;
    write_candidate(out, position, place)?;
    write(out, b": ")?;
    write_outcome(out, outcome)?;
    write(out, b"\n")
}

// Writes the line of a candidate, unless it is the chosen one.
#[tactic(auto, using(crate::proofs::Written::chosen_left_out, crate::proofs::Written::other_written))]
fn write_unless_chosen(
    out: &mut Vec<u8>,
    state: &State,
    chosen: u32,
    position: u64,
    number: FactId,
    outcome: Outcome,
) -> Result<(), AllocError>
    ensures { OnOk result (out.new.items ≡ out.old.items ++ flat_map line_text (other_lines (facts_in state.now) chosen position number.0 outcome)) }
{
    if position == u64::from(chosen) {
        return Ok(());
    }
    let place = place_of_number(state, number);
    write_other(out, position, place, outcome)?;
    Ok(())
}

// Writes the lines of all candidates but the chosen one.
#[tactic(auto, using(crate::proofs::Written::other_more, crate::proofs::Written::others_end, crate::proofs::Written::outcomes_end))]
fn write_others(out: &mut Vec<u8>, state: &State, call: &Decided) -> Result<(), AllocError>
    ensures { OnOk result (out.new.items ≡ out.old.items ++ flat_map line_text (others_of (facts_in state.now) (call_at (state.now).types call.now))) }
{
    let mut position = 1;
    let mut numbers = call.candidates.as_slice();
    let mut outcomes = call.outcomes.as_slice();
    while let [number, later @ ..] = numbers {
        let [outcome, others @ ..] = outcomes else {
            return Ok(());
        };
        write_unless_chosen(out, state, call.chosen, position, *number, *outcome)?;
        position += 1;
        numbers = later;
        outcomes = others;
    }
    Ok(())
}

/// Writes the lines of a call: the chosen candidate first, then every other one.
pub(crate) fn write_call(out: &mut Vec<u8>, state: &State, call: &Decided) -> Result<(), AllocError>
    ensures { OnOk result (out.new.items ≡ out.old.items ++ lines.call_text (facts_in state.now) (call_at (state.now).types call.now)) }
{
    write_chosen(out, state, call)?;
    write_others(out, state, call)?;
    Ok(())
}
