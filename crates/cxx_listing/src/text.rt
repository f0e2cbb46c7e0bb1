//! The text of all listed calls.
ghost use Rattle.std.specs.Prelude.{◌≡◌, ◌++◌, flat_map, IfOk, OnOk};
ghost use Rattle.std.specs.List.{slice_get};
ghost use Rattle.std.specs.Option.{option_copied};
ghost use Rattle.cxx_form.specs.Views.{facts_in};
ghost use Rattle.cxx_listing.specs.Lines as lines;
ghost use Rattle.cxx_listing.specs.Lines.{call_text};
ghost use Rattle.cxx_listing.specs.Views.{listed_at, text_from};
ghost use Rattle.cxx_model.specs.declared.options.Options.{Options};
ghost use Rattle.cxx_tree.specs.Held.{meaning};

use crate::lines::write_call;
use cxx_form::printed_calls;
use cxx_phrase_text::ListedCall;
use cxx_tree::{Decided, State};
use std::alloc::{AllocError, Global};

// The call with a number, where there is one.
fn call_in(calls: &[Decided], number: u32) -> Option<&Decided>
    ensures { option_copied result ≡ slice_get calls.now number }
{
    calls.get(number as usize)
}

// Writes the lines of a listed call.
#[tactic(auto, using(crate::proofs::Written::call_missing))]
fn write_listed(out: &mut Vec<u8>, state: &State, one: ListedCall) -> Result<(), AllocError>
    ensures { OnOk result (out.new.items ≡ out.old.items ++ flat_map (call_text (facts_in state.now)) (listed_at state.now one)) }
{
    let Some(call) = call_in(state.calls(), one.number) else {
        return Ok(());
    };
    write_call(out, state, call)?;
    Ok(())
}

// The lines of some calls.
#[tactic(auto, using(crate::proofs::Written::listed_more, crate::proofs::Written::listed_all))]
fn write_all(alloc: Global, state: &State, calls: &[ListedCall]) -> Result<Vec<u8>, AllocError>
    ensures { IfOk result (λ text. text.items ≡ text_from state.now calls.now) }
{
    let mut text = Vec::new(alloc);
    for one in calls {
        write_listed(&mut text, state, *one)?;
    }
    Ok(text)
}

/// What is said of the calls of a reading, by its state: for each call that the plain form writes, in its order, a line
/// with the place of the call and the candidate that is meant, and behind it a line for every other candidate with the
/// reason why it is not viable, or `beaten`.
pub fn calls_text(alloc: Global, state: &State) -> Result<Vec<u8>, AllocError>
    ensures { (options : Options) → IfOk result (λ text. text.items ≡ lines.calls_text (record { options = options; state = meaning state.now })) }
{
    let found = printed_calls(state, alloc)?;
    let text = write_all(alloc, state, found.as_slice())?;
    Ok(text)
}
