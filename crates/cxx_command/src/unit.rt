//! What a unit is: whole, broken, or past a limit.
ghost use Rattle.std.specs.Prelude.{◌≡◌, ◌≤◌, ◌<◌, ◌^◌, [], ℕ, length, IfOk, List, Result};
ghost use Rattle.cxx_model.specs.declared.token.Token.{Token as TokenOfText};
ghost use Rattle.cxx_model.specs.Text.Tokens.{Unread};
ghost use Rattle.cxx_tokens.specs.Answers.{IsFault};
ghost use Rattle.cxx_model.specs.declared.options.Options.{Options as OptionsOfRun};
ghost use Rattle.cxx_model.specs.Stops.{Faulty, Stopped, fault};
ghost use Rattle.cxx_model.specs.Text.Lexemes.{lexemes};
ghost use Rattle.cxx_model.specs.declared.fault.FaultText.TheVariants as says;
ghost use Rattle.cxx_language.specs.Units.{unit_reading};
ghost use Rattle.cxx_command.specs.Outcome.{outcome_of, read_outcome, stopped_outcome, tokens_outcome};
ghost use Rattle.cxx_command.specs.Outcomes.{IsOutcome};

use cxx_declaring::Declaring;
use cxx_model::limits::MOST_BYTES;
use cxx_model::{
    EvidenceList, Fault, FaultText, LimitKind, Options, Place, Stop, Token, TokenReason,
};
use cxx_overload::{Champion, Choosing};
use cxx_space::read_unit;
use cxx_tokens::{TokenFault, tokens};
use cxx_tree::State;
use std::alloc::{AllocError, Global};

/// What the bytes of a unit are.
pub(crate) enum Outcome {
    Whole(State),
    Broken(Box<Fault>),
    PassesLimit(LimitKind),
    NoMemory,
}

fn bad_token(alloc: Global, place: Place, reason: TokenReason) -> Result<Box<Fault>, AllocError>
    ensures { IfOk result (λ found. Faulty found.value ≡ fault place (says.BadToken reason)) }
{
    let fault = Fault {
        place,
        text: FaultText::BadToken(reason),
        evidence: EvidenceList::new(alloc),
    };
    Ok(Box::new(alloc, fault)?)
}

fn broken(found: Result<Box<Fault>, AllocError>) -> Outcome
    ensures { (options : OptionsOfRun) (why : Stopped) → IfOk found (λ given. Faulty given.value ≡ why) → IsOutcome options (stopped_outcome why) result }
{
    match found {
        Ok(fault) => Outcome::Broken(fault),
        Err(_) => Outcome::NoMemory,
    }
}

fn read(alloc: Global, bytes: &[u8], tokens: &[Token], options: Options) -> Outcome
    requires { length tokens.now < 2 ^ 32 }
    ensures { IsOutcome options (read_outcome (unit_reading options (lexemes bytes.now tokens.now))) result }
{
    let chooser = Choosing::Champion(Champion);
    match read_unit(alloc, &Declaring, bytes, tokens, options, chooser) {
        Ok(state) => Outcome::Whole(state),
        Err(Stop::Fault(fault)) => Outcome::Broken(fault),
        Err(Stop::Limit(limit)) => Outcome::PassesLimit(limit),
        Err(Stop::OutOfMemory) => Outcome::NoMemory,
    }
}

fn bad(alloc: Global, place: Place, reason: TokenReason) -> Outcome
    ensures { (options : OptionsOfRun) → IsOutcome options (stopped_outcome (fault place (says.BadToken reason))) result }
{
    broken(bad_token(alloc, place, reason))
}

// The bytes are no list of tokens.
fn unread(alloc: Global, fault: TokenFault) -> Outcome
    ensures { (options : OptionsOfRun) (bytes : List ℕ) (found : Result (List TokenOfText) Unread) → IsFault fault found → IsOutcome options (tokens_outcome options bytes found) result }
{
    match fault {
        TokenFault::Bad(place, reason) => bad(alloc, place, reason),
        TokenFault::Limit(limit) => Outcome::PassesLimit(limit),
        TokenFault::OutOfMemory => Outcome::NoMemory,
    }
}

/// Reads the bytes of a unit.
#[tactic(auto, unfolding(crate::specs::Outcome::outcome_of))]
pub(crate) fn read_bytes(alloc: Global, bytes: &[u8], options: Options) -> Outcome
    ensures { IsOutcome options (outcome_of options bytes.now) result }
{
    if bytes.len() > MOST_BYTES as usize {
        return Outcome::PassesLimit(LimitKind::Bytes);
    }
    match tokens(alloc, bytes) {
        Ok(tokens) => read(alloc, bytes, &tokens, options),
        Err(fault) => unread(alloc, fault),
    }
}
