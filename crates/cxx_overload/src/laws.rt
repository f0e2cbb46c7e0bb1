//! What a reader expects of the choice of a function, as contracts of functions that do nothing.

ghost use Rattle.std.specs.Prelude.{◌≡◌, ◌≢◌, ◌↔◌, ℕ, true, false, map, List, [], Option, None, Ok, Err};
ghost use Rattle.cxx_model.specs.declared.evidence.Evidence.{Evidence};
ghost use Rattle.cxx_model.specs.declared.place.Place.{Place};
ghost use Rattle.cxx_model.specs.declared.sequence.Order.TheVariants.{Same};
ghost use Rattle.cxx_model.specs.declared.types.FactId.{FactId};
ghost use Rattle.cxx_model.specs.Choice.Better.{IsBest};
ghost use Rattle.cxx_model.specs.Facts.Declarations.{CxxGraph, CxxName};
ghost use Rattle.cxx_meaning.specs.Conversions.Standard.{CxxOperand};
ghost use Rattle.cxx_reading.specs.Choosing as narrow;
ghost use Rattle.cxx_reading.specs.Seen.{Numbered, declared_in};
ghost use Rattle.cxx_model.specs.Stops.{Stopped};
ghost use Rattle.cxx_overload.specs.Calls.{CxxDecision, decided};
ghost use Rattle.cxx_overload.specs.Candidates.{CxxCandidate, candidates};
ghost use Rattle.cxx_overload.specs.Choices.{ambiguous, beats, choice, chosen_one, none_viable, position_of, ties};
ghost use Rattle.cxx_overload.specs.Gathering.{AreNumbered};
ghost use Rattle.cxx_overload.specs.Narrow.{ArePlain, Membership, narrowed, widened_choice, widened_rating};
ghost use Rattle.cxx_overload.specs.Sequences.{CxxSequence, no_sequence, order_between};
ghost use Rattle.cxx_overload.specs.Viability.{Rated, rated, rated_one, viable};
ghost use Rattle.cxx_overload.specs.Views.{numbered_in};
ghost use Rattle.cxx_overload.specs.Decided.{IsDecided, IsUndecided};
ghost use Rattle.cxx_overload.specs.Words.{AreRefused, IsOutcome, IsTied};

/// A function is viable where it can be called with the object, where there is one, and the arguments, and else the
/// reason is the first that holds (13.3.2).
pub fn outcome_holds()
    ensures { (graph : CxxGraph) (object : Option CxxOperand) (operands : List CxxOperand) (candidate : CxxCandidate) (one : Rated) → rated_one graph object operands candidate ≡ Ok one → IsOutcome graph object operands candidate one.sequences one.outcome }
{}

/// The chosen function is viable, and better than every other viable one (13.3.3).
pub fn chosen_is_best()
    ensures { (graph : CxxGraph) (all : List Rated) (one : Rated) → choice graph all ≡ chosen_one one → IsBest position_of (beats graph) (viable all) one }
{}

/// A viable function that is better than every other viable one is chosen.
pub fn best_is_chosen()
    ensures { (graph : CxxGraph) (all : List Rated) (one : Rated) → AreNumbered position_of 1 all → IsBest position_of (beats graph) (viable all) one → choice graph all ≡ chosen_one one }
{}

/// Never are two functions better than each other.
pub fn better_is_asymmetric()
    ensures { (graph : CxxGraph) (one two : Rated) → beats graph one two ≡ true → beats graph two one ≡ false }
{}

/// What has no sequence, as the object for a static member function, is neither better nor worse (13.3.3).
pub fn unconverted_is_neither()
    ensures { (graph : CxxGraph) (other : CxxSequence) → (order_between graph no_sequence other ≡ Same) × (order_between graph other no_sequence ≡ Same) }
{}

/// No function is viable exactly where each is refused, and each line has the reason of one.
pub fn none_viable_is_refused()
    ensures { (graph : CxxGraph) (all : List Rated) (lines : List Evidence) → choice graph all ≡ none_viable lines ↔ AreRefused all lines }
{}

/// A call is ambiguous where some function is viable and none is the best. Each line names the first other function that
/// one does not beat.
pub fn ambiguous_is_tied()
    ensures { (graph : CxxGraph) (all : List Rated) (lines : List Evidence) → AreNumbered position_of 1 all → choice graph all ≡ ambiguous lines → IsTied graph (viable all) lines }
{}

/// Where some function is viable and none is the best, a call is ambiguous.
pub fn tied_is_ambiguous()
    ensures { (graph : CxxGraph) (all : List Rated) → viable all ≢ [] → ((one : Rated) → IsBest position_of (beats graph) (viable all) one → ⊥) → choice graph all ≡ ambiguous (ties graph (viable all)) }
{}

/// A call that is decided means the viable function that is better than every other viable one.
pub fn decision_is_best()
    ensures { (place : Place) (object : Option CxxOperand) (operands : List CxxOperand) (graph : CxxGraph) (declared : List Numbered) (decision : CxxDecision) → decided place object operands graph declared ≡ Ok decision → IsDecided place object operands graph declared decision }
{}

/// One that is not has too many candidates, none that is viable, or none that is the best, or it needs a class.
pub fn undecided_has_its_cause()
    ensures { (place : Place) (object : Option CxxOperand) (operands : List CxxOperand) (graph : CxxGraph) (declared : List Numbered) (why : Stopped) → decided place object operands graph declared ≡ Err why → IsUndecided place object operands graph declared why }
{}

/// The numbers of the declarations of a name in a scope stand for these declarations (3.3).
pub fn numbers_stand_for_declarations()
    ensures { (graph : CxxGraph) (scope : ℕ) (name : CxxName) (numbers : List FactId) → map (λ n. n.0) numbers ≡ map (λ one. one.number) (declared_in graph scope name) → numbered_in graph numbers ≡ declared_in graph scope name }
{}

/// The candidates are those of the definitions for functions that have neither an ellipsis nor default arguments.
pub fn candidates_are_kept()
    ensures { (all : List Numbered) → map narrowed (candidates all) ≡ narrow.candidates all }
{}

/// Where a call has no object, and no candidate has an ellipsis or a default argument, each is viable, or not for the
/// same reason, as those definitions have it. What they leave out of a candidate tells nothing apart.
pub fn outcomes_are_kept()
    ensures { (members : ℕ → Membership) (graph : CxxGraph) (operands : List CxxOperand) (all : List CxxCandidate) (found : List narrow.Rated) → ArePlain members all → narrow.rated graph operands (map narrowed all) ≡ Ok found → rated graph None operands all ≡ Ok (map (widened_rating members) found) }
{}

/// And the same one of them is chosen, or the same lines show that none is.
pub fn choice_is_kept()
    ensures { (members : ℕ → Membership) (graph : CxxGraph) (all : List narrow.Rated) → choice graph (map (widened_rating members) all) ≡ widened_choice members (narrow.choice graph all) }
{}
