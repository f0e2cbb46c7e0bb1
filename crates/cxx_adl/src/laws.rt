//! What a reader expects of associated sets, as contracts of functions that do nothing.
ghost use Rattle.std.specs.Prelude.{◌≡◌, ◌↔◌, ℕ, List, Ok, Err, true};
ghost use Rattle.cxx_model.specs.declared.lookup.Associated.{Associated};
ghost use Rattle.cxx_model.specs.declared.types.ClassId.{ClassId};
ghost use Rattle.cxx_model.specs.Facts.Pending.{is_pending};
ghost use Rattle.cxx_model.specs.Types.Trees.{CxxType};
ghost use Rattle.cxx_model.specs.Facts.Declarations.{CxxGraph};
ghost use Rattle.cxx_meaning.specs.Lookups.Associated.{Ascends, Holds, IsAskedClass, IsAssociatedClass, IsAssociatedSpace, IsReached, Part, associated, parts};

/// What the types of some arguments lead to is what the steps of 3.4.2 reach, and nothing else.
#[tactic(auto, using(crate::proofs::Reaching::part_reached, crate::proofs::Reaching::reached_part))]
pub fn reached_by_steps()
    ensures only { (graph : CxxGraph) (types : List CxxType) (part : Part) → Holds (parts graph types) part → IsReached graph types part }
    ensures each { (graph : CxxGraph) (types : List CxxType) (part : Part) → IsReached graph types part → Holds (parts graph types) part }
{}

/// The associated classes and namespaces are those of what the steps reach, and no others.
#[tactic(auto, using(crate::proofs::Collecting::classes_are, crate::proofs::Collecting::spaces_are))]
pub fn associated_by_steps()
    ensures classes { (graph : CxxGraph) (types : List CxxType) (sets : Associated) → associated graph types ≡ Ok sets → (n : ℕ) → Holds sets.classes n ↔ IsAssociatedClass graph types n }
    ensures spaces { (graph : CxxGraph) (types : List CxxType) (sets : Associated) → associated graph types ≡ Ok sets → (n : ℕ) → Holds sets.spaces n ↔ IsAssociatedSpace graph types n }
{}

/// The lists ascend, each number once.
#[tactic(auto, using(crate::proofs::Collecting::classes_ascend, crate::proofs::Collecting::spaces_ascend))]
pub fn associated_ascend()
    ensures classes { (graph : CxxGraph) (types : List CxxType) (sets : Associated) → associated graph types ≡ Ok sets → Ascends sets.classes }
    ensures spaces { (graph : CxxGraph) (types : List CxxType) (sets : Associated) → associated graph types ≡ Ok sets → Ascends sets.spaces }
{}

/// A class that has to be complete first is reached and pending.
#[tactic(auto, using(crate::proofs::Collecting::need_reached, crate::proofs::Collecting::need_pending))]
pub fn needs_what_is_reached()
    ensures reached { (graph : CxxGraph) (types : List CxxType) (class : ClassId) → associated graph types ≡ Err class → IsAskedClass graph types class.0 }
    ensures pending { (graph : CxxGraph) (types : List CxxType) (class : ClassId) → associated graph types ≡ Err class → is_pending graph class.0 ≡ true }
{}
