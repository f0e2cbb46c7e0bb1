//! What a reader expects of graphs, as contracts of functions that do nothing, or only call the graph.
ghost use Rattle.std.specs.Prelude.{◌≡◌, ◌<◌, ◌≤◌, ◌+◌, ℕ, List, length, Option, None, Some, Err, IfOk, IsTrue};
ghost use Rattle.cxx_model.specs.declared.facts.Fact.{Fact};
ghost use Rattle.cxx_model.specs.declared.facts.Pattern.{Pattern};
ghost use Rattle.cxx_model.specs.declared.facts.Specialisation.{Specialisation};
ghost use Rattle.cxx_model.specs.declared.types.Argument.{Argument as Argument};
ghost use Rattle.cxx_model.specs.declared.types.TemplateId.{TemplateId as Template};
ghost use Rattle.cxx_model.specs.Facts.Conflicts.{clash, first_conflict, IsFirstConflict, IsFree};
ghost use Rattle.cxx_model.specs.Facts.Declarations.{CxxFact, CxxGraph, graph_at};
ghost use Rattle.cxx_model.specs.Facts.Fitted.{Fitted, IsClassBelow, IsFactBelow, IsGraphBelow, IsPatternBelow};
ghost use Rattle.cxx_model.specs.Types.Trees.{CxxType};
ghost use Rattle.cxx_model.specs.Types.Numbers.{type_at, Keeps};
ghost use Rattle.cxx_model.specs.Facts.Graph.{Graph as Facts, AreSameArguments, InRange, IsClassInRange, IsPatternInRange, IsTypeInRange, IsSpecialisationOf, MayFollow, appended, with_class, with_pattern};

use crate::graph::{AddFault, Graph};
use cxx_model::{ArgumentList, TemplateId};

/// A graph in range stays in range with a fact that may follow it, and such a fact alone keeps it so.
pub fn appending()
    ensures keeps { (graph : Facts) (fact : Fact) → InRange graph → MayFollow graph fact → InRange (appended graph fact) }
    ensures only { (graph : Facts) (fact : Fact) → InRange (appended graph fact) → MayFollow graph fact }
{}

/// A graph in range stays in range with one more class, where it is of a template that is there.
pub fn reserving()
    ensures { (graph : Facts) (class : Option Specialisation) → InRange graph → IsClassInRange graph class → InRange (with_class graph class) }
{}

/// A graph in range stays in range with one more template, where what it names is there.
pub fn adding_a_template()
    ensures { (graph : Facts) (pattern : Pattern) → InRange graph → length graph.patterns < length graph.facts → IsPatternInRange graph (length graph.patterns) pattern → InRange (with_pattern graph pattern) }
{}

/// A graph and a table of types stay fitted while both grow: by what names types of the table, and by types of what is in
/// the graph.
pub fn fitting()
    ensures fact { (graph : Facts) (types : List CxxType) (fact : Fact) → Fitted graph types → IsFactBelow (length types) fact → Fitted (appended graph fact) types }
    ensures class { (graph : Facts) (types : List CxxType) (class : Option Specialisation) → Fitted graph types → IsClassBelow (length types) class → Fitted (with_class graph class) types }
    ensures template { (graph : Facts) (types : List CxxType) (pattern : Pattern) → Fitted graph types → IsPatternBelow (length types) pattern → Fitted (with_pattern graph pattern) types }
    ensures table { (graph : Facts) (old new : List CxxType) → Fitted graph old → Keeps old new → ((i : ℕ) → length old ≤ i → i < length new → IsTypeInRange graph (type_at new i)) → Fitted graph new }
{}

/// What a graph stands for stays the same while the table grows.
pub fn meaning_is_kept()
    ensures { (old new : List CxxType) (graph : Facts) → Keeps old new → IsGraphBelow (length old) graph → graph_at new graph ≡ graph_at old graph }
{}

/// The conflict that is found is the first one, and where none is found there is none.
pub fn conflicts_are_found()
    ensures found { (graph : CxxGraph) (new : CxxFact) (number : ℕ) → first_conflict graph new ≡ Some number → IsFirstConflict graph new number }
    ensures none { (graph : CxxGraph) (new : CxxFact) → first_conflict graph new ≡ None → IsFree graph new }
{}

/// Of two declarations that clash it makes no difference which one stands first.
pub fn conflicts_agree()
    ensures { (graph : CxxGraph) (m n : ℕ) (one two : CxxFact) → clash graph m one n two ≡ clash graph n two m one }
{}

/// What has one class is one specialisation: of the same template for the same arguments.
pub fn reserved_apart()
    ensures template { (graph : Facts) (one two : Template) (given other : List Argument) (class : ℕ) → IsSpecialisationOf graph one given class → IsSpecialisationOf graph two other class → one ≡ two }
    ensures arguments { (graph : Facts) (one two : Template) (given other : List Argument) (class : ℕ) → IsSpecialisationOf graph one given class → IsSpecialisationOf graph two other class → AreSameArguments given other }
{}

/// A specialisation for which a class is reserved twice has one number, and the limit is met no second time.
pub fn reserved_twice(
    graph: &mut Graph,
    template: TemplateId,
    arguments: &ArgumentList,
) -> Result<bool, AddFault>
    requires { template.0 < length graph.old.patterns }
    ensures same { IfOk result IsTrue }
    ensures reserved { IfOk result (λ _. (class : ℕ) × IsSpecialisationOf graph.new template arguments.now class) }
    ensures limit { result ≡ Err AddFault.Limit → length graph.old.facts + length graph.old.classes ≡ 2097152 }
{
    let one = graph.reserve_class(Some(template), arguments)?;
    let two = graph.reserve_class(Some(template), arguments)?;
    Ok(one == two)
}
