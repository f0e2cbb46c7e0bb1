//! Declarations of one entity, seen one after another.

ghost use Rattle.std.specs.Prelude.{◌≡◌, ◌<◌, ℕ, [], None, List, length, map, option_map, IfSome};
ghost use Rattle.cxx_model.specs.Facts.Entities.{first_or as first_fact};
ghost use Rattle.cxx_model.specs.Facts.Fitted.{IsEntityBelow};
ghost use Rattle.cxx_model.specs.Types.Trees.{CxxType};
ghost use Rattle.cxx_members.specs.Sighted.{AreBelow, sighting_at};
ghost use Rattle.cxx_found.specs.Again.{alone_from, joined, named_alone, plain_entity, same_plain, sooner as sooner_of};
ghost use Rattle.cxx_found.specs.Rows.{sighted_in};
ghost use Rattle.cxx_found.specs.Views.{IsAlone, IsPlainBelow, IsSeeking, graph_of, plain_at, types_of, wanted_of};

use crate::nearest::Alone;
use crate::seeking::Seeking;
use cxx_members::Sighting;
use cxx_model::{Entity, FactId, ScopeId, TypeId};

/// The entity of a declaration, where no other declaration can hide it (3.3.7).
#[derive(Clone, Copy)]
pub(crate) enum Plain {
    Fact(FactId),
    Type(TypeId),
    Space(ScopeId),
    Hidden,
}

fn first_or(number: FactId, first: Option<FactId>) -> FactId
    ensures { result.0 ≡ first_fact number.0 first }
{
    match first {
        Some(first) => first,
        None => number,
    }
}

fn plain_of(one: Sighting) -> Plain
    ensures is { (types : List CxxType) → plain_at types result ≡ plain_entity (sighting_at types one) }
    ensures below { (count : ℕ) → IsEntityBelow count one.what → IsPlainBelow count result }
{
    match one.what {
        Entity::Object { first, .. } => Plain::Fact(first_or(one.meant, first)),
        Entity::Function { first, .. } => Plain::Fact(first_or(one.meant, first)),
        Entity::Template { first, .. } => Plain::Fact(first_or(one.meant, first)),
        Entity::Injected { .. } => Plain::Hidden,
        Entity::Class { .. } => Plain::Hidden,
        Entity::Enumeration { .. } => Plain::Hidden,
        Entity::Synonym { of } => Plain::Type(of),
        Entity::Namespace { inner } => Plain::Space(inner),
        _ => Plain::Fact(one.meant),
    }
}

// The fact by which the entity of a declaration is named that is seen alone, or is the first of those of its entity.
fn named(one: Sighting) -> FactId
    ensures { (types : List CxxType) → result ≡ named_alone (sighting_at types one) }
{
    match one.what {
        Entity::Object { first, .. } => first_or(one.meant, first),
        Entity::Function { first, .. } => first_or(one.meant, first),
        Entity::Template { first, .. } => first_or(one.meant, first),
        _ => one.meant,
    }
}

fn sooner(one: Sighting, two: Sighting) -> Sighting
    ensures is { (types : List CxxType) → sighting_at types result ≡ sooner_of (sighting_at types one) (sighting_at types two) }
    ensures below { (count : ℕ) → IsEntityBelow count one.what → IsEntityBelow count two.what → IsEntityBelow count result.what }
{
    if two.meant.0 < one.meant.0 { two } else { one }
}

fn alone_at(only: Option<Sighting>) -> Alone
    ensures { (types : List CxxType) → result ≡ alone_from (option_map (sighting_at types) only) [] }
{
    match only {
        None => Alone::Nothing,
        Some(one) => Alone::One(named(one)),
    }
}

impl Seeking<'_> {
    fn same_plain(&self, one: Plain, two: Plain) -> bool
        requires one { IsPlainBelow (length (types_of self.now)) one }
        requires two { IsPlainBelow (length (types_of self.now)) two }
        ensures { result ≡ same_plain (plain_at (types_of self.now) one) (plain_at (types_of self.now) two) }
    {
        match one {
            Plain::Fact(one) => match two {
                Plain::Fact(two) => one.0 == two.0,
                _ => false,
            },
            Plain::Type(one) => match two {
                Plain::Type(two) => self.looking.types.same(one, two),
                _ => false,
            },
            Plain::Space(one) => match two {
                Plain::Space(two) => one.0 == two.0,
                _ => false,
            },
            Plain::Hidden => false,
        }
    }

    // Whether two declarations are of one entity, which no other declaration can hide.
    fn is_again(&self, one: Sighting, two: Sighting) -> bool
        requires one { IsEntityBelow (length (types_of self.now)) one.what }
        requires two { IsEntityBelow (length (types_of self.now)) two.what }
        ensures { result ≡ same_plain (plain_entity (sighting_at (types_of self.now) one)) (plain_entity (sighting_at (types_of self.now) two)) }
    {
        let first = plain_of(one);
        let second = plain_of(two);
        self.same_plain(first, second)
    }

    // The first declaration of the entity of one and another, where that is one.
    fn joined(&self, only: Option<Sighting>, two: Sighting) -> Option<Sighting>
        requires only { IfSome only (λ one. IsEntityBelow (length (types_of self.now)) one.what) }
        requires two { IsEntityBelow (length (types_of self.now)) two.what }
        ensures is { option_map (sighting_at (types_of self.now)) result ≡ joined (option_map (sighting_at (types_of self.now)) only) (sighting_at (types_of self.now) two) }
        ensures below { IfSome result (λ one. IsEntityBelow (length (types_of self.now)) one.what) }
    {
        match only {
            None => Some(two),
            Some(one) => {
                if self.is_again(one, two) {
                    Some(sooner(one, two))
                } else {
                    None
                }
            }
        }
    }

    // What is found in those of some declarations that are of what is wanted, where they are of one entity.
    fn alone_of_row(&self, numbers: &[FactId]) -> Alone
        requires { IsSeeking self.now }
        ensures { result ≡ alone_from None (sighted_in (graph_of self.now) (wanted_of self.now) numbers.now) }
    {
        let mut only = None;
        for number in numbers {
            if let Some(one) = self.seen(*number) {
                only = self.joined(only, one);
                if only.is_none() {
                    return Alone::Several;
                }
            }
        }
        alone_at(only)
    }

    // The same of declarations that are seen.
    fn alone_of_all(&self, sightings: &[Sighting]) -> Alone
        requires { AreBelow (length (types_of self.now)) sightings.now }
        ensures { result ≡ alone_from None (map (sighting_at (types_of self.now)) sightings.now) }
    {
        let mut only = None;
        for one in sightings {
            only = self.joined(only, *one);
            if only.is_none() {
                return Alone::Several;
            }
        }
        alone_at(only)
    }

    /// What is found in those of some declarations that are of what is wanted, where there is none, or one entity.
    #[tactic(auto, using(crate::proofs::Together::together_as))]
    pub fn alone(&self, numbers: &[FactId]) -> Alone
        requires { IsSeeking self.now }
        ensures { IsAlone (graph_of self.now) (sighted_in (graph_of self.now) (wanted_of self.now) numbers.now) result }
    {
        self.alone_of_row(numbers)
    }

    /// The same of declarations that are seen.
    #[tactic(auto, using(crate::proofs::Together::together_as))]
    pub fn alone_in(&self, sightings: &[Sighting]) -> Alone
        requires { AreBelow (length (types_of self.now)) sightings.now }
        ensures { IsAlone (graph_of self.now) (map (sighting_at (types_of self.now)) sightings.now) result }
    {
        self.alone_of_all(sightings)
    }
}
