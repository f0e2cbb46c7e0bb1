//! Lookup of a member (10.2).

ghost use Rattle.std.specs.Prelude.{◌≡◌, ◌<◌, length, map, find, option_map, if◌then◌else◌, List, IfOk, IfSome};
ghost use Rattle.cxx_model.specs.declared.lookup.MemberFound.TheVariants as MemberFound;
ghost use Rattle.cxx_model.specs.Facts.Declarations.{declares_at, graph_at, spelled};
ghost use Rattle.cxx_model.specs.Facts.Fitted.{Fitted};
ghost use Rattle.cxx_model.specs.Facts.Pending.{is_pending as is_one_pending};
ghost use Rattle.cxx_model.specs.Types.Trees.{CxxType};
ghost use Rattle.cxx_meaning.specs.Lookups.Member.{clash as clash_of, clash_with as clash_with_of, declared_in, first_nonstatic as first_nonstatic_of, has_nonstatic as have_nonstatic, is_one_nonstatic as is_nonstatic_one, hit, member as member_named, member_by as member_by_ways, member_of as member_of_ways, second_shown as second_shown_of, ways as ways_of};
ghost use Rattle.cxx_meaning.specs.Lookups.Wanted.{is_nonstatic as is_one_nonstatic, is_nonstatic_kind};
ghost use Rattle.cxx_members.specs.Answers.{Answers, member_of_three};
ghost use Rattle.cxx_members.specs.Sighted.{AreBelow, sighting_at};
ghost use Rattle.cxx_members.specs.Views.{wanted_at};
ghost use Rattle.cxx_names.specs.Index.{Notes};
ghost use Rattle.cxx_inherited.specs.Tables.{IsSound};
ghost use Rattle.cxx_inherited.specs.Views.{IsSeeking, graph_of, name_of, types_of, wanted_of};
ghost use Rattle.cxx_inherited.specs.Ways.{AreKnown, IsWayKnown, three_at, way_at};

use crate::seeking::Seeking;
use crate::table::Table;
use crate::ways::{Three, Way};
use cxx_graph::Graph;
use cxx_members::{Looking, Sighting, Wanted};
use cxx_model::{ClassId, Entity, FactList, Hit, MemberFound, MemberKind, NumberList, Wait};
use cxx_names::Names;
use cxx_types::TypeTable;
use std::alloc::{AllocError, Global};

fn is_nonstatic_member(member: MemberKind) -> bool
    ensures { result ≡ is_nonstatic_kind member }
{
    match member {
        MemberKind::Free => false,
        MemberKind::Static => false,
        _ => true,
    }
}

// Whether a declaration belongs to an object of its class.
fn is_nonstatic(what: Entity) -> bool
    ensures { (types : List CxxType) → result ≡ is_one_nonstatic (declares_at types what) }
{
    match what {
        Entity::Object { member, .. } => is_nonstatic_member(member),
        Entity::Function { member, .. } => is_nonstatic_member(member),
        Entity::Template { member, .. } => is_nonstatic_member(member),
        _ => false,
    }
}

impl Seeking<'_> {
    fn is_one_nonstatic(&self, one: Sighting) -> bool
        ensures { result ≡ is_nonstatic_one (sighting_at (types_of self.now) one) }
    {
        let _ = self.wanted;
        is_nonstatic(one.what)
    }

    fn has_nonstatic(&self, sightings: &[Sighting]) -> bool
        ensures { result ≡ have_nonstatic (map (sighting_at (types_of self.now)) sightings.now) }
    {
        for one in sightings {
            if self.is_one_nonstatic(*one) {
                return true;
            }
        }
        false
    }

    fn find_nonstatic(&self, sightings: &[Sighting]) -> Option<Sighting>
        ensures { option_map (sighting_at (types_of self.now)) result ≡ find is_nonstatic_one (map (sighting_at (types_of self.now)) sightings.now) }
    {
        for one in sightings {
            if self.is_one_nonstatic(*one) {
                return Some(*one);
            }
        }
        None
    }

    // The first declaration that is nonstatic, or at least the one at hand.
    #[tactic(auto, using(cxx_members::proofs::Finding::first_itself, cxx_members::proofs::Finding::first_later, cxx_members::proofs::Finding::first_none))]
    fn first_nonstatic(&self, one: Sighting, others: &[Sighting]) -> Sighting
        ensures { sighting_at (types_of self.now) result ≡ first_nonstatic_of (sighting_at (types_of self.now) one) (map (sighting_at (types_of self.now)) others.now) }
    {
        if self.is_one_nonstatic(one) {
            return one;
        }
        match self.find_nonstatic(others) {
            Some(other) => other,
            None => one,
        }
    }

    // The declaration with which the first one in another subobject does not go together, by whether both are of one
    // class.
    fn second_shown(
        &self,
        same: bool,
        first: Sighting,
        second: Sighting,
        seconds: &[Sighting],
    ) -> Sighting
        ensures { sighting_at (types_of self.now) result ≡ second_shown_of same (sighting_at (types_of self.now) first) (sighting_at (types_of self.now) second) (map (sighting_at (types_of self.now)) seconds.now) }
    {
        if same && !self.is_one_nonstatic(first) {
            self.first_nonstatic(second, seconds)
        } else {
            second
        }
    }

    // The first declaration in one subobject, and the one in another that does not go together with it.
    fn clash_with(
        &self,
        table: &Table,
        one: Way,
        first: Sighting,
        two: Way,
        twos: &[Sighting],
    ) -> Result<MemberFound, AllocError>
        requires one { IsWayKnown (length table.now.paths) one }
        requires two { IsWayKnown (length table.now.paths) two }
        ensures { IfOk result (λ found. found ≡ clash_with_of (way_at table.now.paths one) (sighting_at (types_of self.now) first) (way_at table.now.paths two) (map (sighting_at (types_of self.now)) twos.now)) }
    {
        match twos {
            [] => Ok(MemberFound::Empty),
            [second, seconds @ ..] => {
                let same = one.holder.0 == two.holder.0;
                let later = self.second_shown(same, first, *second, seconds);
                self.ambiguous(table, one, first, two, later)
            }
        }
    }

    // The first two declarations that do not go together.
    #[tactic(auto, unfolding(cxx_meaning::specs::Lookups::Member::clash))]
    fn clash(
        &self,
        table: &Table,
        one: Way,
        ones: &[Sighting],
        two: Way,
        twos: &[Sighting],
    ) -> Result<MemberFound, AllocError>
        requires one { IsWayKnown (length table.now.paths) one }
        requires two { IsWayKnown (length table.now.paths) two }
        ensures { IfOk result (λ found. found ≡ clash_of (way_at table.now.paths one) (map (sighting_at (types_of self.now)) ones.now) (way_at table.now.paths two) (map (sighting_at (types_of self.now)) twos.now)) }
    {
        match ones {
            [] => Ok(MemberFound::Empty),
            [first, _firsts @ ..] => self.clash_with(table, one, *first, two, twos),
        }
    }

    fn ambiguous(
        &self,
        table: &Table,
        one: Way,
        first: Sighting,
        two: Way,
        second: Sighting,
    ) -> Result<MemberFound, AllocError>
        requires one { IsWayKnown (length table.now.paths) one }
        requires two { IsWayKnown (length table.now.paths) two }
        ensures { IfOk result (λ found. found ≡ MemberFound.Ambiguous (hit (way_at table.now.paths one) (sighting_at (types_of self.now) first)) (hit (way_at table.now.paths two) (sighting_at (types_of self.now) second))) }
    {
        Ok(MemberFound::Ambiguous(
            Hit {
                fact: first.itself,
                path: self.path_of(table, one)?,
            },
            Hit {
                fact: second.itself,
                path: self.path_of(table, two)?,
            },
        ))
    }

    fn path_of(&self, table: &Table, way: Way) -> Result<NumberList, AllocError>
        requires { IsWayKnown (length table.now.paths) way }
        ensures { IfOk result (λ path. path ≡ (way_at table.now.paths way).path) }
    {
        table.paths.path(self.looking.alloc, way.path)
    }

    // The second subobject that does not go together with the first.
    fn rival(&self, three: Three, declared: &[Sighting]) -> Option<Way>
        ensures { result ≡ (if have_nonstatic (map (sighting_at (types_of self.now)) declared.now) then three.second else three.other) }
    {
        if self.has_nonstatic(declared) {
            three.second
        } else {
            three.other
        }
    }

    // What is found in the first of some subobjects, and in another that does not go together with it.
    #[tactic(auto, unfolding(cxx_meaning::specs::Lookups::Member::member_by))]
    fn member_by(
        &self,
        table: &Table,
        one: Way,
        declared: &[Sighting],
        rival: Option<Way>,
    ) -> Result<MemberFound, AllocError>
        requires seeking { IsSeeking self.now }
        requires one { IsWayKnown (length table.now.paths) one }
        requires rival { IfSome rival (IsWayKnown (length table.now.paths)) }
        requires below { AreBelow (length (types_of self.now)) declared.now }
        requires declared { map (sighting_at (types_of self.now)) declared.now ≡ declared_in (graph_of self.now) (wanted_of self.now) (name_of self.now) one.holder }
        ensures { IfOk result (λ found. found ≡ member_by_ways (graph_of self.now) (wanted_of self.now) (name_of self.now) (way_at table.now.paths one) (option_map (way_at table.now.paths) rival)) }
    {
        match rival {
            None => {
                let facts = self.looking.entities(declared)?;
                Ok(MemberFound::Set(FactList::from_vec(facts), self.path_of(table, one)?))
            }
            Some(two) => {
                let others = self.declared_in(two.holder)?;
                self.clash(table, one, declared, two, &others)
            }
        }
    }

    // What is found in a class, given three of its ways.
    #[tactic(auto, using(crate::proofs::Keeping::first_known, crate::proofs::Keeping::rival_known))]
    fn member_of_three(&self, table: &Table, three: Three) -> Result<MemberFound, AllocError>
        requires seeking { IsSeeking self.now }
        requires known { AreKnown (length table.now.paths) three }
        ensures { IfOk result (λ found. found ≡ member_of_three (graph_of self.now) (wanted_of self.now) (name_of self.now) (three_at table.now.paths three)) }
    {
        match three.first {
            None => Ok(MemberFound::Empty),
            Some(one) => {
                let declared = self.declared_in(one.holder)?;
                let rival = self.rival(three, &declared);
                self.member_by(table, one, &declared, rival)
            }
        }
    }

    // What is found in a class.
    #[tactic(auto, using(crate::proofs::Keeping::three_is))]
    fn member_in(&self, class: ClassId) -> Result<MemberFound, AllocError>
        requires { IsSeeking self.now }
        ensures { IfOk result (λ found. found ≡ member_of_ways (graph_of self.now) (wanted_of self.now) (name_of self.now) (ways_of (graph_of self.now) (wanted_of self.now) (name_of self.now) class)) }
    {
        let table = self.table(class)?;
        let three = self.entry(&table, class);
        self.member_of_three(&table, three)
    }

    // Whether a class has to be complete before it is asked (14.7.1). One whose end was read is answered at once.
    #[tactic(auto, using(crate::proofs::Awaiting::never_pending))]
    fn is_pending(&self, class: ClassId) -> bool
        ensures { result ≡ is_one_pending (graph_of self.now) class.0 }
    {
        let graph = self.looking.graph;
        if class.0 < graph.class_count() && graph.complete(class) {
            return false;
        }
        graph.pending(class)
    }

    // A member of a class, or the class where it has to be complete first.
    #[tactic(auto, unfolding(cxx_meaning::specs::Lookups::Member::member))]
    fn member(&self, class: ClassId) -> Result<MemberFound, Wait>
        requires { IsSeeking self.now }
        ensures { Answers result (member_named (graph_of self.now) (wanted_of self.now) class (name_of self.now)) }
    {
        if self.is_pending(class) {
            return Err(Wait::Needs(class));
        }
        Ok(self.member_in(class)?)
    }
}

/// What a spelled name means as a member of a class, of what is wanted (10.2). It takes what the declarations of the name in
/// the class and in its bases take, and each base once, however many paths lead to it.
pub fn member(
    alloc: Global,
    names: &Names,
    graph: &Graph,
    types: &TypeTable,
    wanted: Wanted,
    class: ClassId,
    word: &[u8],
) -> Result<MemberFound, Wait>
    requires noted { Notes names.now graph.now.facts }
    requires fitted { Fitted graph.now types.now }
    ensures { Answers result (member_named (graph_at types.now graph.now) (wanted_at wanted) class (spelled word.now)) }
{
    let seeking = Seeking {
        looking: Looking {
            alloc,
            graph,
            types,
            scopes: &[],
        },
        names,
        wanted,
        word,
        met: names.met_as(word),
    };
    seeking.member(class)
}
