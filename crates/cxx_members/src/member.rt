//! Lookup of a member (10.2).

ghost use Rattle.std.specs.Prelude.{◌≡◌, ◌<◌, ◌++◌, [], List, length, map, find, option_map, if◌then◌else◌, IfOk, IfSome, OnOk};
ghost use Rattle.std.specs.List.{slice_get};
ghost use Rattle.cxx_model.specs.Facts.Declarations.{fact_at, name_at};
ghost use Rattle.cxx_model.specs.Facts.Fitted.{IsFactBelow, IsNameBelow};
ghost use Rattle.cxx_model.specs.Facts.Pending.{is_pending as is_one_pending};
ghost use Rattle.cxx_meaning.specs.Lookups.Member.{Way as WayMeant, clash as clash_of, clash_with as clash_with_of, declared_in, first_nonstatic as first_nonstatic_of, has_nonstatic as have_nonstatic, is_one_nonstatic as is_nonstatic_one, hit, member as member_named, member_by as member_by_ways, member_of as member_of_ways, second_shown as second_shown_of, ways as ways_of};
ghost use Rattle.cxx_meaning.specs.Lookups.Gathered.{before, gathered};
ghost use Rattle.cxx_members.specs.Answers.{Answers, member_of_three};
ghost use Rattle.cxx_model.specs.declared.lookup.MemberFound.TheVariants as MemberFound;
ghost use Rattle.cxx_members.specs.Views.{IsLooking, graph_of, facts_of, wanted_at};
ghost use Rattle.cxx_members.specs.Sighted.{AreBelow, given_at, sighting_at};
ghost use Rattle.cxx_members.specs.Tables.{IsSound, IsTable, holder_in as holds_in, holds as is_one_of, own_by, ways_given};
ghost use Rattle.cxx_members.specs.Ways.{AreKnown, IsWayKnown, three_at, way_at};

use crate::looking::Looking;
use crate::sightings::{Sighting, Sought};
use crate::table::Table;
use crate::wanted::is_nonstatic;
use crate::ways::{Three, Way};
use cxx_model::{ClassId, Fact, FactList, Hit, MemberFound, NumberList, Steps, Wait};
use std::alloc::AllocError;
use std::sync::ledger::Ledger;

impl Looking<'_> {
    // ---- the classes that declare a name

    // The class of a declaration of the name, where it is one of what is wanted.
    fn holder_in<L: Ledger>(
        &self,
        sought: &Sought,
        number: u32,
        fact: &Fact,
        steps: &mut Steps<L>,
    ) -> Option<ClassId>
        requires looking { IsLooking self.now }
        requires name { IsNameBelow (length self.now.types.now) sought.now.name.now }
        requires fact { IsFactBelow (length self.now.types.now) fact.now }
        ensures { result ≡ holds_in (graph_of self.now) (wanted_at sought.now.wanted) (name_at self.now.types.now sought.now.name.now) number (fact_at self.now.types.now fact.now) }
    {
        if !self.is_named(sought.name, fact) {
            return None;
        }
        let sighting = self.sighting(number, fact, steps);
        match self.wanted_one(sought.wanted, sighting) {
            Some(_one) => self.class_of(fact.scope),
            None => None,
        }
    }

    // Adds the class of a fact, where it is a declaration of the name.
    #[tactic(auto, using(crate::proofs::Kept::fact_is, crate::proofs::Gathering::given_push))]
    fn add_holder<L: Ledger>(
        &self,
        sought: &Sought,
        number: u32,
        holders: &mut Vec<ClassId>,
        steps: &mut Steps<L>,
    ) -> Result<(), AllocError>
        requires looking { IsLooking self.now }
        requires name { IsNameBelow (length self.now.types.now) sought.now.name.now }
        ensures { OnOk result (holders.new.items ≡ holders.old.items ++ given_at (holds_in (graph_of self.now) (wanted_at sought.now.wanted) (name_at self.now.types.now sought.now.name.now)) number (slice_get (facts_of self.now) number)) }
    {
        let one = match self.fact(u64::from(number), steps) {
            None => None,
            Some(fact) => self.holder_in(sought, number, fact, steps),
        };
        push_class(holders, one)
    }

    // The classes that declare a name.
    #[tactic(auto, using(crate::proofs::Gathering::given_more, crate::proofs::Gathering::gathered_all))]
    fn holders<L: Ledger>(
        &self,
        sought: &Sought,
        steps: &mut Steps<L>,
    ) -> Result<Vec<ClassId>, AllocError>
        requires looking { IsLooking self.now }
        requires name { IsNameBelow (length self.now.types.now) sought.now.name.now }
        ensures { IfOk result (λ holders. holders.items ≡ gathered (holds_in (graph_of self.now) (wanted_at sought.now.wanted) (name_at self.now.types.now sought.now.name.now)) 0 (facts_of self.now)) }
    {
        let mut holders = Vec::new(self.alloc);
        for number in 0..self.graph.length() {
            self.add_holder(sought, number, &mut holders, steps)?;
        }
        Ok(holders)
    }

    // ---- the ways of all classes

    // One more fact.
    #[tactic(auto, using(crate::proofs::Kept::fact_is))]
    fn add_fact<L: Ledger>(
        &self,
        table: &mut Table,
        number: u32,
        steps: &mut Steps<L>,
    ) -> Result<(), AllocError>
        requires looking { IsLooking self.now }
        requires sound { IsSound table.old.paths.items table.old.records.items }
        ensures sound { OnOk result (IsSound table.new.paths.items table.new.records.items) }
        ensures holders { OnOk result (table.new.holders.items ≡ table.old.holders.items) }
        ensures table { OnOk result ((now : ClassId → List WayMeant) → IsTable table.old.paths.items table.old.holders.items table.old.records.items now → IsTable table.new.paths.items table.old.holders.items table.new.records.items (ways_given (is_one_of table.old.holders.items) now (slice_get (facts_of self.now) number))) }
    {
        match self.fact(u64::from(number), steps) {
            None => Ok(()),
            Some(fact) => table.add(self.alloc, fact.what),
        }
    }

    // A table of the classes that declare the name alone.
    #[tactic(auto, using(crate::proofs::Tables::table_first))]
    fn first_table(&self, holders: Vec<ClassId>) -> Result<Table, AllocError>
        ensures sound { IfOk result (λ table. IsSound table.paths.items table.records.items) }
        ensures holders { IfOk result (λ table. table.holders.items ≡ holders.items) }
        ensures table { IfOk result (λ table. IsTable table.paths.items holders.items table.records.items (own_by holders.items)) }
    {
        let mut paths = Vec::new(self.alloc);
        paths.push(NumberList::new(self.alloc))?;
        Ok(Table {
            paths,
            records: Vec::new(self.alloc),
            holders,
        })
    }

    // The ways of all classes to a name.
    #[tactic(auto, using(crate::proofs::Holders::ways_more))]
    fn table<L: Ledger>(&self, sought: &Sought, steps: &mut Steps<L>) -> Result<Table, AllocError>
        requires looking { IsLooking self.now }
        requires name { IsNameBelow (length self.now.types.now) sought.now.name.now }
        ensures sound { IfOk result (λ table. IsSound table.paths.items table.records.items) }
        ensures is { IfOk result (λ table. IsTable table.paths.items table.holders.items table.records.items (ways_of (graph_of self.now) (wanted_at sought.now.wanted) (name_at self.now.types.now sought.now.name.now))) }
    {
        let holders = self.holders(sought, steps)?;
        let mut table = self.first_table(holders)?;
        for number in 0..self.graph.length() {
            self.add_fact(&mut table, number, steps)?;
        }
        Ok(table)
    }

    // ---- what is found

    fn is_one_nonstatic(&self, one: Sighting) -> bool
        ensures { result ≡ is_nonstatic_one (sighting_at self.now.types.now one) }
    {
        let _ = self.alloc;
        is_nonstatic(one.what)
    }

    fn has_nonstatic(&self, sightings: &[Sighting]) -> bool
        ensures { result ≡ have_nonstatic (map (sighting_at self.now.types.now) sightings.now) }
    {
        for one in sightings {
            if self.is_one_nonstatic(*one) {
                return true;
            }
        }
        false
    }

    fn find_nonstatic(&self, sightings: &[Sighting]) -> Option<Sighting>
        ensures { option_map (sighting_at self.now.types.now) result ≡ find is_nonstatic_one (map (sighting_at self.now.types.now) sightings.now) }
    {
        for one in sightings {
            if self.is_one_nonstatic(*one) {
                return Some(*one);
            }
        }
        None
    }

    // The first declaration that is nonstatic, or at least the one at hand.
    #[tactic(auto, using(crate::proofs::Finding::first_itself, crate::proofs::Finding::first_later, crate::proofs::Finding::first_none))]
    fn first_nonstatic(&self, one: Sighting, others: &[Sighting]) -> Sighting
        ensures { sighting_at self.now.types.now result ≡ first_nonstatic_of (sighting_at self.now.types.now one) (map (sighting_at self.now.types.now) others.now) }
    {
        if self.is_one_nonstatic(one) {
            return one;
        }
        match self.find_nonstatic(others) {
            Some(other) => other,
            None => one,
        }
    }

    // The declaration with which the first one in another subobject does not go together, by whether both are of one
    // class.
    fn second_shown(
        &self,
        same: bool,
        first: Sighting,
        second: Sighting,
        seconds: &[Sighting],
    ) -> Sighting
        ensures { sighting_at self.now.types.now result ≡ second_shown_of same (sighting_at self.now.types.now first) (sighting_at self.now.types.now second) (map (sighting_at self.now.types.now) seconds.now) }
    {
        if same && !self.is_one_nonstatic(first) {
            self.first_nonstatic(second, seconds)
        } else {
            second
        }
    }

    // The first declaration in one subobject, and the one in another that does not go together with it.
    fn clash_with(
        &self,
        table: &Table,
        one: Way,
        first: Sighting,
        two: Way,
        twos: &[Sighting],
    ) -> Result<MemberFound, AllocError>
        requires one { IsWayKnown (length table.now.paths.items) one }
        requires two { IsWayKnown (length table.now.paths.items) two }
        ensures { IfOk result (λ found. found ≡ clash_with_of (way_at table.now.paths.items one) (sighting_at self.now.types.now first) (way_at table.now.paths.items two) (map (sighting_at self.now.types.now) twos.now)) }
    {
        match twos {
            [] => Ok(MemberFound::Empty),
            [second, seconds @ ..] => {
                let same = one.holder.0 == two.holder.0;
                let later = self.second_shown(same, first, *second, seconds);
                self.ambiguous(table, one, first, two, later)
            }
        }
    }

    // The first two declarations that do not go together.
    #[tactic(auto, unfolding(cxx_meaning::specs::Lookups::Member::clash))]
    fn clash(
        &self,
        table: &Table,
        one: Way,
        ones: &[Sighting],
        two: Way,
        twos: &[Sighting],
    ) -> Result<MemberFound, AllocError>
        requires one { IsWayKnown (length table.now.paths.items) one }
        requires two { IsWayKnown (length table.now.paths.items) two }
        ensures { IfOk result (λ found. found ≡ clash_of (way_at table.now.paths.items one) (map (sighting_at self.now.types.now) ones.now) (way_at table.now.paths.items two) (map (sighting_at self.now.types.now) twos.now)) }
    {
        match ones {
            [] => Ok(MemberFound::Empty),
            [first, _firsts @ ..] => self.clash_with(table, one, *first, two, twos),
        }
    }

    fn ambiguous(
        &self,
        table: &Table,
        one: Way,
        first: Sighting,
        two: Way,
        second: Sighting,
    ) -> Result<MemberFound, AllocError>
        requires one { IsWayKnown (length table.now.paths.items) one }
        requires two { IsWayKnown (length table.now.paths.items) two }
        ensures { IfOk result (λ found. found ≡ MemberFound.Ambiguous (hit (way_at table.now.paths.items one) (sighting_at self.now.types.now first)) (hit (way_at table.now.paths.items two) (sighting_at self.now.types.now second))) }
    {
        Ok(MemberFound::Ambiguous(
            Hit {
                fact: first.itself,
                path: self.path_of(table, one)?,
            },
            Hit {
                fact: second.itself,
                path: self.path_of(table, two)?,
            },
        ))
    }

    fn path_of(&self, table: &Table, way: Way) -> Result<NumberList, AllocError>
        requires { IsWayKnown (length table.now.paths.items) way }
        ensures { IfOk result (λ path. path ≡ (way_at table.now.paths.items way).path) }
    {
        NumberList::from_slice(self.alloc, table.paths[way.path].as_slice())
    }

    // The second subobject that does not go together with the first.
    fn rival(&self, three: Three, declared: &[Sighting]) -> Option<Way>
        ensures { result ≡ (if have_nonstatic (map (sighting_at self.now.types.now) declared.now) then three.second else three.other) }
    {
        if self.has_nonstatic(declared) {
            three.second
        } else {
            three.other
        }
    }

    // What is found in the first of some subobjects, and in another that does not go together with it.
    #[tactic(auto, unfolding(cxx_meaning::specs::Lookups::Member::member_by))]
    fn member_by<L: Ledger>(
        &self,
        table: &Table,
        sought: &Sought,
        one: Way,
        declared: &[Sighting],
        rival: Option<Way>,
        steps: &mut Steps<L>,
    ) -> Result<MemberFound, AllocError>
        requires looking { IsLooking self.now }
        requires name { IsNameBelow (length self.now.types.now) sought.now.name.now }
        requires one { IsWayKnown (length table.now.paths.items) one }
        requires rival { IfSome rival (IsWayKnown (length table.now.paths.items)) }
        requires below { AreBelow (length self.now.types.now) declared.now }
        requires declared { map (sighting_at self.now.types.now) declared.now ≡ declared_in (graph_of self.now) (wanted_at sought.now.wanted) (name_at self.now.types.now sought.now.name.now) one.holder }
        ensures { IfOk result (λ found. found ≡ member_by_ways (graph_of self.now) (wanted_at sought.now.wanted) (name_at self.now.types.now sought.now.name.now) (way_at table.now.paths.items one) (option_map (way_at table.now.paths.items) rival)) }
    {
        match rival {
            None => {
                let facts = self.entities(declared)?;
                Ok(MemberFound::Set(FactList::from_vec(facts), self.path_of(table, one)?))
            }
            Some(two) => {
                let others = self.declared_in(sought, two.holder, steps)?;
                self.clash(table, one, declared, two, &others)
            }
        }
    }

    // What is found in a class, given three of its ways.
    #[tactic(auto, using(crate::proofs::Finding::first_known, crate::proofs::Finding::rival_known))]
    fn member_of_three<L: Ledger>(
        &self,
        table: &Table,
        sought: &Sought,
        three: Three,
        steps: &mut Steps<L>,
    ) -> Result<MemberFound, AllocError>
        requires looking { IsLooking self.now }
        requires name { IsNameBelow (length self.now.types.now) sought.now.name.now }
        requires known { AreKnown (length table.now.paths.items) three }
        ensures { IfOk result (λ found. found ≡ member_of_three (graph_of self.now) (wanted_at sought.now.wanted) (name_at self.now.types.now sought.now.name.now) (three_at table.now.paths.items three)) }
    {
        match three.first {
            None => Ok(MemberFound::Empty),
            Some(one) => {
                let declared = self.declared_in(sought, one.holder, steps)?;
                let rival = self.rival(three, &declared);
                self.member_by(table, sought, one, &declared, rival, steps)
            }
        }
    }

    // What is found in a class.
    #[tactic(auto, using(crate::proofs::Finding::member_is))]
    fn member_of<L: Ledger>(
        &self,
        sought: &Sought,
        class: ClassId,
        steps: &mut Steps<L>,
    ) -> Result<MemberFound, AllocError>
        requires looking { IsLooking self.now }
        requires name { IsNameBelow (length self.now.types.now) sought.now.name.now }
        ensures { IfOk result (λ found. found ≡ member_of_ways (graph_of self.now) (wanted_at sought.now.wanted) (name_at self.now.types.now sought.now.name.now) (ways_of (graph_of self.now) (wanted_at sought.now.wanted) (name_at self.now.types.now sought.now.name.now) class)) }
    {
        let table = self.table(sought, steps)?;
        let three = table.entry(class);
        self.member_of_three(&table, sought, three, steps)
    }

    // Whether a class has to be complete before it is asked.
    fn is_pending(&self, class: ClassId) -> bool
        ensures { result ≡ is_one_pending (graph_of self.now) class.0 }
    {
        self.graph.pending(class)
    }

    /// A member of a class, or the class where it has to be complete first.
    #[tactic(auto, unfolding(cxx_meaning::specs::Lookups::Member::member))]
    pub fn member<L: Ledger>(
        &self,
        sought: &Sought,
        class: ClassId,
        steps: &mut Steps<L>,
    ) -> Result<MemberFound, Wait>
        requires looking { IsLooking self.now }
        requires name { IsNameBelow (length self.now.types.now) sought.now.name.now }
        ensures { Answers result (member_named (graph_of self.now) (wanted_at sought.now.wanted) class (name_at self.now.types.now sought.now.name.now)) }
    {
        if self.is_pending(class) {
            return Err(Wait::Needs(class));
        }
        Ok(self.member_of(sought, class, steps)?)
    }
}

fn push_class(classes: &mut Vec<ClassId>, one: Option<ClassId>) -> Result<(), AllocError>
    ensures { OnOk result (classes.new.items ≡ classes.old.items ++ before one []) }
{
    match one {
        None => Ok(()),
        Some(class) => {
            classes.push(class)?;
            Ok(())
        }
    }
}
