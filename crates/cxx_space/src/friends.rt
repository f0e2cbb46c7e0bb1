//! Friends of classes (11.4): functions, which may be defined there, and classes.

ghost use Rattle.std.specs.Prelude.{◌≡◌, ◌<◌, ◌++◌, [], None, Some, false, length, IfOk};
ghost use Rattle.cxx_language.specs.Classes as definition;
ghost use Rattle.cxx_model.specs.declared.keyword.TheConstants as keyword;
ghost use Rattle.cxx_reading.specs.declared.specifier.StorageWord.TheVariants.{Auto};
ghost use Rattle.cxx_reading.specs.Declarators.{no_cv, no_words};
ghost use Rattle.cxx_reading.specs.Declaring.{enumeration_count};
ghost use Rattle.cxx_reading.specs.Reads.{kind_ahead};
ghost use Rattle.cxx_reading.specs.Tokens as token;
ghost use Rattle.cxx_reading.specs.Units.{said_by as said_by_specifiers};
ghost use Rattle.cxx_space.specs.Classes.{AreMembers, IsMembersTurn, members_of, members_turn};
ghost use Rattle.cxx_space.specs.Friends.{fitting_friend, friend_kept, friend_numbered, friend_of};
ghost use Rattle.cxx_space.specs.Views.{IsDeclaredKnown, declares_of};
ghost use Rattle.cxx_cursor.specs.Asking.{AnyKnown, IsAsked, itself};
ghost use Rattle.cxx_cursor.specs.Reading.{IsRead};
ghost use Rattle.cxx_cursor.specs.Views.{AreSpecifiers, AreTreesHeld, IsDeclarator, declarator_of, name_at, specifiers_of, trees_held};
ghost use Rattle.cxx_tree.specs.Answered.{fact_number, scope_of_option};
ghost use Rattle.cxx_tree.specs.Arena.{path_at};
ghost use Rattle.cxx_tree.specs.Held.{meaning, type_of};
ghost use Rattle.cxx_units.specs.Said.{IsDeclared, IsListed, IsListedTurn, IsSaid, listed_of, listed_turn, said_of};

use crate::bodies::{Declared, ended_by};
use crate::classes::Members;
use crate::declarators::standing;
use crate::members::declared_behind;
use crate::space::{Defines, Space};
use cxx_cursor::{
    Cursor, Declarator, NameToken, Specifiers, Turn, is_keyword, is_punct, joined,
    no_specifiers_yet,
};
use cxx_later::defaults_kept;
use cxx_model::{
    Cv, EnumId, FactId, Listed, Path, ScopeId, Stop, TokenKind, TreeIdList, TypeId, keyword, punct,
};
use cxx_reading::{Naming, SpecifierPlace, StorageWord};
use cxx_syntax::{declared, has_type};
use cxx_tree::State;
use cxx_units::ends::own_parameters;
use cxx_units::said::{Listed as ListedTrees, Said, said_by};
use cxx_units::trees::{declaration_tree, declarator_tree, one_tree, token_or};
use cxx_units::types::is_function_type;
use cxx_units::{declared_fits, no_declarators};
use std::alloc::{AllocError, Global};

// ---- specifiers of functions

// No storage word stands behind `friend` (7.1.1 p1).
fn friend_specifiers(alloc: Global, is_inline: bool) -> Specifiers
    ensures { result ≡ record { storage = Some Auto; is_inline = is_inline; cv = no_cv; words = no_words; named = None; stands_alone = false; parts = [] } }
{
    let mut first = no_specifiers_yet(alloc);
    first.storage = Some(StorageWord::Auto);
    first.is_inline = is_inline;
    first
}

// How many enumerations were declared so far (7.2).
#[tactic(auto, unfolding(cxx_tree::specs::Held::meaning))]
fn enumerations(state: &State) -> EnumId
    ensures { result.0 ≡ enumeration_count (meaning state.now).graph.facts }
{
    state.names().enumerations(state.graph())
}

// Behind the key of a class: neither a class nor an enumeration is defined there.
#[tactic(auto, using(cxx_cursor::proofs::Kept::later_refl), unfolding(cxx_language::specs::Classes::behind_key))]
fn behind_key(state: &State, cursor: &mut Cursor<'_>) -> Result<Specifiers, Stop>
    ensures { IsRead specifiers_of AreSpecifiers state.now state.now cursor.new result (definition.behind_key (meaning state.now) cursor.old) }
{
    if cursor.begins_name() {
        cursor.path_taken(state)?;
    }
    Err(Stop::Fault(cursor.refused()?))
}

// No type is defined among them (8.3.5 p6), of so many enumerations before.
#[tactic(auto, using(cxx_cursor::proofs::Kept::later_refl), unfolding(cxx_language::specs::Classes::friend_typed))]
fn friend_typed(
    state: &State,
    cursor: &mut Cursor<'_>,
    before: EnumId,
    specifiers: Specifiers,
) -> Result<Specifiers, Stop>
    requires { AreSpecifiers state.now specifiers }
    ensures { IsRead specifiers_of AreSpecifiers state.now state.now cursor.new result (definition.friend_typed before.0 (specifiers_of state.now specifiers) (meaning state.now) cursor.old) }
{
    if !has_type(state, &specifiers) {
        cursor.advance();
        return behind_key(state, cursor);
    }
    if before.0 == enumerations(state).0 {
        return Ok(specifiers);
    }
    Err(Stop::Fault(cursor.refused()?))
}

// ---- a function

// No object is a friend (11.4 p1).
#[tactic(auto, using(cxx_cursor::proofs::Kept::later_refl), unfolding(cxx_language::specs::Classes::friend_fits))]
fn friend_fits(state: &State, cursor: &Cursor<'_>, of: TypeId) -> Result<(), Stop>
    requires { of.0 < length (state.now).types }
    ensures { IsRead itself AnyKnown state.now state.now cursor.now result (definition.friend_fits (type_of state.now of) (meaning state.now) cursor.now) }
{
    if is_function_type(state.types(), of) {
        return Ok(());
    }
    Err(Stop::Fault(cursor.refused()?))
}

// A function with what is kept of its default arguments; its body may stand there where its name has no qualifiers (11.4 p5).
#[tactic(auto, using(cxx_cursor::proofs::Kept::trees_kept, cxx_cursor::proofs::Kept::trees_later, cxx_cursor::proofs::Kept::type_kept, cxx_cursor::proofs::Kept::type_later, cxx_cursor::proofs::Kept::later_refl, cxx_cursor::proofs::Kept::later_trans))]
fn friend_kept(
    state: &mut State,
    cursor: &mut Cursor<'_>,
    is_qualified: bool,
    is_first: bool,
    list: Option<ScopeId>,
    name: &NameToken,
    of: TypeId,
    number: FactId,
    defaults: TreeIdList,
    parts: TreeIdList,
    from: &Cursor<'_>,
) -> Result<Declared, Stop>
    requires of { of.0 < length (state.old).types }
    requires defaults { AreTreesHeld state.old defaults }
    requires parts { AreTreesHeld state.old parts }
    ensures { IsRead declares_of IsDeclaredKnown state.old state.new cursor.new result (friend_kept is_qualified is_first (scope_of_option list) (name_at name.now) (type_of state.old of) number.0 (trees_held state.old defaults) (trees_held state.old parts) from.now (meaning state.old) cursor.old) }
{
    let tree = declarator_tree(state, false, name, of, number, parts, from, cursor)?;
    declared_behind(
        state,
        cursor,
        is_qualified,
        is_first,
        of,
        list,
        defaults,
        tree,
    )
}

// A function with its number: what was passed over in its declarator is kept for the end of the class (9.2 p2).
#[tactic(auto, using(cxx_cursor::proofs::Kept::trees_kept, cxx_cursor::proofs::Kept::trees_later, cxx_cursor::proofs::Kept::type_kept, cxx_cursor::proofs::Kept::type_later, cxx_cursor::proofs::Kept::later_refl, cxx_cursor::proofs::Kept::later_trans))]
fn friend_numbered(
    state: &mut State,
    cursor: &mut Cursor<'_>,
    is_qualified: bool,
    is_first: bool,
    list: Option<ScopeId>,
    name: &NameToken,
    of: TypeId,
    number: FactId,
    parts: TreeIdList,
    from: &Cursor<'_>,
) -> Result<Declared, Stop>
    requires of { of.0 < length (state.old).types }
    requires parts { AreTreesHeld state.old parts }
    ensures { IsRead declares_of IsDeclaredKnown state.old state.new cursor.new result (friend_numbered is_qualified is_first (scope_of_option list) (name_at name.now) (type_of state.old of) (trees_held state.old parts) from.now number.0 (meaning state.old) cursor.old) }
{
    let defaults = defaults_kept(state, cursor, list, Some(number))?;
    friend_kept(
        state,
        cursor,
        is_qualified,
        is_first,
        list,
        name,
        of,
        number,
        defaults,
        parts,
        from,
    )
}

// ---- classes

fn is_class_key(kind: TokenKind) -> bool
    ensures { result ≡ definition.is_class_key kind }
{
    is_keyword(keyword::CLASS, kind)
        || (is_keyword(keyword::STRUCT, kind) || is_keyword(keyword::UNION, kind))
}

// Whether the key of a class and a name stand ahead.
fn begins_keyed(cursor: &Cursor<'_>) -> bool
    ensures { result ≡ definition.begins_keyed cursor.now }
{
    let mut behind = cursor.mark();
    behind.advance();
    is_class_key(cursor.kind()) && behind.begins_name()
}

// ---- in the list of a class

// The word `inline`, taken where it stands ahead (7.1.2).
fn inline_or_not(cursor: &mut Cursor<'_>) -> bool
    ensures is { result ≡ token.is_keyword keyword.INLINE (kind_ahead cursor.old) }
    ensures taken { cursor.new ≡ definition.behind_inline cursor.old }
{
    let is_inline = is_keyword(keyword::INLINE, cursor.kind());
    if is_inline {
        cursor.advance();
    }
    is_inline
}

fn with_members(so_far: Members, trees: TreeIdList) -> Result<Members, AllocError>
    ensures { IfOk result (λ all. all ≡ record { trees = so_far.trees ++ trees; access = so_far.access }) }
{
    Ok(Members {
        trees: joined(so_far.trees, trees)?,
        access: so_far.access,
    })
}

impl<D: Defines> Space<'_, D> {
    // The specifiers of functions that are friends (7.1.5).
    #[tactic(auto, using(cxx_cursor::proofs::Kept::later_refl, cxx_cursor::proofs::Kept::later_trans), unfolding(cxx_language::specs::Classes::specifiers_of_friend))]
    fn specifiers_of_friend(
        &self,
        state: &mut State,
        cursor: &mut Cursor<'_>,
        is_inline: bool,
    ) -> Result<Specifiers, Stop>
        ensures { IsRead specifiers_of AreSpecifiers state.old state.new cursor.new result (definition.specifiers_of_friend self.now.room is_inline (meaning state.old) cursor.old) }
    {
        let before = enumerations(state);
        let first = friend_specifiers(cursor.alloc(), is_inline);
        let specifiers = self.declares.specifiers(
            state,
            cursor,
            SpecifierPlace::Declaration,
            first,
            self.room,
        )?;
        friend_typed(state, cursor, before, specifiers)
    }

    // A name with qualifiers is one of a function that was declared.
    fn friend_by(
        &self,
        state: &mut State,
        is_qualified: bool,
        scope: ScopeId,
        list: Option<ScopeId>,
        name: &NameToken,
        cv: Cv,
        of: TypeId,
    ) -> Result<FactId, Stop>
        requires { of.0 < length (state.old).types }
        ensures { IsAsked fact_number AnyKnown state.old state.new result (definition.friend_by is_qualified scope.0 (scope_of_option list) (name_at name.now) cv (type_of state.old of) (meaning state.old)) }
    {
        if is_qualified {
            self.declares.befriend_again(state, scope, name, cv, of)
        } else {
            self.declares
                .befriend_function(state, scope, list, name, of)
        }
    }

    // A function, with what its declarator says.
    #[tactic(auto, using(cxx_cursor::proofs::Kept::trees_kept, cxx_cursor::proofs::Kept::trees_later, cxx_cursor::proofs::Kept::type_kept, cxx_cursor::proofs::Kept::type_later, cxx_cursor::proofs::Kept::later_refl, cxx_cursor::proofs::Kept::later_trans))]
    fn friend_with(
        &self,
        state: &mut State,
        cursor: &mut Cursor<'_>,
        scope: ScopeId,
        is_qualified: bool,
        is_first: bool,
        list: Option<ScopeId>,
        name: &NameToken,
        cv: Cv,
        of: TypeId,
        parts: TreeIdList,
        from: &Cursor<'_>,
    ) -> Result<Declared, Stop>
        requires of { of.0 < length (state.old).types }
        requires parts { AreTreesHeld state.old parts }
        ensures { IsRead declares_of IsDeclaredKnown state.old state.new cursor.new result (friend_of scope.0 is_qualified is_first (scope_of_option list) (name_at name.now) cv (type_of state.old of) (trees_held state.old parts) from.now (meaning state.old) cursor.old) }
    {
        let number = self.friend_by(state, is_qualified, scope, list, name, cv, of)?;
        friend_numbered(
            state,
            cursor,
            is_qualified,
            is_first,
            list,
            name,
            of,
            number,
            parts,
            from,
        )
    }

    // A function whose declarator fits, given its type.
    #[tactic(auto, using(cxx_cursor::proofs::Kept::trees_kept, cxx_cursor::proofs::Kept::trees_later, cxx_cursor::proofs::Kept::layers_kept, cxx_cursor::proofs::Kept::type_kept, cxx_cursor::proofs::Kept::type_later, cxx_cursor::proofs::Kept::later_refl, cxx_cursor::proofs::Kept::later_trans))]
    fn friend_of(
        &self,
        state: &mut State,
        cursor: &mut Cursor<'_>,
        scope: ScopeId,
        said: Said,
        is_first: bool,
        declarator: Declarator,
        of: TypeId,
        from: &Cursor<'_>,
    ) -> Result<Declared, Stop>
        requires { IsDeclared state.old said declarator of }
        ensures { IsRead declares_of IsDeclaredKnown state.old state.new cursor.new result (fitting_friend scope.0 (said_of state.old said) is_first (declarator_of state.old declarator) from.now (meaning state.old) cursor.old) }
    {
        friend_fits(state, cursor, of)?;
        let list = own_parameters(state, &declarator.layers);
        let name = token_or(cursor.alloc(), declarator.name);
        self.friend_with(
            state,
            cursor,
            scope,
            declarator.is_qualified,
            is_first,
            list,
            &name,
            declarator.cv,
            of,
            declarator.parts,
            from,
        )
    }

    // The same with the type that the declarator declares.
    #[tactic(auto, using(cxx_cursor::proofs::Kept::layers_kept, cxx_cursor::proofs::Kept::layers_later, cxx_cursor::proofs::Kept::trees_kept, cxx_cursor::proofs::Kept::trees_later, cxx_cursor::proofs::Kept::type_kept, cxx_cursor::proofs::Kept::type_later, cxx_cursor::proofs::Kept::later_refl, cxx_cursor::proofs::Kept::later_trans))]
    fn friend_as(
        &self,
        state: &mut State,
        cursor: &mut Cursor<'_>,
        scope: ScopeId,
        said: Said,
        is_first: bool,
        declarator: Declarator,
        from: &Cursor<'_>,
    ) -> Result<Declared, Stop>
        requires said { IsSaid state.old said }
        requires declarator { IsDeclarator state.old declarator }
        ensures { IsRead declares_of IsDeclaredKnown state.old state.new cursor.new result (fitting_friend scope.0 (said_of state.old said) is_first (declarator_of state.old declarator) from.now (meaning state.old) cursor.old) }
    {
        match declared(state, declarator.layers.as_slice(), said.of) {
            Ok(of) => self.friend_of(state, cursor, scope, said, is_first, declarator, of, from),
            Err(_) => Err(Stop::OutOfMemory),
        }
    }

    // A function, given its declarator, in the scope of the class.
    #[tactic(auto, using(cxx_cursor::proofs::Kept::later_refl, cxx_cursor::proofs::Kept::later_trans), unfolding(cxx_language::specs::Classes::friend_function))]
    fn friend_function(
        &self,
        state: &mut State,
        cursor: &mut Cursor<'_>,
        scope: ScopeId,
        said: Said,
        is_first: bool,
        declarator: Declarator,
        from: &Cursor<'_>,
    ) -> Result<Declared, Stop>
        requires said { IsSaid state.old said }
        requires declarator { IsDeclarator state.old declarator }
        ensures { IsRead declares_of IsDeclaredKnown state.old state.new cursor.new result (definition.friend_function scope.0 (said_of state.old said) is_first (declarator_of state.old declarator) from.now (meaning state.old) cursor.old) }
    {
        declared_fits(state, cursor, said, &declarator)?;
        self.friend_as(state, cursor, scope, said, is_first, declarator, from)
    }

    #[tactic(auto, using(cxx_cursor::proofs::Kept::type_kept, cxx_cursor::proofs::Kept::type_later, cxx_cursor::proofs::Kept::later_refl, cxx_cursor::proofs::Kept::later_trans), unfolding(cxx_language::specs::Classes::friend_at))]
    fn friend_at(
        &self,
        state: &mut State,
        cursor: &mut Cursor<'_>,
        said: Said,
        is_first: bool,
    ) -> Result<Declared, Stop>
        requires { IsSaid state.old said }
        ensures { IsRead declares_of IsDeclaredKnown state.old state.new cursor.new result (definition.friend_at self.now.room (said_of state.old said) is_first (meaning state.old) cursor.old) }
    {
        let scope = standing(state);
        let from = cursor.mark();
        let declarator = self
            .declares
            .declarator(state, cursor, Naming::Qualified, self.room)?;
        self.friend_function(state, cursor, scope, said, is_first, declarator, &from)
    }

    // A function, and what separates it from the next.
    #[tactic(auto, using(cxx_cursor::proofs::Kept::trees_kept, cxx_cursor::proofs::Kept::trees_later, cxx_cursor::proofs::Kept::later_refl, cxx_cursor::proofs::Kept::later_trans), unfolding(cxx_language::specs::Classes::friends_step))]
    fn friends_step(
        &self,
        state: &mut State,
        cursor: &mut Cursor<'_>,
        said: Said,
        so_far: ListedTrees,
    ) -> Result<Turn<ListedTrees, TreeIdList>, Stop>
        requires said { IsSaid state.old said }
        requires listed { IsListed state.old so_far }
        ensures { IsRead listed_turn IsListedTurn state.old state.new cursor.new result (definition.friends_step self.now.room (said_of state.old said) (listed_of state.old so_far) (meaning state.old) cursor.old) }
    {
        let one = self.friend_at(state, cursor, said, so_far.is_first)?;
        ended_by(state, cursor, so_far, one)
    }

    // All functions that one declaration befriends, with its end.
    #[tactic(auto, using(cxx_cursor::proofs::Loops::turn, cxx_cursor::proofs::Loops::no_turn, cxx_cursor::proofs::Kept::type_kept, cxx_cursor::proofs::Kept::type_later, cxx_cursor::proofs::Kept::later_refl, cxx_cursor::proofs::Kept::later_trans), unfolding(cxx_language::specs::Classes::friends_at))]
    fn friends_at(
        &self,
        state: &mut State,
        cursor: &mut Cursor<'_>,
        said: Said,
    ) -> Result<TreeIdList, Stop>
        requires { IsSaid state.old said }
        ensures { IsRead trees_held AreTreesHeld state.old state.new cursor.new result (definition.friends_at self.now.room (said_of state.old said) (meaning state.old) cursor.old) }
    {
        let mut so_far = no_declarators(cursor.alloc());
        for _turn in 0..cursor.count() {
            match self.friends_step(state, cursor, said, so_far)? {
                Turn::More(next) => so_far = next,
                Turn::Done(all) => return Ok(all),
            }
        }
        Ok(so_far.trees)
    }

    // The same by their specifiers.
    #[tactic(auto, using(cxx_cursor::proofs::Kept::later_refl, cxx_cursor::proofs::Kept::later_trans))]
    fn friends_of(
        &self,
        state: &mut State,
        cursor: &mut Cursor<'_>,
        specifiers: &Specifiers,
    ) -> Result<TreeIdList, Stop>
        requires { AreSpecifiers state.old specifiers.now }
        ensures { IsRead trees_held AreTreesHeld state.old state.new cursor.new result (definition.friends_at self.now.room (said_by_specifiers false (specifiers_of state.old specifiers.now)) (meaning state.old) cursor.old) }
    {
        let said = said_by(state, false, specifiers)?;
        self.friends_at(state, cursor, said)
    }

    // Functions, from their specifiers on.
    #[tactic(auto, using(cxx_cursor::proofs::Kept::named_kept, cxx_cursor::proofs::Kept::named_later, cxx_cursor::proofs::Kept::trees_kept, cxx_cursor::proofs::Kept::trees_later, cxx_cursor::proofs::Kept::later_refl, cxx_cursor::proofs::Kept::later_trans), unfolding(cxx_language::specs::Classes::friend_functions))]
    fn friend_functions(
        &self,
        state: &mut State,
        cursor: &mut Cursor<'_>,
        is_inline: bool,
        from: &Cursor<'_>,
    ) -> Result<TreeIdList, Stop>
        ensures { IsRead trees_held AreTreesHeld state.old state.new cursor.new result (definition.friend_functions self.now.room is_inline from.now (meaning state.old) cursor.old) }
    {
        let specifiers = self.specifiers_of_friend(state, cursor, is_inline)?;
        let between = cursor.mark();
        let declarators = self.friends_of(state, cursor, &specifiers)?;
        let number = declaration_tree(state, specifiers, declarators, from, &between, cursor)?;
        Ok(one_tree(cursor.alloc(), number)?)
    }

    // A class; nothing is printed of it.
    #[tactic(auto, using(cxx_cursor::proofs::Kept::later_refl, cxx_cursor::proofs::Kept::later_trans), unfolding(cxx_language::specs::Classes::friend_class))]
    fn friend_class(
        &self,
        state: &mut State,
        cursor: &mut Cursor<'_>,
        is_union: bool,
        path: &Path,
    ) -> Result<TreeIdList, Stop>
        ensures { IsRead trees_held AreTreesHeld state.old state.new cursor.new result (definition.friend_class is_union (path_at path.now) (meaning state.old) cursor.old) }
    {
        self.declares.befriend_class(state, is_union, path)?;
        cursor.advance();
        Ok(Listed::new(cursor.alloc()))
    }

    // A key and a name are all of the declaration of a class (11.4 p2), or begin the specifiers of functions.
    #[tactic(auto, using(cxx_cursor::proofs::Kept::later_refl, cxx_cursor::proofs::Kept::later_trans), unfolding(cxx_language::specs::Classes::keyed_friend, cxx_language::specs::Classes::class_or_functions))]
    fn keyed_friend(
        &self,
        state: &mut State,
        cursor: &mut Cursor<'_>,
        from: &Cursor<'_>,
    ) -> Result<TreeIdList, Stop>
        ensures { IsRead trees_held AreTreesHeld state.old state.new cursor.new result (definition.keyed_friend self.now.room from.now (meaning state.old) cursor.old) }
    {
        let start = cursor.mark();
        cursor.advance();
        let path = cursor.path_taken(state)?;
        if is_punct(punct::SEMICOLON, cursor.kind()) {
            let is_union = is_keyword(keyword::UNION, start.kind());
            return self.friend_class(state, cursor, is_union, &path);
        }
        *cursor = start;
        self.friend_functions(state, cursor, false, from)
    }

    #[tactic(auto, using(cxx_cursor::proofs::Kept::later_refl), unfolding(cxx_language::specs::Classes::friends_behind))]
    fn friends_behind(
        &self,
        state: &mut State,
        cursor: &mut Cursor<'_>,
        is_inline: bool,
        from: &Cursor<'_>,
    ) -> Result<TreeIdList, Stop>
        ensures { IsRead trees_held AreTreesHeld state.old state.new cursor.new result (definition.friends_behind self.now.room is_inline from.now (meaning state.old) cursor.old) }
    {
        if !is_inline && begins_keyed(cursor) {
            return self.keyed_friend(state, cursor, from);
        }
        self.friend_functions(state, cursor, is_inline, from)
    }

    /// Friends in the list of a class, from `friend` on, or from the `inline` before it.
    #[tactic(auto, using(cxx_cursor::proofs::Kept::trees_kept, cxx_cursor::proofs::Kept::trees_later, cxx_cursor::proofs::Kept::trees_append, cxx_cursor::proofs::Kept::trees_below_append, cxx_cursor::proofs::Kept::later_refl, cxx_cursor::proofs::Kept::later_trans), unfolding(cxx_language::specs::Classes::friend_step))]
    pub(crate) fn friend_step(
        &self,
        state: &mut State,
        cursor: &mut Cursor<'_>,
        so_far: Members,
    ) -> Result<Turn<Members, TreeIdList>, Stop>
        requires { AreMembers state.old so_far }
        ensures { IsRead members_turn IsMembersTurn state.old state.new cursor.new result (definition.friend_step self.now.room (members_of state.old so_far) (meaning state.old) cursor.old) }
    {
        let from = cursor.mark();
        let is_inline = inline_or_not(cursor);
        cursor.advance();
        let trees = self.friends_behind(state, cursor, is_inline, &from)?;
        Ok(Turn::More(with_members(so_far, trees)?))
    }
}
