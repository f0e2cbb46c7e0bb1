//! Definitions of classes (clause 9): their heads, and the lists of their members up to their ends.

ghost use Rattle.std.specs.Prelude.{◌≡◌, ◌<◌, ◌++◌, ◌∷◌, [], Ok, Some, length, true, IfOk};
ghost use Rattle.cxx_language.specs.Classes as definition;
ghost use Rattle.cxx_reading.specs.Syntax.{token_of};
ghost use Rattle.cxx_reading.specs.Trees.{last_part};
ghost use Rattle.cxx_space.specs.Classes.{AreMembers, IsBegun, IsMembersTurn, begun_number, class_ended, class_left, class_opened, class_then, head_held, head_of, members_of, members_turn, optional_name, qualified_name, whole_then};
ghost use Rattle.cxx_cursor.specs.Asking.{AnyKnown, IsAsked, itself};
ghost use Rattle.cxx_cursor.specs.Making.{GrowsTree};
ghost use Rattle.cxx_cursor.specs.Reading.{IsRead};
ghost use Rattle.cxx_cursor.specs.Views.{AreSpecifiers, AreTreesHeld, name_at, name_of_option, specifiers_of, trees_held};
ghost use Rattle.cxx_tree.specs.Answered.{IsClassKnown, class_number};
ghost use Rattle.cxx_tree.specs.Arena.{path_at};
ghost use Rattle.cxx_tree.specs.Held.{meaning};

use crate::space::{Defines, Space};
use cxx_cursor::{
    Cursor, NameToken, Specifiers, Turn, is_keyword, is_name, is_punct, joined, last_part,
    no_specifiers_yet, node_from, path_to_option, place_of, push,
};
use cxx_language::member_using_at;
use cxx_later::defaults_kept;
use cxx_model::{
    Access, ClassId, FaultText, LeftOut, LimitKind, Listed, Path, Place, ScopeId, Stop, Text,
    TokenKind, TreeId, TreeIdList, TypeId, Word, keyword, punct,
};
use cxx_reading::SpecifierPlace;
use cxx_syntax::{class_key, has_type};
use cxx_tree::State;
use cxx_units::trees::{faulty, with_tree};
use std::alloc::{AllocError, Global};

/// The number of the production.
const CLASS_DEFINITION: u8 = 10;

/// The head of a class.
#[derive(Drop)]
pub(crate) struct Head {
    pub is_union: bool,
    /// The access of members that no label stands before (11).
    pub access: Access,
    /// The last part, where it has qualifiers.
    pub name: Option<NameToken>,
    /// That of its name, or of its key where it has none.
    pub place: Place,
}

/// A class that has begun, with its type.
#[derive(Clone, Copy)]
pub(crate) struct Begun {
    pub class: ClassId,
    pub of: TypeId,
}

/// The members that were read of a list, and the access of what follows (11.1).
#[derive(Drop)]
pub(crate) struct Members {
    pub trees: TreeIdList,
    pub access: Access,
}

// ---- the head

fn key_access(kind: TokenKind) -> Access
    ensures { result ≡ definition.key_access kind }
{
    if is_keyword(keyword::CLASS, kind) {
        Access::Private
    } else {
        Access::Public
    }
}

// A name, taken if there is one.
#[tactic(auto, using(cxx_cursor::proofs::Kept::later_refl))]
fn name_or_none(state: &State, cursor: &mut Cursor<'_>) -> Result<Option<NameToken>, Stop>
    ensures { IsRead optional_name AnyKnown state.now state.now cursor.new result (definition.name_or_none (meaning state.now) cursor.old) }
{
    let _ = state;
    if is_name(cursor.kind()) {
        return Ok(Some(cursor.kept()?));
    }
    Ok(None)
}

// The token of the last part of a name.
fn last_token(alloc: Global, path: &Path) -> Result<NameToken, AllocError>
    ensures { IfOk result (λ token. name_at token ≡ token_of (last_part (path_at path.now).parts)) }
{
    match last_part(path.parts.as_slice()) {
        Some(part) => Ok(NameToken {
            kind: TokenKind::Name,
            place: part.place,
            spelling: Word::from_slice(alloc, part.word.as_slice())?,
        }),
        None => Ok(NameToken {
            kind: TokenKind::Name,
            place: Place { line: 0, column: 0 },
            spelling: Listed::new(alloc),
        }),
    }
}

// The type of a class that begins.
#[tactic(auto, using(cxx_cursor::proofs::Kept::later_trans))]
fn begun_as(state: &mut State, class: ClassId) -> Result<Begun, Stop>
    requires { class.0 < length (state.old).graph.classes }
    ensures { IsAsked begun_number IsBegun state.old state.new result (Ok (class.0, meaning state.old)) }
{
    match state.class_type(class) {
        Ok(of) => Ok(Begun { class, of }),
        Err(_) => Err(Stop::OutOfMemory),
    }
}

// ---- the list of members

pub(crate) fn is_access_word(kind: TokenKind) -> bool
    ensures { result ≡ definition.access_word kind }
{
    is_keyword(keyword::PUBLIC, kind)
        || (is_keyword(keyword::PROTECTED, kind) || is_keyword(keyword::PRIVATE, kind))
}

pub(crate) fn access_by(kind: TokenKind) -> Access
    ensures { result ≡ definition.access_by kind }
{
    if is_keyword(keyword::PUBLIC, kind) {
        return Access::Public;
    }
    if is_keyword(keyword::PROTECTED, kind) {
        return Access::Protected;
    }
    Access::Private
}

// A label (11.1).
#[tactic(auto, using(cxx_cursor::proofs::Kept::later_refl), unfolding(cxx_language::specs::Classes::access_step))]
fn access_step(
    state: &State,
    cursor: &mut Cursor<'_>,
    so_far: Members,
) -> Result<Turn<Members, TreeIdList>, Stop>
    requires { AreMembers state.now so_far }
    ensures { IsRead members_turn IsMembersTurn state.now state.now cursor.new result (definition.access_step (members_of state.now so_far) (meaning state.now) cursor.old) }
{
    let _ = state;
    let access = access_by(cursor.kind());
    cursor.advance();
    cursor.punct(punct::COLON)?;
    Ok(Turn::More(Members {
        trees: so_far.trees,
        access,
    }))
}

// A using-declaration (7.3.3).
#[tactic(auto, using(cxx_cursor::proofs::Kept::trees_kept, cxx_cursor::proofs::Kept::trees_later, cxx_cursor::proofs::Kept::later_refl), unfolding(cxx_language::specs::Classes::using_step))]
fn using_step<D: Defines>(
    declares: &D,
    state: &mut State,
    cursor: &mut Cursor<'_>,
    so_far: Members,
) -> Result<Turn<Members, TreeIdList>, Stop>
    requires { AreMembers state.old so_far }
    ensures { IsRead members_turn IsMembersTurn state.old state.new cursor.new result (definition.using_step (members_of state.old so_far) (meaning state.old) cursor.old) }
{
    member_using_at(declares, state, cursor, so_far.access)?;
    Ok(Turn::More(so_far))
}

// With which tokens other members begin (12.4, clause 14).
fn begins_other(kind: TokenKind) -> bool
    ensures { result ≡ definition.begins_other kind }
{
    is_keyword(keyword::TEMPLATE, kind) || is_punct(punct::TILDE, kind)
}

// That name and a bracket.
fn begins_with(name: &NameToken, cursor: &Cursor<'_>) -> bool
    ensures { result ≡ definition.begins_constructor (Some (name_at name.now)) cursor.now }
{
    is_name(cursor.kind())
        && (cursor.spelling() == name.spelling.as_slice()
            && is_punct(punct::LEFT_PARENTHESIS, cursor.kind_behind()))
}

// The name of the class and a bracket (12.1).
fn begins_constructor(head: &Head, cursor: &Cursor<'_>) -> bool
    ensures { result ≡ definition.begins_constructor (name_of_option head.now.name) cursor.now }
{
    match &head.name {
        Some(name) => begins_with(name, cursor),
        None => false,
    }
}

// Constructors, destructors and templates of a class are not read yet.
fn comes_later(head: &Head, cursor: &Cursor<'_>) -> bool
    ensures { result ≡ definition.comes_later (name_of_option head.now.name) cursor.now }
{
    begins_other(cursor.kind()) || begins_constructor(head, cursor)
}

// What is ahead behind `inline`, where that stands first (7.1.2).
fn behind_inline<'a>(cursor: &Cursor<'a>) -> Cursor<'a>
    ensures { result ≡ definition.behind_inline cursor.now }
{
    let mut ahead = cursor.mark();
    if is_keyword(keyword::INLINE, cursor.kind()) {
        ahead.advance();
    }
    ahead
}

// Friends, also behind `inline` (11.4, 7.1.2).
fn begins_friend(cursor: &Cursor<'_>) -> bool
    ensures { result ≡ definition.begins_friend cursor.now }
{
    is_keyword(keyword::FRIEND, behind_inline(cursor).kind())
}

// The same behind `virtual`.
fn behind_words<'a>(cursor: &Cursor<'a>) -> Cursor<'a>
    ensures { result ≡ definition.behind_words cursor.now }
{
    let mut ahead = cursor.mark();
    if is_keyword(keyword::VIRTUAL, cursor.kind()) {
        ahead.advance();
    }
    behind_inline(&ahead)
}

fn with_member(so_far: Members, number: TreeId) -> Result<Members, AllocError>
    ensures { IfOk result (λ all. all ≡ record { trees = so_far.trees ++ number ∷ []; access = so_far.access }) }
{
    Ok(Members {
        trees: with_tree(so_far.trees, number)?,
        access: so_far.access,
    })
}

// ---- the tree

fn class_tree(
    state: &mut State,
    head: &Head,
    begun: Begun,
    members: TreeIdList,
    from: &Cursor<'_>,
    to: &Cursor<'_>,
) -> Result<TreeId, Stop>
    requires begun { IsBegun state.old begun }
    requires members { AreTreesHeld state.old members }
    ensures { GrowsTree state.old state.new result (definition.class_tree (head_of head.now) begun.class.0 (trees_held state.old members) from.now to.now) }
{
    let path = path_to_option(from.alloc(), &head.name)?;
    let spelling = Text::from_slice(from.alloc(), class_key(head.is_union))?;
    let mut node = node_from(CLASS_DEFINITION, spelling, from, to, members);
    node.place = head.place;
    node.path = path;
    node.of = Some(begun.of);
    push(state, node)
}

fn with_class(so_far: Specifiers, of: TypeId, number: TreeId) -> Result<Specifiers, AllocError>
    ensures { IfOk result (λ all. all ≡ record so_far { named = Some of; stands_alone = true; parts = so_far.parts ++ number ∷ [] }) }
{
    let mut so_far = so_far;
    so_far.named = Some(of);
    so_far.stands_alone = true;
    so_far.parts.push(number)?;
    Ok(so_far)
}

// Once it has ended: what was passed over in it and belongs to no declarator of a member stands behind the members.
#[tactic(auto, using(crate::proofs::Kept::begun_later, cxx_cursor::proofs::Kept::named_kept, cxx_cursor::proofs::Kept::named_later, cxx_cursor::proofs::Kept::trees_kept, cxx_cursor::proofs::Kept::trees_later, cxx_cursor::proofs::Kept::trees_append, cxx_cursor::proofs::Kept::trees_below_append, cxx_cursor::proofs::Kept::later_refl, cxx_cursor::proofs::Kept::later_trans))]
fn class_left(
    state: &mut State,
    cursor: &Cursor<'_>,
    so_far: Specifiers,
    head: &Head,
    begun: Begun,
    members: TreeIdList,
    from: &Cursor<'_>,
) -> Result<Specifiers, Stop>
    requires known { AreSpecifiers state.old so_far }
    requires begun { IsBegun state.old begun }
    requires members { AreTreesHeld state.old members }
    ensures { IsRead specifiers_of AreSpecifiers state.old state.new cursor.now result (class_left (head_of head.now) begun.class.0 (trees_held state.old members) (specifiers_of state.old so_far) from.now (meaning state.old) cursor.now) }
{
    let left = defaults_kept(state, cursor, None, None)?;
    let all = joined(members, left)?;
    let number = class_tree(state, head, begun, all, from, cursor)?;
    Ok(with_class(so_far, begun.of, number)?)
}

// A union without a name that declares no object is anonymous (9.5), which is left out.
#[tactic(auto, using(cxx_cursor::proofs::Kept::later_refl), unfolding(cxx_language::specs::Classes::no_anonymous_union))]
fn no_anonymous_union(state: &State, cursor: &Cursor<'_>, head: &Head) -> Result<(), Stop>
    ensures { IsRead itself AnyKnown state.now state.now cursor.now result (definition.no_anonymous_union (head_of head.now) (meaning state.now) cursor.now) }
{
    let _ = state;
    if head.is_union && (head.name.is_none() && is_punct(punct::SEMICOLON, cursor.kind())) {
        let text = FaultText::LeftOut(LeftOut::AnonymousUnion);
        return Err(Stop::Fault(faulty(cursor.alloc(), head.place, text)?));
    }
    Ok(())
}

impl<D: Defines> Space<'_, D> {
    // A declaration in the list of a class.
    #[cycle(nested)]
    #[tactic(auto, using(cxx_cursor::proofs::Kept::trees_kept, cxx_cursor::proofs::Kept::trees_later, cxx_cursor::proofs::Kept::trees_append, cxx_cursor::proofs::Kept::trees_below_append, cxx_cursor::proofs::Kept::later_refl, cxx_cursor::proofs::Kept::later_trans), unfolding(cxx_language::specs::Classes::declared_step))]
    fn declared_step(
        &self,
        state: &mut State,
        cursor: &mut Cursor<'_>,
        head: &Head,
        so_far: Members,
    ) -> Result<Turn<Members, TreeIdList>, Stop>
        requires { AreMembers state.old so_far }
        ensures { IsRead members_turn IsMembersTurn state.old state.new cursor.new result (definition.declared_step (definition.class_at self.now.room) self.now.room (name_of_option head.now.name) (members_of state.old so_far) (meaning state.old) cursor.old) }
    {
        let ahead = behind_words(cursor);
        if comes_later(head, &ahead) {
            return Err(Stop::Fault(ahead.not_built()?));
        }
        let number = self.member_declaration_at(state, cursor, so_far.access)?;
        Ok(Turn::More(with_member(so_far, number)?))
    }

    // A member, a label, a using-declaration, friends, `;` alone, or the end of the list.
    #[cycle(nested)]
    #[tactic(auto, using(cxx_cursor::proofs::Kept::later_refl), unfolding(cxx_language::specs::Classes::list_step_by))]
    fn list_step(
        &self,
        state: &mut State,
        cursor: &mut Cursor<'_>,
        head: &Head,
        so_far: Members,
    ) -> Result<Turn<Members, TreeIdList>, Stop>
        requires { AreMembers state.old so_far }
        ensures { IsRead members_turn IsMembersTurn state.old state.new cursor.new result (definition.list_step self.now.room (name_of_option head.now.name) (members_of state.old so_far) (meaning state.old) cursor.old) }
    {
        if is_punct(punct::RIGHT_BRACE, cursor.kind()) {
            cursor.advance();
            return Ok(Turn::Done(so_far.trees));
        }
        if is_punct(punct::SEMICOLON, cursor.kind()) {
            cursor.advance();
            return Ok(Turn::More(so_far));
        }
        if is_access_word(cursor.kind()) {
            return access_step(state, cursor, so_far);
        }
        if is_keyword(keyword::USING, cursor.kind()) {
            return using_step(self.declares, state, cursor, so_far);
        }
        if begins_friend(cursor) {
            return self.friend_step(state, cursor, so_far);
        }
        self.declared_step(state, cursor, head, so_far)
    }

    // Behind the `{` of a class, with its end: its bases and members.
    #[cycle(nested)]
    #[tactic(auto, using(crate::proofs::Listing::list_zero, crate::proofs::Listing::list_more, cxx_cursor::proofs::Loops::turn, cxx_cursor::proofs::Loops::no_turn, cxx_cursor::proofs::Kept::later_refl, cxx_cursor::proofs::Kept::later_trans))]
    fn list_at(
        &self,
        state: &mut State,
        cursor: &mut Cursor<'_>,
        head: &Head,
        bases: TreeIdList,
    ) -> Result<TreeIdList, Stop>
        requires { AreTreesHeld state.old bases }
        ensures { IsRead trees_held AreTreesHeld state.old state.new cursor.new result (definition.list_at self.now.room (head_of head.now) (trees_held state.old bases) (meaning state.old) cursor.old) }
    {
        if self.room == 0 {
            return Err(Stop::Limit(LimitKind::Nesting));
        }
        let inside = Space {
            declares: self.declares,
            room: self.room - 1,
        };
        let mut so_far = Members {
            trees: bases,
            access: head.access,
        };
        for _turn in 0..cursor.count() {
            match inside.list_step(state, cursor, head, so_far)? {
                Turn::More(next) => so_far = next,
                Turn::Done(all) => return Ok(all),
            }
        }
        Ok(so_far.trees)
    }

    // A name with qualifiers: the reader stands in what declares the class then (3.4.3).
    #[tactic(auto, using(cxx_cursor::proofs::Kept::later_refl, cxx_cursor::proofs::Kept::later_trans))]
    fn qualified_name(
        &self,
        state: &mut State,
        cursor: &mut Cursor<'_>,
    ) -> Result<Option<NameToken>, Stop>
        ensures { IsRead optional_name AnyKnown state.old state.new cursor.new result (qualified_name (meaning state.old) cursor.old) }
    {
        let path = cursor.path_taken(state)?;
        self.declares.enter_class(state, &path)?;
        Ok(Some(last_token(cursor.alloc(), &path)?))
    }

    // The name of a class, taken if there is one.
    #[tactic(auto, using(cxx_cursor::proofs::Kept::later_refl), unfolding(cxx_language::specs::Classes::class_name))]
    fn class_name(
        &self,
        state: &mut State,
        cursor: &mut Cursor<'_>,
    ) -> Result<Option<NameToken>, Stop>
        ensures { IsRead optional_name AnyKnown state.old state.new cursor.new result (definition.class_name (meaning state.old) cursor.old) }
    {
        if cursor.begins_name() && !cursor.is_plain_name() {
            return self.qualified_name(state, cursor);
        }
        name_or_none(state, cursor)
    }

    // A key and a name, or a key alone, taken.
    #[tactic(auto, using(cxx_cursor::proofs::Kept::later_refl), unfolding(cxx_language::specs::Classes::head_at))]
    fn head_at(&self, state: &mut State, cursor: &mut Cursor<'_>) -> Result<Head, Stop>
        ensures { IsRead head_held AnyKnown state.old state.new cursor.new result (definition.head_at (meaning state.old) cursor.old) }
    {
        let is_union = is_keyword(keyword::UNION, cursor.kind());
        let access = key_access(cursor.kind());
        let place = cursor.place();
        cursor.advance();
        let name = self.class_name(state, cursor)?;
        let place = place_of(place, &name);
        Ok(Head {
            is_union,
            access,
            name,
            place,
        })
    }

    // A class begins, by its name or without one.
    fn class_number(&self, state: &mut State, head: &Head) -> Result<ClassId, Stop>
        ensures { IsAsked class_number IsClassKnown state.old state.new result (definition.class_begins (head_of head.now) (meaning state.old)) }
    {
        match &head.name {
            Some(name) => self.declares.begin_class(state, head.is_union, name),
            None => self
                .declares
                .begin_unnamed(state, head.is_union, head.place),
        }
    }

    // A class begins.
    #[tactic(auto, using(cxx_cursor::proofs::Kept::later_trans))]
    fn class_begun(&self, state: &mut State, head: &Head) -> Result<Begun, Stop>
        ensures { IsAsked begun_number IsBegun state.old state.new result (definition.class_begins (head_of head.now) (meaning state.old)) }
    {
        let class = self.class_number(state, head)?;
        begun_as(state, class)
    }

    // Behind the list of its members.
    #[tactic(auto, using(crate::proofs::Kept::begun_later, cxx_cursor::proofs::Kept::named_kept, cxx_cursor::proofs::Kept::named_later, cxx_cursor::proofs::Kept::trees_kept, cxx_cursor::proofs::Kept::trees_later, cxx_cursor::proofs::Kept::trees_append, cxx_cursor::proofs::Kept::trees_below_append, cxx_cursor::proofs::Kept::later_refl, cxx_cursor::proofs::Kept::later_trans))]
    fn class_ended(
        &self,
        state: &mut State,
        cursor: &Cursor<'_>,
        so_far: Specifiers,
        head: &Head,
        begun: Begun,
        members: TreeIdList,
        outside: ScopeId,
        from: &Cursor<'_>,
    ) -> Result<Specifiers, Stop>
        requires known { AreSpecifiers state.old so_far }
        requires begun { IsBegun state.old begun }
        requires members { AreTreesHeld state.old members }
        ensures { IsRead specifiers_of AreSpecifiers state.old state.new cursor.now result (class_ended (head_of head.now) begun.class.0 (trees_held state.old members) (specifiers_of state.old so_far) outside.0 from.now (meaning state.old) cursor.now) }
    {
        self.declares.end_class(state, begun.class, head.place)?;
        self.declares.stand_in(state, outside)?;
        no_anonymous_union(state, cursor, head)?;
        class_left(state, cursor, so_far, head, begun, members, from)
    }

    // From the `{` on, where it has begun and has these bases.
    #[cycle(nested)]
    #[tactic(auto, using(crate::proofs::Kept::begun_later, cxx_cursor::proofs::Kept::named_kept, cxx_cursor::proofs::Kept::named_later, cxx_cursor::proofs::Kept::trees_kept, cxx_cursor::proofs::Kept::trees_later, cxx_cursor::proofs::Kept::later_refl, cxx_cursor::proofs::Kept::later_trans))]
    fn class_opened(
        &self,
        state: &mut State,
        cursor: &mut Cursor<'_>,
        so_far: Specifiers,
        head: &Head,
        begun: Begun,
        bases: TreeIdList,
        outside: ScopeId,
        from: &Cursor<'_>,
    ) -> Result<Specifiers, Stop>
        requires known { AreSpecifiers state.old so_far }
        requires begun { IsBegun state.old begun }
        requires bases { AreTreesHeld state.old bases }
        ensures { IsRead specifiers_of AreSpecifiers state.old state.new cursor.new result (class_opened self.now.room (head_of head.now) begun.class.0 (trees_held state.old bases) (specifiers_of state.old so_far) outside.0 from.now (meaning state.old) cursor.old) }
    {
        cursor.advance();
        let members = self.list_at(state, cursor, head, bases)?;
        self.class_ended(state, cursor, so_far, head, begun, members, outside, from)
    }

    // A definition of a class, from its key on.
    #[cycle(nested)]
    #[tactic(auto, using(crate::proofs::Kept::begun_later, cxx_cursor::proofs::Kept::named_kept, cxx_cursor::proofs::Kept::named_later, cxx_cursor::proofs::Kept::trees_kept, cxx_cursor::proofs::Kept::trees_later, cxx_cursor::proofs::Kept::later_refl, cxx_cursor::proofs::Kept::later_trans), unfolding(cxx_tree::specs::Held::meaning, cxx_language::specs::Classes::class_at, cxx_language::specs::Classes::class_by))]
    fn class_at(
        &self,
        state: &mut State,
        cursor: &mut Cursor<'_>,
        so_far: Specifiers,
    ) -> Result<Specifiers, Stop>
        requires { AreSpecifiers state.old so_far }
        ensures { IsRead specifiers_of AreSpecifiers state.old state.new cursor.new result (definition.class_at self.now.room (specifiers_of state.old so_far) (meaning state.old) cursor.old) }
    {
        let outside = state.scope();
        let from = cursor.mark();
        let head = self.head_at(state, cursor)?;
        let home = state.scope();
        let begun = self.class_begun(state, &head)?;
        let bases = self.bases_or_none(state, cursor, home, begun.class, head.access)?;
        self.class_opened(state, cursor, so_far, &head, begun, bases, outside, &from)
    }

    // A class, and the specifiers behind it, of a member.
    #[cycle(nested)]
    #[tactic(auto, using(cxx_cursor::proofs::Kept::later_refl, cxx_cursor::proofs::Kept::later_trans))]
    fn class_then(
        &self,
        state: &mut State,
        cursor: &mut Cursor<'_>,
        so_far: Specifiers,
    ) -> Result<Specifiers, Stop>
        requires { AreSpecifiers state.old so_far }
        ensures { IsRead specifiers_of AreSpecifiers state.old state.new cursor.new result (class_then self.now.room (specifiers_of state.old so_far) (meaning state.old) cursor.old) }
    {
        let with = self.class_at(state, cursor, so_far)?;
        self.declares
            .specifiers(state, cursor, SpecifierPlace::Member, with, self.room)
    }

    // Behind specifiers of a member that were read: with a class, where one is defined there.
    #[cycle(nested)]
    #[tactic(auto, using(cxx_cursor::proofs::Kept::later_refl), unfolding(cxx_language::specs::Classes::nested_or_not))]
    fn nested_or_not(
        &self,
        state: &mut State,
        cursor: &mut Cursor<'_>,
        so_far: Specifiers,
    ) -> Result<Specifiers, Stop>
        requires { AreSpecifiers state.old so_far }
        ensures { IsRead specifiers_of AreSpecifiers state.old state.new cursor.new result (definition.nested_or_not (definition.class_at self.now.room) self.now.room (specifiers_of state.old so_far) (meaning state.old) cursor.old) }
    {
        if has_type(state, &so_far) {
            return Ok(so_far);
        }
        self.class_then(state, cursor, so_far)
    }

    /// The specifiers of a member, with a class that is defined among them (7.1.5, 9.2).
    #[cycle(nested)]
    #[tactic(auto, using(cxx_cursor::proofs::Kept::later_refl, cxx_cursor::proofs::Kept::later_trans), unfolding(cxx_language::specs::Classes::member_specifiers_by))]
    pub(crate) fn member_specifiers(
        &self,
        state: &mut State,
        cursor: &mut Cursor<'_>,
    ) -> Result<Specifiers, Stop>
        ensures { IsRead specifiers_of AreSpecifiers state.old state.new cursor.new result (definition.member_specifiers self.now.room (meaning state.old) cursor.old) }
    {
        let none = no_specifiers_yet(cursor.alloc());
        let first = self
            .declares
            .specifiers(state, cursor, SpecifierPlace::Member, none, self.room)?;
        self.nested_or_not(state, cursor, first)
    }

    // A class that stands in no other one, with the default arguments and the bodies of the functions in it (9.2 p2).
    #[tactic(auto, using(cxx_cursor::proofs::Kept::later_refl, cxx_cursor::proofs::Kept::later_trans), unfolding(cxx_language::specs::Classes::class_whole))]
    fn class_whole(
        &self,
        state: &mut State,
        cursor: &mut Cursor<'_>,
        so_far: Specifiers,
    ) -> Result<Specifiers, Stop>
        requires { AreSpecifiers state.old so_far }
        ensures { IsRead specifiers_of AreSpecifiers state.old state.new cursor.new result (definition.class_whole self.now.room (specifiers_of state.old so_far) (meaning state.old) cursor.old) }
    {
        let from = cursor.mark();
        let one = self.class_at(state, cursor, so_far)?;
        self.bodies_then(state, cursor, one, &from)
    }

    // The same with the specifiers behind it.
    #[tactic(auto, using(cxx_cursor::proofs::Kept::later_refl, cxx_cursor::proofs::Kept::later_trans))]
    fn whole_then(
        &self,
        state: &mut State,
        cursor: &mut Cursor<'_>,
        so_far: Specifiers,
    ) -> Result<Specifiers, Stop>
        requires { AreSpecifiers state.old so_far }
        ensures { IsRead specifiers_of AreSpecifiers state.old state.new cursor.new result (whole_then self.now.room (specifiers_of state.old so_far) (meaning state.old) cursor.old) }
    {
        let whole = self.class_whole(state, cursor, so_far)?;
        self.declares.specifiers(state, cursor, SpecifierPlace::Declaration, whole, self.room)
    }

    // Behind specifiers that were read: with a class, where one is defined there.
    #[tactic(auto, using(cxx_cursor::proofs::Kept::later_refl), unfolding(cxx_language::specs::Classes::class_or_not))]
    fn class_or_not(
        &self,
        state: &mut State,
        cursor: &mut Cursor<'_>,
        so_far: Specifiers,
    ) -> Result<Specifiers, Stop>
        requires { AreSpecifiers state.old so_far }
        ensures { IsRead specifiers_of AreSpecifiers state.old state.new cursor.new result (definition.class_or_not self.now.room (specifiers_of state.old so_far) (meaning state.old) cursor.old) }
    {
        if has_type(state, &so_far) {
            return Ok(so_far);
        }
        self.whole_then(state, cursor, so_far)
    }

    /// The specifiers of a declaration of a namespace, with a class that is defined among them (7.1.5).
    #[tactic(auto, using(cxx_cursor::proofs::Kept::later_refl, cxx_cursor::proofs::Kept::later_trans), unfolding(cxx_language::specs::Classes::declaration_specifiers))]
    pub(crate) fn declaration_specifiers(
        &self,
        state: &mut State,
        cursor: &mut Cursor<'_>,
    ) -> Result<Specifiers, Stop>
        ensures { IsRead specifiers_of AreSpecifiers state.old state.new cursor.new result (definition.declaration_specifiers self.now.room (meaning state.old) cursor.old) }
    {
        let none = no_specifiers_yet(cursor.alloc());
        let first = self.declares.specifiers(
            state,
            cursor,
            SpecifierPlace::Declaration,
            none,
            self.room,
        )?;
        self.class_or_not(state, cursor, first)
    }
}
