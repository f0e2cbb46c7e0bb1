//! Whether parameters stand behind a bracket (8.2): told by the shape of what stands there and by the kinds of names.

ghost use Rattle.std.specs.Prelude.{◌≡◌, ◌<◌, ◌≤◌, ◌+◌, ◌^◌, IfOk, false};
ghost use Rattle.cxx_reading.specs.Reads.{count_ahead, repeat};
ghost use Rattle.cxx_reading.specs.Shapes as shape;
ghost use Rattle.cxx_cursor.specs.Asking.{AnyKnown, itself};
ghost use Rattle.cxx_cursor.specs.Outlines.{fits_of, outline_of, run_in};
ghost use Rattle.cxx_syntax.specs.Outlines.{HasFewerPrefix, prefix_turn, run_turn, suffix_turn};
ghost use Rattle.cxx_cursor.specs.Reading.{IsRead, Takes};
ghost use Rattle.cxx_cursor.specs.Views.{IsTurn, turn_at};
ghost use Rattle.cxx_tree.specs.Held.{meaning};

use crate::declarators::{is_cv, is_key};
use crate::kinds::Kinds;
use crate::nested::Nested;
use crate::reader::Reader;
use crate::steps::is_of_members;
use cxx_cursor::{
    Cursor, Fits, Outline, Run, Turn, is_end, is_keyword, is_punct, storage_word, type_word,
};
use cxx_model::{Kind, Stop, TokenKind, keyword, punct};
use cxx_tree::State;

fn opens(kind: TokenKind) -> bool
    ensures { result ≡ shape.opens kind }
{
    is_punct(punct::LEFT_PARENTHESIS, kind)
        || (is_punct(punct::LEFT_BRACKET, kind) || is_punct(punct::LEFT_BRACE, kind))
}

fn closes(kind: TokenKind) -> bool
    ensures { result ≡ shape.closes kind }
{
    is_punct(punct::RIGHT_PARENTHESIS, kind)
        || (is_punct(punct::RIGHT_BRACKET, kind) || is_punct(punct::RIGHT_BRACE, kind))
}

// One token of what stands between brackets, of which so many are open.
#[tactic(auto, unfolding(cxx_reading::specs::Shapes::bracket_step))]
fn bracket_step(cursor: &mut Cursor<'_>, count: u64) -> Result<Turn<u64, ()>, Stop>
    requires { count < 2 ^ 63 }
    ensures is { Takes (turn_at (λ x. x) (λ x. x)) cursor.new result (shape.bracket_step count tt cursor.old) }
    ensures few { IfOk result (λ turn. IsTurn (λ n. n ≤ count + 1) (λ x. Unit {0}) turn) }
{
    if is_end(cursor.kind()) {
        return Ok(Turn::Done(()));
    }
    if opens(cursor.kind()) {
        cursor.advance();
        return Ok(Turn::More(count + 1));
    }
    if closes(cursor.kind()) {
        cursor.advance();
        if count == 1 {
            return Ok(Turn::Done(()));
        }
        return Ok(Turn::More(count.saturating_sub(1)));
    }
    cursor.advance();
    Ok(Turn::More(count))
}

/// Passes what stands between brackets, whatever it is: from an opening one behind its end, or to the end of the unit.
#[tactic(auto, using(cxx_cursor::proofs::Loops::turn, cxx_cursor::proofs::Loops::no_turn), unfolding(cxx_reading::specs::Shapes::brackets_passed))]
pub fn brackets_passed(cursor: &mut Cursor<'_>) -> Result<(), Stop>
    ensures { Takes (λ x. x) cursor.new result (shape.brackets_passed tt cursor.old) }
{
    let room = cursor.count();
    cursor.advance();
    let mut count = 1;
    for _turn in 0..room {
        match bracket_step(cursor, count)? {
            Turn::More(next) => count = next,
            Turn::Done(()) => return Ok(()),
        }
    }
    Ok(())
}

// What ends a default argument (8.3.6).
fn ends_default(kind: TokenKind) -> bool
    ensures { result ≡ shape.ends_default kind }
{
    is_punct(punct::COMMA, kind)
        || (is_punct(punct::RIGHT_PARENTHESIS, kind)
            || (is_punct(punct::ELLIPSIS, kind) || is_end(kind)))
}

#[tactic(auto, unfolding(cxx_reading::specs::Shapes::default_step))]
fn default_step(cursor: &mut Cursor<'_>) -> Result<Turn<(), ()>, Stop>
    ensures { Takes (turn_at (λ x. x) (λ x. x)) cursor.new result (shape.default_step (tt {0}) tt cursor.old) }
{
    if ends_default(cursor.kind()) {
        return Ok(Turn::Done(()));
    }
    if opens(cursor.kind()) {
        brackets_passed(cursor)?;
        return Ok(Turn::More(()));
    }
    cursor.advance();
    Ok(Turn::More(()))
}

// A default argument, to the next token that ends it outside of brackets (8.3.6).
#[tactic(auto, using(cxx_cursor::proofs::Loops::turn, cxx_cursor::proofs::Loops::no_turn), unfolding(cxx_reading::specs::Shapes::default_passed))]
fn default_passed(cursor: &mut Cursor<'_>) -> Result<(), Stop>
    ensures { Takes (λ x. x) cursor.new result (shape.default_passed tt cursor.old) }
{
    if !is_punct(punct::EQUALS, cursor.kind()) {
        return Ok(());
    }
    let room = cursor.count();
    cursor.advance();
    for _turn in 0..room {
        match default_step(cursor)? {
            Turn::More(()) => {}
            Turn::Done(()) => return Ok(()),
        }
    }
    Ok(())
}

// A word that is no part of a type (7.1).
fn is_specifier(number: u8) -> bool
    ensures { result ≡ shape.is_specifier number }
{
    storage_word(number).is_some()
        || (is_cv(number) || (number == keyword::INLINE || is_of_members(number)))
}

// Behind a key (7.1.5.3).
#[tactic(auto, using(cxx_cursor::proofs::Kept::later_refl), unfolding(cxx_reading::specs::Shapes::key_shape))]
fn key_shape(state: &State, cursor: &mut Cursor<'_>) -> Result<Turn<bool, Run>, Stop>
    ensures { IsRead run_turn AnyKnown state.now state.now cursor.new result (shape.key_shape (meaning state.now) cursor.old) }
{
    let _ = state;
    if !cursor.begins_name() || !cursor.is_whole_name() {
        return Ok(Turn::Done(Run::Surely));
    }
    let behind = cursor.behind_name();
    if is_punct(punct::LEFT_BRACE, behind.kind()) {
        return Ok(Turn::Done(Run::Surely));
    }
    *cursor = behind;
    Ok(Turn::More(true))
}

fn ended(typed: bool) -> Run
    ensures { run_in result ≡ shape.ended typed }
{
    if typed { Run::AType } else { Run::NoType }
}

#[tactic(auto, using(cxx_cursor::proofs::Kept::later_refl), unfolding(cxx_reading::specs::Shapes::keyword_shape))]
fn keyword_shape(
    state: &State,
    cursor: &mut Cursor<'_>,
    number: u8,
    typed: bool,
) -> Result<Turn<bool, Run>, Stop>
    ensures { IsRead run_turn AnyKnown state.now state.now cursor.new result (shape.keyword_shape number typed (meaning state.now) cursor.old) }
{
    if is_specifier(number) {
        cursor.advance();
        return Ok(Turn::More(typed));
    }
    if type_word(number).is_some() {
        cursor.advance();
        return Ok(Turn::More(true));
    }
    if is_key(number) && !typed {
        cursor.advance();
        return key_shape(state, cursor);
    }
    Ok(Turn::Done(ended(typed)))
}

fn is_closed(outline: Outline) -> Fits
    ensures { fits_of result ≡ shape.is_closed (outline_of outline) }
{
    if outline.brackets == 0 {
        Fits::Fits
    } else {
        Fits::FitsNot
    }
}

// What separates a parameter from the next; nothing is refused.
#[tactic(auto, using(cxx_cursor::proofs::Kept::later_refl))]
fn separated(state: &State, cursor: &mut Cursor<'_>) -> Result<Turn<(), bool>, Stop>
    ensures { IsRead (λ held. turn_at (λ x. x) (λ x. x)) AnyKnown state.now state.now cursor.new result (shape.separated (meaning state.now) cursor.old) }
{
    let _ = state;
    if is_punct(punct::COMMA, cursor.kind()) {
        cursor.advance();
        return Ok(Turn::More(()));
    }
    let kind = cursor.kind();
    Ok(Turn::Done(is_punct(punct::RIGHT_PARENTHESIS, kind) || is_punct(punct::ELLIPSIS, kind)))
}

impl<K: Kinds, N: Nested> Reader<'_, K, N> {
    // A name in a run of specifiers.
    #[tactic(auto, using(cxx_cursor::proofs::Kept::later_trans, cxx_cursor::proofs::Kept::later_refl), unfolding(cxx_reading::specs::Shapes::name_shape))]
    fn name_shape(
        &self,
        state: &mut State,
        cursor: &mut Cursor<'_>,
        typed: bool,
    ) -> Result<Turn<bool, Run>, Stop>
        requires ready { K.is_ready self.now.kinds.now }
        ensures { IsRead run_turn AnyKnown state.old state.new cursor.new result (shape.name_shape (K.asks self.now.kinds.now self.now.room) typed (meaning state.old) cursor.old) }
    {
        if typed {
            return Ok(Turn::Done(Run::AType));
        }
        match self.kind_of_name(state, cursor)? {
            Kind::OfType => {
                cursor.pass_name();
                Ok(Turn::More(true))
            }
            _ => Ok(Turn::Done(Run::NoType)),
        }
    }

    // One specifier.
    #[tactic(auto, using(cxx_cursor::proofs::Kept::later_trans, cxx_cursor::proofs::Kept::later_refl), unfolding(cxx_reading::specs::Shapes::run_step))]
    fn run_step(
        &self,
        state: &mut State,
        cursor: &mut Cursor<'_>,
        typed: bool,
    ) -> Result<Turn<bool, Run>, Stop>
        requires ready { K.is_ready self.now.kinds.now }
        ensures { IsRead run_turn AnyKnown state.old state.new cursor.new result (shape.run_step (K.asks self.now.kinds.now self.now.room) typed (meaning state.old) cursor.old) }
    {
        match cursor.kind() {
            TokenKind::Keyword(number) => keyword_shape(state, cursor, number, typed),
            TokenKind::Name => self.name_shape(state, cursor, typed),
            TokenKind::Punct(number) => {
                if number == punct::SCOPE {
                    self.name_shape(state, cursor, typed)
                } else {
                    Ok(Turn::Done(ended(typed)))
                }
            }
            _ => Ok(Turn::Done(ended(typed))),
        }
    }

    /// Passes specifiers with one type (8.2).
    #[tactic(auto, using(cxx_cursor::proofs::Loops::turn, cxx_cursor::proofs::Loops::no_turn, cxx_cursor::proofs::Kept::later_trans, cxx_cursor::proofs::Kept::later_refl), unfolding(cxx_reading::specs::Shapes::run_passed))]
    pub fn run_passed(&self, state: &mut State, cursor: &mut Cursor<'_>) -> Result<Run, Stop>
        requires ready { K.is_ready self.now.kinds.now }
        ensures { IsRead (λ held. run_in) AnyKnown state.old state.new cursor.new result (shape.run_passed (K.asks self.now.kinds.now self.now.room) (meaning state.old) cursor.old) }
    {
        let mut typed = false;
        for _turn in 0..cursor.count() {
            match self.run_step(state, cursor, typed)? {
                Turn::More(next) => typed = next,
                Turn::Done(run) => return Ok(run),
            }
        }
        Ok(ended(typed))
    }

    // Before the name: pointer operators with their cv words, and brackets.
    #[tactic(auto, using(cxx_cursor::proofs::Kept::later_trans, cxx_cursor::proofs::Kept::later_refl), unfolding(cxx_reading::specs::Shapes::prefix_step))]
    fn prefix_step(
        &self,
        state: &mut State,
        cursor: &mut Cursor<'_>,
        outline: Outline,
    ) -> Result<Turn<Outline, Outline>, Stop>
        requires known { outline.brackets < 2 ^ 63 }
        requires ready { K.is_ready self.now.kinds.now }
        ensures { IsRead prefix_turn (HasFewerPrefix outline.brackets) state.old state.new cursor.new result (shape.prefix_step (K.asks self.now.kinds.now self.now.room) (outline_of outline) (meaning state.old) cursor.old) }
    {
        let kind = cursor.kind();
        if is_punct(punct::STAR, kind)
            || (is_punct(punct::AMPERSAND, kind)
                || (is_keyword(keyword::CONST, kind) || is_keyword(keyword::VOLATILE, kind)))
        {
            cursor.advance();
            return Ok(Turn::More(outline));
        }
        if is_punct(punct::LEFT_PARENTHESIS, kind) {
            if self.is_abstract_list(state, cursor)? {
                return Ok(Turn::Done(outline));
            }
            cursor.advance();
            return Ok(Turn::More(Outline {
                brackets: outline.brackets + 1,
                is_named: outline.is_named,
            }));
        }
        if cursor.is_plain_name() {
            cursor.advance();
            return Ok(Turn::Done(Outline {
                brackets: outline.brackets,
                is_named: true,
            }));
        }
        Ok(Turn::Done(outline))
    }

    /// Passes all that stands before the name of a declarator and the name, which is one identifier (8.2).
    #[tactic(auto, using(cxx_cursor::proofs::Loops::turn, cxx_cursor::proofs::Loops::no_turn, cxx_cursor::proofs::Kept::later_trans, cxx_cursor::proofs::Kept::later_refl), unfolding(cxx_reading::specs::Shapes::prefix_passed))]
    pub fn prefix_passed(&self, state: &mut State, cursor: &mut Cursor<'_>) -> Result<Outline, Stop>
        requires ready { K.is_ready self.now.kinds.now }
        ensures { IsRead (λ held. outline_of) AnyKnown state.old state.new cursor.new result (shape.prefix_passed (K.asks self.now.kinds.now self.now.room) (meaning state.old) cursor.old) }
    {
        let mut outline = Outline {
            brackets: 0,
            is_named: false,
        };
        for _turn in 0..cursor.count() {
            match self.prefix_step(state, cursor, outline)? {
                Turn::More(next) => outline = next,
                Turn::Done(all) => return Ok(all),
            }
        }
        Ok(outline)
    }

    // What stands in a bracket behind the name, or where it would stand, has to be parameters (8.2).
    #[tactic(auto, using(cxx_cursor::proofs::Kept::later_trans, cxx_cursor::proofs::Kept::later_refl), unfolding(cxx_reading::specs::Shapes::list_shape))]
    fn list_shape(
        &self,
        state: &mut State,
        cursor: &mut Cursor<'_>,
        outline: Outline,
    ) -> Result<Turn<Outline, Fits>, Stop>
        requires open { N.is_open self.now.nested.now }
        ensures { IsRead suffix_turn AnyKnown state.old state.new cursor.new result (shape.list_shape (N.inner self.now.nested.now) (outline_of outline) (meaning state.old) cursor.old) }
    {
        let mut ahead = cursor.mark();
        ahead.advance();
        if !self.nested.holds_parameters(state, &mut ahead)? {
            return Ok(Turn::Done(Fits::FitsNot));
        }
        brackets_passed(cursor)?;
        Ok(Turn::More(outline))
    }

    // Behind the name: parameters, bounds, words behind parameters, and ends of brackets.
    #[tactic(auto, using(cxx_cursor::proofs::Kept::later_trans, cxx_cursor::proofs::Kept::later_refl), unfolding(cxx_reading::specs::Shapes::suffix_step))]
    fn suffix_step(
        &self,
        state: &mut State,
        cursor: &mut Cursor<'_>,
        outline: Outline,
    ) -> Result<Turn<Outline, Fits>, Stop>
        requires open { N.is_open self.now.nested.now }
        ensures { IsRead suffix_turn AnyKnown state.old state.new cursor.new result (shape.suffix_step (N.inner self.now.nested.now) (outline_of outline) (meaning state.old) cursor.old) }
    {
        let kind = cursor.kind();
        if is_punct(punct::LEFT_PARENTHESIS, kind) {
            return self.list_shape(state, cursor, outline);
        }
        if is_punct(punct::LEFT_BRACKET, kind) {
            brackets_passed(cursor)?;
            return Ok(Turn::More(outline));
        }
        if is_keyword(keyword::CONST, kind)
            || (is_keyword(keyword::VOLATILE, kind) || is_keyword(keyword::THROW, kind))
        {
            cursor.advance();
            return Ok(Turn::More(outline));
        }
        if is_punct(punct::RIGHT_PARENTHESIS, kind) && !(outline.brackets == 0) {
            cursor.advance();
            return Ok(Turn::More(Outline {
                brackets: outline.brackets - 1,
                is_named: outline.is_named,
            }));
        }
        Ok(Turn::Done(is_closed(outline)))
    }

    /// Passes all that stands behind the name of a declarator (8.2).
    #[tactic(auto, using(cxx_cursor::proofs::Loops::turn, cxx_cursor::proofs::Loops::no_turn, cxx_cursor::proofs::Kept::later_trans, cxx_cursor::proofs::Kept::later_refl), unfolding(cxx_reading::specs::Shapes::suffixes_by))]
    pub fn suffixes_passed(
        &self,
        state: &mut State,
        cursor: &mut Cursor<'_>,
        outline: Outline,
    ) -> Result<Fits, Stop>
        requires open { N.is_open self.now.nested.now }
        ensures { IsRead (λ held. fits_of) AnyKnown state.old state.new cursor.new result (shape.suffixes_by (N.inner self.now.nested.now) (outline_of outline) (meaning state.old) cursor.old) }
    {
        let mut outline = outline;
        for _turn in 0..cursor.count() {
            match self.suffix_step(state, cursor, outline)? {
                Turn::More(next) => outline = next,
                Turn::Done(fits) => return Ok(fits),
            }
        }
        Ok(is_closed(outline))
    }

    // A declarator, with a name or without one (8, 8.1).
    #[tactic(auto, using(cxx_cursor::proofs::Kept::later_trans, cxx_cursor::proofs::Kept::later_refl), unfolding(cxx_reading::specs::Shapes::declarator_passed))]
    fn declarator_passed(&self, state: &mut State, cursor: &mut Cursor<'_>) -> Result<Fits, Stop>
        requires ready { K.is_ready self.now.kinds.now }
        requires open { N.is_open self.now.nested.now }
        ensures { IsRead (λ held. fits_of) AnyKnown state.old state.new cursor.new result (shape.declarator_passed (K.asks self.now.kinds.now self.now.room) (N.inner self.now.nested.now) (meaning state.old) cursor.old) }
    {
        let outline = self.prefix_passed(state, cursor)?;
        self.suffixes_passed(state, cursor, outline)
    }

    // What separates a parameter from the next.
    #[tactic(auto, using(cxx_cursor::proofs::Kept::later_trans, cxx_cursor::proofs::Kept::later_refl))]
    fn parameter_ended_shape(
        &self,
        state: &mut State,
        cursor: &mut Cursor<'_>,
        fits: Fits,
    ) -> Result<Turn<(), bool>, Stop>
        ensures { IsRead (λ held. turn_at (λ x. x) (λ x. x)) AnyKnown state.old state.new cursor.new result (shape.parameter_by (fits_of fits) (meaning state.old) cursor.old) }
    {
        match fits {
            Fits::Fits => {
                default_passed(cursor)?;
                separated(state, cursor)
            }
            Fits::FitsNot => Ok(Turn::Done(false)),
        }
    }

    // One parameter, and what separates it from the next.
    #[tactic(auto, using(cxx_cursor::proofs::Kept::later_trans, cxx_cursor::proofs::Kept::later_refl), unfolding(cxx_reading::specs::Shapes::piece_step))]
    fn piece_step(&self, state: &mut State, cursor: &mut Cursor<'_>) -> Result<Turn<(), bool>, Stop>
        requires ready { K.is_ready self.now.kinds.now }
        requires open { N.is_open self.now.nested.now }
        ensures { IsRead (λ held. turn_at (λ x. x) (λ x. x)) AnyKnown state.old state.new cursor.new result (shape.piece_step (K.asks self.now.kinds.now self.now.room) (N.inner self.now.nested.now) (tt {0}) (meaning state.old) cursor.old) }
    {
        if is_punct(punct::ELLIPSIS, cursor.kind()) {
            return Ok(Turn::Done(true));
        }
        match self.run_passed(state, cursor)? {
            Run::NoType => Ok(Turn::Done(false)),
            Run::AType => {
                let fits = self.declarator_passed(state, cursor)?;
                self.parameter_ended_shape(state, cursor, fits)
            }
            Run::Surely => Ok(Turn::Done(true)),
        }
    }

    // One parameter after another.
    #[tactic(auto, using(cxx_cursor::proofs::Loops::turn, cxx_cursor::proofs::Loops::no_turn, cxx_cursor::proofs::Kept::later_trans, cxx_cursor::proofs::Kept::later_refl))]
    fn pieces_passed(&self, state: &mut State, cursor: &mut Cursor<'_>) -> Result<bool, Stop>
        requires ready { K.is_ready self.now.kinds.now }
        requires open { N.is_open self.now.nested.now }
        ensures { IsRead itself AnyKnown state.old state.new cursor.new result (repeat (shape.piece_step (K.asks self.now.kinds.now self.now.room) (N.inner self.now.nested.now)) shape.give_false (count_ahead cursor.old) (tt {0}) (meaning state.old) cursor.old) }
    {
        for _turn in 0..cursor.count() {
            match self.piece_step(state, cursor)? {
                Turn::More(()) => {}
                Turn::Done(answer) => return Ok(answer),
            }
        }
        Ok(false)
    }

    /// Whether parameters stand behind a bracket: nothing, an ellipsis, or one parameter after another (8.2).
    #[tactic(auto, using(cxx_cursor::proofs::Kept::later_trans, cxx_cursor::proofs::Kept::later_refl), unfolding(cxx_reading::specs::Shapes::parameters_shape))]
    pub fn parameters_shape(&self, state: &mut State, cursor: &mut Cursor<'_>) -> Result<bool, Stop>
        requires ready { K.is_ready self.now.kinds.now }
        requires open { N.is_open self.now.nested.now }
        ensures { IsRead itself AnyKnown state.old state.new cursor.new result (shape.parameters_shape (K.asks self.now.kinds.now self.now.room) (N.inner self.now.nested.now) (meaning state.old) cursor.old) }
    {
        if is_punct(punct::RIGHT_PARENTHESIS, cursor.kind()) {
            return Ok(true);
        }
        self.pieces_passed(state, cursor)
    }
}
