ghost use Rattle.std.specs.Prelude.{◌≡◌, List};
ghost use Rattle.std.specs.Option.{option_copied};
ghost use Rattle.cxx_model.specs.Facts.Conflicts.{declares_name as declares_a_name};
ghost use Rattle.cxx_model.specs.Facts.Declarations.{declares_at};
ghost use Rattle.cxx_model.specs.Types.Trees.{CxxType};
ghost use Rattle.cxx_names.specs.Holders.{held_by, kind_in};
ghost use Rattle.cxx_names.specs.Index.{block_by, class_by, directive_by, enumeration_by, filed_by, friend_by, is_outermost_kind, noted_by, opening_by, unnamed_by, unnamed_space, value_by};
ghost use Rattle.cxx_names.specs.Words.{word_declared_by};

use cxx_model::{ClassId, Entity, EnumId, Fact, FactId, Name, ScopeId, ScopeKind};

/// A spelled name in a scope, by the number of its spelling among those that were met.
#[derive(Clone, Copy, PartialEq, Eq, Hash)]
pub(crate) struct Spelling {
    pub(crate) scope: ScopeId,
    pub(crate) number: usize,
}

/// A scope, and the one that holds it (3.3).
#[derive(Clone, Copy)]
pub(crate) struct Noted {
    pub(crate) kind: ScopeKind,
    pub(crate) parent: ScopeId,
}

/// What is kept of a declaration of a namespace, or of a using-directive.
#[derive(Clone, Copy)]
pub(crate) struct SpaceEntry {
    // 7.3.4: the namespace that a directive nominates, under the scope of the directive.
    pub(crate) directive: Option<(ScopeId, ScopeId)>,
    // 7.3.1: a declaration of a namespace, under the scope of the namespace.
    pub(crate) opening: Option<(ScopeId, FactId)>,
    // 7.3.1.1: the scope of an unnamed namespace, under the one that holds it.
    pub(crate) unnamed: Option<(ScopeId, ScopeId)>,
}

/// What is kept of one fact.
#[derive(Clone, Copy)]
pub(crate) struct Entry {
    pub(crate) name: Option<(Spelling, FactId)>,
    // The same, but where an earlier declaration stands for it.
    pub(crate) representative: Option<(Spelling, FactId)>,
    pub(crate) noted: Option<Noted>,
    // The outermost block of a function, under the scope that holds it.
    pub(crate) block: Option<(ScopeId, ScopeId)>,
    pub(crate) value: Option<(EnumId, i128)>,
    // 7.2: the scope of an enumeration.
    pub(crate) enumeration: Option<ScopeId>,
    // 9.1: the scope in which a class is declared, under the class.
    pub(crate) class: Option<(ClassId, ScopeId)>,
    // 9.2: the scope of a class, under the class.
    pub(crate) holder: Option<(ClassId, ScopeId)>,
    // 11.4: the declaration of what a class befriends, under the class.
    pub(crate) friend: Option<(ClassId, FactId)>,
    pub(crate) space: SpaceEntry,
}

/// Whether a fact declares a name.
pub fn declares_name(what: Entity) -> bool
    ensures { (types : List CxxType) → result ≡ declares_a_name (declares_at types what) }
{
    match what {
        Entity::Scope { .. } => false,
        Entity::Complete { .. } => false,
        Entity::Passed { .. } => false,
        Entity::Ancestor { .. } => false,
        Entity::Directive { .. } => false,
        Entity::Friend { .. } => false,
        _ => true,
    }
}

/// The spelled name that a fact declares, if it does.
pub(crate) fn declared_word(fact: &Fact) -> Option<&[u8]>
    ensures { option_copied result ≡ word_declared_by fact.now }
{
    match &fact.name {
        Name::Spelled(word) if declares_name(fact.what) => Some(word.as_slice()),
        _ => None,
    }
}

fn noted_in(holder: ScopeId, what: Entity) -> Option<Noted>
    ensures { result ≡ noted_by holder what }
{
    match what {
        Entity::Scope { kind, .. } => Some(Noted {
            kind,
            parent: holder,
        }),
        _ => None,
    }
}

fn value_in(what: Entity) -> Option<(EnumId, i128)>
    ensures { result ≡ value_by what }
{
    match what {
        Entity::Enumerator { number, value } => Some((number, value)),
        _ => None,
    }
}

/// Whether a scope is the outermost block of a function.
pub(crate) fn is_outermost(kind: ScopeKind) -> bool
    ensures { result ≡ is_outermost_kind kind }
{
    match kind {
        ScopeKind::Block(Some(_)) => true,
        _ => false,
    }
}

fn block_in(number: ScopeId, noted: Option<Noted>) -> Option<(ScopeId, ScopeId)>
    ensures { result ≡ block_by number.0 noted }
{
    match noted {
        Some(noted) if is_outermost(noted.kind) => Some((noted.parent, number)),
        _ => None,
    }
}

fn enumeration_in(scope: ScopeId, what: Entity) -> Option<ScopeId>
    ensures { result ≡ enumeration_by scope what }
{
    match what {
        Entity::Enumeration { .. } => Some(scope),
        _ => None,
    }
}

fn class_in(scope: ScopeId, what: Entity) -> Option<(ClassId, ScopeId)>
    ensures { result ≡ class_by scope what }
{
    match what {
        Entity::Class { class, .. } => Some((class, scope)),
        _ => None,
    }
}

fn friend_in(what: Entity) -> Option<(ClassId, FactId)>
    ensures { result ≡ friend_by what }
{
    match what {
        Entity::Friend { class, target } => Some((class, target)),
        _ => None,
    }
}

fn kind_of(what: Entity) -> Option<ScopeKind>
    ensures { result ≡ kind_in what }
{
    match what {
        Entity::Scope { kind, .. } => Some(kind),
        _ => None,
    }
}

// The scope with a number under its class, where it is that of one.
fn holder_in(number: ScopeId, kind: Option<ScopeKind>) -> Option<(ClassId, ScopeId)>
    ensures { result ≡ held_by number.0 kind }
{
    match kind {
        Some(ScopeKind::Class(class)) => Some((class, number)),
        _ => None,
    }
}

/// What is filed of a declaration with a number.
pub(crate) fn filed_name(name: Option<Spelling>, number: FactId) -> Option<(Spelling, FactId)>
    ensures { result ≡ filed_by number name }
{
    match name {
        Some(spelling) => Some((spelling, number)),
        None => None,
    }
}

fn directive_in(scope: ScopeId, what: Entity) -> Option<(ScopeId, ScopeId)>
    ensures { result ≡ directive_by scope what }
{
    match what {
        Entity::Directive { nominated } => Some((scope, nominated)),
        _ => None,
    }
}

fn opening_in(number: FactId, what: Entity) -> Option<(ScopeId, FactId)>
    ensures { result ≡ opening_by number what }
{
    match what {
        Entity::Namespace { inner } => Some((inner, number)),
        _ => None,
    }
}

fn unnamed_space_in(scope: ScopeId, what: Entity) -> Option<(ScopeId, ScopeId)>
    ensures { result ≡ unnamed_space scope what }
{
    match what {
        Entity::Namespace { inner } => Some((scope, inner)),
        _ => None,
    }
}

fn unnamed_in(scope: ScopeId, name: &Name, what: Entity) -> Option<(ScopeId, ScopeId)>
    ensures { result ≡ unnamed_by scope name.now what }
{
    match name {
        Name::Unnamed => unnamed_space_in(scope, what),
        _ => None,
    }
}

impl SpaceEntry {
    fn of(fact: &Fact, number: FactId) -> SpaceEntry
        ensures directive { result.directive ≡ directive_by fact.now.scope fact.now.what }
        ensures opening { result.opening ≡ opening_by number fact.now.what }
        ensures unnamed { result.unnamed ≡ unnamed_by fact.now.scope fact.now.name fact.now.what }
    {
        SpaceEntry {
            directive: directive_in(fact.scope, fact.what),
            opening: opening_in(number, fact.what),
            unnamed: unnamed_in(fact.scope, &fact.name, fact.what),
        }
    }
}

impl Entry {
    /// What is kept of a fact with a number, which declares a spelled name or none and stands for itself under a name or
    /// does not, where there are so many scopes.
    pub(crate) fn of(
        fact: &Fact,
        name: Option<Spelling>,
        representative: Option<(Spelling, FactId)>,
        number: FactId,
        scopes: u32,
    ) -> Entry
        ensures name { result.name ≡ filed_by number name }
        ensures representative { result.representative ≡ representative }
        ensures noted { result.noted ≡ noted_by fact.now.scope fact.now.what }
        ensures block { result.block ≡ block_by scopes (noted_by fact.now.scope fact.now.what) }
        ensures value { result.value ≡ value_by fact.now.what }
        ensures enumeration { result.enumeration ≡ enumeration_by fact.now.scope fact.now.what }
        ensures class { result.class ≡ class_by fact.now.scope fact.now.what }
        ensures holder { result.holder ≡ held_by scopes (kind_in fact.now.what) }
        ensures friend { result.friend ≡ friend_by fact.now.what }
        ensures directive { result.space.directive ≡ directive_by fact.now.scope fact.now.what }
        ensures opening { result.space.opening ≡ opening_by number fact.now.what }
        ensures unnamed { result.space.unnamed ≡ unnamed_by fact.now.scope fact.now.name fact.now.what }
    {
        let noted = noted_in(fact.scope, fact.what);
        Entry {
            name: filed_name(name, number),
            representative,
            noted,
            block: block_in(ScopeId(scopes), noted),
            value: value_in(fact.what),
            enumeration: enumeration_in(fact.scope, fact.what),
            class: class_in(fact.scope, fact.what),
            holder: holder_in(ScopeId(scopes), kind_of(fact.what)),
            friend: friend_in(fact.what),
            space: SpaceEntry::of(fact, number),
        }
    }
}
