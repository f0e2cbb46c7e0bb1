ghost use Rattle.std.specs.Prelude.{◌<◌, length, IfOk};
ghost use Rattle.cxx_library_tests.specs.Free.{IsFree};

use crate::stopped::Stopped;
use cxx_hash::Key;
use cxx_model::{
    Base, Bound, ClassId, Cv, Listed, Signature, TypeId, TypeList, TypeNode, TypeTree,
};
use cxx_types::TypeTable;
use std::alloc::Global;
use std::test::Fail;

const CONST: Cv = Cv {
    is_const: true,
    is_volatile: false,
};

const VOLATILE: Cv = Cv {
    is_const: false,
    is_volatile: true,
};

const BOTH: Cv = Cv {
    is_const: true,
    is_volatile: true,
};

const NONE: Cv = Cv {
    is_const: false,
    is_volatile: false,
};

type Made = Result<TypeTree, Stopped>;

fn pointer(alloc: Global, of: TypeTree) -> Made
    requires { IsFree of }
    ensures { IfOk result IsFree }
{
    let of = Box::new(alloc, of)?;
    Ok(TypeTree::Pointer(of))
}

fn reference(alloc: Global, of: TypeTree) -> Made
    requires { IsFree of }
    ensures { IfOk result IsFree }
{
    let of = Box::new(alloc, of)?;
    Ok(TypeTree::Reference(of))
}

fn array(alloc: Global, element: TypeTree, count: u64) -> Made
    requires { IsFree element }
    ensures { IfOk result IsFree }
{
    let element = Box::new(alloc, element)?;
    Ok(TypeTree::Array(element, Bound::Number(count)))
}

fn with(alloc: Global, cv: Cv, of: TypeTree) -> Made
    requires { IsFree of }
    ensures { IfOk result IsFree }
{
    let of = Box::new(alloc, of)?;
    Ok(TypeTree::Qualified(cv, of))
}

// A function of one parameter.
fn function(alloc: Global, parameter: TypeTree) -> Made
    requires { IsFree parameter }
    ensures { IfOk result IsFree }
{
    let mut parameters: TypeList = Vec::new(alloc);
    parameters.push(parameter)?;
    let signature = Signature {
        result: TypeTree::Plain(Base::Void),
        parameters,
        ellipsis: false,
        cv: NONE,
    };
    let signature = Box::new(alloc, signature)?;
    Ok(TypeTree::Function(signature))
}

// A type made of another: a pointer or a reference to it, a function with it as its parameter, an array of three or four
// of it, or itself with the words `const`, `volatile`, both or none.
fn made_of(alloc: Global, letter: u8, of: TypeTree) -> Made
    requires { IsFree of }
    ensures { IfOk result IsFree }
{
    match letter {
        b'p' => pointer(alloc, of),
        b'r' => reference(alloc, of),
        b'f' => function(alloc, of),
        b'3' => array(alloc, of, 3),
        b'4' => array(alloc, of, 4),
        b'c' => with(alloc, CONST, of),
        b'v' => with(alloc, VOLATILE, of),
        b'b' => with(alloc, BOTH, of),
        _ => with(alloc, NONE, of),
    }
}

/// The type that some letters tell, the outermost first, over `int`.
fn made(alloc: Global, letters: &[u8]) -> Made
    ensures { IfOk result IsFree }
{
    let mut tree = TypeTree::Plain(Base::Int);
    for letter in letters.iter().rev() {
        tree = made_of(alloc, *letter, tree)?;
    }
    Ok(tree)
}

/// Two types, and whether the one is as the other.
type Row = (&'static [u8], &'static [u8], bool);

// 3.9.3: words of cv merge, and those of an array are those of its elements. 8.3.1, 8.3.2, 8.3.5: a pointer takes words,
// a reference and a function take none. 8.3.5: a parameter is adjusted.
static SAME: [Row; 16] = [
    (b"cv", b"b", true),
    (b"cc", b"c", true),
    (b"n", b"", true),
    (b"c", b"", false),
    (b"c", b"v", false),
    (b"c3", b"3c", true),
    (b"c34", b"34c", true),
    (b"v3c", b"3b", true),
    (b"cr", b"r", true),
    (b"cf", b"f", true),
    (b"cp", b"p", false),
    (b"cp", b"pc", false),
    (b"f3", b"fp", true),
    (b"fc", b"f", true),
    (b"ff", b"fpf", true),
    (b"fc3", b"fpc", true),
];

// 4.4: similar apart from cv.
static SIMILAR: [Row; 4] = [
    (b"pcpc", b"pp", true),
    (b"p3c", b"p3", true),
    (b"p4", b"p3", false),
    (b"rc", b"r", false),
];

// 3.9.3: the first type without its words is the second.
static STRIPPED: [Row; 3] = [
    (b"b", b"", true),
    (b"34c", b"34", true),
    (b"pc", b"p", false),
];

// Two types of one table.
#[derive(Drop)]
struct Two {
    table: TypeTable,
    one: TypeId,
    two: TypeId,
}

fn interned(alloc: Global, row: &Row) -> Result<Two, Stopped>
    ensures one { IfOk result (λ both. both.one.0 < length both.table) }
    ensures two { IfOk result (λ both. both.two.0 < length both.table) }
{
    let mut table = TypeTable::new(alloc, Key::of(&[]));
    let one = table.intern(&made(alloc, row.0)?)?;
    let two = table.intern(&made(alloc, row.1)?)?;
    Ok(Two { table, one, two })
}

fn is_same(alloc: Global, row: &Row) -> Result<bool, Stopped> {
    let both = interned(alloc, row)?;
    Ok(both.table.same(both.one, both.two))
}

fn is_similar(alloc: Global, row: &Row) -> Result<bool, Stopped> {
    let both = interned(alloc, row)?;
    Ok(both.table.similar(both.one, both.two))
}

fn is_stripped(alloc: Global, row: &Row) -> Result<bool, Stopped> {
    let mut both = interned(alloc, row)?;
    let bare = both.table.strip_cv(both.one)?;
    Ok(bare == both.two)
}

#[test]
fn same_types(rt: HostRuntime) -> Result<(), Fail> {
    for row in &SAME {
        assert!(rt; is_same(rt.alloc(), row)? == row.2);
    }
    Ok(())
}

#[test]
fn similar_types(rt: HostRuntime) -> Result<(), Fail> {
    for row in &SIMILAR {
        assert!(rt; is_similar(rt.alloc(), row)? == row.2);
    }
    Ok(())
}

#[test]
fn stripped_types(rt: HostRuntime) -> Result<(), Fail> {
    for row in &STRIPPED {
        assert!(rt; is_stripped(rt.alloc(), row)? == row.2);
    }
    Ok(())
}

#[test]
fn nodes_and_trees(rt: HostRuntime) -> Result<(), Fail> {
    assert!(rt; reads_rows(rt.alloc())?);
    Ok(())
}

fn reads_rows(alloc: Global) -> Result<bool, Stopped> {
    let mut table = TypeTable::new(alloc, Key::of(&[]));
    let number = table.intern(&made(alloc, b"3")?)?;
    let tree = table.tree_of(alloc, number)?;
    let node = table.node(number);
    Ok(
        matches!(node, TypeNode::Array(_, Bound::Number(3)))
            && matches!(tree, TypeTree::Array(_, Bound::Number(3))),
    )
}
