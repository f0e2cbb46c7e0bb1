//! Short lists of trees.

ghost use Rattle.std.specs.Prelude.{◌≡◌, ◌++◌, [], ◌∷◌, IfOk};

use cxx_model::{Listed, TreeId, TreeIdList};
use std::alloc::{AllocError, Global};

pub(crate) fn one_tree(alloc: Global, one: TreeId) -> Result<TreeIdList, AllocError>
    ensures { IfOk result (λ all. all ≡ one ∷ []) }
{
    let mut all = Listed::new(alloc);
    all.push(one)?;
    Ok(all)
}

pub(crate) fn two_trees(alloc: Global, one: TreeId, two: TreeId) -> Result<TreeIdList, AllocError>
    ensures { IfOk result (λ all. all ≡ one ∷ two ∷ []) }
{
    let mut all = Listed::new(alloc);
    all.push(one)?;
    all.push(two)?;
    Ok(all)
}

pub(crate) fn three_trees(
    alloc: Global,
    one: TreeId,
    two: TreeId,
    three: TreeId,
) -> Result<TreeIdList, AllocError>
    ensures { IfOk result (λ all. all ≡ one ∷ two ∷ three ∷ []) }
{
    let mut all = Listed::new(alloc);
    all.push(one)?;
    all.push(two)?;
    all.push(three)?;
    Ok(all)
}

/// The trees with one more.
pub(crate) fn with_tree(all: TreeIdList, one: TreeId) -> Result<TreeIdList, AllocError>
    ensures { IfOk result (λ more. more ≡ all ++ one ∷ []) }
{
    let mut all = all;
    all.push(one)?;
    Ok(all)
}
