//! The layouts of classes, by number.
ghost use Rattle.std.specs.Prelude.{◌≡◌, ◌<◌, ℕ, length, nat_eq, if◌then◌else◌, OnErr, OnOk};
ghost use Rattle.cxx_meaning.specs.Conversions.Sizes.{no_layout as no_layout_of};
ghost use Rattle.cxx_sizes.specs.Noted.{layout_in as layout_at, AreSameLayouts};

use cxx_meaning::Layout;
use cxx_model::{ClassId, OutOfMemory};

fn no_layout() -> Layout
    ensures { result ≡ no_layout_of }
{
    Layout {
        plain: 0,
        shifted: 8,
        alignment: 1,
        is_union: false,
        is_virtual: false,
        has_polymorphic_base: false,
        fault: None,
        is_complete: false,
    }
}

/// The layout of a class; one of which no fact speaks has no place yet.
pub(crate) fn layout_in(layouts: &Vec<Layout>, class: ClassId) -> Layout
    ensures { result ≡ layout_at layouts.now.items class.0 }
{
    match layouts.get(class.0 as usize) {
        Some(layout) => *layout,
        None => no_layout(),
    }
}

fn make_place(layouts: &mut Vec<Layout>, class: ClassId) -> Result<(), OutOfMemory>
    ensures same { AreSameLayouts layouts.old.items layouts.new.items }
    ensures there { OnOk result (class.0 < length layouts.new.items) }
{
    while layouts.len() <= class.0 as usize {
        layouts.push(no_layout())?;
    }
    Ok(())
}

/// Puts another layout of a class. An `Err` changes none.
pub(crate) fn put(
    layouts: &mut Vec<Layout>,
    class: ClassId,
    layout: Layout,
) -> Result<(), OutOfMemory>
    ensures put { OnOk result ((n : ℕ) → layout_at layouts.new.items n ≡ (if nat_eq class.0 n then layout else layout_at layouts.old.items n)) }
    ensures same { OnErr result (AreSameLayouts layouts.old.items layouts.new.items) }
{
    make_place(layouts, class)?;
    layouts[class.0 as usize] = layout;
    Ok(())
}
