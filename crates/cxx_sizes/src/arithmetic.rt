//! Extents and layouts, as numbers.
ghost use Rattle.std.specs.Prelude.{◌≡◌, ◌<◌, ◌*◌, ◌^◌, max};
ghost use Rattle.cxx_meaning.specs.Conversions.Sizes as sizes;
ghost use Rattle.cxx_model.specs.Types.Bases.{base_row};

use cxx_meaning::{Extent, Layout, SizeReason};
use cxx_model::Base;

const MOST_SIZE: u128 = 9_223_372_036_854_775_807;

pub(crate) fn limited(size: u128, alignment: u64) -> Result<Extent, SizeReason>
    ensures { result ≡ sizes.limited size alignment }
{
    if size <= MOST_SIZE {
        Ok(Extent {
            size: size as u64,
            alignment,
        })
    } else {
        Err(SizeReason::TooLarge)
    }
}

pub(crate) fn plain_extent(size: u64) -> Extent
    ensures { result ≡ sizes.plain_extent size }
{
    Extent {
        size,
        alignment: size,
    }
}

pub(crate) fn multiplied(count: u64, of: Extent) -> Result<Extent, SizeReason>
    ensures { result ≡ sizes.limited (count * of.size) of.alignment }
{
    limited(count as u128 * of.size as u128, of.alignment)
}

pub(crate) fn size_of_base(of: Base) -> u64
    ensures { result ≡ (base_row of).size }
{
    match of {
        Base::Void => 0,
        Base::Bool | Base::Char | Base::SignedChar | Base::UnsignedChar => 1,
        Base::Short | Base::UnsignedShort => 2,
        Base::Int | Base::Unsigned | Base::WideChar | Base::Float => 4,
        Base::Long | Base::UnsignedLong | Base::Double => 8,
        Base::LongDouble => 16,
    }
}

#[tactic(auto, using(crate::proofs::Rounding::rounded_within))]
fn rounded(size: u64, alignment: u64) -> u128
    ensures is { result ≡ sizes.rounded size alignment }
    ensures small { result < 2 ^ 66 }
{
    if alignment == 0 {
        return 0;
    }
    let end = size as u128 + alignment as u128 - 1;
    let count = end / alignment as u128;
    count * alignment as u128
}

fn capped(size: u128) -> u64
    ensures { result ≡ sizes.capped size }
{
    if size <= MOST_SIZE {
        size as u64
    } else {
        9_223_372_036_854_775_808
    }
}

fn greater(one: u64, two: u64) -> u64
    ensures { result ≡ max one two }
{
    if one <= two { two } else { one }
}

fn placed(is_union: bool, so_far: u64, extent: Extent) -> u64
    ensures { result ≡ sizes.placed is_union so_far extent }
{
    if is_union {
        capped(greater(so_far, extent.size) as u128)
    } else {
        capped(rounded(so_far, extent.alignment) + extent.size as u128)
    }
}

fn fault_of(first: Option<SizeReason>, later: SizeReason) -> Option<SizeReason>
    ensures { result ≡ sizes.fault_of first later }
{
    match first {
        None => Some(later),
        Some(first) => Some(first),
    }
}

pub(crate) fn with_part(part: Result<Extent, SizeReason>, layout: Layout) -> Layout
    ensures { result ≡ sizes.with_part part layout }
{
    match part {
        Ok(extent) => Layout {
            plain: placed(layout.is_union, layout.plain, extent),
            shifted: placed(layout.is_union, layout.shifted, extent),
            alignment: greater(layout.alignment, extent.alignment),
            ..layout
        },
        Err(fault) => Layout {
            fault: fault_of(layout.fault, fault),
            ..layout
        },
    }
}

fn is_polymorphic(layout: Layout) -> bool
    ensures { result ≡ sizes.is_polymorphic layout }
{
    layout.is_virtual || layout.has_polymorphic_base
}

fn bytes_of(layout: Layout) -> u64
    ensures { result ≡ sizes.bytes_of layout }
{
    if layout.is_virtual && !layout.has_polymorphic_base {
        layout.shifted
    } else {
        layout.plain
    }
}

fn alignment_of(layout: Layout) -> u64
    ensures { result ≡ sizes.alignment_of layout }
{
    if is_polymorphic(layout) {
        greater(layout.alignment, 8)
    } else {
        layout.alignment
    }
}

fn ended_extent(layout: Layout) -> Result<Extent, SizeReason>
    ensures { result ≡ sizes.ended_extent layout }
{
    match layout.fault {
        Some(fault) => Err(fault),
        None => {
            let alignment = alignment_of(layout);
            limited(rounded(greater(bytes_of(layout), 1), alignment), alignment)
        }
    }
}

/// What objects of a class take, once its end was read.
#[tactic(auto, unfolding(cxx_meaning::specs::Conversions::Sizes::class_extent))]
pub(crate) fn class_extent(layout: Layout) -> Result<Extent, SizeReason>
    ensures { result ≡ sizes.class_extent layout }
{
    if layout.is_complete {
        ended_extent(layout)
    } else {
        Err(SizeReason::NoSize)
    }
}

pub(crate) fn with_base(base: Layout, layout: Layout) -> Layout
    ensures { result ≡ sizes.with_base base layout }
{
    Layout {
        has_polymorphic_base: layout.has_polymorphic_base || is_polymorphic(base),
        ..with_part(class_extent(base), layout)
    }
}
