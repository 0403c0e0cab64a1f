//! The axes of a contraction, by the names of indices.

ghost use Rattle.std.specs.Prelude.{◌≡◌, ◌^◌, ◌<◌, ◌≤◌, filter, length, map};
ghost use Rattle.sial_syntax.specs.Agreeing.{contains, same_flag};
ghost use Rattle.sial_syntax.specs.Boxes.{volume};
ghost use Rattle.sial_meaning.specs.ReadBackLaws.{under};
ghost use Rattle.sial_meaning.specs.Sight.{lengths};
ghost use Rattle.exec_sides.specs.Axes.{IsStrided, axes_in, axis_under};
ghost use Rattle.exec_sides.specs.Contracting.{stride_under};
ghost use Rattle.exec_sides.specs.Seen.{extents_of, lengths_of};

use crate::indices::{has, product_of};
use crate::seen::Shape;
use exec_names::Extent;
use kernel_contract::Axis;

/// The shapes of a contraction.
#[derive(Clone, Copy)]
pub struct Shapes<'a> {
    pub to: Shape<'a>,
    pub left: Shape<'a>,
    pub right: Shape<'a>,
}

/// Up to six axes.
#[derive(Clone, Copy)]
pub struct Axes {
    pub list: [Axis; 6],
    pub count: usize,
}

/// The axes of those indices of a block that another has, or of those that it doesn't have.
pub fn axes_of(shapes: &Shapes, own: &Shape, other: &[u16], shared: bool) -> Axes
    requires strided { IsStrided shapes.now }
    requires most { length own.now.at.now ≤ 6 }
    ensures most { result.count ≤ 6 }
    ensures axes { axes_in result ≡ map (axis_under shapes.now own.now)
        (filter (λ i. same_flag shared (contains other.now i)) own.now.at.now) }
{
    let none = Axis {
        len: 1,
        a: 0,
        b: 0,
        to: 0,
    };
    let mut axes = Axes {
        list: [none; 6],
        count: 0,
    };
    for index in own.at {
        if has(other, *index) == shared {
            axes.list[axes.count] = axis_of(shapes, own, *index);
            axes.count += 1;
        }
    }
    axes
}

// The axis of an index of a block.
fn axis_of(shapes: &Shapes, own: &Shape, index: u16) -> Axis
    requires strided { IsStrided shapes.now }
    ensures { result ≡ axis_under shapes.now own.now index }
{
    Axis {
        len: length_of(own.at, own.extents, index),
        a: stride_of(shapes.left.at, shapes.left.extents, index),
        b: stride_of(shapes.right.at, shapes.right.extents, index),
        to: stride_of(shapes.to.at, shapes.to.extents, index),
    }
}

// How many positions an index has, 0 where it isn't there.
fn length_of(at: &[u16], extents: &[Extent], index: u16) -> u32
    ensures { result ≡ under at.now (lengths (extents_of extents.now)) index }
{
    match at {
        [] => 0,
        [first, at @ ..] => match extents {
            [] => 0,
            [extent, ..] if *first == index => extent.len,
            [_, extents @ ..] => length_of(at, extents, index),
        },
    }
}

// How far apart two neighbours along an index lie, 0 where it isn't there.
fn stride_of(at: &[u16], extents: &[Extent], index: u16) -> u32
    requires some { 0 < volume (lengths (extents_of extents.now)) }
    requires few { volume (lengths (extents_of extents.now)) < 2 ^ 32 }
    ensures { result ≡ stride_under at.now (lengths (extents_of extents.now)) index }
{
    match at {
        [] => 0,
        [first, at @ ..] => match extents {
            [] => 0,
            [_, extents @ ..] if *first == index => product_of(extents),
            [_, extents @ ..] => stride_of(at, extents, index),
        },
    }
}
