//! On which sides of the pardos something stands.

ghost use Rattle.std.specs.Prelude.{◌≡◌, map, slice_index_or};
ghost use Rattle.sial_syntax.specs.Sides as spec;
ghost use Rattle.scalar_discipline.specs.Flat.{sides_of};

/// Outside all pardos, within one, both or none.
#[derive(Clone, Copy)]
pub struct Standing {
    pub outer: bool,
    pub inner: bool,
}

impl Standing {
    /// The sides of a statement of a body that has these: inner ones alone where it stands within a pardo.
    pub fn at(self, within: bool) -> Standing
        ensures { sides_of result ≡ spec.sides_at (sides_of self) within }
    {
        if within {
            Standing {
                outer: false,
                inner: self.outer || self.inner,
            }
        } else {
            self
        }
    }

    /// On either's sides.
    pub fn or(self, other: Standing) -> Standing
        ensures { sides_of result ≡ spec.either_side (sides_of self) (sides_of other) }
    {
        Standing {
            outer: self.outer || other.outer,
            inner: self.inner || other.inner,
        }
    }
}

/// The sides of a procedure among others.
pub fn sides_among(sides: &[Standing], place: usize) -> Standing
    ensures { sides_of result ≡ slice_index_or (map sides_of sides.now) place spec.no_side }
{
    match sides.get(place) {
        Some(own) => *own,
        None => Standing {
            outer: false,
            inner: false,
        },
    }
}
