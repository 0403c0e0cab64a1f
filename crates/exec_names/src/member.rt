//! Members of a temp's tuple.

ghost use Rattle.std.specs.Prelude.{◌≡◌, length, map};
ghost use Rattle.sial_syntax.specs.Spaces as sp;
ghost use Rattle.sial_meaning.specs.Own as own;
ghost use Rattle.sial_meaning.specs.Own.{Own};
ghost use Rattle.exec_names.specs.Cutting.{IsCutAs};
ghost use Rattle.exec_names.specs.Naming.{pair_of, tuple_of};

use crate::naming::value_of;
use crate::supers::super_of;
use sial_syntax::IndexDecl;

/// The segment that an index names, and for a subindex the piece of it; else the piece is 0.
#[derive(Clone, Copy)]
pub struct Member {
    pub segment: u32,
    pub piece: u32,
}

/// The member that an index names now.
pub fn member_of(indices: &[IndexDecl], values: &[u32], index: u16) -> Member
    ensures { (spaces : sp.Spaces) (o : Own) → IsCutAs spaces indices.now → o.values ≡ values.now → pair_of result ≡ own.member_of o index (sp.span_of spaces index) }
{
    let number = value_of(values, index);
    match super_of(indices, index) {
        None => Member {
            segment: number,
            piece: 0,
        },
        Some(super_index) => Member {
            segment: value_of(values, super_index),
            piece: number,
        },
    }
}

/// Writes the members that indices name now.
pub fn members_of(indices: &[IndexDecl], values: &[u32], at: &[u16], into: &mut [Member])
    requires { length into.old ≡ length at.now }
    ensures { (spaces : sp.Spaces) (o : Own) → IsCutAs spaces indices.now → o.values ≡ values.now → map pair_of into.new ≡ tuple_of spaces o at.now }
{
    for k in 0..at.len() {
        into[k] = member_of(indices, values, at[k]);
    }
}

/// Whether indices name these members now.
pub fn are_members(indices: &[IndexDecl], values: &[u32], members: &[Member], at: &[u16]) -> bool
    ensures { (spaces : sp.Spaces) (o : Own) → IsCutAs spaces indices.now → o.values ≡ values.now → result ≡ own.same_members (map pair_of members.now) (tuple_of spaces o at.now) }
{
    match members {
        [] => at.is_empty(),
        [member, members @ ..] => match at {
            [] => false,
            [index, at @ ..] => {
                let named = member_of(indices, values, *index);
                member.segment == named.segment
                    && member.piece == named.piece
                    && are_members(indices, values, members, at)
            }
        },
    }
}
