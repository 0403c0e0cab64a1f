//! Whole programs.

use crate::array::ArrayDecl;
use crate::index::IndexDecl;
use crate::statement::Stmt;
use crate::text::Text;

/// A procedure: no arguments, and no index bound where it begins.
#[derive(PartialEq, Drop)]
pub struct Proc {
    pub name: Text,
    pub body: Vec<Stmt>,
}

/// A program; indices, arrays, scalars and procedures are numbered from 0 in order of declaration.
#[derive(PartialEq, Drop)]
pub struct Program {
    pub name: Text,
    pub indices: Vec<IndexDecl>,
    pub arrays: Vec<ArrayDecl>,
    pub scalars: Vec<Text>,
    pub procs: Vec<Proc>,
    pub body: Vec<Stmt>,
}
