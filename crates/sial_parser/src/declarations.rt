//! Declarations.

ghost use Rattle.std.specs.Prelude.{◌≡◌, ◌+◌, ◌*◌, ◌<◌, length, IfOk, OnOk};
ghost use Rattle.sial_syntax.specs.Limits.{most_names};
ghost use Rattle.sial_parser.specs.Answers.{Gives};
ghost use Rattle.sial_parser.specs.Grammar as grammar;
ghost use Rattle.sial_parser.specs.Names.{seen, kept};
ghost use Rattle.sial_parser.specs.Parsing as spec;
ghost use Rattle.sial_parser.specs.Scope as scope;

use crate::fault::{Counted, ParseFault};
use crate::keyword::Keyword;
use crate::lists::dims;
use crate::reading::{comma, equals, index, line_end, line_of, name, of, unexpected};
use crate::scope::Names;
use crate::thing::Thing;
use crate::word::{Symbol, Word};
use sial_syntax::{ArrayDecl, ArrayKind, Bound, IndexDecl, Kind, Range, Text};
use std::alloc::{AllocError, Global};

const MOST_NAMES: usize = 256;

/// What is declared.
#[derive(Drop)]
pub struct Declared {
    pub names: Names,
    pub indices: Vec<IndexDecl>,
    pub arrays: Vec<ArrayDecl>,
    pub scalars: Vec<Text>,
}

impl Declared {
    /// Nothing.
    pub fn new(alloc: Global) -> Declared
        ensures { kept result ≡ scope.nothing }
    {
        Declared {
            names: Names::new(alloc),
            indices: Vec::new(alloc),
            arrays: Vec::new(alloc),
            scalars: Vec::new(alloc),
        }
    }

    /// With one more index.
    pub fn with_index(mut self, alloc: Global, index: IndexDecl) -> Result<Declared, AllocError>
        requires free { scope.IsFree (seen self.names) index.name }
        requires room { length self.indices.items < 256 }
        ensures { IfOk result (λ d. kept d ≡ scope.with_index (kept self) index) }
    {
        let thing = Thing::Index(self.indices.len() as u16);
        self.names.declare(alloc, index.name.as_slice(), thing)?;
        self.indices.push(index)?;
        Ok(self)
    }

    /// With one more array.
    pub fn with_array(mut self, alloc: Global, array: ArrayDecl) -> Result<Declared, AllocError>
        requires free { scope.IsFree (seen self.names) array.name }
        requires room { length self.arrays.items < 256 }
        ensures { IfOk result (λ d. kept d ≡ scope.with_array (kept self) array) }
    {
        let thing = Thing::Array(self.arrays.len() as u16);
        self.names.declare(alloc, array.name.as_slice(), thing)?;
        self.arrays.push(array)?;
        Ok(self)
    }

    /// With one more scalar.
    pub fn with_scalar(mut self, alloc: Global, name: Text) -> Result<Declared, AllocError>
        requires free { scope.IsFree (seen self.names) name }
        requires room { length self.scalars.items < 256 }
        ensures { IfOk result (λ d. kept d ≡ scope.with_scalar (kept self) name) }
    {
        let thing = Thing::Scalar(self.scalars.len() as u16);
        self.names.declare(alloc, name.as_slice(), thing)?;
        self.scalars.push(name)?;
        Ok(self)
    }
}

/// The declarations.
pub fn declarations(alloc: Global, words: &[Word]) -> Result<(Declared, &[Word]), ParseFault>
    ensures { Gives (λ x. (kept x.0, x.1.now)) result (spec.declarations (3 * most_names + 1) scope.nothing words.now) }
{
    let mut declared = Declared::new(alloc);
    let mut rest = words;
    for turn in 0..3 * MOST_NAMES + 1 {
        let (next, more, behind) = declared_one(alloc, declared, rest)?;
        declared = next;
        rest = behind;
        if !more {
            return Ok((declared, rest));
        }
    }
    Err(unexpected(rest))
}

// A declaration, if one stands there.
#[tactic(auto, unfolding(crate::specs::Parsing::declared_one))]
fn declared_one<'a>(
    alloc: Global,
    declared: Declared,
    words: &'a [Word],
) -> Result<(Declared, bool, &'a [Word]), ParseFault>
    ensures { Gives (λ x. ((kept x.0, x.1), x.2.now)) result (spec.declared_one (kept declared) words.now) }
{
    let [word, ..] = words else {
        return Err(unexpected(words));
    };
    if !begins_declaration(&word.symbol) {
        return Ok((declared, false, words));
    }
    let (declared, rest) = declaration(alloc, declared, words)?;
    Ok((declared, true, rest))
}

// Whether a symbol begins a declaration.
fn begins_declaration(symbol: &Symbol) -> bool
    ensures { result ≡ grammar.begins_declaration symbol.now }
{
    matches!(
        symbol,
        Symbol::Key(
            Keyword::AoIndex
                | Keyword::MoIndex
                | Keyword::MoaIndex
                | Keyword::MobIndex
                | Keyword::Index
                | Keyword::SubIndex
                | Keyword::Scalar
                | Keyword::Static
                | Keyword::Temp
                | Keyword::Local
                | Keyword::Distributed
                | Keyword::Served
        )
    )
}

// A declaration.
#[tactic(auto, unfolding(crate::specs::Parsing::declaration))]
fn declaration<'a>(
    alloc: Global,
    declared: Declared,
    words: &'a [Word],
) -> Result<(Declared, &'a [Word]), ParseFault>
    ensures { Gives (λ x. (kept x.0, x.1.now)) result (spec.declaration (kept declared) words.now) }
{
    let [word, rest @ ..] = words else {
        return Err(unexpected(words));
    };
    let line = word.line;
    match &word.symbol {
        Symbol::Key(Keyword::AoIndex) => segments(alloc, declared, Kind::Ao, line, rest),
        Symbol::Key(Keyword::MoIndex) => segments(alloc, declared, Kind::Mo, line, rest),
        Symbol::Key(Keyword::MoaIndex) => segments(alloc, declared, Kind::Moa, line, rest),
        Symbol::Key(Keyword::MobIndex) => segments(alloc, declared, Kind::Mob, line, rest),
        Symbol::Key(Keyword::Index) => segments(alloc, declared, Kind::Index, line, rest),
        Symbol::Key(Keyword::SubIndex) => subindex(alloc, declared, line, rest),
        Symbol::Key(Keyword::Scalar) => scalar(alloc, declared, rest),
        Symbol::Key(Keyword::Static) => array(alloc, declared, ArrayKind::Static, line, rest),
        Symbol::Key(Keyword::Temp) => array(alloc, declared, ArrayKind::Temp, line, rest),
        Symbol::Key(Keyword::Local) => array(alloc, declared, ArrayKind::Local, line, rest),
        Symbol::Key(Keyword::Distributed) => array(
            alloc,
            declared,
            ArrayKind::Distributed,
            line,
            rest,
        ),
        Symbol::Key(Keyword::Served) => array(alloc, declared, ArrayKind::Served, line, rest),
        _ => Err(unexpected(words)),
    }
}

// `name = bound, bound`
#[tactic(auto, unfolding(crate::specs::Parsing::segments_at))]
fn segments<'a>(
    alloc: Global,
    declared: Declared,
    kind: Kind,
    line: u32,
    words: &'a [Word],
) -> Result<(Declared, &'a [Word]), ParseFault>
    ensures { Gives (λ x. (kept x.0, x.1.now)) result (spec.segments_at (kept declared) kind line words.now) }
{
    let (name, rest) = new_name(
        &declared.names,
        declared.indices.len(),
        Counted::Indices,
        words,
    )?;
    let rest = equals(rest)?;
    let (lo, rest) = bound(alloc, rest)?;
    let rest = comma(rest)?;
    let (hi, rest) = bound(alloc, rest)?;
    let rest = line_end(rest)?;
    let name = Text::from_slice(alloc, name.as_slice())?;
    let range = Range::Segments { kind, lo, hi };
    let declared = declared.with_index(alloc, IndexDecl { name, line, range })?;
    Ok((declared, rest))
}

// `name of name`
#[tactic(auto, unfolding(crate::specs::Parsing::subindex_at))]
fn subindex<'a>(
    alloc: Global,
    declared: Declared,
    line: u32,
    words: &'a [Word],
) -> Result<(Declared, &'a [Word]), ParseFault>
    ensures { Gives (λ x. (kept x.0, x.1.now)) result (spec.subindex_at (kept declared) line words.now) }
{
    let (name, rest) = new_name(
        &declared.names,
        declared.indices.len(),
        Counted::Indices,
        words,
    )?;
    let rest = of(rest)?;
    let (super_index, rest) = index(&declared.names, rest)?;
    let rest = line_end(rest)?;
    let name = Text::from_slice(alloc, name.as_slice())?;
    let range = Range::Sub { super_index };
    let declared = declared.with_index(alloc, IndexDecl { name, line, range })?;
    Ok((declared, rest))
}

// `name`
#[tactic(auto, unfolding(crate::specs::Parsing::scalar_decl_at))]
fn scalar<'a>(
    alloc: Global,
    declared: Declared,
    words: &'a [Word],
) -> Result<(Declared, &'a [Word]), ParseFault>
    ensures { Gives (λ x. (kept x.0, x.1.now)) result (spec.scalar_decl_at (kept declared) words.now) }
{
    let (name, rest) = new_name(
        &declared.names,
        declared.scalars.len(),
        Counted::Scalars,
        words,
    )?;
    let rest = line_end(rest)?;
    let name = Text::from_slice(alloc, name.as_slice())?;
    let declared = declared.with_scalar(alloc, name)?;
    Ok((declared, rest))
}

// `name(names)`
#[tactic(auto, unfolding(crate::specs::Parsing::array_decl_at))]
fn array<'a>(
    alloc: Global,
    declared: Declared,
    kind: ArrayKind,
    line: u32,
    words: &'a [Word],
) -> Result<(Declared, &'a [Word]), ParseFault>
    ensures { Gives (λ x. (kept x.0, x.1.now)) result (spec.array_decl_at (kept declared) kind line words.now) }
{
    let (name, rest) = new_name(
        &declared.names,
        declared.arrays.len(),
        Counted::Arrays,
        words,
    )?;
    let (dims, rest) = dims(alloc, &declared.names, rest)?;
    let rest = line_end(rest)?;
    let array = ArrayDecl {
        name: Text::from_slice(alloc, name.as_slice())?,
        line,
        kind,
        dims,
    };
    let declared = declared.with_array(alloc, array)?;
    Ok((declared, rest))
}

/// A new name, of which there are so many.
#[tactic(auto, unfolding(crate::specs::Parsing::new_name))]
pub fn new_name<'a>(
    names: &Names,
    count: usize,
    which: Counted,
    words: &'a [Word],
) -> Result<(&'a Text, &'a [Word]), ParseFault>
    ensures value { Gives (λ x. (x.0.now, x.1.now)) result (spec.new_name (seen names.now) count which words.now) }
    ensures free { IfOk result (λ x. scope.IsFree (seen names.now) x.0.now) }
    ensures room { OnOk result (count < 256) }
{
    let (name, rest) = name(words)?;
    let line = line_of(words);
    if names.thing(name.as_slice()).is_some() {
        return Err(ParseFault::Twice { line });
    }
    if count >= MOST_NAMES {
        return Err(ParseFault::TooMany { line, which });
    }
    Ok((name, rest))
}

// A bound.
#[tactic(auto, unfolding(crate::specs::Parsing::bound_at))]
fn bound(alloc: Global, words: &[Word]) -> Result<(Bound, &[Word]), ParseFault>
    ensures { Gives (λ x. (x.0, x.1.now)) result (spec.bound_at words.now) }
{
    let [word, rest @ ..] = words else {
        return Err(unexpected(words));
    };
    match &word.symbol {
        Symbol::Number(number) => Ok((Bound::Number(*number), rest)),
        Symbol::Name(name) => {
            let name = Text::from_slice(alloc, name.as_slice())?;
            Ok((Bound::Named(name), rest))
        }
        _ => Err(unexpected(words)),
    }
}
