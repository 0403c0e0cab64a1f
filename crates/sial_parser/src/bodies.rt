//! Statements with bodies, and bodies.

ghost use Rattle.std.specs.Prelude.{◌≡◌, ◌+◌, ◌≤◌, ◌<◌, ◌^◌, map, option_map, IfOk, Ok};
ghost use Rattle.sial_syntax.specs.Tree.{If, IfElse, block, plain_form, plain_stmt};
ghost use Rattle.sial_parser.specs.Answers.{Gives};
ghost use Rattle.sial_parser.specs.Grammar as grammar;
ghost use Rattle.sial_parser.specs.Inners.{inner};
ghost use Rattle.sial_parser.specs.Names.{seen};
ghost use Rattle.sial_parser.specs.Parsing as spec;

use crate::ends::{listed_end, named_end, wheres};
use crate::fault::{Counted, ParseFault};
use crate::keyword::Keyword;
use crate::lists::{Closing, indices};
use crate::operands::{condition, goes_on_with_open, known, target_ends};
use crate::reading::{array_by, index, index_by, line_end, line_of, name, scalar_by, unexpected};
use crate::scope::Names;
use crate::simple::{assign_at, begins_simple, simple_by};
use crate::word::{Symbol, Word};
use sial_syntax::{Cond, Form, Stmt, Text};
use std::alloc::Global;

const MOST_PARDO: usize = 12;

/// Whether a symbol ends a body.
pub fn ends_body(symbol: &Symbol) -> bool
    ensures { result ≡ grammar.ends_body symbol.now }
{
    matches!(
        symbol,
        Symbol::Key(
            Keyword::EndSial
                | Keyword::EndProc
                | Keyword::EndDo
                | Keyword::EndPardo
                | Keyword::EndIf
                | Keyword::Else
        )
    )
}

// Whether a symbol begins a statement with a body.
fn begins_compound(symbol: &Symbol) -> bool
    ensures { result ≡ spec.begins_compound symbol.now }
{
    matches!(
        symbol,
        Symbol::Key(Keyword::Do | Keyword::Pardo | Keyword::If)
    )
}

// How many statements are left behind one more.
fn counted(left: u32, line: u32) -> Result<u32, ParseFault>
    ensures { Gives (λ n. n) result (spec.counted left line (λ n. Ok n)) }
{
    if left == 0 {
        return Err(ParseFault::TooMany {
            line,
            which: Counted::Statements,
        });
    }
    Ok(left - 1)
}

// What a name that begins a statement has to be.
fn target_first(names: &Names, name: &Text, line: u32, rest: &[Word]) -> Result<u16, ParseFault>
    ensures { Gives (λ n. n) result (spec.first_by (seen names.now) name.now line rest.now) }
{
    let thing = names.thing(name.as_slice());
    if goes_on_with_open(rest) {
        array_by(line, thing)
    } else if target_ends(rest) {
        scalar_by(line, thing)
    } else {
        known(line, thing)
    }
}

/// Statements up to an end word, where so many may nest and so many are left; and how many are left then.
#[cycle(bodies)]
#[tactic(auto, using(crate::proofs::LoopLemmas::body_is))]
pub fn body<'a>(
    alloc: Global,
    strict: bool,
    names: &Names,
    depth: u32,
    most: u32,
    words: &'a [Word],
) -> Result<(Vec<Stmt>, u32, &'a [Word]), ParseFault>
    requires { most < 2 ^ 16 }
    ensures value { Gives (λ x. ((map plain_stmt x.0.items, x.1), x.2.now)) result (spec.body depth strict (seen names.now) most words.now) }
    ensures fewer { IfOk result (λ x. x.1 ≤ most) }
{
    let mut stmts = Vec::new(alloc);
    let mut left = most;
    let mut rest = words;
    for turn in 0..most + 1 {
        let (next, after, behind) = turn_of(alloc, strict, names, depth, left, rest)?;
        rest = behind;
        match next {
            Some(stmt) => stmts.push(stmt)?,
            None => return Ok((stmts, left, rest)),
        }
        left = after;
    }
    Err(unexpected(rest))
}

// A statement with its line, and how many are left behind it, if no end word stands there.
#[cycle(bodies)]
#[tactic(auto, unfolding(crate::specs::Parsing::turn_of))]
fn turn_of<'a>(
    alloc: Global,
    strict: bool,
    names: &Names,
    depth: u32,
    left: u32,
    words: &'a [Word],
) -> Result<(Option<Stmt>, u32, &'a [Word]), ParseFault>
    requires { left < 2 ^ 16 }
    ensures value { Gives (λ x. (option_map (λ s. (plain_stmt s, x.1)) x.0, x.2.now)) result (spec.turn_of (spec.statement strict (seen names.now) (inner depth strict (seen names.now))) left words.now) }
    ensures fewer { IfOk result (λ x. x.1 ≤ left) }
{
    let [word, ..] = words else {
        return Err(unexpected(words));
    };
    if ends_body(&word.symbol) {
        return Ok((None, left, words));
    }
    let line = word.line;
    let (form, after, rest) = statement(alloc, strict, names, depth, left, words)?;
    Ok((Some(Stmt { line, form }), after, rest))
}

// A statement, and how many are left behind it.
#[cycle(bodies)]
#[tactic(auto, unfolding(crate::specs::Parsing::statement))]
fn statement<'a>(
    alloc: Global,
    strict: bool,
    names: &Names,
    depth: u32,
    left: u32,
    words: &'a [Word],
) -> Result<(Form, u32, &'a [Word]), ParseFault>
    requires { left < 2 ^ 16 }
    ensures value { Gives (λ x. ((plain_form x.0, x.1), x.2.now)) result (spec.statement strict (seen names.now) (inner depth strict (seen names.now)) left words.now) }
    ensures fewer { IfOk result (λ x. x.1 ≤ left) }
{
    let [word, rest @ ..] = words else {
        return Err(unexpected(words));
    };
    let Symbol::Name(name) = &word.symbol else {
        return other_statement(alloc, strict, names, depth, left, word, rest);
    };
    target_first(names, name, word.line, rest)?;
    let after = counted(left, word.line)?;
    let (form, rest) = assign_at(alloc, names, words)?;
    Ok((form, after, rest))
}

// A statement that is no assignment.
#[cycle(bodies)]
fn other_statement<'a>(
    alloc: Global,
    strict: bool,
    names: &Names,
    depth: u32,
    left: u32,
    word: &'a Word,
    rest: &'a [Word],
) -> Result<(Form, u32, &'a [Word]), ParseFault>
    requires { left < 2 ^ 16 }
    ensures value { Gives (λ x. ((plain_form x.0, x.1), x.2.now)) result (spec.other_statement strict (seen names.now) (inner depth strict (seen names.now)) left word.now.symbol word.now rest.now) }
    ensures fewer { IfOk result (λ x. x.1 ≤ left) }
{
    if begins_compound(&word.symbol) {
        let after = counted(left, word.line)?;
        if depth == 0 {
            return Err(ParseFault::TooDeep { line: word.line });
        }
        return compound(alloc, strict, names, depth - 1, after, &word.symbol, rest);
    }
    if !begins_simple(&word.symbol) {
        return Err(ParseFault::Expected { line: word.line });
    }
    let after = counted(left, word.line)?;
    let (form, rest) = simple_by(alloc, strict, names, &word.symbol, rest)?;
    Ok((form, after, rest))
}

// A statement with bodies.
#[cycle(bodies)]
fn compound<'a>(
    alloc: Global,
    strict: bool,
    names: &Names,
    depth: u32,
    left: u32,
    symbol: &Symbol,
    words: &'a [Word],
) -> Result<(Form, u32, &'a [Word]), ParseFault>
    requires { left < 2 ^ 16 }
    ensures value { Gives (λ x. ((plain_form x.0, x.1), x.2.now)) result (spec.compound_by (seen names.now) (spec.body depth strict (seen names.now)) left symbol.now words.now) }
    ensures fewer { IfOk result (λ x. x.1 ≤ left) }
{
    match symbol {
        Symbol::Key(Keyword::Do) => do_at(alloc, strict, names, depth, left, words),
        Symbol::Key(Keyword::Pardo) => pardo_at(alloc, strict, names, depth, left, words),
        Symbol::Key(Keyword::If) => if_at(alloc, strict, names, depth, left, words),
        _ => Err(unexpected(words)),
    }
}

// Behind `do`.
#[cycle(bodies)]
#[tactic(auto, unfolding(crate::specs::Parsing::do_at))]
fn do_at<'a>(
    alloc: Global,
    strict: bool,
    names: &Names,
    depth: u32,
    left: u32,
    words: &'a [Word],
) -> Result<(Form, u32, &'a [Word]), ParseFault>
    requires { left < 2 ^ 16 }
    ensures value { Gives (λ x. ((plain_form x.0, x.1), x.2.now)) result (spec.do_at (seen names.now) (spec.body depth strict (seen names.now)) left words.now) }
    ensures fewer { IfOk result (λ x. x.1 ≤ left) }
{
    let (opener, rest) = name(words)?;
    let number = index_by(line_of(words), names.thing(opener.as_slice()))?;
    if let [word, within @ ..] = rest
        && matches!(word.symbol, Symbol::Key(Keyword::In))
    {
        let (super_index, rest) = index(names, within)?;
        let rest = line_end(rest)?;
        let (body, after, rest) = loop_body(alloc, strict, names, depth, left, opener, rest)?;
        let form = Form::DoIn {
            sub: number,
            index: super_index,
            body,
        };
        return Ok((form, after, rest));
    }
    let rest = line_end(rest)?;
    let (body, after, rest) = loop_body(alloc, strict, names, depth, left, opener, rest)?;
    Ok((
        Form::Do {
            index: number,
            body,
        },
        after,
        rest,
    ))
}

// The body of a loop and its end.
#[cycle(bodies)]
#[tactic(auto, unfolding(crate::specs::Parsing::loop_body))]
fn loop_body<'a>(
    alloc: Global,
    strict: bool,
    names: &Names,
    depth: u32,
    left: u32,
    opener: &Text,
    words: &'a [Word],
) -> Result<(Vec<Stmt>, u32, &'a [Word]), ParseFault>
    requires { left < 2 ^ 16 }
    ensures value { Gives (λ x. ((map plain_stmt x.0.items, x.1), x.2.now)) result (spec.loop_body (spec.body depth strict (seen names.now)) left opener.now words.now) }
    ensures fewer { IfOk result (λ x. x.1 ≤ left) }
{
    let (stmts, after, rest) = body(alloc, strict, names, depth, left, words)?;
    let rest = end_do(rest)?;
    let rest = named_end(opener, rest)?;
    Ok((stmts, after, rest))
}

// Behind `pardo`.
#[cycle(bodies)]
#[tactic(auto, unfolding(crate::specs::Parsing::pardo_at))]
fn pardo_at<'a>(
    alloc: Global,
    strict: bool,
    names: &Names,
    depth: u32,
    left: u32,
    words: &'a [Word],
) -> Result<(Form, u32, &'a [Word]), ParseFault>
    requires { left < 2 ^ 16 }
    ensures value { Gives (λ x. ((plain_form x.0, x.1), x.2.now)) result (spec.pardo_at (seen names.now) (spec.body depth strict (seen names.now)) left words.now) }
    ensures fewer { IfOk result (λ x. x.1 ≤ left) }
{
    let (indices, rest) = indices(alloc, names, Closing::LineEnd, MOST_PARDO, words)?;
    let (wheres, rest) = wheres(alloc, names, rest)?;
    let (body, after, rest) = body(alloc, strict, names, depth, left, rest)?;
    let rest = end_pardo(rest)?;
    let rest = listed_end(names, indices.as_slice(), rest)?;
    let form = Form::Pardo {
        indices,
        wheres,
        body,
    };
    Ok((form, after, rest))
}

// Behind `if`.
#[cycle(bodies)]
#[tactic(auto, unfolding(crate::specs::Parsing::if_at))]
fn if_at<'a>(
    alloc: Global,
    strict: bool,
    names: &Names,
    depth: u32,
    left: u32,
    words: &'a [Word],
) -> Result<(Form, u32, &'a [Word]), ParseFault>
    requires { left < 2 ^ 16 }
    ensures value { Gives (λ x. ((plain_form x.0, x.1), x.2.now)) result (spec.if_at (seen names.now) (spec.body depth strict (seen names.now)) left words.now) }
    ensures fewer { IfOk result (λ x. x.1 ≤ left) }
{
    let (cond, rest) = condition(names, words)?;
    let (then_body, after, rest) = body(alloc, strict, names, depth, left, rest)?;
    if !is_else_next(rest) {
        let rest = end_if(rest)?;
        return Ok((if_form(cond, then_body), after, rest));
    }
    let rest = otherwise(rest)?;
    let rest = line_end(rest)?;
    let (other, after, rest) = body(alloc, strict, names, depth, after, rest)?;
    let rest = end_if(rest)?;
    Ok((if_else_form(cond, then_body, other), after, rest))
}

// An `if` without `else`.
fn if_form(cond: Cond, then_body: Vec<Stmt>) -> Form
    ensures { plain_form result ≡ If cond (block then_body.items) }
{
    Form::If {
        cond,
        then_body,
        else_body: None,
    }
}

// An `if` with `else`.
fn if_else_form(cond: Cond, then_body: Vec<Stmt>, other: Vec<Stmt>) -> Form
    ensures { plain_form result ≡ IfElse cond (block then_body.items) (block other.items) }
{
    Form::If {
        cond,
        then_body,
        else_body: Some(other),
    }
}

// Whether the words go on with `else`.
fn is_else_next(words: &[Word]) -> bool
    ensures { result ≡ spec.is_next spec.is_else words.now }
{
    match words {
        [word, ..] => matches!(word.symbol, Symbol::Key(Keyword::Else)),
        [] => false,
    }
}

// Takes `else`.
fn otherwise(words: &[Word]) -> Result<&[Word], ParseFault>
    ensures { Gives (λ rest. rest.now) result (spec.skip spec.is_else words.now) }
{
    match words {
        [word, rest @ ..] if matches!(word.symbol, Symbol::Key(Keyword::Else)) => Ok(rest),
        _ => Err(unexpected(words)),
    }
}

// Takes `enddo`.
fn end_do(words: &[Word]) -> Result<&[Word], ParseFault>
    ensures { Gives (λ rest. rest.now) result (spec.skip spec.is_end_do words.now) }
{
    match words {
        [word, rest @ ..] if matches!(word.symbol, Symbol::Key(Keyword::EndDo)) => Ok(rest),
        _ => Err(unexpected(words)),
    }
}

// Takes `endpardo`.
fn end_pardo(words: &[Word]) -> Result<&[Word], ParseFault>
    ensures { Gives (λ rest. rest.now) result (spec.skip spec.is_end_pardo words.now) }
{
    match words {
        [word, rest @ ..] if matches!(word.symbol, Symbol::Key(Keyword::EndPardo)) => Ok(rest),
        _ => Err(unexpected(words)),
    }
}

// Takes `endif` and a line end.
fn end_if(words: &[Word]) -> Result<&[Word], ParseFault>
    ensures { Gives (λ rest. rest.now) result (spec.end_if words.now) }
{
    match words {
        [word, rest @ ..] if matches!(word.symbol, Symbol::Key(Keyword::EndIf)) => line_end(rest),
        _ => Err(unexpected(words)),
    }
}
