//! Procedures and whole programs.

ghost use Rattle.std.specs.Prelude.{◌≡◌, ◌+◌, ◌<◌, ◌≤◌, ◌++◌, ◌^◌, ℕ, [], List, map, length, option_map, IfOk, IfSome, OnOk};
ghost use Rattle.sial_syntax.specs.Limits.{most_names, most_statements};
ghost use Rattle.sial_syntax.specs.Tree.{procedure, tree};
ghost use Rattle.sial_parser.specs.Answers.{Gives};
ghost use Rattle.sial_parser.specs.Grammar as grammar;
ghost use Rattle.sial_parser.specs.Names.{seen, kept};
ghost use Rattle.sial_parser.specs.Parsing as spec;
ghost use Rattle.sial_parser.specs.Scope as scope;

use crate::bodies::body;
use crate::declarations::{Declared, declarations, new_name};
use crate::ends::named_end;
use crate::fault::{Counted, ParseFault};
use crate::keyword::Keyword;
use crate::reading::{line_end, name, unexpected};
use crate::scope::Names;
use crate::thing::Thing;
use crate::word::{Symbol, Word};
use sial_syntax::{Proc, Program, Text};
use std::alloc::{AllocError, Global};

const MOST_NAMES: usize = 256;

const MOST_NESTING: u32 = 32;

const MOST_STATEMENTS: u32 = 65535;

/// A program, strictly or with any name behind `call`.
#[tactic(auto, unfolding(crate::specs::Parsing::read_program))]
pub fn program(alloc: Global, strict: bool, words: &[Word]) -> Result<Program, ParseFault>
    ensures { Gives tree result (spec.read_program strict words.now) }
{
    let rest = sial(words)?;
    let (title, rest) = name(rest)?;
    let rest = line_end(rest)?;
    let (declared, rest) = declarations(alloc, rest)?;
    let names = with_procs(alloc, declared.names.copied(alloc)?, rest)?;
    program_from(alloc, strict, &names, title, declared, rest)
}

// What stands behind the declarations.
#[tactic(auto, unfolding(crate::specs::Parsing::program_from))]
fn program_from(
    alloc: Global,
    strict: bool,
    names: &Names,
    title: &Text,
    declared: Declared,
    words: &[Word],
) -> Result<Program, ParseFault>
    ensures { Gives tree result (spec.program_from strict (seen names.now) title.now (kept declared) words.now) }
{
    let Declared {
        names: before,
        indices,
        arrays,
        scalars,
    } = declared;
    let (procs, left, rest) = procs(alloc, strict, names, before, words)?;
    let (body, _, rest) = body(alloc, strict, names, MOST_NESTING, left, rest)?;
    let rest = end_sial(rest)?;
    let rest = named_end(title, rest)?;
    ended(rest)?;
    Ok(Program {
        name: Text::from_slice(alloc, title.as_slice())?,
        indices,
        arrays,
        scalars,
        procs,
        body,
    })
}

// Names with those of the procedures, each if it is new.
fn with_procs(alloc: Global, names: Names, words: &[Word]) -> Result<Names, AllocError>
    ensures { IfOk result (λ all. seen all ≡ spec.with_procs (seen names) 0 (spec.proc_names words.now)) }
{
    let mut names = names;
    let mut number: u16 = 0;
    let mut rest = words;
    while let [word, behind @ ..] = rest {
        if begins_proc(&word.symbol) {
            number = with_proc(alloc, &mut names, number, behind)?;
        }
        rest = behind;
    }
    Ok(names)
}

// With the name of a procedure, if it is new; and the number of the next one.
fn with_proc(
    alloc: Global,
    names: &mut Names,
    number: u16,
    words: &[Word],
) -> Result<u16, AllocError>
    ensures { IfOk result (λ next. (others : List (List ℕ)) → spec.with_procs (seen names.new) next others ≡ spec.with_procs (seen names.old) number (spec.first_name words.now ++ others)) }
{
    let [word, ..] = words else {
        return Ok(number);
    };
    let Symbol::Name(name) = &word.symbol else {
        return Ok(number);
    };
    if !is_new(names, number, name) {
        return Ok(number);
    }
    names.declare(alloc, name.as_slice(), Thing::Proc(number))?;
    Ok(number + 1)
}

// Whether a procedure of this name may still be declared.
fn is_new(names: &Names, number: u16, name: &Text) -> bool
    ensures { result ≡ spec.is_new (seen names.now) number name.now }
{
    (number as usize) < MOST_NAMES && names.thing(name.as_slice()).is_none()
}

// The procedures, and how many statements are left behind them.
fn procs<'a>(
    alloc: Global,
    strict: bool,
    names: &Names,
    before: Names,
    words: &'a [Word],
) -> Result<(Vec<Proc>, u32, &'a [Word]), ParseFault>
    ensures value { Gives (λ x. ((map procedure x.0.items, x.1), x.2.now)) result (spec.procs strict (seen names.now) (most_names + 1) (seen before) [] most_statements words.now) }
    ensures fewer { IfOk result (λ x. x.1 < 2 ^ 16) }
{
    let mut before = before;
    let mut procs = Vec::new(alloc);
    let mut left = MOST_STATEMENTS;
    let mut rest = words;
    for turn in 0..MOST_NAMES + 1 {
        let (next, after, behind) = proc_one(alloc, strict, names, &before, turn, left, rest)?;
        rest = behind;
        match next {
            Some(proc) => {
                before.declare(alloc, proc.name.as_slice(), Thing::Proc(turn as u16))?;
                procs.push(proc)?;
            }
            None => return Ok((procs, left, rest)),
        }
        left = after;
    }
    Err(unexpected(rest))
}

// A procedure, if one stands there, and how many statements are left behind it.
#[tactic(auto, unfolding(crate::specs::Parsing::proc_one))]
fn proc_one<'a>(
    alloc: Global,
    strict: bool,
    names: &Names,
    before: &Names,
    number: usize,
    left: u32,
    words: &'a [Word],
) -> Result<(Option<Proc>, u32, &'a [Word]), ParseFault>
    requires { left < 2 ^ 16 }
    ensures value { Gives (λ x. (option_map (λ p. (procedure p, x.1)) x.0, x.2.now)) result (spec.proc_one strict (seen names.now) (seen before.now) number left words.now) }
    ensures free { IfOk result (λ x. IfSome x.0 (λ p. scope.IsFree (seen before.now) p.name)) }
    ensures room { IfOk result (λ x. IfSome x.0 (λ p. number < 256)) }
    ensures fewer { IfOk result (λ x. x.1 ≤ left) }
{
    let [word, rest @ ..] = words else {
        return Err(unexpected(words));
    };
    if !begins_proc(&word.symbol) {
        return Ok((None, left, words));
    }
    let (proc, after, rest) = proc_at(alloc, strict, names, before, number, left, rest)?;
    Ok((Some(proc), after, rest))
}

// A procedure behind `proc`.
#[tactic(auto, unfolding(crate::specs::Parsing::proc_at))]
fn proc_at<'a>(
    alloc: Global,
    strict: bool,
    names: &Names,
    before: &Names,
    number: usize,
    left: u32,
    words: &'a [Word],
) -> Result<(Proc, u32, &'a [Word]), ParseFault>
    requires { left < 2 ^ 16 }
    ensures value { Gives (λ x. ((procedure x.0, x.1), x.2.now)) result (spec.proc_at strict (seen names.now) (seen before.now) number left words.now) }
    ensures free { IfOk result (λ x. scope.IsFree (seen before.now) x.0.name) }
    ensures room { OnOk result (number < 256) }
    ensures fewer { IfOk result (λ x. x.1 ≤ left) }
{
    let (name, rest) = new_name(before, number, Counted::Procs, words)?;
    let rest = line_end(rest)?;
    let (body, after, rest) = body(alloc, strict, names, MOST_NESTING, left, rest)?;
    let rest = end_proc(rest)?;
    let rest = named_end(name, rest)?;
    let name = Text::from_slice(alloc, name.as_slice())?;
    Ok((Proc { name, body }, after, rest))
}

// Whether a symbol begins a procedure.
fn begins_proc(symbol: &Symbol) -> bool
    ensures { result ≡ grammar.begins_proc symbol.now }
{
    matches!(symbol, Symbol::Key(Keyword::Proc))
}

// Takes `sial`.
fn sial(words: &[Word]) -> Result<&[Word], ParseFault>
    ensures { Gives (λ rest. rest.now) result (spec.skip spec.is_sial words.now) }
{
    match words {
        [word, rest @ ..] if matches!(word.symbol, Symbol::Key(Keyword::Sial)) => Ok(rest),
        _ => Err(unexpected(words)),
    }
}

// Takes `endsial`.
fn end_sial(words: &[Word]) -> Result<&[Word], ParseFault>
    ensures { Gives (λ rest. rest.now) result (spec.skip spec.is_end_sial words.now) }
{
    match words {
        [word, rest @ ..] if matches!(word.symbol, Symbol::Key(Keyword::EndSial)) => Ok(rest),
        _ => Err(unexpected(words)),
    }
}

// Takes `endproc`.
fn end_proc(words: &[Word]) -> Result<&[Word], ParseFault>
    ensures { Gives (λ rest. rest.now) result (spec.skip spec.is_end_proc words.now) }
{
    match words {
        [word, rest @ ..] if matches!(word.symbol, Symbol::Key(Keyword::EndProc)) => Ok(rest),
        _ => Err(unexpected(words)),
    }
}

// The end of the text.
fn ended(words: &[Word]) -> Result<(), ParseFault>
    ensures { Gives (λ u. []) result (spec.ended words.now) }
{
    match words {
        [word] if matches!(word.symbol, Symbol::End) => Ok(()),
        _ => Err(unexpected(words)),
    }
}
