//! Statements without a body, behind their first word.

ghost use Rattle.std.specs.Prelude.{◌≡◌};
ghost use Rattle.sial_syntax.specs.Tree.{plain_form};
ghost use Rattle.sial_syntax.specs.Tree as tree;
ghost use Rattle.sial_parser.specs.Answers.{Gives};
ghost use Rattle.sial_parser.specs.Names.{seen};
ghost use Rattle.sial_parser.specs.Parsing as spec;

use crate::fault::ParseFault;
use crate::keyword::Keyword;
use crate::lists::{block, block_line, slots_line};
use crate::operands::{access, op_of, right, target_at};
use crate::reading::{array, index, line_end, line_of, name, plus_equals, scalar, unexpected};
use crate::scope::Names;
use crate::thing::Thing;
use crate::word::{Symbol, Word};
use sial_syntax::{Form, Target, Text};
use std::alloc::Global;

// A called procedure; where only faults that stand before an undeclared one are looked for, any name is taken.
fn called(strict: bool, line: u32, thing: Option<Thing>) -> Result<u16, ParseFault>
    ensures { Gives (λ n. n) result (spec.called strict line thing) }
{
    match (strict, thing) {
        (false, _) => Ok(0),
        (true, Some(Thing::Proc(number))) => Ok(number),
        (true, _) => Err(ParseFault::Undeclared { line }),
    }
}

/// Behind `call`.
#[tactic(auto, unfolding(crate::specs::Parsing::call_at))]
pub fn call_at<'a>(
    strict: bool,
    names: &Names,
    words: &'a [Word],
) -> Result<(Form, &'a [Word]), ParseFault>
    ensures { Gives (λ x. (plain_form x.0, x.1.now)) result (spec.call_at strict (seen names.now) words.now) }
{
    let (name, rest) = name(words)?;
    let proc = called(strict, line_of(words), names.thing(name.as_slice()))?;
    let rest = line_end(rest)?;
    Ok((Form::Call { proc }, rest))
}

/// Behind `get`.
#[tactic(auto, unfolding(crate::specs::Parsing::get_at))]
pub fn get_at<'a>(
    alloc: Global,
    names: &Names,
    words: &'a [Word],
) -> Result<(Form, &'a [Word]), ParseFault>
    ensures { Gives (λ x. (plain_form x.0, x.1.now)) result (spec.get_at (seen names.now) words.now) }
{
    let (block, rest) = block_line(alloc, names, words)?;
    Ok((Form::Get { block }, rest))
}

/// Behind `request`.
#[tactic(auto, unfolding(crate::specs::Parsing::request_at))]
pub fn request_at<'a>(
    alloc: Global,
    names: &Names,
    words: &'a [Word],
) -> Result<(Form, &'a [Word]), ParseFault>
    ensures { Gives (λ x. (plain_form x.0, x.1.now)) result (spec.request_at (seen names.now) words.now) }
{
    let (block, rest) = block(alloc, names, words)?;
    if is_line_end_next(rest) {
        let rest = line_end(rest)?;
        return Ok((Form::Request { block }, rest));
    }
    let (_, rest) = index(names, rest)?;
    let rest = line_end(rest)?;
    Ok((Form::Request { block }, rest))
}

// Whether the words go on with a line end.
fn is_line_end_next(words: &[Word]) -> bool
    ensures { result ≡ spec.is_next spec.is_line_end words.now }
{
    match words {
        [word, ..] => matches!(word.symbol, Symbol::LineEnd),
        [] => false,
    }
}

/// Behind `put`.
#[tactic(auto, unfolding(crate::specs::Parsing::put_at))]
pub fn put_at<'a>(
    alloc: Global,
    names: &Names,
    words: &'a [Word],
) -> Result<(Form, &'a [Word]), ParseFault>
    ensures { Gives (λ x. (plain_form x.0, x.1.now)) result (spec.put_at (seen names.now) words.now) }
{
    let (block, rest) = block(alloc, names, words)?;
    let (how, rest) = access(rest)?;
    let (from, rest) = block_line(alloc, names, rest)?;
    Ok((Form::Put { block, how, from }, rest))
}

/// Behind `prepare`.
#[tactic(auto, unfolding(crate::specs::Parsing::prepare_at))]
pub fn prepare_at<'a>(
    alloc: Global,
    names: &Names,
    words: &'a [Word],
) -> Result<(Form, &'a [Word]), ParseFault>
    ensures { Gives (λ x. (plain_form x.0, x.1.now)) result (spec.prepare_at (seen names.now) words.now) }
{
    let (block, rest) = block(alloc, names, words)?;
    let (how, rest) = access(rest)?;
    let (from, rest) = block_line(alloc, names, rest)?;
    Ok((Form::Prepare { block, how, from }, rest))
}

/// Behind `create`.
#[tactic(auto, unfolding(crate::specs::Parsing::create_at))]
pub fn create_at<'a>(names: &Names, words: &'a [Word]) -> Result<(Form, &'a [Word]), ParseFault>
    ensures { Gives (λ x. (plain_form x.0, x.1.now)) result (spec.create_at (seen names.now) words.now) }
{
    let (array, rest) = array(names, words)?;
    let rest = line_end(rest)?;
    Ok((Form::Create { array }, rest))
}

/// Behind `delete`.
#[tactic(auto, unfolding(crate::specs::Parsing::delete_at))]
pub fn delete_at<'a>(names: &Names, words: &'a [Word]) -> Result<(Form, &'a [Word]), ParseFault>
    ensures { Gives (λ x. (plain_form x.0, x.1.now)) result (spec.delete_at (seen names.now) words.now) }
{
    let (array, rest) = array(names, words)?;
    let rest = line_end(rest)?;
    Ok((Form::Delete { array }, rest))
}

/// Behind `allocate`.
#[tactic(auto, unfolding(crate::specs::Parsing::allocate_at))]
pub fn allocate_at<'a>(
    alloc: Global,
    names: &Names,
    words: &'a [Word],
) -> Result<(Form, &'a [Word]), ParseFault>
    ensures { Gives (λ x. (plain_form x.0, x.1.now)) result (spec.allocate_at (seen names.now) words.now) }
{
    let (array, rest) = array(names, words)?;
    let (at, rest) = slots_line(alloc, names, rest)?;
    Ok((Form::Allocate { array, at }, rest))
}

/// Behind `deallocate`.
#[tactic(auto, unfolding(crate::specs::Parsing::deallocate_at))]
pub fn deallocate_at<'a>(
    alloc: Global,
    names: &Names,
    words: &'a [Word],
) -> Result<(Form, &'a [Word]), ParseFault>
    ensures { Gives (λ x. (plain_form x.0, x.1.now)) result (spec.deallocate_at (seen names.now) words.now) }
{
    let (array, rest) = array(names, words)?;
    let (at, rest) = slots_line(alloc, names, rest)?;
    Ok((Form::Deallocate { array, at }, rest))
}

/// Behind `collective`.
#[tactic(auto, unfolding(crate::specs::Parsing::collective_at))]
pub fn collective_at<'a>(names: &Names, words: &'a [Word]) -> Result<(Form, &'a [Word]), ParseFault>
    ensures { Gives (λ x. (plain_form x.0, x.1.now)) result (spec.collective_at (seen names.now) words.now) }
{
    let (into, rest) = scalar(names, words)?;
    let rest = plus_equals(rest)?;
    let (from, rest) = scalar(names, rest)?;
    let rest = line_end(rest)?;
    Ok((Form::Collective { into, from }, rest))
}

/// Behind `sip_barrier`.
#[tactic(auto, unfolding(crate::specs::Parsing::barrier_at))]
pub fn sip_barrier_at(words: &[Word]) -> Result<(Form, &[Word]), ParseFault>
    ensures { Gives (λ x. (plain_form x.0, x.1.now)) result (spec.barrier_at tree.SipBarrier words.now) }
{
    let rest = line_end(words)?;
    Ok((Form::SipBarrier, rest))
}

/// Behind `server_barrier`.
#[tactic(auto, unfolding(crate::specs::Parsing::barrier_at))]
pub fn server_barrier_at(words: &[Word]) -> Result<(Form, &[Word]), ParseFault>
    ensures { Gives (λ x. (plain_form x.0, x.1.now)) result (spec.barrier_at tree.ServerBarrier words.now) }
{
    let rest = line_end(words)?;
    Ok((Form::ServerBarrier, rest))
}

/// Behind `print`.
#[tactic(auto, unfolding(crate::specs::Parsing::print_at))]
pub fn print_at(alloc: Global, words: &[Word]) -> Result<(Form, &[Word]), ParseFault>
    ensures { Gives (λ x. (plain_form x.0, x.1.now)) result (spec.print_at words.now) }
{
    let (text, rest) = quoted(words)?;
    let rest = line_end(rest)?;
    let text = Text::from_slice(alloc, text.as_slice())?;
    Ok((Form::Print { text }, rest))
}

// A printed text.
fn quoted(words: &[Word]) -> Result<(&Text, &[Word]), ParseFault>
    ensures { Gives (λ x. (x.0.now, x.1.now)) result (spec.quoted words.now) }
{
    let [word, rest @ ..] = words else {
        return Err(unexpected(words));
    };
    match &word.symbol {
        Symbol::Quoted(text) => Ok((text, rest)),
        _ => Err(unexpected(words)),
    }
}

/// Behind `execute`.
#[tactic(auto, unfolding(crate::specs::Parsing::execute_at))]
pub fn execute_at<'a>(
    alloc: Global,
    names: &Names,
    words: &'a [Word],
) -> Result<(Form, &'a [Word]), ParseFault>
    ensures { Gives (λ x. (plain_form x.0, x.1.now)) result (spec.execute_at (seen names.now) words.now) }
{
    let [word, rest @ ..] = words else {
        return Err(unexpected(words));
    };
    match word.symbol {
        Symbol::Key(Keyword::PrintScalar) => {
            let (scalar, rest) = scalar(names, rest)?;
            let rest = line_end(rest)?;
            Ok((Form::PrintScalar { scalar }, rest))
        }
        Symbol::Key(Keyword::ComputeIntegrals) => {
            let (block, rest) = block_line(alloc, names, rest)?;
            Ok((Form::Integrals { block }, rest))
        }
        _ => Err(unexpected(words)),
    }
}

/// An assignment, from its target on.
#[tactic(auto, unfolding(crate::specs::Parsing::assign_at))]
pub fn assign_at<'a>(
    alloc: Global,
    names: &Names,
    words: &'a [Word],
) -> Result<(Form, &'a [Word]), ParseFault>
    ensures { Gives (λ x. (plain_form x.0, x.1.now)) result (spec.assign_at (seen names.now) words.now) }
{
    let (target, rest) = target_at(alloc, names, words)?;
    assign_after(alloc, names, target, rest)
}

// What follows the target.
fn assign_after<'a>(
    alloc: Global,
    names: &Names,
    target: Target,
    words: &'a [Word],
) -> Result<(Form, &'a [Word]), ParseFault>
    ensures { Gives (λ x. (plain_form x.0, x.1.now)) result (spec.assign_after (seen names.now) target words.now) }
{
    let [word, rest @ ..] = words else {
        return Err(unexpected(words));
    };
    let Some(op) = op_of(&word.symbol) else {
        return Err(unexpected(words));
    };
    let (right, rest) = right(alloc, names, rest)?;
    Ok((Form::Assign { target, op, right }, rest))
}

/// Whether a symbol begins a statement without a body that is no assignment.
pub fn begins_simple(symbol: &Symbol) -> bool
    ensures { result ≡ spec.begins_simple symbol.now }
{
    matches!(
        symbol,
        Symbol::Key(
            Keyword::Call
                | Keyword::Get
                | Keyword::Request
                | Keyword::Put
                | Keyword::Prepare
                | Keyword::Create
                | Keyword::Delete
                | Keyword::Allocate
                | Keyword::Deallocate
                | Keyword::Collective
                | Keyword::SipBarrier
                | Keyword::ServerBarrier
                | Keyword::Print
                | Keyword::Execute
        )
    )
}

/// Such a statement, behind its first word.
pub fn simple_by<'a>(
    alloc: Global,
    strict: bool,
    names: &Names,
    symbol: &Symbol,
    words: &'a [Word],
) -> Result<(Form, &'a [Word]), ParseFault>
    ensures { Gives (λ x. (plain_form x.0, x.1.now)) result (spec.simple_by strict (seen names.now) symbol.now words.now) }
{
    let Symbol::Key(keyword) = symbol else {
        return Err(unexpected(words));
    };
    match keyword {
        Keyword::Call => call_at(strict, names, words),
        Keyword::Get => get_at(alloc, names, words),
        Keyword::Request => request_at(alloc, names, words),
        Keyword::Put => put_at(alloc, names, words),
        Keyword::Prepare => prepare_at(alloc, names, words),
        Keyword::Create => create_at(names, words),
        Keyword::Delete => delete_at(names, words),
        Keyword::Allocate => allocate_at(alloc, names, words),
        Keyword::Deallocate => deallocate_at(alloc, names, words),
        Keyword::Collective => collective_at(names, words),
        Keyword::SipBarrier => sip_barrier_at(words),
        Keyword::ServerBarrier => server_barrier_at(words),
        Keyword::Print => print_at(alloc, words),
        Keyword::Execute => execute_at(alloc, names, words),
        _ => Err(unexpected(words)),
    }
}
