//! The side rules that statements break.

ghost use Rattle.std.specs.Prelude.{◌≡◌, ◌&&◌, flat_map, map, slice_index_or, nat_lt};
ghost use Rattle.std.specs.List.{list_any};
ghost use Rattle.sial_syntax.specs.Agreeing.{has_kind};
ghost use Rattle.sial_syntax.specs.Parts as parts;
ghost use Rattle.sial_syntax.specs.Parts.{scalars_read, scalars_written};
ghost use Rattle.sial_syntax.specs.SideRules as rules;
ghost use Rattle.sial_syntax.specs.Tree.{plain_form, tree};
ghost use Rattle.scalar_discipline.specs.Discipline.{seen};
ghost use Rattle.scalar_discipline.specs.Flat.{sided_of};
ghost use Rattle.scalar_discipline.specs.Judging as spec;

use crate::fault::{RuleFault, sooner};
use crate::parts::scalar_written;
use crate::placed::Placed;
use sial_syntax::{ArrayKind, Cond, Form, Operand, Program, Right, ScalarClass, Target, Value};

// PardoInPardo.
fn breaks_pardo(s: &Placed) -> bool
    ensures { result ≡ rules.breaks_pardo (sided_of s.now) }
{
    s.sides.inner && matches!(s.form, Form::Pardo { .. })
}

// SharedWriteOutside.
fn breaks_shared_write(s: &Placed) -> bool
    ensures { result ≡ rules.breaks_shared_write (sided_of s.now) }
{
    s.sides.outer && matches!(s.form, Form::Put { .. } | Form::Prepare { .. })
}

// SyncInside.
fn breaks_sync(s: &Placed) -> bool
    ensures { result ≡ rules.breaks_sync (sided_of s.now) }
{
    s.sides.inner
        && matches!(
            s.form,
            Form::Create { .. }
                | Form::Delete { .. }
                | Form::Collective { .. }
                | Form::SipBarrier
                | Form::ServerBarrier
        )
}

// PrintInside.
fn breaks_print(s: &Placed) -> bool
    ensures { result ≡ rules.breaks_print (sided_of s.now) }
{
    s.sides.inner && matches!(s.form, Form::Print { .. } | Form::PrintScalar { .. })
}

// StaticWriteInside.
fn breaks_static(program: &Program, s: &Placed) -> bool
    ensures { result ≡ rules.breaks_static (tree program.now) (sided_of s.now) }
{
    s.sides.inner && writes_static(program, s.form)
}

// Whether a statement writes a static array.
fn writes_static(program: &Program, form: &Form) -> bool
    ensures { result ≡ list_any (has_kind (tree program.now) ArrayKind.Static) (rules.arrays_written (plain_form form.now)) }
{
    match form {
        Form::Assign { target, .. } => match target {
            Target::Block(block) => is_static(program, block.array),
            Target::Scalar(_) => false,
        },
        Form::Integrals { block } => is_static(program, block.array),
        _ => false,
    }
}

// Whether an array is static.
fn is_static(program: &Program, array: u16) -> bool
    ensures { result ≡ has_kind (tree program.now) ArrayKind.Static array }
{
    match program.arrays.get(array as usize) {
        Some(array) => matches!(array.kind, ArrayKind::Static),
        None => false,
    }
}

// The class of a scalar.
fn class_at(classes: &[ScalarClass], scalar: u16) -> ScalarClass
    ensures { result ≡ spec.class_at classes.now scalar }
{
    match classes.get(scalar as usize) {
        Some(class) => *class,
        None => ScalarClass::Replicated,
    }
}

// MixedScalar.
fn mixes_named(classes: &[ScalarClass], s: &Placed) -> bool
    ensures { result ≡ spec.mixes_named classes.now (sided_of s.now) }
{
    (s.sides.outer && (write_mixes(classes, s.form) || reads_private(classes, s.form)))
        || wrong_source(classes, s.form)
}

// Whether a write of a statement mixes a scalar's sides where it stands outside.
fn write_mixes(classes: &[ScalarClass], form: &Form) -> bool
    ensures { result ≡ list_any (λ q. spec.write_mixes (rules.sets_zero (plain_form form.now)) (spec.class_at classes.now q)) (scalars_written (plain_form form.now)) }
{
    match scalar_written(form) {
        Some(scalar) => match class_at(classes, scalar) {
            ScalarClass::Replicated => false,
            ScalarClass::Private => true,
            ScalarClass::Partial => !sets_zero(form),
        },
        None => false,
    }
}

// Whether a statement sets its target to 0.
fn sets_zero(form: &Form) -> bool
    ensures { result ≡ rules.sets_zero (plain_form form.now) }
{
    match form {
        Form::Assign {
            op: sial_syntax::Op::Set,
            right: Right::One(Operand::Number(number)),
            ..
        } => *number == 0,
        _ => false,
    }
}

// MixedScalar of a `collective`.
fn wrong_source(classes: &[ScalarClass], form: &Form) -> bool
    ensures { result ≡ rules.wrong_source classes.now (plain_form form.now) }
{
    match form {
        Form::Collective { from, .. } => {
            !matches!(class_at(classes, *from), ScalarClass::Partial)
        }
        _ => false,
    }
}

// Whether a statement reads a private scalar.
#[tactic(auto, using(crate::proofs::JudgeLemmas::any_flat))]
fn reads_private(classes: &[ScalarClass], form: &Form) -> bool
    ensures { result ≡ list_any (λ q. spec.is_private (spec.class_at classes.now q)) (scalars_read (plain_form form.now)) }
{
    reads_class(classes, form, false)
}

// PartialRead.
fn reads_partial(classes: &[ScalarClass], s: &Placed) -> bool
    ensures { result ≡ spec.reads_partial classes.now (sided_of s.now) }
{
    !matches!(s.form, Form::Collective { .. }) && reads_class(classes, s.form, true)
}

// Whether a statement reads a scalar of a class: a partial one, or else a private one.
#[tactic(auto, using(crate::proofs::JudgeLemmas::any_flat))]
fn reads_class(classes: &[ScalarClass], form: &Form, partial: bool) -> bool
    ensures { result ≡ list_any (spec.is_wanted classes.now partial) (scalars_read (plain_form form.now)) }
{
    match form {
        Form::Assign { right, .. } => right_wanted(classes, right, partial),
        Form::Collective { from, .. } => is_wanted(classes, *from, partial),
        Form::PrintScalar { scalar } => is_wanted(classes, *scalar, partial),
        Form::Pardo { wheres, .. } => wheres_wanted(classes, wheres.as_slice(), partial),
        Form::If { cond, .. } => cond_wanted(classes, cond, partial),
        _ => false,
    }
}

fn is_wanted(classes: &[ScalarClass], scalar: u16, partial: bool) -> bool
    ensures { result ≡ spec.is_wanted classes.now partial scalar }
{
    match class_at(classes, scalar) {
        ScalarClass::Replicated => false,
        ScalarClass::Private => !partial,
        ScalarClass::Partial => partial,
    }
}

fn right_wanted(classes: &[ScalarClass], right: &Right, partial: bool) -> bool
    ensures { result ≡ list_any (spec.is_wanted classes.now partial) (flat_map parts.operand_scalar (parts.operands right.now)) }
{
    match right {
        Right::One(operand) => operand_wanted(classes, operand, partial),
        Right::Two(left, _, right) => {
            operand_wanted(classes, left, partial) || operand_wanted(classes, right, partial)
        }
    }
}

fn operand_wanted(classes: &[ScalarClass], operand: &Operand, partial: bool) -> bool
    ensures { result ≡ list_any (spec.is_wanted classes.now partial) (parts.operand_scalar operand.now) }
{
    match operand {
        Operand::Scalar(scalar) => is_wanted(classes, *scalar, partial),
        _ => false,
    }
}

fn value_wanted(classes: &[ScalarClass], value: &Value, partial: bool) -> bool
    ensures { result ≡ list_any (spec.is_wanted classes.now partial) (parts.value_scalar value.now) }
{
    match value {
        Value::Scalar(scalar) => is_wanted(classes, *scalar, partial),
        _ => false,
    }
}

fn cond_wanted(classes: &[ScalarClass], cond: &Cond, partial: bool) -> bool
    ensures { result ≡ list_any (spec.is_wanted classes.now partial) (parts.condition_scalars cond.now) }
{
    value_wanted(classes, &cond.left, partial) || value_wanted(classes, &cond.right, partial)
}

#[tactic(auto, using(crate::proofs::JudgeLemmas::any_append))]
fn wheres_wanted(classes: &[ScalarClass], wheres: &[Cond], partial: bool) -> bool
    ensures { result ≡ list_any (spec.is_wanted classes.now partial) (flat_map parts.condition_scalars wheres.now) }
{
    for cond in wheres {
        if cond_wanted(classes, cond, partial) {
            return true;
        }
    }
    false
}

// CallTooDeep.
fn calls_deep(depths: &[u32], s: &Placed) -> bool
    ensures { result ≡ spec.calls_deep depths.now (sided_of s.now) }
{
    match s.form {
        Form::Call { proc } => depths.get(*proc as usize).copied().unwrap_or(1) > 16,
        _ => false,
    }
}

/// The rule that is told of those that a statement breaks.
pub fn told(
    program: &Program,
    classes: &[ScalarClass],
    depths: &[u32],
    s: &Placed,
) -> Option<RuleFault>
    ensures { seen result ≡ spec.told (tree program.now) classes.now depths.now (sided_of s.now) }
{
    let line = s.line;
    if breaks_pardo(s) {
        Some(RuleFault::PardoInPardo { line })
    } else if breaks_shared_write(s) {
        Some(RuleFault::SharedWriteOutside { line })
    } else if breaks_sync(s) {
        Some(RuleFault::SyncInside { line })
    } else if breaks_print(s) {
        Some(RuleFault::PrintInside { line })
    } else if breaks_static(program, s) {
        Some(RuleFault::StaticWriteInside { line })
    } else if mixes_named(classes, s) {
        Some(RuleFault::MixedScalar { line })
    } else if reads_partial(classes, s) {
        Some(RuleFault::PartialRead { line })
    } else if calls_deep(depths, s) {
        Some(RuleFault::CallTooDeep { line })
    } else {
        None
    }
}

/// The earlier of a fault and the first one of statements.
pub fn first_told(
    program: &Program,
    classes: &[ScalarClass],
    depths: &[u32],
    all: &[Placed],
    first: Option<RuleFault>,
) -> Option<RuleFault>
    ensures { seen result ≡ spec.first_told (tree program.now) classes.now depths.now (map sided_of all.now) (seen first) }
{
    let mut first = first;
    for s in all {
        first = sooner(first, told(program, classes, depths, s));
    }
    first
}
