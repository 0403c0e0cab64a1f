//! The `where` lines of a pardo.

ghost use Rattle.std.specs.Prelude.{◌≡◌, ℕ, ◌+◌, ◌≤◌, length};
ghost use Rattle.sial_meaning.specs.Meaning as spec;
ghost use Rattle.sial_meaning.specs.Meaning.{all_met, condition};
ghost use Rattle.sial_meaning.specs.Own.{Own};
ghost use Rattle.sial_meaning.specs.Rest.{PardoAt, Rest, Within};
ghost use Rattle.sial_syntax.specs.Proper.{IsProper};
ghost use Rattle.sip_tables.specs.Flatten.{flatten};
ghost use Rattle.code_places.specs.Follows.{Follows};
ghost use Rattle.sip_setting.specs.Seen.{setting_of};
ghost use Rattle.exec_scalars.specs.Answers.{OfWorkers};
ghost use Rattle.exec_control.specs.Stands.{IsBegun};

use exec_job::Job;
use exec_scalars::Scalars;
use sial_syntax::Cond;
use sip_tables::Operation;

/// The first instruction of a pardo's body, if all its `where` lines hold, which begin at an instruction.
pub fn body_if_met(
    job: &Job,
    scalars: &Scalars,
    values: &[u32],
    first: u32,
    end: u32,
) -> Option<u32>
    requires within { end ≤ length (flatten (setting_of job.now).program).code }
    ensures { (pardo : PardoAt) (number : ℕ) (more : Rest) (own : Own)
        → IsProper (setting_of job.now).program → Follows (setting_of job.now).program (Within pardo number more)
        → first ≡ pardo.head + 1 → end ≡ pardo.at → own.scalars ≡ scalars.now.scalars → own.values ≡ values.now
        → IsBegun pardo (all_met own pardo.wheres) result }
{
    for at in first..end {
        match &job.instruction(at).operation {
            Operation::Where { cond } => {
                if !is_met(scalars, values, cond) {
                    return None;
                }
            }
            _ => return Some(at),
        }
    }
    Some(end)
}

// Whether a condition has values and holds.
fn is_met(scalars: &Scalars, values: &[u32], cond: &Cond) -> bool
    ensures { OfWorkers scalars.now values.now (λ own. result ≡ spec.is_met (condition own cond.now)) }
{
    matches!(scalars.condition(values, cond), Ok(true))
}
