//! What is left of code and texts.

ghost use Rattle.std.specs.Prelude.{◌≡◌, option_map};
ghost use Rattle.table_verify.specs.Rest as spec;
ghost use Rattle.table_verify.specs.Rest.{Gives, seen};

use crate::read_fault::ReadFault;
use sial_syntax::Text;
use sip_tables::Instruction;

/// All instructions and texts, with the numbers of the first that are left.
#[derive(Clone, Copy)]
pub struct Rest<'a> {
    pub code: &'a [Instruction],
    pub texts: &'a [Text],
    pub at: usize,
    pub text: usize,
}

/// The next instruction, and what is left behind it.
pub fn next(rest: Rest<'_>) -> Option<(&Instruction, Rest<'_>)>
    ensures { option_map (λ x. (x.0.now, seen x.1)) result ≡ spec.next (seen rest.entry) }
{
    let instruction = rest.code.get(rest.at)?;
    let mut behind = rest;
    behind.at += 1;
    Some((instruction, behind))
}

/// The next text, and what is left behind it.
pub fn text(rest: Rest<'_>) -> Option<(&Text, Rest<'_>)>
    ensures { option_map (λ x. (x.0.now, seen x.1)) result ≡ spec.text (seen rest.entry) }
{
    let text = rest.texts.get(rest.text)?;
    let mut behind = rest;
    behind.text += 1;
    Some((text, behind))
}

/// The text of a number, if it is the next one.
#[tactic(auto, unfolding(crate::specs::Rest::numbered))]
pub fn numbered(number: u64, rest: Rest<'_>) -> Result<(&Text, Rest<'_>), ReadFault>
    ensures { Gives (λ x. (x.0.now, seen x.1)) result (spec.numbered number (seen rest.entry)) }
{
    if number == rest.text as u64 {
        let Some(found) = text(rest) else {
            return Err(ReadFault::NotAProgram);
        };
        Ok(found)
    } else {
        Err(ReadFault::NotAProgram)
    }
}
