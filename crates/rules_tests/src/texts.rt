//! Small programs, from their texts.

use sial_parser::parse;
use sial_syntax::Program;
use std::alloc::{AllocError, Global};
use std::test::Fail;

/// Fourteen lines of declarations, so that what follows begins on line 15.
pub const DECLARED: &[u8] =
    b"sial n\naoindex i = 1, 2\naoindex j = 1, 2\nmoindex m = 1, 2\nsubindex ii of i\n\
    subindex jj of j\nstatic a(i)\ntemp t(i,j)\ntemp c(ii)\nlocal l(i)\ndistributed d(i)\n\
    served v(i)\nscalar s\nscalar e\n";

// The text that these lines make behind some declarations.
fn text(alloc: Global, declared: &[u8], lines: &[u8]) -> Result<Vec<u8>, AllocError> {
    let mut text = Vec::from_slice(alloc, declared)?;
    text.extend_from_slice(lines)?;
    text.extend_from_slice(b"endsial\n")?;
    Ok(text)
}

/// The program that these lines make behind some declarations.
pub fn parsed(alloc: Global, declared: &[u8], lines: &[u8]) -> Result<Program, Fail> {
    let text = text(alloc, declared, lines)?;
    match parse(alloc, text.as_slice()) {
        Ok(program) => Ok(program),
        Err(_) => Err(Fail::from("it is a program")),
    }
}
