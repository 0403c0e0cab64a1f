//! How deep procedures call, and which call leads back.

use crate::lines::call_in_each;
use crate::texts::{DECLARED, parsed};
use scalar_discipline::{RuleFault, call_depths};
use sial_syntax::Program;
use std::alloc::{AllocError, Global};
use std::test::Fail;

// What the calls of a program are refused for, or how deep its first procedure calls.
fn depth(alloc: Global, program: &Program) -> Result<u32, RuleFault> {
    if program.procs.len() > 256 {
        return Ok(0);
    }
    let depths = call_depths(alloc, program)?;
    Ok(depths.as_slice().first().copied().unwrap_or(0))
}

// The same of a program of these lines.
fn depth_of(alloc: Global, lines: &[u8]) -> Result<Result<u32, RuleFault>, Fail> {
    let program = parsed(alloc, DECLARED, lines)?;
    Ok(depth(alloc, &program))
}

#[test]
fn without_procedures_nothing_is_deep(rt: HostRuntime) -> Result<(), Fail> {
    assert_eq!(rt; depth_of(rt.alloc(), b"")?, Ok(0));
    Ok(())
}

// Procedures `p0`, `p1` and `p2`, each of which calls one in the `else` of an `if`, and `z`, which calls none;
// so `p0` calls on line 18, `p1` on line 24.
fn calling(alloc: Global, calls: [&str; 3]) -> Result<Vec<u8>, Fail> {
    let mut text = Vec::new(alloc);
    for (number, name) in calls.iter().enumerate() {
        text.extend_from_slice(format!(in alloc;
            "proc p{number}\nif 1 < 2\nelse\ncall {name}\nendif\nendproc\n"
        )?.as_bytes())?;
    }
    text.extend_from_slice(b"proc z\nendproc\ncall z\ncall z\n")?;
    Ok(text)
}

#[test]
fn procedures_are_as_deep_as_they_call_or_the_first_call_that_leads_back_is_told(
    rt: HostRuntime,
) -> Result<(), Fail> {
    for (calls, want) in [
        // A procedure is one deeper than those that it calls.
        (["z", "z", "z"], Ok(2)),
        (["p1", "p2", "z"], Ok(4)),
        (["p2", "z", "p1"], Ok(4)),
        (["p2", "p2", "z"], Ok(3)),
        // A procedure that calls itself, which nobody calls.
        (["p0", "z", "z"], Err(RuleFault::Recursion { line: 18 })),
        (["z", "z", "p2"], Err(RuleFault::Recursion { line: 30 })),
        // Both calls of a circle lead back; the one into it doesn't.
        (["p2", "p2", "p1"], Err(RuleFault::Recursion { line: 24 })),
        (["p1", "p2", "p1"], Err(RuleFault::Recursion { line: 24 })),
        (["p2", "p0", "p1"], Err(RuleFault::Recursion { line: 18 })),
    ] {
        let lines = calling(rt.alloc(), calls)?;
        assert_eq!(rt; depth_of(rt.alloc(), lines.as_slice())?, want);
    }
    Ok(())
}

// How deep the first of three procedures calls that call once each, on lines and procedures that no text has.
fn depth_by_calls(alloc: Global, calls: &[(u32, u16)]) -> Result<Result<u32, RuleFault>, Fail> {
    let lines =
        b"proc p\ncall p\nendproc\nproc q\ncall q\nendproc\nproc r\ncall r\nendproc\n".as_slice();
    let mut program = parsed(alloc, DECLARED, lines)?;
    call_in_each(program.procs.as_mut_slice(), calls);
    Ok(depth(alloc, &program))
}

#[test]
fn the_first_line_is_told_where_procedures_stand_in_another_order(
    rt: HostRuntime,
) -> Result<(), Fail> {
    for (calls, want) in [
        // A procedure that is not there calls nothing.
        ([(10, 9), (20, 9), (30, 9)], Ok(2)),
        (
            [(10, 1), (30, 2), (20, 1)],
            Err(RuleFault::Recursion { line: 20 }),
        ),
        (
            [(30, 1), (20, 0), (10, 1)],
            Err(RuleFault::Recursion { line: 20 }),
        ),
        (
            [(30, 1), (20, 2), (10, 0)],
            Err(RuleFault::Recursion { line: 10 }),
        ),
    ] {
        assert_eq!(rt; depth_by_calls(rt.alloc(), &calls)?, want);
    }
    Ok(())
}
