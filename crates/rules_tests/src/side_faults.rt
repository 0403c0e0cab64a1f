//! Programs that keep the side rules, and programs that don't, from their texts.

use crate::texts::parsed;
use scalar_discipline::{RuleFault, classify};
use sial_syntax::Program;
use std::alloc::Global;
use std::test::Fail;

// Nine lines of declarations, so that what follows begins on line 10.
const DECLARED: &[u8] =
    b"sial n\naoindex i = 1, 2\naoindex j = 1, 2\nstatic a(i)\nlocal l(i)\ntemp t(i)\ndistributed d(i)\nscalar s\nscalar e\n";

// What is wrong with the sides of a program, if anything.
fn judged(alloc: Global, program: &Program) -> Option<RuleFault> {
    if program.procs.len() > 256 {
        return Some(RuleFault::OutOfMemory);
    }
    classify(alloc, program).err()
}

// The same of a program of these lines.
fn fault_of(alloc: Global, lines: &[u8]) -> Result<Option<RuleFault>, Fail> {
    let program = parsed(alloc, DECLARED, lines)?;
    Ok(judged(alloc, &program))
}

const FAULTS: [(&[u8], RuleFault); 13] = [
    (
        b"pardo i\npardo j\nendpardo\nendpardo\n",
        RuleFault::PardoInPardo { line: 11 },
    ),
    (
        b"do i\nput d(i) = t(i)\nenddo\n",
        RuleFault::SharedWriteOutside { line: 11 },
    ),
    (
        b"pardo i\nsip_barrier\nendpardo\n",
        RuleFault::SyncInside { line: 11 },
    ),
    (
        b"pardo i\nprint \"x\"\nendpardo\n",
        RuleFault::PrintInside { line: 11 },
    ),
    (
        b"pardo i\na(i) = 1\nendpardo\n",
        RuleFault::StaticWriteInside { line: 11 },
    ),
    (
        b"pardo i\nallocate l(*)\nendpardo\nallocate l(*)\n",
        RuleFault::MixedLocal { line: 13 },
    ),
    (
        b"pardo i\ns = 1\nendpardo\nexecute print_scalar s\n",
        RuleFault::MixedScalar { line: 13 },
    ),
    (
        b"pardo i\ns += 1\nendpardo\nif s < 3\nendif\n",
        RuleFault::PartialRead { line: 13 },
    ),
    (
        b"pardo i\ns += 1\nif s < 3\nendif\nendpardo\n",
        RuleFault::PartialRead { line: 12 },
    ),
    (
        b"proc p\ncall p\nendproc\n",
        RuleFault::Recursion { line: 11 },
    ),
    // The rule of the lower number on one line, and recursion before an earlier line.
    (
        b"pardo i\ncollective s += e\nendpardo\n",
        RuleFault::SyncInside { line: 11 },
    ),
    (
        b"proc p\npardo i\nprint \"x\"\nendpardo\ncall p\nendproc\ncall p\n",
        RuleFault::Recursion { line: 14 },
    ),
    // The earlier of two lines.
    (
        b"do i\nput d(i) = t(i)\nenddo\npardo i\nsip_barrier\nendpardo\n",
        RuleFault::SharedWriteOutside { line: 11 },
    ),
];

#[test]
fn each_side_rule_has_its_fault(rt: HostRuntime) -> Result<(), Fail> {
    for (lines, fault) in FAULTS {
        assert_eq!(rt; fault_of(rt.alloc(), lines)?, Some(fault));
    }
    Ok(())
}

const GRANTED: [&[u8]; 4] = [
    b"",
    b"pardo i\nt(i) = 1\nput d(i) = t(i)\nendpardo\nsip_barrier\n",
    b"s = 0\npardo i\ns += 1\nendpardo\ncollective e += s\nexecute print_scalar e\n",
    b"proc p\ndo i\na(i) = 1\nenddo\nendproc\ncall p\n",
];

#[test]
fn programs_that_keep_the_rules_are_granted(rt: HostRuntime) -> Result<(), Fail> {
    for lines in GRANTED {
        assert_eq!(rt; fault_of(rt.alloc(), lines)?, None);
    }
    Ok(())
}

// So many procedures, each but the last of which calls the next, and a call of the first.
fn chain(alloc: Global, count: u32) -> Result<Vec<u8>, Fail> {
    let mut text = Vec::new(alloc);
    for number in 1..count {
        let next = number + 1;
        text.extend_from_slice(format!(in alloc;
            "proc p{number}\ncall p{next}\nendproc\n"
        )?.as_bytes())?;
    }
    text.extend_from_slice(format!(in alloc; "proc p{count}\nendproc\ncall p1\n")?.as_bytes())?;
    Ok(text)
}

#[test]
fn sixteen_calls_deep_are_granted_and_seventeen_are_not(rt: HostRuntime) -> Result<(), Fail> {
    for (count, fault) in [(16, None), (17, Some(RuleFault::CallTooDeep { line: 60 }))] {
        let lines = chain(rt.alloc(), count)?;
        assert_eq!(rt; fault_of(rt.alloc(), lines.as_slice())?, fault);
    }
    Ok(())
}
