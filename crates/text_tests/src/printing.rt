//! Programs that are parsed, printed and parsed again.

use crate::texts;
use sial_parser::parse;
use sial_printer::print_program;
use sip_files::MemorySink;
use std::alloc::Global;
use std::test::Fail;

// Every form of declaration and statement, laid out as it is printed.
const FORMS: &[u8] = b"sial forms\n\
aoindex a = 1, nao\n\
moindex i = 1, 2\n\
moaindex j = 2, 2\n\
mobindex k = 1, top\n\
index n = 0, 18446744073709551615\n\
subindex ii of i\n\
static one(a, i)\n\
temp t(ii)\n\
local max(n, n)\n\
distributed d(i, j)\n\
served v(k)\n\
scalar x\n\
scalar y\n\
proc inner\n\
print \"Two, \\ \"\n\
endproc inner\n\
proc empty\n\
endproc empty\n\
do i\n\
do ii in i\n\
t(ii) *= 18446744073709551615\n\
enddo ii\n\
enddo i\n\
pardo n, i\n\
where n < 3\n\
where i != x\n\
endpardo n, i\n\
if x <= 1\n\
else\n\
x = y + 2\n\
endif\n\
if n >= i\n\
y -= x - y\n\
y += d(i, j) * one(a, i)\n\
d(i, j) = t(ii) ^ v(k)\n\
endif\n\
if y > 0\n\
endif\n\
if 3 == y\n\
endif\n\
call inner\n\
get d(i, j)\n\
request v(k)\n\
put d(i, j) max = d(i, j)\n\
put d(i, j) += d(i, j)\n\
prepare v(k) = v(k)\n\
create d\n\
delete d\n\
allocate max(n, *)\n\
deallocate max(*, *)\n\
collective x += y\n\
sip_barrier\n\
server_barrier\n\
execute print_scalar y\n\
execute compute_integrals one(a, i)\n\
endsial forms\n";

// The text that is printed of a text's program.
fn printed(alloc: Global, text: &[u8]) -> Result<Vec<u8>, Fail> {
    let program = parse(alloc, text).ok().ok_or("it is a program")?;
    let mut sink = MemorySink::new(alloc);
    print_program(&program, &mut sink)
        .ok()
        .ok_or("a sink in memory takes all")?;
    Ok(Vec::from_slice(alloc, sink.bytes())?)
}

#[test]
fn a_text_that_is_laid_out_so_is_printed_as_it_is(rt: HostRuntime) -> Result<(), Fail> {
    for text in [texts::FIRST, texts::WRAP, texts::CHUNKS, FORMS] {
        assert_eq!(rt; printed(rt.alloc(), text)?.as_slice(), text);
    }
    Ok(())
}

#[test]
fn what_is_printed_has_the_same_tree(rt: HostRuntime) -> Result<(), Fail> {
    for text in [
        texts::FIRST,
        texts::WRAP,
        texts::SMALL,
        texts::CLASH,
        texts::APART,
        texts::ORDER,
        texts::PART,
        texts::GONE,
        texts::AGAIN,
        texts::TWICE,
        texts::CHUNKS,
        texts::TIGHT,
        texts::SHAPE,
        texts::DISK,
        texts::BIG,
    ] {
        let again = printed(rt.alloc(), text)?;
        let first = parse(rt.alloc(), text).ok().ok_or("it is a program")?;
        let second = parse(rt.alloc(), again.as_slice())
            .ok()
            .ok_or("so is what is printed")?;
        assert!(rt; first == second);
    }
    Ok(())
}

#[test]
fn blanks_case_and_what_may_be_left_out_are_laid_out(rt: HostRuntime) -> Result<(), Fail> {
    let text =
        b"SIAL P\n\n scalar x # one\nindex I=1,2\nserved v(i)\ndo i\nx=-1\nrequest v(i) i\nenddo\nendsial";
    let want =
        b"sial p\nindex i = 1, 2\nserved v(i)\nscalar x\ndo i\nx = 18446744073709551615\nrequest v(i)\nenddo i\nendsial p\n";
    assert_eq!(rt; printed(rt.alloc(), text)?.as_slice(), want.as_slice());
    Ok(())
}

// What a sink has that failed at this write.
fn stopped(alloc: Global, text: &[u8], nth: u64) -> Result<Vec<u8>, Fail> {
    let mut sink = MemorySink::new(alloc);
    sink.fail_at(nth).ok().ok_or("memory is found")?;
    let program = parse(alloc, text).ok().ok_or("it is a program")?;
    print_program(&program, &mut sink)
        .err()
        .ok_or("a write fails")?;
    Ok(Vec::from_slice(alloc, sink.bytes())?)
}

#[test]
fn a_sink_that_fails_has_a_first_part(rt: HostRuntime) -> Result<(), Fail> {
    for nth in [1u64, 2, 9, 40] {
        let part = stopped(rt.alloc(), texts::FIRST, nth)?;
        assert!(rt; texts::FIRST.starts_with(part.as_slice()));
        assert!(rt; part.len() < texts::FIRST.len());
    }
    Ok(())
}
