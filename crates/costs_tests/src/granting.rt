//! Programs that the rules grant.

use sip_files::MemoryFiles;
use sip_grant::load_granted;
use sip_setting::Granted;
use std::alloc::Global;
use std::process::Abort;

/// A program with its input.
pub fn granted(rt: &impl Abort, alloc: Global, program: &[u8], input: &[u8]) -> Granted {
    let mut files = MemoryFiles::new(alloc);
    assert!(rt; files.put("program", program).is_ok());
    assert!(rt; files.put("input", input).is_ok());
    load_granted(alloc, &mut files, "program", "input")
        .ok()
        .expect(rt, "the rules grant it")
}
