//! Statements and calls as no text has them: on other lines, and of procedures that are not there.

use sial_syntax::{Form, Proc, Stmt};

/// Puts the statements within each pardo on these lines.
pub fn put_on_lines(body: &mut [Stmt], lines: &[u32]) {
    for stmt in body.iter_mut() {
        if let Form::Pardo { body, .. } = &mut stmt.form {
            number(body.as_mut_slice(), lines);
        }
    }
}

// Puts statements on these lines.
fn number(stmts: &mut [Stmt], lines: &[u32]) {
    for (stmt, line) in stmts.iter_mut().zip(lines) {
        stmt.line = *line;
    }
}

/// Makes calls of the statements within each pardo.
pub fn call_within(body: &mut [Stmt], line: u32, callee: u16) {
    for stmt in body.iter_mut() {
        if let Form::Pardo { body, .. } = &mut stmt.form {
            call(body.as_mut_slice(), line, callee);
        }
    }
}

// Makes calls of statements.
fn call(stmts: &mut [Stmt], line: u32, callee: u16) {
    for stmt in stmts.iter_mut() {
        stmt.line = line;
        stmt.form = Form::Call { proc: callee };
    }
}

/// Makes calls of the statements of each procedure: the line, and the procedure that is called.
pub fn call_in_each(procs: &mut [Proc], calls: &[(u32, u16)]) {
    for (proc, (line, callee)) in procs.iter_mut().zip(calls) {
        call(proc.body.as_mut_slice(), *line, *callee);
    }
}
