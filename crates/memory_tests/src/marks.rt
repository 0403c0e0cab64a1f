//! Marks of blocks, by an example.

use access_marks::Marks;
use sial_meaning::Clash;
use sial_syntax::Access;
use std::test::Fail;

#[test]
fn an_epoch_keeps_its_first_access(rt: HostRuntime) -> Result<(), Fail> {
    let mut marks = Marks::open(rt.alloc(), 2)?;
    assert!(rt; marks.note(1, 1, Access::Add, 10).is_ok());
    assert!(rt; marks.note(1, 1, Access::Add, 11).is_ok());
    let clash = Clash {
        later: Access::Max,
        later_line: 12,
        earlier: Access::Add,
        earlier_line: 10,
    };
    assert!(rt; marks.note(1, 1, Access::Max, 12) == Err(clash));
    assert!(rt; marks.note(0, 1, Access::Store, 13).is_ok());
    assert!(rt; marks.note(0, 1, Access::Store, 14).is_err());
    assert!(rt; marks.note(1, 2, Access::Store, 15).is_ok());
    Ok(())
}
