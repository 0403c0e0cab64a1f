//! Texts and tuples hold what they were given, where there is memory.

use sial_syntax::{Text, Tuple};
use std::test::Fail;

#[test]
fn texts_and_tuples_hold_what_they_were_given(rt: HostRuntime) -> Result<(), Fail> {
    let text = Text::from_slice(rt.alloc(), b"esum")?;
    assert_eq!(rt; text.as_slice(), b"esum".as_slice());
    assert_eq!(rt; text.len(), 4);
    assert_eq!(rt; text.is_empty(), false);
    assert!(rt; text == Text::from_slice(rt.alloc(), b"esum")?);
    assert!(rt; text != Text::from_slice(rt.alloc(), b"e")?);
    assert_eq!(rt; Text::from_vec(text.into_vec()).len(), 4);
    let tuple = Tuple::from_slice(rt.alloc(), &[3, 1, 4, 1, 5, 9])?;
    assert_eq!(rt; tuple.as_slice(), [3, 1, 4, 1, 5, 9].as_slice());
    assert_eq!(rt; tuple.len(), 6);
    assert!(rt; tuple != Tuple::from_slice(rt.alloc(), &[3])?);
    Ok(())
}
