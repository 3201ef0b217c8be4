//! The rows of declarations, with ample memory.

use s38_code::{Form, TextLines};
use s38_odt::{CodeLines, rows};
use std::test::Fail;

#[test]
fn a_declaration_makes_a_row(rt: HostRuntime) -> Result<(), Fail> {
    let no_code = TextLines::new(rt.alloc());
    let mut lines = TextLines::new(rt.alloc());
    lines.push(b"DCL A PARM 1 PTR")?;
    let code = CodeLines::new(rt.alloc(), no_code.lines())?;
    assert!(rt;
        matches!(
            rows(rt.alloc(), &code, &lines.lines())?.as_slice(),
            [row] if matches!(row.form, Form::Parm { k: 1, .. })
        )
    );
    Ok(())
}
