//! A program that is shared, a second one of each value, and the texts of the faults.

use s38_base::{Attr, AttrList, Bytes, Op, Seq, TryClone};
use s38_code::{
    Code, CreateFault, EndCause, Event, Operand, Operands, Program, Reply, Request, StepFault,
    Template, TextLines, Val,
};
use std::alloc::Global;
use std::test::Fail;

/// Whether a second one is written as the first.
fn is_clone(alloc: Global, one: &Event) -> Result<bool, Fail> {
    let other = one.try_clone(alloc)?;
    Ok(format!(in alloc; "{one:?}")?.as_str() == format!(in alloc; "{other:?}")?.as_str())
}

#[test]
fn values_are_made_again(rt: HostRuntime) -> Result<(), Fail> {
    let alloc = rt.alloc();
    let attrs: AttrList = Seq::from_slice(alloc, &[Attr::Pointer])?;
    let bytes = Bytes::from_slice(alloc, b"AB")?;
    let attr = Attr::Chars { len: 2 };
    let operands = vec![in alloc; Operand::Attrs(attrs), Operand::Value { attr, bytes }]?;
    let request = Request {
        op: Op::Addn,
        round: true,
        operands: Operands::new(alloc, operands)?,
    };
    let events = [
        Event::Start,
        Event::Act { depth: 3, request },
        Event::Finish {
            cause: EndCause::Budget,
        },
    ];
    for event in &events {
        assert!(rt; is_clone(alloc, event)?);
    }
    Ok(())
}

#[test]
fn a_program_is_shared(rt: HostRuntime) -> Result<(), Fail> {
    let alloc = rt.alloc();
    let mut lines = TextLines::new(alloc);
    lines.push(b"PROGRAM P")?;
    let program = Program {
        template: Template::new(alloc, lines)?.try_clone(alloc)?,
        rows: Seq::new(alloc),
        code: Seq::new(alloc),
        adopts: true,
        propagates: false,
    };
    let code = Code::new(alloc, program)?;
    let reply = Reply::Done(Seq::from_vec(vec![in alloc; Val::Code(code)]?));
    let again = reply.try_clone(alloc)?;
    assert_eq!(rt;
        format!(in alloc; "{again:?}")?.as_str(),
        format!(in alloc; "{reply:?}")?.as_str()
    );
    Ok(())
}

#[test]
fn faults_are_told(rt: HostRuntime) -> Result<(), Fail> {
    let alloc = rt.alloc();
    let bad = CreateFault::Bad {
        id: 0x2A04,
        number: 7,
    };
    assert_eq!(rt; format!(in alloc; "{bad}")?.as_str(), "2A04 7");
    assert_eq!(rt;
        format!(in alloc; "{}", StepFault::Stopped)?.as_str(),
        "the machine has stopped"
    );
    Ok(())
}
