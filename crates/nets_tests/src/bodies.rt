//! Tests of what bodies name.
use pm_bits::Op;
use pm_calls::{asked_methods, called_methods};
use pm_design::{Callee, Ex, Part, Side, St};
use pm_io::{Boxed, List, NoMemory};
use pm_touched::names_of;
use std::alloc::Global;

fn bit(signal: u32) -> Part {
    Part {
        owner: 0,
        signal,
        lo: 0,
        width: 1,
    }
}

// `s.a[s.b] @= s.c + s.c` where `s.d` and `m.rdy()` hold, and else a push, a pop and a call.
fn body(alloc: Global) -> Result<List<St>, NoMemory> {
    let sum = Ex::Bin(
        Op::Add,
        Boxed::new(alloc, Ex::Get(bit(3)))?,
        Boxed::new(alloc, Ex::Get(bit(3)))?,
    );
    let elements = List::from_slice(alloc, [bit(0), bit(1)].as_slice())?;
    let mut yes = List::new(alloc);
    yes.push(St::SetPick(Ex::Get(bit(2)), elements, sum))?;
    let mut arguments = List::new(alloc);
    arguments.push(Ex::Number(5))?;
    let mut no = List::new(alloc);
    no.push(St::Pop(6, Side::Left, None))?;
    no.push(St::Call(Callee::Own(8), arguments, None))?;
    let mut body = List::new(alloc);
    body.push(St::If(condition(alloc)?, yes, no))?;
    Ok(body)
}

// `s.d & m.rdy()`.
fn condition(alloc: Global) -> Result<Ex, NoMemory> {
    Ok(Ex::Bin(
        Op::And,
        Boxed::new(alloc, Ex::Get(bit(4)))?,
        Boxed::new(alloc, Ex::Ready(Callee::Port(9)))?,
    ))
}

#[test]
fn bodies_name_parts_states_and_callees(rt: HostRuntime) {
    let body = body(rt.alloc()).expect(&rt, "memory");
    let named = names_of(rt.alloc(), body.as_slice()).expect(&rt, "memory");
    assert!(rt; named.reads.as_slice() == [bit(4), bit(2), bit(3), bit(3)].as_slice());
    assert!(rt; named.writes.as_slice() == [bit(0), bit(1)].as_slice());
    assert!(rt; named.state_reads.as_slice() == [6, 5].as_slice());
    assert!(rt; named.state_writes.as_slice() == [6].as_slice());
    assert!(rt; named.asked.as_slice() == [Callee::Port(9)].as_slice());
    assert!(rt; named.called.as_slice() == [Callee::Own(8)].as_slice());
}

#[test]
fn bodies_call_methods_and_ask_whether_they_are_ready(rt: HostRuntime) {
    let body = body(rt.alloc()).expect(&rt, "memory");
    let called = called_methods(rt.alloc(), body.as_slice()).expect(&rt, "memory");
    assert!(rt; called.as_slice() == [Callee::Own(8)].as_slice());
    let condition = condition(rt.alloc()).expect(&rt, "memory");
    let asked = asked_methods(rt.alloc(), &condition).expect(&rt, "memory");
    assert!(rt; asked.as_slice() == [Callee::Port(9)].as_slice());
}
