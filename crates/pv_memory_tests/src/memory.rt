// Memory: accesses, bytes, and operations on pointers.
ghost use Rattle.std.specs.Prelude.{◌≡◌};
ghost use Rattle.pv_inst.specs.Table.{IsMadeIn};
ghost use Rattle.pv_object.specs.Encoding.{size_of};
ghost use Rattle.pv_object.specs.Later.{IsLater};
ghost use Rattle.pv_object.specs.Reaching.{IsReach};

use crate::scripts::{names, neighbours};
use pv_inst::Kind;
use pv_num::IntKind;
use pv_object::{Asker, Memory, Pointer, Reach, Scalar, Value};
use pv_prov::Prov;
use pv_script::Names;
use pv_shadow::{BLANK, Byte};
use std::alloc::Global;
use std::process::Abort;

/// The eight bytes of instance 1, from 0x20000 on.
pub(crate) const FIRST: Pointer = Pointer {
    address: 0x20000,
    prov: Prov::Inst(1),
};

/// Those of instance 2, right behind them.
pub(crate) const SECOND: Pointer = Pointer {
    address: 0x20008,
    prov: Prov::Inst(2),
};

/// A new instance of eight bytes.
fn make(rt: &impl Abort, memory: &mut Memory, names: &Names, name: u32, kind: Kind) -> u64 {
    assert!(rt; name < names.len());
    let heap = names.text(name) == b"@heap".as_slice();
    assert!(rt; heap == matches!(kind, Kind::Heap));
    match memory.create(names, name, 8, 8, kind) {
        Ok(i) => i,
        Err(_) => panic!(rt; "no instance"),
    }
}

/// A memory with two objects that touch, `FIRST` and `SECOND`, and an allocation.
pub(crate) fn touching(rt: &impl Abort, alloc: Global) -> Memory {
    let names = names(rt, alloc);
    let mut memory = Memory::new(alloc, neighbours(rt, alloc), &names, true).expect(
        rt,
        "no memory",
    );
    let declared = Kind::Declared { constant: false };
    assert!(rt; make(rt, &mut memory, &names, 2, declared) == 1);
    assert!(rt; make(rt, &mut memory, &names, 3, declared) == 2);
    assert!(rt; make(rt, &mut memory, &names, 1, Kind::Heap) == 3);
    memory
}

/// Asserts that the name of a pointer was made.
pub(crate) fn known(rt: &impl Abort, memory: &Memory, p: Pointer)
    ensures { IsMadeIn memory.now.table p.prov }
{
    assert!(rt; memory.instances().knows(p.prov));
}

/// Where an access to eight bytes goes.
fn reach(rt: &impl Abort, memory: &mut Memory, p: Pointer, write: bool) -> Reach
    ensures within { IsReach memory.new.table result 8 }
    ensures later { IsLater memory.old.table memory.new.table }
{
    known(rt, memory, p);
    match memory.reach(p, 8, 8, write, Asker::Access) {
        Ok(at) => at,
        Err(_) => panic!(rt; "no place"),
    }
}

/// A pointer is stored.
fn point(rt: &impl Abort, memory: &mut Memory, p: Pointer, q: Pointer) {
    let at = reach(rt, memory, p, true);
    known(rt, memory, q);
    memory.store(&at, Scalar::Pointer, &Value::Pointer(q), Some(12));
}

/// What eight bytes are as a scalar.
fn load(rt: &impl Abort, memory: &mut Memory, p: Pointer, t: Scalar) -> Value
    requires { size_of t ≡ 8 }
{
    let at = reach(rt, memory, p, false);
    match memory.load(&at, t) {
        Ok((value, _)) => value,
        Err(_) => panic!(rt; "no value"),
    }
}

/// A number is stored and loaded, and read as bytes.
fn hold_a_number(rt: &impl Abort, memory: &mut Memory) {
    let at = reach(rt, memory, FIRST, true);
    assert!(rt; at.inst == 1 && at.offset == 0);
    memory.store(&at, Scalar::Int(IntKind::Long), &Value::Int(-5), Some(8));
    assert!(rt; load(rt, memory, FIRST, Scalar::Int(IntKind::Long)) == Value::Int(-5));
}

/// Its bytes are a number too where they are no object.
fn look_at_bytes(rt: &impl Abort, memory: &mut Memory) {
    let at = reach(rt, memory, FIRST, false);
    assert!(rt; memory.number(&at, 8) == Some(0xffff_ffff_ffff_fffb));
    let bytes = memory.read_bytes(&at, 8).expect(rt, "no memory");
    assert!(rt; bytes.len() == 8);
    let value = memory.value_of(&bytes, Scalar::Int(IntKind::Long));
    assert!(rt; matches!(value, Ok((Value::Int(-5), _))));
}

/// A pointer's name lies in its bytes, and a copy of them is that pointer.
fn hold_a_pointer(rt: &impl Abort, memory: &mut Memory) {
    point(rt, memory, FIRST, SECOND);
    let to = reach(rt, memory, SECOND, true);
    let from = reach(rt, memory, FIRST, false);
    memory.copy(&to, &from, 8);
    assert!(rt; load(rt, memory, SECOND, Scalar::Pointer) == Value::Pointer(SECOND));
}

/// Where it stands there is one whole pointer, to what is live, and no number without a name.
fn ask_for_a_pointer(rt: &impl Abort, memory: &mut Memory) {
    let at = reach(rt, memory, FIRST, false);
    assert!(rt; memory.number(&at, 8).is_none());
    let Some(whole) = memory.whole_pointer(&at) else {
        panic!(rt; "no whole pointer");
    };
    let Ok((value, _)) = memory.tested(whole) else {
        panic!(rt; "it has ended");
    };
    assert!(rt; value == Value::Pointer(SECOND));
}

/// The same by a list of bytes.
fn write_bytes_of_a_pointer(rt: &impl Abort, memory: &mut Memory) {
    let at = reach(rt, memory, FIRST, false);
    let mut bytes = [BLANK; 8];
    memory.read_into(&at, &mut bytes[..]);
    assert!(rt; memory.loaded_name(&bytes[..]) == Some(Prov::Inst(2)));
    memory.write_bytes(&at, &bytes[..]);
}

/// All bytes of an object become one.
fn fill(rt: &impl Abort, memory: &mut Memory) {
    let at = reach(rt, memory, FIRST, true);
    let one = Byte {
        value: Some(1),
        ..BLANK
    };
    assert!(rt; memory.instances().knows(one.prov));
    memory.fill_bytes(&at, 8, one);
    let ones = Value::Int(0x0101_0101_0101_0101);
    assert!(rt; load(rt, memory, FIRST, Scalar::Int(IntKind::Long)) == ones);
}

#[test]
fn bytes_hold_numbers_and_pointers(rt: HostRuntime) {
    let mut memory = touching(&rt, rt.alloc());
    hold_a_number(&rt, &mut memory);
    look_at_bytes(&rt, &mut memory);
    hold_a_pointer(&rt, &mut memory);
    ask_for_a_pointer(&rt, &mut memory);
    write_bytes_of_a_pointer(&rt, &mut memory);
    fill(&rt, &mut memory);
}
