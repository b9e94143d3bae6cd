// Provenance names, pairs and storage instances.
ghost use Rattle.pv_inst.specs.Table.{IsMadeIn};

use crate::scripts::{names, neighbours};
use pv_inst::{Instances, Kind, Miss, Test, Tried};
use pv_prov::{Pairs, Prov, Stands, same_name};
use pv_script::Names;
use std::alloc::Global;
use std::process::Abort;

/// A pair is made, and settled to its high one.
fn settle(rt: &impl Abort, pairs: &mut Pairs) {
    assert!(rt; pairs.next() == 1);
    let k = pairs.make(3, 4).expect(rt, "no memory");
    assert!(rt; k == 1 && pairs.len() == 1);
    pairs.keep(k, false, true);
    pairs.well_formed();
    assert!(rt; pairs.stands(Prov::Pair(k)).high == Some(4));
    let twin = pairs.twin(k).expect(rt, "no pair");
    assert!(rt; twin.low == 3 && !twin.keeps_low);
}

#[test]
fn a_pair_keeps_what_survived(rt: HostRuntime) {
    let mut pairs = Pairs::new(rt.alloc());
    settle(&rt, &mut pairs);
    assert!(&rt; same_name(Prov::Pair(1), Prov::Pair(1)));
    assert!(&rt; !Prov::Inst(3).is_empty());
}

/// A new object of eight bytes.
fn make(rt: &impl Abort, table: &mut Instances, names: &Names, name: u32) -> u64 {
    assert!(rt; name < names.len());
    let heap = names.text(name) == b"@heap".as_slice();
    assert!(rt; !heap);
    match table.create(names, name, 8, 8, Kind::Declared { constant: false }) {
        Ok(i) => i,
        Err(_) => panic!(rt; "no instance"),
    }
}

/// A table of two objects of eight bytes that touch: instance 1 from 0x20000 on, and instance 2 behind it.
fn touching(rt: &impl Abort, alloc: Global) -> Instances {
    let names = names(rt, alloc);
    let mut table = Instances::new(alloc, neighbours(rt, alloc), &names, true).expect(
        rt,
        "no memory",
    );
    assert!(rt; make(rt, &mut table, &names, 2) == 1 && make(rt, &mut table, &names, 3) == 2);
    table
}

/// Asserts that a name was made.
fn known(rt: &impl Abort, table: &Instances, p: Prov)
    ensures { IsMadeIn table.now p }
{
    assert!(rt; table.knows(p));
}

/// A name, exposed.
fn expose(rt: &impl Abort, table: &mut Instances, p: Prov) {
    known(rt, table, p);
    table.expose(p);
}

/// What is known of the second object.
fn tell(rt: &impl Abort, table: &Instances) {
    let info = table.info(2).expect(rt, "no live instance");
    assert!(rt; info.name == 3 && info.size == 8);
    assert!(rt; table.base(2) == 0x20008);
}

/// Nothing waits to be told.
fn ask(rt: &impl Abort, table: &Instances) {
    table.well_formed();
    assert!(rt; table.is_told());
}

/// The name that a number finds where both objects were exposed: a new pair, which is known.
fn find(rt: &impl Abort, table: &mut Instances) -> Prov {
    assert!(rt;
        table.candidates(0x20008)
            == Stands {
                low: Some(1),
                high: Some(2)
            }
    );
    let next = table.name_at(0x20008);
    let p = table.name_for(0x20008).expect(rt, "no memory");
    assert!(rt; p == next && p == Prov::Pair(table.pairs_made()));
    p
}

/// A use within the second object settles a pair.
fn settle_by_use(rt: &impl Abort, table: &mut Instances, p: Prov) {
    known(rt, table, p);
    let tried = table.narrow(
        p,
        Test::Range {
            address: 0x2000c,
            size: 4,
        },
    );
    known(rt, table, p);
    assert!(rt;
        tried
            == Ok(Tried {
                pair: Some(1),
                low: false,
                high: true
            })
    );
    assert!(rt;
        table.stands(p)
            == Stands {
                low: None,
                high: Some(2)
            }
    );
}

/// A list of sides settles pair 2.
fn settle_by_side(rt: &impl Abort, table: &mut Instances) {
    let p = Prov::Pair(2);
    known(rt, table, p);
    let twin = table.pair(2).expect(rt, "no pair");
    assert!(rt; twin.keeps_low && twin.keeps_high);
    table.side(2, true);
    known(rt, table, p);
    assert!(rt;
        table.stands(p)
            == Stands {
                low: None,
                high: Some(2)
            }
    );
}

/// Two operands keep what they have in common.
fn settle_by_both(rt: &impl Abort, table: &mut Instances, p: Prov) {
    known(rt, table, p);
    known(rt, table, Prov::Inst(1));
    assert!(rt; table.same(p, Prov::Inst(1)).is_ok());
    known(rt, table, p);
    assert!(rt;
        table.stands(p)
            == Stands {
                low: Some(1),
                high: None
            }
    );
}

/// The second object ends, and a use of its name finds nothing.
fn end(rt: &impl Abort, table: &mut Instances) {
    match table.info(2) {
        Some(_) => table.end(2),
        None => panic!(rt; "no live instance"),
    }
    known(rt, table, Prov::Inst(2));
    assert!(rt; table.narrow(Prov::Inst(2), Test::Live) == Err(Miss::Ended));
}

#[test]
fn instances_are_made_found_and_ended(rt: HostRuntime) {
    let mut table = touching(&rt, rt.alloc());
    tell(&rt, &table);
    ask(&rt, &table);
    expose(&rt, &mut table, Prov::Inst(1));
    expose(&rt, &mut table, Prov::Inst(2));
    assert!(&rt; table.next_exposed() == Some(1));
    let first = find(&rt, &mut table);
    settle_by_use(&rt, &mut table, first);
    let _ = find(&rt, &mut table);
    settle_by_side(&rt, &mut table);
    let third = find(&rt, &mut table);
    settle_by_both(&rt, &mut table, third);
    end(&rt, &mut table);
}
