// What the watchers say of a list of events, as an implementation in another language says it.
use pv_explain::{Census, Explain, Pointers};
use pv_fault::Verdict;
use pv_script::Names;
use pv_watch::{Attend, Event, Watch, What};
use std::alloc::Global;
use std::process::Abort;

fn made(inst: u64, name: u32, k: u64, base: u64, size: u64) -> What {
    What::Made {
        inst,
        name,
        k,
        base,
        size,
    }
}

fn pair(pair: u64, address: u64, low: u64, high: u64) -> What {
    What::Pair {
        pair,
        address,
        low,
        high,
    }
}

fn tried(pair: u64, test: u8, low: bool, high: bool) -> What {
    What::Tried {
        pair,
        test,
        low,
        high,
    }
}

fn fault(low: Option<u64>, pair: Option<u64>) -> What {
    What::Fault {
        verdict: Verdict::Undecided,
        low,
        high: None,
        pair,
    }
}

/// Events with their turns, of which no run tells all: instances and pairs are made twice or never, a name has no text, a test
/// no word, a pair is used before it is made, and there are two faults.
fn events() -> [(u64, What); 18] {
    [
        (1, made(1, 0, 1, 4096, 4)),
        (2, made(2, 1, 1, 4100, 4)),
        (2, made(1, 1, 2, 0, 1)),
        (3, What::Exposed { inst: 1 }),
        (3, What::Exposed { inst: 9 }),
        (4, tried(1, 1, true, true)),
        (4, tried(7, 3, true, true)),
        (4, pair(1, 4100, 1, 2)),
        (5, pair(1, 16, 2, 1)),
        (5, pair(2, 0, 3, 9)),
        (6, made(3, 5, 1, 8192, 8)),
        (7, tried(1, 2, true, false)),
        (7, tried(1, 9, false, true)),
        (8, tried(1, 4, false, false)),
        (9, What::Ended { inst: 2 }),
        (9, fault(Some(1), Some(1))),
        (10, fault(Some(2), None)),
        (11, What::Ended { inst: 1 }),
    ]
}

/// Shows a watcher the events until it has seen enough. Asserts what kind it is, how many events it has seen, and what it says.
fn tells<W: Watch>(rt: &impl Abort, alloc: Global, mut watcher: W, kind: u8, text: &str) {
    let mut names = Names::new(alloc);
    names.add(b"x").ok().expect(rt, "no memory");
    names.add(b"y").ok().expect(rt, "no memory");
    let mut seen = 0u64;
    for (turn, what) in events() {
        let attend = watcher.see(&Event { turn, what });
        seen = seen.saturating_add(1);
        assert!(rt; attend != Attend::NoMemory);
        if attend == Attend::Enough {
            break;
        }
    }
    assert_eq!(rt; watcher.kind(), kind);
    assert_eq!(rt; seen, watcher.wants().min(18));
    let told = watcher.text(alloc, &names).ok().expect(rt, "no memory");
    assert_eq!(rt; told.as_slice(), text.as_bytes(), "{text}");
}

#[test]
fn faults_are_explained(rt: HostRuntime) {
    let alloc = rt.alloc();
    tells(&rt, alloc, Explain::new(alloc, 7), 1, "no fault\ncut\n");
    let story = "\
create x#1 turn=1 base=0x1000 size=4
create x#1 turn=2 base=(nil) size=1
expose x#1 turn=3
use 1 turn=4 test=live left=x#1,y#1
pair 1 turn=4 address=0x1004 low=x#1 high=y#1
pair 1 turn=5 address=0x10 low=y#1 high=x#1
use 1 turn=7 test=range left=x#1
use 1 turn=7 test=? left=y#1
use 1 turn=8 test=same left=
fault turn=9
cut
";
    tells(&rt, alloc, Explain::new(alloc, 16), 1, story);
    let whole_story = "\
create x#1 turn=1 base=0x1000 size=4
create x#1 turn=2 base=(nil) size=1
expose x#1 turn=3
use 1 turn=4 test=live left=x#1,y#1
pair 1 turn=4 address=0x1004 low=x#1 high=y#1
pair 1 turn=5 address=0x10 low=y#1 high=x#1
use 1 turn=7 test=range left=x#1
use 1 turn=7 test=? left=y#1
use 1 turn=8 test=same left=
fault turn=9
end x#1 turn=11
";
    tells(&rt, alloc, Explain::new(alloc, 100), 1, whole_story);
}

#[test]
fn events_are_counted(rt: HostRuntime) {
    let alloc = rt.alloc();
    let first = "create 3\nend 0\nexpose 2\npair 0\nuse 2\nfault 0\ncut\n";
    tells(&rt, alloc, Census::new(alloc, 7), 2, first);
    let all = "create 4\nend 2\nexpose 2\npair 3\nuse 5\nfault 2\n";
    tells(&rt, alloc, Census::new(alloc, 100), 2, all);
}

#[test]
fn pairs_are_followed(rt: HostRuntime) {
    let alloc = rt.alloc();
    let first = "\
use 1 turn=4 test=live left=?,?
use 7 turn=4 test=block left=?,?
cut
";
    tells(&rt, alloc, Pointers::new(alloc, 7), 3, first);
    let all = "\
use 1 turn=4 test=live left=x#1,y#1
use 7 turn=4 test=block left=?,?
pair 1 turn=4 address=0x1004 low=x#1 high=y#1
pair 1 turn=5 address=0x10 low=y#1 high=x#1
pair 2 turn=5 address=(nil) low=? high=?
use 1 turn=7 test=range left=x#1
use 1 turn=7 test=? left=y#1
use 1 turn=8 test=same left=
";
    tells(&rt, alloc, Pointers::new(alloc, 100), 3, all);
}
