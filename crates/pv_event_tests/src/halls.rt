// Halls of watchers that say what they have seen, with which names.
ghost use Rattle.std.specs.Prelude.{◌≡◌, ◌<◌, ◌++◌, length, codes, IfOk};
ghost use Rattle.std.specs.Fmt.{decimal};

use pv_fault::{Clause, Fault, Reason, Verdict};
use pv_script::Names;
use pv_watch::{Attend, Event, Hall, NoMemory, Watch, What};
use std::alloc::Global;

/// A watcher that says how many events it has seen and how many names there are, with room for some events. Its kind has
/// none of the numbers whose texts are given.
#[derive(Drop)]
struct Counting {
    kind: u8,
    wants: u64,
    room: usize,
    seen: Vec<Event>,
    ghost own: { 4 < kind },
    ghost some: { 0 < wants },
}

impl Watch for Counting {
    ghost seen = { λ s. s.seen.items };

    ghost its_kind = { λ s. record {
      number = s.kind;
      text = λ wants seen names. decimal (length seen) ++ codes " " ++ decimal (length names) ++ codes "\n";
    } };

    ghost its_wants = { λ s. s.wants };

    fn kind(&self) -> u8 {
        self.kind
    }

    fn wants(&self) -> u64 {
        self.wants
    }

    fn see(&mut self, e: &Event) -> Attend {
        if self.seen.len() == self.room || self.seen.push(*e).is_err() {
            return Attend::NoMemory;
        }
        if self.seen.len() as u64 == self.wants {
            Attend::Enough
        } else {
            Attend::More
        }
    }

    fn text(&self, alloc: Global, names: &Names) -> Result<Vec<u8>, NoMemory> {
        let seen = self.seen.len();
        let known = names.len();
        let text = counted(alloc, seen, known)?;
        Ok(text)
    }
}

fn counted(alloc: Global, seen: usize, known: u32) -> Result<Vec<u8>, NoMemory>
    ensures { IfOk result (λ v. v.items ≡ decimal seen ++ codes " " ++ decimal known ++ codes "\n") }
{
    let text = format!(in alloc; "{seen} {known}\n")?;
    Ok(text.into_bytes())
}

fn watcher_of(alloc: Global, kind: u8, wants: u64, room: usize) -> Counting
    requires own { 4 < kind }
    requires some { 0 < wants }
{
    Counting {
        kind,
        wants,
        room,
        seen: Vec::new(alloc),
    }
}

const VERDICT: Verdict = Verdict::Undefined(Fault {
    clause: Clause::Indirection,
    reason: Reason::Ended,
});

/// Events, each with a name that is new when it comes.
static EVENTS: [(What, &[u8]); 4] = [
    (
        What::Made {
            inst: 1,
            name: 0,
            k: 1,
            base: 4096,
            size: 4,
        },
        b"x",
    ),
    (What::Exposed { inst: 1 }, b"y"),
    (What::Ended { inst: 1 }, b"z"),
    (
        What::Fault {
            verdict: VERDICT,
            low: Some(1),
            high: None,
            pair: None,
        },
        b"last",
    ),
];

/// Two of one kind, one that wants one event, and one of a kind that is dropped.
#[test]
fn tells_those_who_are_present(rt: HostRuntime) {
    let alloc = rt.alloc();
    let mut watchers: Vec<Box<dyn Watch>> = Vec::new(alloc);
    for (kind, wants, room) in [(7, 3, 10), (8, 1, 10), (9, 2, 0), (7, 9, 10)] {
        assert!(rt; kind > 4 && wants > 0);
        let watcher = Box::new(alloc, watcher_of(alloc, kind, wants, room)).expect(
            &rt,
            "no memory",
        );
        watchers.push(watcher).expect(&rt, "no memory");
    }
    let mut hall = Hall::new(alloc, watchers).expect(&rt, "no memory");
    hall.keep(&[8, 7]);
    let mut names = Names::new(alloc);
    for (what, name) in EVENTS {
        names.add(name).expect(&rt, "no memory");
        hall.tell(&Event { turn: 5, what }, &names)
            .expect(&rt, "no memory");
    }
    let texts = hall.texts(&names).expect(&rt, "no memory");
    let told = b"3 3\n1 1\n4 4\n";
    assert_eq!(rt; texts.as_slice(), told.as_slice());
}

/// The third event finds no memory.
#[test]
fn says_that_memory_ran_out(rt: HostRuntime) {
    let alloc = rt.alloc();
    let mut watchers: Vec<Box<dyn Watch>> = Vec::new(alloc);
    let watcher = Box::new(alloc, watcher_of(alloc, 7, 9, 2)).expect(&rt, "no memory");
    watchers.push(watcher).expect(&rt, "no memory");
    let mut hall = Hall::new(alloc, watchers).expect(&rt, "no memory");
    let names = Names::new(alloc);
    let what = What::Ended { inst: 1 };
    assert!(rt; hall.tell(&Event { turn: 1, what }, &names).is_ok());
    assert!(rt; hall.tell(&Event { turn: 2, what }, &names).is_ok());
    assert!(rt; hall.tell(&Event { turn: 3, what }, &names).is_err());
}
