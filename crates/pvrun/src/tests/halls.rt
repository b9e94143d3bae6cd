//! Halls that the program itself doesn't make.
ghost use Rattle.std.specs.Prelude.{codes};

use super::{expect, text, words_of};
use pv_explain::{Census, Explain, Pointers};
use pv_script::{MemFiles, MemSink, Names};
use pv_serve::{STORY_EVENTS, serve};
use pv_watch::{Attend, Event, Hall, Watch};
use std::alloc::Global;
use std::process::Abort;
use std::test::*;

// A watcher of a kind that nobody asks for.
#[derive(Drop)]
struct Stranger {
    inner: Census,
}

impl Watch for Stranger {
    ghost seen = { λ w. ⟦<Census as Watch>⟧.seen w.inner };

    ghost its_kind = { λ w. record { number = 9; text = λ wants seen names. codes "a stranger\n" } };

    ghost its_wants = { λ w. ⟦<Census as Watch>⟧.its_wants w.inner };

    fn kind(&self) -> u8 {
        9
    }

    fn wants(&self) -> u64 {
        self.inner.wants()
    }

    fn see(&mut self, e: &Event) -> Attend {
        self.inner.see(e)
    }

    fn text(&self, alloc: Global, _names: &Names) -> Result<Vec<u8>, pv_watch::NoMemory> {
        Ok(Vec::from_slice(alloc, b"a stranger\n")?)
    }
}

// A watcher that finds memory for so many events, and then for none.
#[derive(Drop)]
struct Forgetful {
    inner: Pointers,
    room: u64,
}

impl Watch for Forgetful {
    ghost seen = { λ w. ⟦<Pointers as Watch>⟧.seen w.inner };

    ghost its_kind = { λ w. ⟦<Pointers as Watch>⟧.its_kind w.inner };

    ghost its_wants = { λ w. ⟦<Pointers as Watch>⟧.its_wants w.inner };

    fn kind(&self) -> u8 {
        self.inner.kind()
    }

    fn wants(&self) -> u64 {
        self.inner.wants()
    }

    fn see(&mut self, e: &Event) -> Attend {
        if self.room == 0 {
            return Attend::NoMemory;
        }
        self.room -= 1;
        self.inner.see(e)
    }

    fn text(&self, alloc: Global, names: &Names) -> Result<Vec<u8>, pv_watch::NoMemory> {
        self.inner.text(alloc, names)
    }
}

// A pointer to an object that has ended.
const ENDED: &str = r#"int main(void) {
  int *p;
  { int a = 1; p = &a; }
  { int b = 2; }
  return *p;
}
"#;

// A program that prints more than is kept of its output, and then makes an object.
const PRINTS: &str = r#"int printf(const char *, ...);
int main(void){int i; for (i = 0; i < 1000; i++) printf("0123456789"); { int z; } return 0;}
"#;

// A program that is run with a hall of one census, which wants two events: what is told of it.
const FEW: (&str, &str) = (
    r#"int x = 5;
int main(void) {
  int *p = &x;
  int *q;
  unsigned char *s = (unsigned char *)&p;
  unsigned char *d = (unsigned char *)&q;
  int i;
  for (i = 0; i < 8; i = i + 1)
    d[i] = s[i];
  return *q;
}
"#,
    r#"0 exit status=5 turn=150
create 2
end 0
expose 0
pair 0
use 0
fault 0
cut
"#,
);

const ALL: &str = "run a.c --watch explain --watch census --watch pointers";

// What is told of a source before these watchers, over a sink of which these writes fail.
fn told_before(
    rt: &impl Abort,
    alloc: Global,
    call: (&str, &str),
    refused: &[u64],
    watchers: Vec<Box<dyn Watch>>,
) -> String {
    let (source, words) = call;
    let mut hall = Hall::new(alloc, watchers).expect(rt, "no memory");
    let mut files = MemFiles::new(alloc, &[]).expect(rt, "no memory");
    files.put("a.c", source.as_bytes()).expect(rt, "no memory");
    let mut out = MemSink::new(alloc, 4096, refused).expect(rt, "no memory");
    let mut report = MemSink::new(alloc, 4096, &[]).expect(rt, "no memory");
    let words = words_of(alloc, words).expect(rt, "no memory");
    let status = serve(
        alloc,
        words.as_slice(),
        &mut files,
        &mut out,
        &mut report,
        &mut hall,
    );
    text(alloc, status, out.bytes(), report.bytes()).expect(rt, "no memory")
}

// Two who count, a stranger, and one who wants a single event to explain.
#[test]
fn watchers_who_are_asked_for_say_their_texts(rt: HostRuntime) {
    let alloc = rt.alloc();
    let mut watchers: Vec<Box<dyn Watch>> = Vec::new(alloc);
    let inner = Census::new(alloc, 2);
    let boxed = Box::new(alloc, Census::new(alloc, u64::MAX)).expect(&rt, "no memory");
    watchers.push(boxed).expect(&rt, "no memory");
    let boxed = Box::new(alloc, Census::new(alloc, 2)).expect(&rt, "no memory");
    watchers.push(boxed).expect(&rt, "no memory");
    let boxed = Box::new(alloc, Stranger { inner }).expect(&rt, "no memory");
    watchers.push(boxed).expect(&rt, "no memory");
    let boxed = Box::new(alloc, Explain::new(alloc, 1)).expect(&rt, "no memory");
    watchers.push(boxed).expect(&rt, "no memory");
    let told = told_before(&rt, alloc, (ENDED, ALL), &[], watchers);
    let wanted =
        "1 undefined clause=6.2.4p2 reason=ended line=5 turn=15\ncreate 3\nend 2\nexpose 0\npair 0\nuse 0\nfault 1\ncreate 2\nend 0\nexpose 0\npair 0\nuse 0\nfault 0\ncut\nno fault\ncut\n";
    expect(&rt, ENDED, ALL, told.as_str(), wanted);
}

// At its third event a watcher finds no memory.
#[test]
fn a_watcher_without_memory_ends_the_call(rt: HostRuntime) {
    let alloc = rt.alloc();
    let mut watchers: Vec<Box<dyn Watch>> = Vec::new(alloc);
    let inner = Pointers::new(alloc, STORY_EVENTS);
    let boxed = Box::new(alloc, Census::new(alloc, u64::MAX)).expect(&rt, "no memory");
    watchers.push(boxed).expect(&rt, "no memory");
    let boxed = Box::new(alloc, Forgetful { inner, room: 2 }).expect(&rt, "no memory");
    watchers.push(boxed).expect(&rt, "no memory");
    let told = told_before(&rt, alloc, (ENDED, ALL), &[], watchers);
    expect(&rt, ENDED, ALL, told.as_str(), "13 ");
}

#[test]
fn a_watcher_leaves_when_it_has_seen_enough(rt: HostRuntime) {
    let alloc = rt.alloc();
    let (source, wanted) = FEW;
    let mut watchers: Vec<Box<dyn Watch>> = Vec::new(alloc);
    let boxed = Box::new(alloc, Census::new(alloc, 2)).expect(&rt, "no memory");
    watchers.push(boxed).expect(&rt, "no memory");
    let told = told_before(
        &rt,
        alloc,
        (source, "run a.c --watch census"),
        &[],
        watchers,
    );
    expect(&rt, source, "a census of 2", told.as_str(), wanted);
}

// The first block is written before the third event, so that it is the write that ends the call.
#[test]
fn a_write_fails_before_a_later_event_is_told(rt: HostRuntime) {
    let alloc = rt.alloc();
    let mut watchers: Vec<Box<dyn Watch>> = Vec::new(alloc);
    let inner = Pointers::new(alloc, STORY_EVENTS);
    let boxed = Box::new(alloc, Forgetful { inner, room: 2 }).expect(&rt, "no memory");
    watchers.push(boxed).expect(&rt, "no memory");
    let told = told_before(
        &rt,
        alloc,
        (PRINTS, "run a.c --watch pointers"),
        &[1],
        watchers,
    );
    expect(
        &rt,
        PRINTS,
        "run a.c --watch pointers",
        told.as_str(),
        "12 ",
    );
}
