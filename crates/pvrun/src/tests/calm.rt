//! Files and sinks that never fail, and memory that may be wanting.

use super::words::WORDS;
use super::{Input, SHORTEST, alone, text, with_script, words_of};
use pv_explain::{Census, Explain, Pointers};
use pv_script::{CalmFiles, CalmSink};
use pv_serve::{NoMemory, STORY_EVENTS, serve_calmly};
use pv_watch::{Hall, Watch};
use std::alloc::Global;
use std::process::Abort;
use std::test::*;

// Sources, and what an independent executor of the same rules reports of them.
const SOURCES: &str = r#"
int main(void){return 0;} => 0 exit status=0 turn=3
int main(void){return 2147483647 + 1;} => 1 undefined clause=6.5p5 reason=overflow line=1 turn=5
int main(void){return 1 - 1;} => 0 exit status=0 turn=5
int x = 40, y = 2; int main(void){return x + y;} => 0 exit status=42 turn=5
int x = 1; int main(void) { int *p = &x; *p = 5; return x + 2; } => 0 exit status=7 turn=13
int main(void){int a; return a;} => 2 indeterminate line=1 turn=3
int main(void){goto x;} => 8 refused reason=profile at=15 word=goto
int a@; => 8 refused reason=byte at=5
int a; /* x => 8 refused reason=token at=7
int main(void){return 0; => 8 refused reason=syntax whole=0
int a; int b = c; int main(void){return 0;} => 8 refused reason=constraint index=1
int f(void); int main(void){return f();} => 8 refused reason=unresolved name=f
"#;

// What is told by files and sinks that never fail, with room for the report. Only here is memory allowed to be wanting.
fn calmly_told(alloc: Global, input: Input<'_>, words: &str) -> Result<String, NoMemory> {
    let words = words_of(alloc, words)?;
    let mut files = CalmFiles::new(alloc);
    files.put("a.c", input.source)?;
    files.put("s", input.script)?;
    let mut out = CalmSink::new(alloc, 4096)?;
    let mut report = CalmSink::new(alloc, 400)?;
    let status = served_calmly(alloc, words.as_slice(), &mut files, &mut out, &mut report)?;
    text(alloc, status, out.bytes(), report.bytes())
}

// The status of a call over devices that never fail, before the program's three watchers.
fn served_calmly(
    alloc: Global,
    words: &[String],
    files: &mut CalmFiles,
    out: &mut CalmSink,
    report: &mut CalmSink,
) -> Result<u8, NoMemory> {
    let mut watchers: Vec<Box<dyn Watch>> = Vec::new(alloc);
    watchers.push(Box::new(alloc, Explain::new(alloc, STORY_EVENTS))?)?;
    watchers.push(Box::new(alloc, Census::new(alloc, u64::MAX))?)?;
    watchers.push(Box::new(alloc, Pointers::new(alloc, STORY_EVENTS))?)?;
    let mut hall = Hall::new(alloc, watchers)?;
    Ok(serve_calmly(alloc, words, files, out, report, &mut hall))
}

// A file that isn't there can't be read, but a calm one has no bytes then: lines with that fault are left out.
#[test]
fn calm_devices_tell_the_same(rt: HostRuntime) {
    let input = with_script(SHORTEST);
    for line in WORDS.lines() {
        if let Some((words, wanted)) = line.split_once(" => ") {
            if wanted != "11 fault read" {
                let told = calmly_told(rt.alloc(), input, words).expect(&rt, "no memory");
                assert!(rt;
                    told.strip_suffix('\n') == Some(wanted),
                    "{words}: {told:?}"
                );
            }
        }
    }
}

// Where memory is wanting, nothing is reported; else the line that is wanted is.
#[test]
fn want_of_memory_reports_nothing(rt: HostRuntime) {
    for line in SOURCES.lines() {
        if let Some((source, wanted)) = line.split_once(" => ") {
            is_told_or_nothing(&rt, rt.alloc(), source, wanted);
        }
    }
}

fn is_told_or_nothing(rt: &impl Abort, alloc: Global, source: &str, wanted: &str) {
    // Memory that is wanting outside of the call says nothing of it.
    if let Ok(told) = calmly_told(alloc, alone(source.as_bytes()), "run a.c") {
        if told.as_str() != "13 " {
            assert!(rt;
                told.strip_suffix('\n') == Some(wanted),
                "{source:?}: {told:?}"
            );
        }
    }
}

// A whole program: words, the script, the source, the status, the output, and the report with the texts of those who watch.
#[derive(Clone, Copy)]
struct Whole {
    words: &'static str,
    script: &'static str,
    source: &'static str,
    status: &'static str,
    output: &'static str,
    report: &'static str,
}

// Programs that make pairs, allocate, print, and reach what has ended, and what an independent executor of the same rules tells of them.
const WHOLE: [Whole; 4] = [
    Whole {
        words: "run a.c --script s --watch pointers",
        script: "x 1 0x20000\ny 1 0x20004\n",
        source: r#"int printf(const char *, ...);
int x = 1, y = 2;
int main(void) {
  unsigned long a = (unsigned long)(&x + 1);
  unsigned long b = (unsigned long)&y;
  int *p = (int *)a;
  *p = 11;
  printf("%d %d %d\n", x, y, a == b);
  return 0;
}
"#,
        status: "0 ",
        output: "1 11 1\n",
        report: r#"exit status=0 turn=29
pair 1 turn=14 address=0x20004 low=x#1 high=y#1
use 1 turn=18 test=live left=x#1,y#1
use 1 turn=19 test=range left=y#1
"#,
    },
    Whole {
        words: "run a.c --script s --watch pointers",
        script: "x 1 0x20000\ny 1 0x20004\n",
        source: r#"void *memcpy(void *, const void *, unsigned long);
int x = 1, y = 2;
int main(void) {
  unsigned long a = (unsigned long)(&x + 1), b = (unsigned long)&y;
  int *p = (int *)a, *q = (int *)b, *r;
  memcpy(&r, &p, 4);
  memcpy((char *)&r + 4, (char *)&q + 4, 4);
  *r = 7;
  return y;
}
"#,
        status: "0 ",
        output: "",
        report: r#"exit status=7 turn=44
pair 1 turn=14 address=0x20004 low=x#1 high=y#1
pair 2 turn=17 address=0x20004 low=x#1 high=y#1
pair 3 turn=41 address=0x20004 low=x#1 high=y#1
use 3 turn=41 test=live left=x#1,y#1
use 3 turn=42 test=range left=y#1
"#,
    },
    Whole {
        words: "run a.c",
        script: "",
        source: r#"void *malloc(unsigned long);
void free(void *);
int printf(const char *, ...);
typedef unsigned long word;
struct node { int v; word link; };
static struct node *step(struct node *at, word from) {
  return (struct node *)(at->link ^ from);
}
static void walk(struct node *at) {
  word from = 0;
  while (at) {
    struct node *next = step(at, from);
    printf("%d\n", at->v);
    from = (word)at;
    at = next;
  }
}
int main(void) {
  struct node *n[3];
  int i;
  for (i = 0; i < 3; i++) {
    n[i] = malloc(sizeof(struct node));
    n[i]->v = i + 1;
  }
  n[0]->link = (word)n[1];
  n[1]->link = (word)n[0] ^ (word)n[2];
  n[2]->link = (word)n[1];
  walk(n[0]);
  walk(n[2]);
  for (i = 0; i < 3; i++)
    free(n[i]);
  return 0;
}
"#,
        status: "0 ",
        output: "1\n2\n3\n3\n2\n1\n",
        report: "exit status=0 turn=330\n",
    },
    Whole {
        words: "run a.c --script s --watch explain",
        script: "a 1 0x20000\nb 1 0x20000\n",
        source: r#"int main(void) {
  int *p;
  { int a = 1; p = &a; }
  { int b = 2; }
  return *p;
}
"#,
        status: "1 ",
        output: "",
        report: r#"undefined clause=6.2.4p2 reason=ended line=5 turn=15
create a#1 turn=2 base=0x20000 size=4
end a#1 turn=9
fault turn=15
"#,
    },
];

// Where memory is wanting in a longer run, nothing is reported, and a first part of the output stands.
#[test]
fn want_of_memory_leaves_a_part_of_the_output(rt: HostRuntime) {
    for whole in &WHOLE {
        is_whole_or_cut_off(&rt, rt.alloc(), *whole);
    }
}

fn is_whole_or_cut_off(rt: &impl Abort, alloc: Global, whole: Whole) {
    let input = Input {
        source: whole.source.as_bytes(),
        script: whole.script.as_bytes(),
    };
    // Memory that is wanting outside of the call says nothing of it.
    if let Ok(told) = calmly_told(alloc, input, whole.words) {
        let is_right = match told.strip_prefix("13 ") {
            Some(part) => whole.output.starts_with(part),
            None => is_told_of(told.as_str(), whole),
        };
        assert!(rt; is_right, "{}: {told:?}", whole.source);
    }
}

// Whether a text is the status, the output and the report.
fn is_told_of(told: &str, whole: Whole) -> bool {
    let Some(rest) = told.strip_prefix(whole.status) else {
        return false;
    };
    rest.strip_prefix(whole.output) == Some(whole.report)
}
