//! Calls, and what is told of each, worked out by hand.

/// The files that words may name beside the journal `j`.
pub(super) const FILES: [(&str, &str); 8] = [
    ("a.c", "int main(void){return 0;}"),
    (
        "r.c",
        "int main(void) { int *p; { int a = 1; p = &a; } { int b = 2; } return *p; }",
    ),
    ("r", "a 1 0x20000\nb 1 0x20000\n"),
    ("x.c", "int main(void){return 0 }"),
    (
        "p.c",
        "int printf(const char *, ...); int main(void){printf(\"hello\\n\"); return 0;}",
    ),
    ("x", "a 1 0x20000\na b c\n"),
    (
        "many.c",
        "int main(void) { int i; for (i = 0; i < 32767; i = i + 1) { int a; } return 0; }",
    ),
    (
        "more.c",
        "int g; int main(void) { int i; for (i = 0; i < 32767; i = i + 1) { int a; } return 0; }",
    ),
];

/// Calls: the numbers of the read and of the write that fail, 0 for none, where a write takes three bytes, the words, a colon and the
/// journal, the status and the report. A slash stands for a line feed. A file of a few bytes takes two reads.
pub(super) const CALLS: &str = r#"
0 0 write r.c --script r => 0/create p#1 turn=1 base=0x10000 size=8/create a#1 turn=2 base=0x20000 size=4/end a#1 turn=9/create b#1 turn=10 base=0x20000 size=4/end b#1 turn=12/fault turn=15/events 6/
0 0 write r.c --turns 2 --script r => 0/create p#1 turn=1 base=0x10000 size=8/create a#1 turn=2 base=0x20000 size=4/events 2/
0 0 write a.c => 0/events 0/
0 0 write a.c --turns 100000000 => 0/events 0/
0 0 write p.c => 0/create @lit#1 turn=0 base=0x10000 size=7/events 1/
0 0 write x.c => 8/refused reason=syntax whole=0/
0 0 write a.c --script x => 9/script reason=line line=2/
0 0 write x.c --script x => 9/script reason=line line=2/
0 0 check j: create p#1 turn=1 base=0x10000 size=8/create a#1 turn=2 base=0x20000 size=4/end a#1 turn=9/create b#1 turn=10 base=0x20000 size=4/end b#1 turn=12/fault turn=15/events 6/ => 0/journal ok events=6/
0 0 check j: create p#1 turn=1 base=0x10000 size=8/create a#1 turn=2 base=0x20000 size=4/create b#1 turn=10 base=0x20000 size=4/end b#1 turn=12/fault turn=15/events 5/ => 17/journal bad line=3/
0 0 check j: events 0/ => 0/journal ok events=0/
0 0 check j: events 0 => 17/journal bad line=1/
0 0 check j: events 1/ => 17/journal bad line=1/
0 0 check j: events 0/a => 17/journal bad line=2/
0 0 check j => 17/journal bad line=1/
0 0 check j: create a#1 turn=1 base=0x10000 size=4/create a#1 turn=1 base=0x20000 size=4/events 2/ => 17/journal bad line=2/
0 0 check j: create a#1 turn=1 base=0x10000 size=4/expose a#1 turn=1/create b#1 turn=1 base=0x10004 size=4/expose b#1 turn=1/pair 1 turn=2 address=0x10004 low=a#1 high=b#1/use 1 turn=3 test=range left=b#1/events 6/ => 0/journal ok events=6/
0 0 check j: create a#1 turn=1 base=0x10000 size=4/expose a#1 turn=1/create b#1 turn=1 base=0x10005 size=4/expose b#1 turn=1/pair 1 turn=2 address=0x10004 low=a#1 high=b#1/events 5/ => 17/journal bad line=5/
1 0 check j: events 0/ => 11/fault read/
2 0 check j: events 0/ => 11/fault read/
3 0 check j: events 0/ => 0/journal ok events=0/
1 0 write a.c --script r => 11/fault read/
4 0 write a.c --script r => 11/fault read/
5 0 write a.c --script r => 0/events 0/
0 0 check none => 11/fault read/
0 0 write none => 11/fault read/
0 0 write a.c --script none => 11/fault read/
0 1 check j: events 0/ => 12/
0 2 check j: events 0/ => 12/jou
0 3 write a.c => 12/events
1 2 check j: events 0/ => 12/fau
0 0  => 10/words/
0 0 check => 10/words/
0 0 check '' => 10/words/
0 0 check j j => 10/words/
0 0 check j --turns 3: events 0/ => 10/words/
0 0 write => 10/words/
0 0 write '' => 10/words/
0 0 write a.c r => 10/words/
0 0 write a.c --script => 10/words/
0 0 write a.c --script '' => 10/words/
0 0 write a.c --script r --script r => 10/words/
0 0 write a.c --turns 0 => 10/words/
0 0 write a.c --turns 05 => 10/words/
0 0 write a.c --turns 100000001 => 10/words/
0 0 write a.c --turns 5 --turns 5 => 10/words/
0 0 write a.c --zap off => 10/words/
0 0 run a.c => 10/words/
0 2 run a.c => 12/wor
"#;

/// Calls over files and a sink that never fail: the words, a colon and the journal, the status and the report. A file that isn't there is empty.
pub(super) const CALMLY: &str = r#"
write a.c => 0/events 0/
write none => 8/refused reason=main/
write a.c --script none => 0/events 0/
check j: events 0/ => 0/journal ok events=0/
check none => 17/journal bad line=1/
 => 10/words/
"#;
