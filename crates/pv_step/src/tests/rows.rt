//! Calls, and what is told of each: by the slow reference, and, where a device fails, worked out by hand.

/// The files that words may name beside the commands `c`.
pub(super) const FILES: [(&str, &str); 10] = [
    ("a.c", "int main(void){return 0;}"),
    (
        "r.c",
        "int main(void) { int *p; { int a = 1; p = &a; } { int b = 2; } return *p; }",
    ),
    ("r", "a 1 0x20000\nb 1 0x20000\n"),
    ("x.c", "int main(void){return 0 }"),
    (
        "p.c",
        "int printf(const char *, ...); int main(void){printf(\"hello\\n\"); return 0;}",
    ),
    ("x", "a 1 0x20000\na b c\n"),
    (
        "u.c",
        "int main(void) { int a[2], b[2]; unsigned long u = (unsigned long)&b[0]; unsigned long v = (unsigned long)&a[0]; int *q = (int *)u; b[0] = 5; return *q + (v != u); }",
    ),
    ("u", "a 1 0x20000\nb 1 0x20008\n"),
    ("l.c", "int main(void) { for (;;) ; }"),
    (
        "h.c",
        "void *malloc(unsigned long); void free(void *); int main(void) { char *p = malloc(3), *q = malloc(5); free(p); p = malloc(1); return p == q; }",
    ),
];

/// Calls: the numbers of the read and of the write that fail, 0 for none, where a write takes three bytes, the words, a colon and the
/// commands, the status and the report. A slash stands for a line feed. A file of a few bytes takes two reads.
pub(super) const CALLS: &str = r#"
0 0 r.c c --script r: go 9/list/next/list/go 100/ => 0/turn 9 running/live p#1 base=0x10000 size=8/live count=1/turn 10 running/live p#1 base=0x10000 size=8/live b#1 base=0x20000 size=4/live count=2/undefined clause=6.2.4p2 reason=ended line=1 turn=15/
0 0 r.c c --script r: go 9/list/next/list/go 100 => 0/turn 9 running/live p#1 base=0x10000 size=8/live count=1/turn 10 running/live p#1 base=0x10000 size=8/live b#1 base=0x20000 size=4/live count=2/undefined clause=6.2.4p2 reason=ended line=1 turn=15/
0 0 r.c c --script r:  => 0/
0 0 r.c c --script r: list/pairs/at 0x10000/ => 0/live p#1 base=0x10000 size=8/live count=1/pairs count=0/inside p#1 offset=0/at count=1/
0 0 r.c c --script r: next/next/next/next/next/next/prev/prev/prev/prev/prev/prev/list/ => 0/turn 2 running/turn 9 running/turn 10 running/turn 12 running/undefined clause=6.2.4p2 reason=ended line=1 turn=15/undefined clause=6.2.4p2 reason=ended line=1 turn=15/turn 12 running/turn 10 running/turn 9 running/turn 2 running/turn 1 running/turn 1 running/live p#1 base=0x10000 size=8/live count=1/
0 0 r.c c --script r: go 12/at 0x20000/at 0x20004/at 0x20005/back 1/at 0x20000/at 0x20004/at 0x1FFFF/back 3/at 0x20000/step 2/list/ => 0/turn 12 running/at count=0/at count=0/at count=0/turn 11 running/inside b#1 offset=0/at count=1/inside b#1 offset=4/at count=1/at count=0/turn 8 running/inside a#1 offset=0/at count=1/turn 10 running/live p#1 base=0x10000 size=8/live b#1 base=0x20000 size=4/live count=2/
0 0 r.c c --script r: go 14/go 15/go 16/step 1000000/back 999999/back 1000000/list/step 5/list/ => 0/turn 14 running/undefined clause=6.2.4p2 reason=ended line=1 turn=15/undefined clause=6.2.4p2 reason=ended line=1 turn=15/undefined clause=6.2.4p2 reason=ended line=1 turn=15/turn 1 running/turn 1 running/live p#1 base=0x10000 size=8/live count=1/turn 6 running/live p#1 base=0x10000 size=8/live a#1 base=0x20000 size=4/live count=2/
0 0 r.c c: go 9/list/go 15/list/ => 0/turn 9 running/live p#1 base=0x10000 size=8/live count=1/undefined clause=6.2.4p2 reason=ended line=1 turn=15/live p#1 base=0x10000 size=8/live count=1/
0 0 a.c c: list/next/prev/go 5/pairs/at 0xffffffffffffffff/ => 0/live count=0/turn 1 running/turn 1 running/exit status=0 turn=3/pairs count=0/at count=0/
0 0 p.c c: list/next/back 1/prev/list/at 0x10007/ => 0/live @lit#1 base=0x10000 size=7/live count=1/turn 1 running/turn 1 running/turn 1 running/live @lit#1 base=0x10000 size=7/live count=1/inside @lit#1 offset=7/at count=1/
0 0 u.c c --script u: go 1/next/next/next/next/next/next/next/list/pairs/at 0x20008/prev/pairs/list/go 1000000/pairs/list/ => 0/turn 1 running/turn 6 running/turn 11 running/turn 14 running/turn 24 running/exit status=6 turn=27/exit status=6 turn=27/exit status=6 turn=27/live count=0/pair 1 address=0x20008 kept=b#1/pairs count=1/at count=0/turn 24 running/pair 1 address=0x20008 kept=b#1/pairs count=1/live a#1 base=0x20000 size=8 exposed/live b#1 base=0x20008 size=8 exposed/live u#1 base=0x10000 size=8/live v#1 base=0x10020 size=8/live q#1 base=0x10040 size=8/live count=5/exit status=6 turn=27/pair 1 address=0x20008 kept=b#1/pairs count=1/live count=0/
0 0 l.c c: go 1000000/back 1/step 1/list/next/ => 0/turn 1000000 running/turn 999999 running/turn 1000000 running/live count=0/turn 1000000 running/
0 0 h.c c: go 1000000/list/at 0x10000/next/prev/list/prev/list/prev/list/prev/list/ => 0/exit status=0 turn=19/live @heap#2 base=0x10060 size=5/live @heap#3 base=0x10080 size=1/live count=2/at count=0/exit status=0 turn=19/exit status=0 turn=19/live @heap#2 base=0x10060 size=5/live @heap#3 base=0x10080 size=1/live count=2/turn 15 running/live p#1 base=0x10000 size=8/live q#1 base=0x10020 size=8/live @heap#2 base=0x10060 size=5/live @heap#3 base=0x10080 size=1/live count=4/turn 10 running/live p#1 base=0x10000 size=8/live q#1 base=0x10020 size=8/live @heap#2 base=0x10060 size=5/live count=3/turn 7 running/live p#1 base=0x10000 size=8/live q#1 base=0x10020 size=8/live @heap#1 base=0x10040 size=3/live @heap#2 base=0x10060 size=5/live count=4/
0 0 x.c c: list/ => 8/refused reason=syntax whole=0/
0 0 x.c c --script x: list/ => 9/script reason=line line=2/
0 0 a.c c --script x: list/ => 9/script reason=line line=2/
0 0 a.c c: jump 3/ => 19/command reason=line line=1/
0 0 a.c c: list// => 19/command reason=line line=2/
0 0 a.c c: / => 19/command reason=line line=1/
0 0 a.c c: list/go 0/ => 19/command reason=line line=2/
0 0 a.c c: go 01 => 19/command reason=line line=1/
0 0 a.c c: go 1000001 => 19/command reason=line line=1/
0 0 a.c c: go  1 => 19/command reason=line line=1/
0 0 a.c c: go 1  => 19/command reason=line line=1/
0 0 a.c c:  list => 19/command reason=line line=1/
0 0 a.c c: go => 19/command reason=line line=1/
0 0 a.c c: list 1 => 19/command reason=line line=1/
0 0 a.c c: at 12 => 19/command reason=line line=1/
0 0 a.c c: at 0x => 19/command reason=line line=1/
0 0 a.c c: at 0x12345678901234567 => 19/command reason=line line=1/
0 0 a.c c: next/prev/list/pairs/LIST => 19/command reason=line line=5/
0 0 x.c c: jump 3 => 19/command reason=line line=1/
0 0 a.c c => 0/
0 0  => 10/words/
0 0 a.c => 10/words/
0 0 a.c c r => 10/words/
0 0 a.c c --script => 10/words/
0 0 a.c c --script r r => 10/words/
0 0 a.c c --turns 5 => 10/words/
0 0 --script r a.c c => 10/words/
1 0 a.c c: list/ => 11/fault read/
2 0 a.c c: list/ => 11/fault read/
3 0 a.c c: list/ => 11/fault read/
4 0 a.c c: list/ => 11/fault read/
5 0 a.c c: list/ => 0/live count=0/
3 0 a.c c --script r: list/ => 11/fault read/
6 0 a.c c --script r: list/ => 11/fault read/
7 0 a.c c --script r: list/ => 0/live count=0/
3 0 x.c c: jump/ => 11/fault read/
0 0 none c: list/ => 11/fault read/
0 0 a.c none => 11/fault read/
0 0 a.c c --script none: list/ => 11/fault read/
0 1 a.c c: list/ => 12/
0 2 a.c c: list/ => 12/liv
0 3 a.c c: jump/ => 12/comman
1 2 a.c c: list/ => 12/fau
0 2 run a.c c => 12/wor
0 0 '' c => 10/words/
0 0 a.c '' => 10/words/
0 0 a.c c --script '' => 10/words/
"#;

/// Calls over files and a sink that never fail: the words, a colon and the commands, the status and the report. A file that isn't there is empty.
pub(super) const CALMLY: &str = r#"
a.c c: go 2/list/ => 0/turn 2 running/live count=0/
none c: list/ => 8/refused reason=main/
a.c none => 0/
a.c c: jump/ => 19/command reason=line line=1/
 => 10/words/
"#;
