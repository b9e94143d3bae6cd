//! Calls, and what is told of each, worked out by hand: turns by docs/LANGUAGE.md, addresses by docs/MEMORY.md, lines by docs/FORMATS.md.

/// The files that words may name.
pub(super) const FILES: [(&str, &str); 12] = [
    (
        "r.c",
        "int f(int n) { return n ? f(n - 1) : 1 / n; } int main(void) { int x = 7; return f(1) + x; }",
    ),
    (
        "p.c",
        "int main(void) { int a[1], b[1]; unsigned long u = (unsigned long)(a + 1), v = (unsigned long)b; int *p = (int *)v, *q = (int *)(u - 4); a[0] = 1; return 1 / (a[0] - 1); }",
    ),
    ("p", "a 1 0x20000\nb 1 0x20004\n"),
    (
        "s.c",
        "int n = 3; int main(void) { int *p; { int a = 1; p = &a; } { static int s = 2; int b; } return n; }",
    ),
    ("x.c", "int main(void){return 0 }"),
    ("x", "a 1 0x20000\na b c\n"),
    (
        "c.c",
        "int g(int n) { return 4 / n; }\nint f(int n) { return g(n) + g(n - 1); }\nint (*t[2])(int) = { g, f };\nint main(void)\n{\n  return f(t[1](2) - 5);\n}\n",
    ),
    (
        "v.c",
        "int f(int n) { return n ? f(n - 1) : 1 / n; } int main(void) { return f(4); }",
    ),
    (
        "z.c",
        "int main(void) { int *p; { int a = 1; p = &a; } return p != 0; }",
    ),
    (
        "f.c",
        "int printf(const char *, ...); int main(void) { int x = 0; return printf(\"%d\", 1 / x); }",
    ),
    ("n.c", "int n; int main(void) { return n; }"),
    ("n", "n 1 0x20002\n"),
];

/// Calls: the numbers of the read and of the write that fail, 0 for none, where a write takes three bytes, the words, the status and the report. A slash
/// stands for a line feed. A file of a few bytes takes two reads.
pub(super) const CALLS: &str = r#"
0 0 r.c => 0/undefined clause=6.5.5p5 reason=divide line=1 turn=22/call f line=1/object n#2 type=int address=0x10040 size=4 value=0/call f line=1/call main line=1/
0 0 r.c --all end 1 5 9 100 => 0/undefined clause=6.5.5p5 reason=divide line=1 turn=22/call f line=1/object n#2 type=int address=0x10040 size=4 value=0/call f line=1/object n#1 type=int address=0x10020 size=4 value=1/call main line=1/object x#1 type=int address=0x10000 size=4 value=7/turn 1/call main line=1/turn 5/call main line=1/object x#1 type=int address=0x10000 size=4 value=7/turn 9/call f line=1/object n#1 type=int address=0x10020 size=4 value=1/call main line=1/object x#1 type=int address=0x10000 size=4 value=7/turn 100 not taken/
0 0 p.c --script p end 20 => 0/undefined clause=6.5.5p5 reason=divide line=1 turn=31/call main line=1/object a#1 type=int [1] address=0x20000 size=4 value=[1]/object b#1 type=int [1] address=0x20004 size=4 value=[unset]/object u#1 type=unsigned long address=0x10000 size=8 value=131076/object v#1 type=unsigned long address=0x10020 size=8 value=131076/object p#1 type=int * address=0x10040 size=8 value=pair 1 {a#1 + 4, one past the end} or {b#1 + 0}/object q#1 type=int * address=0x10060 size=8 value={a#1 + 0}/turn 20/call main line=1/object a#1 type=int [1] address=0x20000 size=4 value=[unset]/object b#1 type=int [1] address=0x20004 size=4 value=[unset]/object u#1 type=unsigned long address=0x10000 size=8 value=131076/object v#1 type=unsigned long address=0x10020 size=8 value=131076/object p#1 type=int * address=0x10040 size=8 value=pair 1 {a#1 + 4, one past the end} or {b#1 + 0}/object q#1 type=int * address=0x10060 size=8 value={a#1 + 0}/
0 0 s.c --all 9 end => 0/turn 9/call main line=1/object p#1 type=int * address=0x10040 size=8 value=unset/object a#1 type=int address=0x10060 size=4 value=1/static n#1 type=int address=0x10000 size=4 value=3/static s#1 type=int address=0x10020 size=4 value=2/exit status=3 turn=12/static n#1 type=int address=0x10000 size=4 value=3/static s#1 type=int address=0x10020 size=4 value=2/
0 0 s.c end end => 0/exit status=3 turn=12/exit status=3 turn=12/
0 0 c.c 16 34 end => 0/turn 16/call g line=2/object n#2 type=int address=0x10080 size=4 value=2/call f line=6/call main line=4/turn 34/call f line=6/object n#4 type=int address=0x100c0 size=4 value=1/call main line=4/undefined clause=6.5.5p5 reason=divide line=1 turn=48/call g line=2/object n#6 type=int address=0x10100 size=4 value=0/call f line=6/call main line=4/
0 0 v.c => 0/undefined clause=6.5.5p5 reason=divide line=1 turn=43/call f line=1/object n#5 type=int address=0x10080 size=4 value=0/call f line=1/call f line=1/call f line=1/call f line=1/call main line=1/
0 0 z.c => 0/undefined clause=6.2.4p2 reason=ended line=1 turn=12/call main line=1/object p#1 type=int * address=0x10000 size=8 value={a#1 + 0, ended}/
0 0 z.c --zap off 12 end => 0/turn 12/call main line=1/object p#1 type=int * address=0x10000 size=8 value={a#1 + 0, ended}/exit status=1 turn=13/
0 0 f.c => 0/undefined clause=6.5.5p5 reason=divide line=1 turn=9/call main line=1/object x#1 type=int address=0x10020 size=4 value=0/
0 0 n.c --script n --all => 0/placement reason=misaligned name=n k=1 line=1 turn=0/
0 0 p.c --script p --sides h 20 => 0/turn 20/call main line=1/object a#1 type=int [1] address=0x20000 size=4 value=[unset]/object b#1 type=int [1] address=0x20004 size=4 value=[unset]/object u#1 type=unsigned long address=0x10000 size=8 value=131076/object v#1 type=unsigned long address=0x10020 size=8 value=131076/object p#1 type=int * address=0x10040 size=8 value=pair 1 {b#1 + 0}/object q#1 type=int * address=0x10060 size=8 value={a#1 + 0}/
0 0 p.c --sides - --script p => 0/sides ended pair=1/call main line=1/object a#1 type=int [1] address=0x20000 size=4 value=[unset]/object b#1 type=int [1] address=0x20004 size=4 value=[unset]/object u#1 type=unsigned long address=0x10000 size=8 value=131076/object v#1 type=unsigned long address=0x10020 size=8 value=131076/object p#1 type=int * address=0x10040 size=8 value=unset/object q#1 type=int * address=0x10060 size=8 value=unset/
0 0 x.c => 8/refused reason=syntax whole=0/
0 0 x.c --script x => 9/script reason=line line=2/
0 0 r.c --script x => 9/script reason=line line=2/
0 0  => 10/words/
0 0 '' => 10/words/
0 0 r.c 0 => 10/words/
0 0 r.c 01 => 10/words/
0 0 r.c 1000001 => 10/words/
0 0 r.c --turns 5 6 => 10/words/
0 0 r.c --turns 0 => 10/words/
0 0 r.c ende => 10/words/
0 0 r.c -1 => 10/words/
0 0 r.c --all --all => 10/words/
0 0 r.c --script => 10/words/
0 0 r.c --script '' => 10/words/
0 0 r.c --zap maybe => 10/words/
0 0 r.c --sides x => 10/words/
0 0 r.c --watch census => 10/words/
0 0 r.c end --all => 10/words/
0 0 r.c end end end end end end end end end end end end end end end end end => 10/words/
1 0 r.c => 11/fault read/
3 0 r.c --script p => 11/fault read/
0 0 none.c => 11/fault read/
0 0 r.c --script none => 11/fault read/
0 1 r.c => 12/
0 2 r.c => 12/und
0 2 r.c 0 => 12/wor
1 1 r.c => 12/
"#;

/// Calls whose devices never fail.
pub(super) const CALMLY: &str = r#"
r.c => 0/undefined clause=6.5.5p5 reason=divide line=1 turn=22/call f line=1/object n#2 type=int address=0x10040 size=4 value=0/call f line=1/call main line=1/
r.c --all end 1 5 9 100 => 0/undefined clause=6.5.5p5 reason=divide line=1 turn=22/call f line=1/object n#2 type=int address=0x10040 size=4 value=0/call f line=1/object n#1 type=int address=0x10020 size=4 value=1/call main line=1/object x#1 type=int address=0x10000 size=4 value=7/turn 1/call main line=1/turn 5/call main line=1/object x#1 type=int address=0x10000 size=4 value=7/turn 9/call f line=1/object n#1 type=int address=0x10020 size=4 value=1/call main line=1/object x#1 type=int address=0x10000 size=4 value=7/turn 100 not taken/
"#;
