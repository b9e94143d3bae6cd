//! Lists, and what is told of each, worked out by hand.

/// The files that a list may name.
pub(super) const FILES: [(&str, &str); 5] = [
    ("a.c", "int main(void){return 0;}"),
    ("b.c", "int main(void){return 1 << 31;}"),
    (
        "c.c",
        "int printf(const char *, ...); int main(void){printf(\"hello\\n\"); return 0;}",
    ),
    ("s", "x 1 0x20000\n"),
    ("o", "help\n"),
];

/// Calls: the numbers of the read and of the write that fail, 0 for none, where a write takes three bytes, the words, a colon and the
/// list, the status and the report. A slash stands for a line feed. A file of a few bytes takes two reads.
pub(super) const CALLS: &str = r#"
0 0 l: a.c - - 2 turns bound=2 => 0/pass 1/suite cases=1 passed=1/
0 0 l: a.c - - 3 turns bound=3/b.c - - 9 x => 15/fail 1 line exit status=0 turn=3/fail 2 line undefined clause=6.5.7p4 reason=shift line=1 turn=5/clause 6.5.7p4 cases=1/suite cases=2 passed=0/
0 0 l: b.c - - 9 undefined clause=6.5.7p4 reason=shift line=1 turn=5/b.c - - 9 x => 15/pass 1/fail 2 line undefined clause=6.5.7p4 reason=shift line=1 turn=5/clause 6.5.7p4 cases=2/suite cases=2 passed=1/
0 0 l: c.c s o 99 exit status=0 turn=6 => 15/fail 1 output at=3/suite cases=1 passed=0/
0 0 l: #/// => 0/suite cases=0 passed=0/
0 0 l: a.c - - 2 => 16/list reason=line line=1/
0 0 l: a.c - - 0 x => 16/list reason=line line=1/
1 0 l: a.c - - 2 turns bound=2 => 11/fault read/
2 0 l: a.c - - 2 turns bound=2 => 11/fault read/
3 0 l: a.c s o 3 exit status=0 turn=3 => 11/fault read/
4 0 l: a.c s o 3 exit status=0 turn=3 => 11/fault read/
5 0 l: a.c s o 3 exit status=0 turn=3 => 11/fault read/
6 0 l: a.c s o 3 exit status=0 turn=3 => 11/fault read/
7 0 l: a.c s o 3 exit status=0 turn=3 => 11/fault read/
8 0 l: a.c s o 3 exit status=0 turn=3 => 11/fault read/
9 0 l: a.c s o 3 exit status=0 turn=3 => 15/fail 1 output at=0/suite cases=1 passed=0/
0 0 l: a.c - - 2 turns bound=2/none - - 9 x => 11/fault read/
0 0 none => 11/fault read/
0 1 l: a.c - - 2 turns bound=2 => 12/
0 2 l: a.c - - 2 turns bound=2 => 12/pas
0 3 l: a.c - - 2 turns bound=2 => 12/pass 1
0 2 l: a.c - - 2 => 12/lis
1 2 l: a.c - - 2 turns bound=2 => 12/fau
0 0  => 10/words/
0 0 l l => 10/words/
0 0 '' => 10/words/
0 2 l l => 12/wor
"#;

/// Calls over files and a sink that never fail: the words, a colon and the list, the status and the report. A file that isn't there is empty.
pub(super) const CALMLY: &str = r#"
l: a.c - - 2 turns bound=2 => 0/pass 1/suite cases=1 passed=1/
l: none - - 9 refused reason=main/a.c none none 9 exit status=0 turn=3 => 0/pass 1/pass 2/suite cases=2 passed=2/
none => 0/suite cases=0 passed=0/
 => 10/words/
"#;
