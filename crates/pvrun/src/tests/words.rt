//! Words, and what an independent executor of the same rules reports of them.

use super::{Input, SHORTEST, SOUND, expect, told, with_script};
use std::test::*;

/// Lines of words, for the source [`super::SHORTEST`] as `a.c` and a script of one line as `s`. A space at the end leaves an
/// empty word.
pub(super) const WORDS: &str = r#"
run a.c => 0 exit status=0 turn=3
check a.c => 0 checked declarations=1
run a.c --script s => 0 exit status=0 turn=3
run a.c --turns 3 => 0 exit status=0 turn=3
run a.c --turns 2 => 6 turns bound=2
run a.c --script s --turns 3 => 0 exit status=0 turn=3
run a.c --turns 2 --script s => 6 turns bound=2
run a.c --script a.c => 9 script reason=line line=1
run s --script s => 8 refused reason=syntax whole=0
run s --script a.c => 9 script reason=line line=1
run a.c --script --turns => 11 fault read
run a.c --script t => 11 fault read
run t --script s => 11 fault read
check t => 11 fault read
 => 10 words
run => 10 words
run  => 10 words
go a.c => 10 words
run a.c b.c => 10 words
run a.c s --script => 10 words
run a.c --turns => 10 words
run a.c --turns  => 10 words
run a.c --turns 0 => 10 words
run a.c --turns 01 => 10 words
run a.c --turns 1x => 10 words
run a.c --turns 100000001 => 10 words
run a.c --turns 99999999999999999999 => 10 words
run a.c --turns 3 --turns 3 => 10 words
run a.c --script => 10 words
run a.c --script  => 10 words
run a.c --script s --script s => 10 words
run a.c --script s --turns => 10 words
run a.c --turns 3 --script s s => 10 words
run a.c --sides l => 10 words
run a.c --zap on => 0 exit status=0 turn=3
run a.c --zap off => 0 exit status=0 turn=3
run a.c --zap => 10 words
--turns 3 run a.c => 10 words
run --script s a.c => 10 words
run  --turns 3 => 10 words
check => 10 words
check  => 10 words
check a.c --turns 3 => 10 words
check a.c --script s => 10 words
layout a.c --script s => 10 words
settle a.c --sides - => 0 exit status=0 turn=3
settle a.c --zap off --sides h => 0 exit status=0 turn=3
settle a.c --sides lx => 10 words
settle a.c --sides l --sides l => 10 words
run a.c --watch => 10 words
run a.c --watch  => 10 words
run a.c --watch journal => 10 words
run a.c --watch Explain => 10 words
run a.c --watch 1 => 10 words
run a.c --watch --watch => 10 words
run a.c --watch --turns => 10 words
run a.c --watch census --watch census => 10 words
run a.c --watch explain --watch explain => 10 words
run a.c --watch pointers --watch pointers => 10 words
run a.c --watch census --watch explain --watch census => 10 words
run a.c --watch explain --watch census --watch pointers --watch explain => 10 words
run a.c --watch explain census => 10 words
run a.c --watch explain,census => 10 words
run a.c --watch census --turns => 10 words
run a.c --watch census --turns 0 => 10 words
run a.c --turns 3 --watch => 10 words
run a.c --script s --watch => 10 words
run a.c --watch census --sides l => 10 words
run a.c --watch census --zap => 10 words
--watch census run a.c => 10 words
run --watch census a.c => 10 words
run  --watch census => 10 words
check a.c --watch census => 10 words
check a.c --watch explain => 10 words
layout a.c --watch pointers => 10 words
settle a.c --watch census => 10 words
gen => 10 words
gen  => 10 words
gen 0 => 10 words
gen 01 => 10 words
gen 3x => 10 words
gen x => 10 words
gen +3 => 10 words
gen -3 => 10 words
gen 8193 => 10 words
gen 10000 => 10 words
gen 18446744073709551619 => 10 words
gen 99999999999999999999999 => 10 words
gen 3 3 => 10 words
gen 3 --turns 5 => 10 words
gen 3 --script s => 10 words
gen 3 --watch census => 10 words
gen 3 --zap on => 10 words
gen a.c => 10 words
run t --watch census => 11 fault read
run a.c --script t --watch census => 11 fault read
run a.c --watch census --script a.c => 9 script reason=line line=1
run s --watch census => 8 refused reason=syntax whole=0
"#;

// Each line of words has its status and its report.
#[test]
fn words_are_told(rt: HostRuntime) {
    let input = with_script(SHORTEST);
    for line in WORDS.lines() {
        if let Some((words, wanted)) = line.split_once(" => ") {
            let told = told(&rt, rt.alloc(), input, words, SOUND);
            assert!(rt;
                told.strip_suffix('\n') == Some(wanted),
                "{words}: {told:?}"
            );
        }
    }
}

// A zero byte is in no line of a script, but in what says nothing.
#[test]
fn a_zero_byte_in_a_script_is_told(rt: HostRuntime) {
    let rows: [(&[u8], &str); 3] = [
        (
            b"x 1 0x20000\ny 1 0x2\x000004\n",
            "9 script reason=line line=2\n",
        ),
        (b"x 1 0x20000\n\x00\n", "9 script reason=line line=2\n"),
        (b"# \x00\ny 1 0x20004\n", "0 exit status=0 turn=3\n"),
    ];
    for (script, wanted) in &rows {
        let input = Input {
            source: SHORTEST.as_bytes(),
            script,
        };
        let told = told(&rt, rt.alloc(), input, "run a.c --script s", SOUND);
        expect(
            &rt,
            "a zero byte",
            "run a.c --script s",
            told.as_str(),
            wanted,
        );
    }
}
