// Lists of cases, and what is told of them (docs/FORMATS.md, Suites).
use pv_cases::{
    Case, Expected, Got, ListError, Told, cases, compare, long_output, refusal, report, status,
};
use std::alloc::Global;
use std::process::Abort;

/// Two cases: one without script and output, and one with both, behind a line that says nothing.
static LIST: &[u8] = b"first.c - - 1000000 exit status=7 turn=17
# a comment
second.c second.script second.out 20 bound turn=20
";

/// What the second case of the list is.
fn check_second(rt: &impl Abort, case: &Case<'_>) {
    assert!(rt; case.source == "second.c" && case.script == Some("second.script"));
    assert!(rt; case.output == Some("second.out") && case.bound == 20);
    assert_eq!(rt; case.expected, b"bound turn=20".as_slice());
}

#[test]
fn a_list_has_its_cases(rt: HostRuntime) {
    let Ok(found) = cases(rt.alloc(), LIST) else {
        panic!(rt; "no list");
    };
    assert_eq!(rt; found.len(), 2);
    assert!(rt; found[0].script.is_none() && found[0].output.is_none());
    check_second(&rt, &found[1]);
}

/// A line whose bound is no number.
#[test]
fn a_line_without_a_reading_is_told(rt: HostRuntime) {
    let Err(error) = cases(rt.alloc(), b"# a list\na.c - - ten exit status=0 turn=1") else {
        panic!(rt; "a list");
    };
    assert!(rt; error == ListError::BadLine { line: 2 });
    let told = refusal(rt.alloc(), error).expect(&rt, "no memory");
    assert_eq!(rt; told.as_slice(), b"list reason=line line=2\n".as_slice());
    let long = long_output(rt.alloc(), 3).expect(&rt, "no memory");
    assert_eq!(rt; long.as_slice(), b"list reason=output case=3\n".as_slice());
}

/// What is told of a case that is to end by this line and to print `ab`, and that ended by another and printed `ac`.
fn compared(rt: &impl Abort, alloc: Global, number: u64, expected: &[u8], line: &[u8]) -> Told {
    let wanted = Expected {
        line: expected,
        output: Some(b"ab"),
    };
    let got = Got {
        line,
        output: b"ac",
        clause: Some("6.2.4p2"),
    };
    compare(alloc, number, wanted, got).expect(rt, "no memory")
}

#[test]
fn a_report_names_what_differs(rt: HostRuntime) {
    let mut told = Vec::new(rt.alloc());
    for (expected, line) in [
        (b"one".as_slice(), b"one\n".as_slice()),
        (b"one".as_slice(), b"two\n".as_slice()),
    ] {
        let number = told.len() as u64 + 1;
        told.push(compared(&rt, rt.alloc(), number, expected, line))
            .expect(&rt, "no memory");
    }
    let text = report(rt.alloc(), &told).expect(&rt, "no memory");
    let wanted =
        "fail 1 output at=1\nfail 2 line two\nclause 6.2.4p2 cases=2\nsuite cases=2 passed=0\n";
    assert_eq!(rt; text.as_slice(), wanted.as_bytes());
    assert!(rt; status(&told) == 15);
}
