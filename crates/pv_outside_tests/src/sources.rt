// Generated sources, and what an independent generator by the same rules writes.
ghost use Rattle.std.specs.Prelude.{◌≤◌};

use pv_gen::source;
use std::alloc::Global;
use std::process::Abort;

const ONE: &str = r#"unsigned long s;
int v0 = 0;
int main(void) {
  { unsigned long a = (unsigned long)&v0; int *p = (int *)a; s = s + *p; }
  return (int)(s % 251);
}
"#;

const THREE: &str = r#"unsigned long s;
int v0 = 0;
int v1 = 1;
int v2 = 2;
int main(void) {
  { unsigned long a = (unsigned long)&v0; int *p = (int *)a; s = s + *p; }
  { unsigned long a = (unsigned long)&v1; int *p = (int *)a; s = s + *p; }
  { unsigned long a = (unsigned long)&v2; int *p = (int *)a; s = s + *p; }
  return (int)(s % 251);
}
"#;

// What the source with the most objects ends with.
const LAST: &str = r#"
  { unsigned long a = (unsigned long)&v8191; int *p = (int *)a; s = s + *p; }
  return (int)(s % 251);
}
"#;

fn agrees(rt: &impl Abort, alloc: Global, n: u32, length: usize, end: &str)
    requires least { 1 ≤ n }
    requires most { n ≤ 8192 }
{
    let written = source(alloc, n).ok().expect(rt, "no memory");
    let text = str::from_utf8(written.as_slice()).unwrap_or("no text");
    assert!(rt; text.len() == length, "{n}: {} bytes", text.len());
    assert!(rt; text.ends_with(end), "{n}: {text}");
}

#[test]
fn sources_are_written(rt: HostRuntime) {
    agrees(&rt, rt.alloc(), 1, ONE.len(), ONE);
    agrees(&rt, rt.alloc(), 3, THREE.len(), THREE);
    agrees(&rt, rt.alloc(), 8192, 767039, LAST);
}
