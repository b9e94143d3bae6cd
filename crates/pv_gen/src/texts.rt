// The text of the program, line by line.
ghost use Rattle.std.specs.Prelude.{◌≡◌, ◌<◌, ◌≤◌, ◌^◌, length, IfOk};
ghost use Rattle.std.specs.List.{flat_map, range_with_len};
ghost use Rattle.std.specs.String.{string_bytes};
ghost use Rattle.pv_gen.specs.Source.{object_line, use_line, source_text};

use crate::NoMemory;
use std::alloc::Global;

/// The text of the program with `n` objects, each of which is exposed once by a cast of its address (C17 6.3.2.3p6).
/// It is shorter than 2^20 bytes, so no reader of sources refuses it for its size. The only error is want of memory.
pub fn source(alloc: Global, n: u32) -> Result<Vec<u8>, NoMemory>
    requires least { 1 ≤ n }
    requires most { n ≤ 8192 }
    ensures text { IfOk result (λ v. v.items ≡ source_text n) }
    ensures small { IfOk result (λ v. length v.items < 2 ^ 20) }
{
    let mut text = Vec::from_slice(alloc, b"unsigned long s;\n")?;
    text.extend_from_slice(&objects(alloc, n)?)?;
    text.extend_from_slice(b"int main(void) {\n")?;
    text.extend_from_slice(&uses(alloc, n)?)?;
    text.extend_from_slice(b"  return (int)(s % 251);\n")?;
    text.extend_from_slice(b"}\n")?;
    Ok(text)
}

/// The definitions of the objects (C17 6.9.2).
fn objects(alloc: Global, n: u32) -> Result<Vec<u8>, NoMemory>
    ensures { IfOk result (λ v. v.items ≡ flat_map object_line (range_with_len 0 n)) }
{
    let mut text = Vec::new(alloc);
    for k in 0..n {
        let line = definition(alloc, k)?;
        text.extend_from_slice(line.as_bytes())?;
    }
    Ok(text)
}

/// The statements that go through the objects' addresses (C17 6.3.2.3p5, p6).
fn uses(alloc: Global, n: u32) -> Result<Vec<u8>, NoMemory>
    ensures { IfOk result (λ v. v.items ≡ flat_map use_line (range_with_len 0 n)) }
{
    let mut text = Vec::new(alloc);
    for k in 0..n {
        let line = statement(alloc, k)?;
        text.extend_from_slice(line.as_bytes())?;
    }
    Ok(text)
}

/// The line that defines object `k` (C17 6.9.2).
fn definition(alloc: Global, k: u32) -> Result<String, NoMemory>
    ensures { IfOk result (λ s. string_bytes s ≡ object_line k) }
{
    let value = k % 97;
    Ok(format!(in alloc; "int v{k} = {value};\n")?)
}

/// The line that reads object `k` through its address (C17 6.3.2.3p5, p6).
fn statement(alloc: Global, k: u32) -> Result<String, NoMemory>
    ensures { IfOk result (λ s. string_bytes s ≡ use_line k) }
{
    Ok(format!(in alloc;
        "  {{ unsigned long a = (unsigned long)&v{k}; int *p = (int *)a; s = s + *p; }}\n"
    )?)
}
