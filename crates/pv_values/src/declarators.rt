//! Types as C writes them (C17 6.7.6, 6.7.7). The only error of these functions is want of memory.
ghost use Rattle.std.specs.Prelude.{◌≡◌, ◌<◌, ◌++◌, ℕ, [], false, length, IfOk, OnOk};
ghost use Rattle.pv_types.specs.Known.{tree, trees, tys_in};
ghost use Rattle.pv_types.specs.Formed.{parameters_at};
ghost use Rattle.pv_types.specs.Formed.{AllBelow};
ghost use Rattle.pv_typed.specs.Tables.{whole_unit};
ghost use Rattle.pv_values.specs.TypeTexts as specified;
ghost use Rattle.pv_values.specs.TypeTextParts.{rest_text, step_text, called_declarator, IsOutward};

use crate::names::tag_name;
use crate::texts::{add, add_cut, add_number, add_separator};
use pv_layout::bare;
use pv_num::IntKind;
use pv_typed::TypedUnit;
use pv_types::{NoMemory, Term, TypeId};
use std::alloc::Global;

// As many lists of parameters are shown within one another.
const LEVELS: u32 = 3;

// The most parameters of a list that are shown.
const MOST_PARAMS: u64 = 16;

/// The name of a type, as C writes it: `int *[3]`, `int (*)(void)`.
pub fn type_name(alloc: Global, u: &TypedUnit, t: TypeId) -> Result<Vec<u8>, NoMemory>
    requires { t.0 < length u.now.known.terms }
    ensures { IfOk result (λ v. v.items ≡ specified.type_text (whole_unit u.now) (tree u.now.known t.0)) }
{
    declared(alloc, u, LEVELS, t)
}

// What is left: a declarator, and the type that it is declared with.
#[derive(Drop)]
struct Rest {
    t: TypeId,
    constant: bool,
    declarator: Vec<u8>,
}

// A declarator of a function whose parameters are due.
#[derive(Drop)]
struct Called {
    returned: TypeId,
    params: u32,
    variadic: bool,
    declarator: Vec<u8>,
}

// One step from a declarator outwards.
#[derive(Drop)]
enum Step {
    // All is written.
    Whole(Vec<u8>),
    // This is left.
    On(Rest),
    // Parameters are due.
    Calls(Called),
}

// What a type declares without a name, with so many lists of parameters within one another.
#[cycle(declaring)]
fn declared(alloc: Global, u: &TypedUnit, levels: u32, t: TypeId) -> Result<Vec<u8>, NoMemory>
    requires { t.0 < length u.now.known.terms }
    ensures { IfOk result (λ v. v.items ≡ specified.declared (whole_unit u.now) levels false (tree u.now.known t.0) []) }
{
    let mut rest = Rest {
        t,
        constant: false,
        declarator: Vec::new(alloc),
    };
    'outwards: loop {
        match outward(alloc, u, rest)? {
            Step::Whole(text) => return Ok(text),
            Step::On(next) => rest = next,
            Step::Calls(called) => rest = behind_params(alloc, u, levels, called)?,
        }
    }
}

// One step from a declarator outwards.
fn outward(alloc: Global, u: &TypedUnit, rest: Rest) -> Result<Step, NoMemory>
    requires { rest.t.0 < length u.now.known.terms }
    ensures text { IfOk result (λ s. (l : ℕ) → step_text (whole_unit u.now) u.now.known l s ≡ rest_text (whole_unit u.now) u.now.known l rest) }
    ensures below { IfOk result (IsOutward u.now.known rest.t.0) }
{
    let Rest {
        t,
        constant,
        declarator,
    } = rest;
    let d = declarator.as_slice();
    match u.types().view(t) {
        Term::Void => Ok(Step::Whole(whole(alloc, constant, b"void", d)?)),
        Term::Int(kind) => Ok(Step::Whole(whole(alloc, constant, kind_word(kind), d)?)),
        Term::Struct(tag) => Ok(Step::Whole(tagged(alloc, u, constant, b"struct ", tag, d)?)),
        Term::Union(tag) => Ok(Step::Whole(tagged(alloc, u, constant, b"union ", tag, d)?)),
        Term::Const(inner) => Ok(Step::On(Rest {
            t: inner,
            constant: true,
            declarator,
        })),
        Term::Pointer(target) => Ok(Step::On(Rest {
            t: target,
            constant: false,
            declarator: pointing(alloc, u, target, constant, d)?,
        })),
        Term::Array(element, n) => Ok(Step::On(Rest {
            t: element,
            constant,
            declarator: sized(alloc, n, declarator)?,
        })),
        Term::Function {
            result,
            params,
            variadic,
        } => Ok(Step::Calls(Called {
            returned: result,
            params,
            variadic,
            declarator,
        })),
    }
}

// The words of an integer type (6.7.2p2).
fn kind_word(kind: IntKind) -> &'static [u8]
    ensures { result.now ≡ specified.kind_word kind }
{
    match kind {
        IntKind::Bool => b"_Bool",
        IntKind::Char => b"char",
        IntKind::SChar => b"signed char",
        IntKind::UChar => b"unsigned char",
        IntKind::Short => b"short",
        IntKind::UShort => b"unsigned short",
        IntKind::Int => b"int",
        IntKind::UInt => b"unsigned int",
        IntKind::Long => b"long",
        IntKind::ULong => b"unsigned long",
        IntKind::LLong => b"long long",
        IntKind::ULLong => b"unsigned long long",
    }
}

// The specifiers, with `const` before the word where it is so, and the declarator.
fn whole(alloc: Global, constant: bool, word: &[u8], declarator: &[u8]) -> Result<Vec<u8>, NoMemory>
    ensures { IfOk result (λ v. v.items ≡ specified.spaced (specified.qualified constant word.now) declarator.now) }
{
    let mut text = Vec::new(alloc);
    add_specifier(&mut text, constant, word)?;
    add_spaced(&mut text, declarator)?;
    Ok(text)
}

// The same of a structure or union.
fn tagged(
    alloc: Global,
    u: &TypedUnit,
    constant: bool,
    word: &[u8],
    tag: u32,
    declarator: &[u8],
) -> Result<Vec<u8>, NoMemory>
    requires { tag < length u.now.known.tags }
    ensures { IfOk result (λ v. v.items ≡ specified.spaced (specified.qualified constant (specified.tag_word (whole_unit u.now) word.now tag)) declarator.now) }
{
    let mut words = Vec::from_slice(alloc, word)?;
    add(&mut words, tag_name(u, tag))?;
    whole(alloc, constant, words.as_slice(), declarator)
}

// Adds a specifier.
fn add_specifier(text: &mut Vec<u8>, constant: bool, word: &[u8]) -> Result<(), NoMemory>
    ensures { OnOk result (text.new.items ≡ text.old.items ++ specified.qualified constant word.now) }
{
    if constant {
        add(text, b"const ")?;
        return add(text, word);
    }
    add(text, word)
}

// Adds a declarator behind a word, if there is one.
fn add_spaced(text: &mut Vec<u8>, declarator: &[u8]) -> Result<(), NoMemory>
    ensures { OnOk result (text.new.items ≡ specified.spaced text.old.items declarator.now) }
{
    if declarator.is_empty() {
        return Ok(());
    }
    add(text, b" ")?;
    add(text, declarator)
}

// A declarator of a pointer to this type.
fn pointing(
    alloc: Global,
    u: &TypedUnit,
    target: TypeId,
    constant: bool,
    declarator: &[u8],
) -> Result<Vec<u8>, NoMemory>
    requires { target.0 < length u.now.known.terms }
    ensures { IfOk result (λ v. v.items ≡ specified.pointing (tree u.now.known target.0) constant declarator.now) }
{
    let starred = starred(alloc, constant, declarator)?;
    enclosed(alloc, stands_behind(u, target), starred)
}

// `*` before a declarator, with `const` between them where it is so.
fn starred(alloc: Global, constant: bool, declarator: &[u8]) -> Result<Vec<u8>, NoMemory>
    ensures { IfOk result (λ v. v.items ≡ specified.starred constant declarator.now) }
{
    if constant {
        let mut text = Vec::from_slice(alloc, b"*const")?;
        add_spaced(&mut text, declarator)?;
        return Ok(text);
    }
    let mut text = Vec::from_slice(alloc, b"*")?;
    add(&mut text, declarator)?;
    Ok(text)
}

// A declarator in parentheses, where it wants them.
fn enclosed(alloc: Global, wants: bool, declarator: Vec<u8>) -> Result<Vec<u8>, NoMemory>
    ensures { IfOk result (λ v. v.items ≡ specified.enclosed wants declarator.items) }
{
    if !wants {
        return Ok(declarator);
    }
    let mut text = Vec::from_slice(alloc, b"(")?;
    add(&mut text, declarator.as_slice())?;
    add(&mut text, b")")?;
    Ok(text)
}

// Whether a declarator of this type has `[` or `(` behind it.
fn stands_behind(u: &TypedUnit, t: TypeId) -> bool
    requires { t.0 < length u.now.known.terms }
    ensures { result ≡ specified.stands_behind (tree u.now.known t.0) }
{
    let types = u.types();
    match types.view(bare(types, t)) {
        Term::Array(_, _) => true,
        Term::Function { .. } => true,
        _ => false,
    }
}

// A declarator of an array of this size, if it has one.
fn sized(alloc: Global, n: Option<u64>, declarator: Vec<u8>) -> Result<Vec<u8>, NoMemory>
    ensures { IfOk result (λ v. v.items ≡ declarator.items ++ specified.size_text n) }
{
    let mut declarator = declarator;
    add_size(alloc, &mut declarator, n)?;
    Ok(declarator)
}

// Adds the size of an array.
fn add_size(alloc: Global, text: &mut Vec<u8>, n: Option<u64>) -> Result<(), NoMemory>
    ensures { OnOk result (text.new.items ≡ text.old.items ++ specified.size_text n) }
{
    let Some(n) = n else {
        return add(text, b"[]");
    };
    add(text, b"[")?;
    add_number(alloc, text, n)?;
    add(text, b"]")
}

// The parameters of a function behind its declarator.
#[cycle(declaring)]
fn behind_params(
    alloc: Global,
    u: &TypedUnit,
    levels: u32,
    called: Called,
) -> Result<Rest, NoMemory>
    requires { called.params < length u.now.known.lists }
    ensures t { IfOk result (λ r. r.t ≡ called.returned) }
    ensures constant { IfOk result (λ r. r.constant ≡ false) }
    ensures declarator { IfOk result (λ r. r.declarator.items ≡ called_declarator (whole_unit u.now) u.now.known levels called) }
{
    let Called {
        returned,
        params,
        variadic,
        declarator,
    } = called;
    let mut declarator = declarator;
    add_param_list(alloc, u, levels, params, variadic, &mut declarator)?;
    Ok(Rest {
        t: returned,
        constant: false,
        declarator,
    })
}

// Adds a list of parameters; of none it is `void`.
#[cycle(declaring)]
fn add_param_list(
    alloc: Global,
    u: &TypedUnit,
    levels: u32,
    params: u32,
    variadic: bool,
    text: &mut Vec<u8>,
) -> Result<(), NoMemory>
    requires { params < length u.now.known.lists }
    ensures { OnOk result (text.new.items ≡ text.old.items ++ specified.params_text (whole_unit u.now) levels (parameters_at u.now.known params) variadic) }
{
    if levels == 0 {
        return add(text, b"(..)");
    }
    let list = u.types().param_list(params);
    if list.is_empty() {
        return add(text, b"(void)");
    }
    add(text, b"(")?;
    add_params(alloc, u, levels - 1, list, text)?;
    add_ellipsis(text, variadic)?;
    add(text, b")")
}

// Adds the parameters of a list.
#[cycle(declaring)]
fn add_params(
    alloc: Global,
    u: &TypedUnit,
    levels: u32,
    list: &[TypeId],
    text: &mut Vec<u8>,
) -> Result<(), NoMemory>
    requires { AllBelow (length u.now.known.terms) list.now }
    ensures { OnOk result (text.new.items ≡ text.old.items ++ specified.param_texts (whole_unit u.now) levels 0 (tys_in (trees u.now.known) list.now)) }
{
    for i in 0..list.len() {
        add_param(alloc, u, levels, i as u64, list[i], text)?;
    }
    Ok(())
}

// Adds parameter number i, where it is one of those that are shown.
#[cycle(declaring)]
fn add_param(
    alloc: Global,
    u: &TypedUnit,
    levels: u32,
    i: u64,
    t: TypeId,
    text: &mut Vec<u8>,
) -> Result<(), NoMemory>
    requires { t.0 < length u.now.known.terms }
    ensures { OnOk result (text.new.items ≡ text.old.items ++ specified.listed specified.most_params i (specified.declared (whole_unit u.now) levels false (tree u.now.known t.0) [])) }
{
    if i < MOST_PARAMS {
        let param = declared(alloc, u, levels, t)?;
        add_separator(text, i)?;
        add(text, param.as_slice())
    } else {
        add_cut(text, i, MOST_PARAMS)
    }
}

// Adds `...` behind parameters.
fn add_ellipsis(text: &mut Vec<u8>, variadic: bool) -> Result<(), NoMemory>
    ensures { OnOk result (text.new.items ≡ text.old.items ++ specified.ellipsis variadic) }
{
    if variadic {
        add(text, b", ...")
    } else {
        Ok(())
    }
}
