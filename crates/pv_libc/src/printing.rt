// `printf` (7.21.6.1, 7.21.6.3).
ghost use Rattle.std.specs.Prelude.{◌≡◌, ◌≤◌, [], Some, drop, length, IfOk, All};
ghost use Rattle.pv_num.specs.declared.kinds.IntKind.TheVariants as kind;
ghost use Rattle.pv_inst.specs.Table.{IsMadeIn};
ghost use Rattle.pv_object.specs.Later.{IsLater};
ghost use Rattle.pv_object.specs.Answers.{IsMadeValue, tried_in};
ghost use Rattle.pv_libc.specs.Steps.{with_notes};
ghost use Rattle.pv_libc.specs.Answers.{OrNoMemory, worth};
ghost use Rattle.pv_libc.specs.Arguments.{number_text, pointer_text, written_kind, number_of, string_of, address_of};
ghost use Rattle.pv_libc.specs.FormatParts.{takes};
ghost use Rattle.pv_libc.specs.Printing.{address_done, conversion_text, piece_done, printed_from, before_zero, format_of, format_stop};
ghost use Rattle.pv_libc.specs.declared.formats.Within.TheVariants as within;

use crate::characters::string_at;
use crate::formats::{Conversion, Piece, Style, Within, piece_at};
use crate::heap::whole;
use crate::notes::{note_exposed, note_use};
use crate::values::{Arg, Given, Note, Offered, Shape};
use pv_fault::{Clause, Reason};
use pv_inst::{Test, Tried};
use pv_num::{IntKind, fits};
use pv_object::{Asker, Memory, Pointer, Stop, Stopped, Value, undefined};
use pv_print::{address, hex, number};
use pv_prov::{NoMemory, Prov};
use pv_shadow::Byte;
use std::alloc::Global;

/// A conversion without an argument of its type.
fn format_stop() -> Stop
    ensures { result ≡ format_stop }
{
    undefined(Clause::Formats, Reason::Format)
}

/// The text of a number.
fn number_text(alloc: Global, style: Style, n: i128) -> Result<Vec<u8>, NoMemory>
    ensures { IfOk result (λ v. v.items ≡ number_text style n) }
{
    let text = match style {
        Style::Signed | Style::Unsigned => number(alloc, n),
        Style::Hexadecimal => hex(alloc, n.rem_euclid(0x1_0000_0000_0000_0000) as u64),
    };
    match text {
        Ok(text) => Ok(text),
        Err(_) => Err(NoMemory),
    }
}

/// The text of `%p`.
fn pointer_text(alloc: Global, p: Pointer) -> Result<Vec<u8>, NoMemory>
    ensures { IfOk result (λ v. v.items ≡ pointer_text p) }
{
    if p.address == 0 && !p.prov.is_empty() {
        return match Vec::from_slice(alloc, b"0x0") {
            Ok(text) => Ok(text),
            Err(_) => Err(NoMemory),
        };
    }
    match address(alloc, p.address) {
        Ok(text) => Ok(text),
        Err(_) => Err(NoMemory),
    }
}

/// Whether a number conversion takes an argument of the kind.
fn takes(long: bool, kind: IntKind) -> bool
    ensures { result ≡ takes long kind }
{
    if long {
        matches!(kind, IntKind::Long | IntKind::ULong)
    } else {
        matches!(kind, IntKind::Int | IntKind::UInt)
    }
}

/// The type whose values a number conversion writes.
fn written_kind(long: bool, style: Style) -> IntKind
    ensures { result ≡ written_kind long style }
{
    match (style, long) {
        (Style::Signed, true) => IntKind::Long,
        (Style::Signed, false) => IntKind::Int,
        (Style::Unsigned | Style::Hexadecimal, true) => IntKind::ULong,
        (Style::Unsigned | Style::Hexadecimal, false) => IntKind::UInt,
    }
}

/// The number that an argument is, if it fits the conversion.
fn number_of(long: bool, style: Style, x: Arg) -> Option<i128>
    ensures { result ≡ number_of long style x.shape x.value }
{
    match x.shape {
        Shape::Int(kind) => match x.value {
            Value::Int(n) => {
                if takes(long, kind) && fits(written_kind(long, style), n) {
                    Some(n)
                } else {
                    None
                }
            }
            Value::Unset | Value::Pointer(_) => None,
        },
        Shape::Void | Shape::Text | Shape::Other => None,
    }
}

/// The string that an argument points to.
fn string_of(x: Arg) -> Option<Pointer>
    ensures { result ≡ string_of x.shape x.value }
{
    match x.shape {
        Shape::Text => match x.value {
            Value::Pointer(p) => Some(p),
            Value::Unset | Value::Int(_) => None,
        },
        Shape::Int(_) | Shape::Void | Shape::Other => None,
    }
}

/// The address that an argument is.
fn address_of(x: Arg) -> Option<Pointer>
    ensures { result ≡ address_of x.shape x.value }
{
    match x.shape {
        Shape::Text | Shape::Void => match x.value {
            Value::Pointer(p) => Some(p),
            Value::Unset | Value::Int(_) => None,
        },
        Shape::Int(_) | Shape::Other => None,
    }
}

/// What the live test of a pointer found that is a number now, or is none.
fn tried_of(number: Result<(i128, Tried), Stopped>) -> Tried
    ensures { result ≡ tried_in (λ r. r.1) number }
{
    match number {
        Ok((_, tried)) => tried,
        Err(stopped) => stopped.tried,
    }
}

/// What `%p` prints, after the live test and the exposure.
#[tactic(auto, using(pv_object::proofs::Later::later_both, pv_object::proofs::Later::later_itself))]
fn address_done(
    alloc: Global,
    memory: &mut Memory,
    notes: &mut Vec<Note>,
    given: Given,
) -> Result<Vec<u8>, Stop>
    requires { IsMadeIn memory.old.table given.pointer.prov }
    ensures answer { OrNoMemory (worth (λ v. v.items) result) (with_notes memory.new notes.new.items) (address_done (Some given) (with_notes memory.old notes.old.items)) }
    ensures later { IsLater memory.old.table memory.new.table }
{
    let p = given.pointer;
    let number = memory.to_int(p, IntKind::ULong);
    if note_use(notes, Test::Live, tried_of(number)).is_err() {
        return Err(Stop::NoMemory);
    }
    if note_exposed(memory, notes).is_err() {
        return Err(Stop::NoMemory);
    }
    match number {
        Ok(_) => match pointer_text(alloc, p) {
            Ok(text) => Ok(text),
            Err(NoMemory) => Err(Stop::NoMemory),
        },
        Err(stopped) => match notes.push(given.stopped) {
            Ok(()) => Err(stopped.stop),
            Err(_) => Err(Stop::NoMemory),
        },
    }
}

/// What a conversion prints of its argument.
#[tactic(auto, using(pv_object::proofs::Later::later_itself))]
fn converted(
    alloc: Global,
    memory: &mut Memory,
    notes: &mut Vec<Note>,
    conversion: Conversion,
    x: Offered,
) -> Result<Vec<u8>, Stop>
    requires { IsMadeValue memory.old.table x.arg.value }
    ensures answer { OrNoMemory (worth (λ v. v.items) result) (with_notes memory.new notes.new.items) (conversion_text conversion x (with_notes memory.old notes.old.items)) }
    ensures later { IsLater memory.old.table memory.new.table }
{
    match conversion {
        Conversion::Number { long, style } => match number_of(long, style, x.arg) {
            Some(n) => match number_text(alloc, style, n) {
                Ok(text) => Ok(text),
                Err(NoMemory) => Err(Stop::NoMemory),
            },
            None => Err(format_stop()),
        },
        Conversion::Character => match number_of(false, Style::Signed, x.arg) {
            Some(n) => {
                let mut text = Vec::new(alloc);
                match text.push(n.rem_euclid(256) as u8) {
                    Ok(()) => Ok(text),
                    Err(_) => Err(Stop::NoMemory),
                }
            }
            None => Err(format_stop()),
        },
        Conversion::String => match string_of(x.arg) {
            Some(pointer) => {
                let stopped = x.stopped;
                string_at(
                    alloc,
                    memory,
                    notes,
                    Asker::Print,
                    Given { pointer, stopped },
                )
            }
            None => Err(format_stop()),
        },
        Conversion::Address => match address_of(x.arg) {
            Some(pointer) => {
                let stopped = x.stopped;
                address_done(alloc, memory, notes, Given { pointer, stopped })
            }
            None => Err(format_stop()),
        },
    }
}

/// What a byte of the format does to the text.
#[tactic(auto, using(pv_object::proofs::Later::later_itself))]
fn step(
    memory: &mut Memory,
    notes: &mut Vec<Note>,
    args: &[Offered],
    next: &mut usize,
    text: &mut Vec<u8>,
    piece: Piece,
) -> Result<Within, Stop>
    requires within { next.old ≤ length args.now }
    requires made { All (λ x. IsMadeValue memory.old.table x.arg.value) args.now }
    ensures answer { OrNoMemory (worth (λ w. record { within = w; left = drop next.new args.now; text = text.new.items }) result)
        (with_notes memory.new notes.new.items) (piece_done piece (drop next.old args.now) text.old.items (with_notes memory.old notes.old.items)) }
    ensures within { next.new ≤ length args.now }
    ensures later { IsLater memory.old.table memory.new.table }
{
    match piece {
        Piece::Goes { text: None, within } => Ok(within),
        Piece::Goes {
            text: Some(c),
            within,
        } => match text.push(c) {
            Ok(()) => Ok(within),
            Err(_) => Err(Stop::NoMemory),
        },
        Piece::Converts(conversion) => {
            if args.len() <= *next {
                return Err(format_stop());
            }
            let x = args[*next];
            *next += 1;
            match converted(*text.allocator(), memory, notes, conversion, x) {
                Ok(more) => match text.extend_from_slice(&more) {
                    Ok(()) => Ok(Within::Text),
                    Err(_) => Err(Stop::NoMemory),
                },
                Err(stop) => Err(stop),
            }
        }
        Piece::Breaks => Err(format_stop()),
    }
}

/// The text of a format and its arguments.
pub(crate) fn printed(
    alloc: Global,
    memory: &mut Memory,
    notes: &mut Vec<Note>,
    format: &[u8],
    args: &[Offered],
) -> Result<Vec<u8>, Stop>
    requires { All (λ x. IsMadeValue memory.old.table x.arg.value) args.now }
    ensures { OrNoMemory (worth (λ v. v.items) result) (with_notes memory.new notes.new.items) (printed_from format.now (record { within = within.Text; left = args.now; text = [] }) (with_notes memory.old notes.old.items)) }
{
    let mut text = Vec::new(alloc);
    let mut next = 0;
    let mut within = Within::Text;
    for i in 0..format.len() {
        match step(
            memory,
            notes,
            args,
            &mut next,
            &mut text,
            piece_at(within, format[i]),
        ) {
            Ok(then) => within = then,
            Err(stop) => return Err(stop),
        }
    }
    match within {
        Within::Text => Ok(text),
        Within::Percent | Within::Long => Err(format_stop()),
    }
}

/// What stands before the first 0.
fn before_zero(alloc: Global, bytes: &[Byte]) -> Result<Vec<u8>, NoMemory>
    ensures { IfOk result (λ v. v.items ≡ before_zero bytes.now) }
{
    let mut text = Vec::new(alloc);
    for i in 0..bytes.len() {
        match bytes[i].value {
            Some(0) | None => return Ok(text),
            Some(v) => {
                if text.push(v).is_err() {
                    return Err(NoMemory);
                }
            }
        }
    }
    Ok(text)
}

/// A format as it is written in its literal.
#[tactic(auto, using(crate::proofs::Reaches::whole_reach))]
pub(crate) fn format_of(alloc: Global, memory: &Memory, prov: Prov) -> Result<Vec<u8>, NoMemory>
    ensures { IfOk result (λ v. v.items ≡ format_of memory.now prov) }
{
    let Prov::Inst(i) = prov else {
        return Ok(Vec::new(alloc));
    };
    let Some(x) = memory.instances().info(i) else {
        return Ok(Vec::new(alloc));
    };
    match memory.read_bytes(&whole(i, x), x.size) {
        Ok(bytes) => before_zero(alloc, &bytes),
        Err(NoMemory) => Err(NoMemory),
    }
}
