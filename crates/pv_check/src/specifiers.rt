// What declaration specifiers say (C17 6.7p1).
ghost use Rattle.std.specs.Prelude.{◌≡◌, ◌<◌, ◌≤◌, ◌+◌, ◌-◌, ◌^◌, length, IfOk, OnOk, IfSome, Some, None, true};
ghost use Rattle.pv_types.specs.Known.{Known, tree};
ghost use Rattle.pv_types.specs.Ty.{IntTy};
ghost use Rattle.pv_check.specs.Growing.{Grows, IsType, type_if};
ghost use Rattle.pv_check.specs.Words.{no_words};
ghost use Rattle.pv_check.specs.WordRows.{total, base_of};
ghost use Rattle.pv_check.specs.Specifiers.{with_storage, with_keyword, with_type, base_type, specification_of, nothing_seen};
ghost use Rattle.pv_check.specs.Seeing.{seen_in, seen_if, specified_if, IsSpecified};

use crate::interning::interned;
use crate::qualified::with_const;
use crate::values::has_kind;
use crate::words::{TypeWords, same_words, type_of_words, with_word};
use pv_num::IntKind;
use pv_token::Word;
use pv_types::{NoMemory, Term, TypeId, Types};

/// A storage class (C17 6.7.1p1), without `auto` and `register`.
#[derive(Clone, Copy)]
pub enum Storage {
    /// None is written.
    Plain,
    /// `typedef`
    Typedef,
    /// `extern`
    Extern,
    /// `static`
    Static,
}

/// What the specifiers up to a place say.
#[derive(Clone, Copy)]
pub struct Seen {
    /// The storage class specifier among them.
    pub storage: Storage,
    /// Whether `const` is among them.
    pub constant: bool,
    /// How often each keyword of a type is among them.
    pub words: TypeWords,
    /// The type of a tag specifier or of a typedef name among them.
    pub named: Option<TypeId>,
}

/// The storage class of a declaration, and the type that its declarators begin with.
#[derive(Clone, Copy)]
pub struct Specified {
    /// Its storage class.
    pub storage: Storage,
    /// The type.
    pub t: TypeId,
}

/// A storage class, where none was written before (C17 6.7.1p2).
fn with_storage(seen: Seen, one: Storage) -> Option<Seen>
    ensures value { (m : Known) → seen_if m result ≡ with_storage (seen_in m seen) one }
    ensures words { IfSome result (λ r. r.words ≡ seen.words) }
    ensures named { IfSome result (λ r. r.named ≡ seen.named) }
{
    match seen.storage {
        Storage::Plain => Some(Seen {
            storage: one,
            constant: seen.constant,
            words: seen.words,
            named: seen.named,
        }),
        _ => None,
    }
}

/// One word more (C17 6.7p1).
pub(crate) fn with_keyword(seen: Seen, word: Word) -> Option<Seen>
    requires { total seen.words < 2 ^ 64 - 1 }
    ensures value { (m : Known) → seen_if m result ≡ with_keyword (seen_in m seen) word }
    ensures bounded { IfSome result (λ r. total r.words ≤ total seen.words + 1) }
    ensures named { IfSome result (λ r. r.named ≡ seen.named) }
{
    match word {
        Word::Typedef => with_storage(seen, Storage::Typedef),
        Word::Extern => with_storage(seen, Storage::Extern),
        Word::Static => with_storage(seen, Storage::Static),
        Word::Const => Some(Seen {
            storage: seen.storage,
            constant: true,
            words: seen.words,
            named: seen.named,
        }),
        _ => Some(Seen {
            storage: seen.storage,
            constant: seen.constant,
            words: with_word(seen.words, word),
            named: seen.named,
        }),
    }
}

/// A type, where none was named before (C17 6.7.2p2).
pub(crate) fn with_type(seen: Seen, t: TypeId) -> Option<Seen>
    ensures value { (m : Known) → seen_if m result ≡ with_type (seen_in m seen) (tree m t.0) }
    ensures words { IfSome result (λ r. r.words ≡ seen.words) }
    ensures named { IfSome result (λ r. r.named ≡ Some t) }
{
    match seen.named {
        None => Some(Seen {
            storage: seen.storage,
            constant: seen.constant,
            words: seen.words,
            named: Some(t),
        }),
        Some(_) => None,
    }
}

/// No type words.
pub(crate) fn no_words() -> TypeWords
    ensures { result ≡ no_words }
{
    TypeWords {
        voids: 0,
        bools: 0,
        chars: 0,
        shorts: 0,
        ints: 0,
        longs: 0,
        signeds: 0,
        unsigneds: 0,
    }
}

/// What no specifiers say.
pub(crate) fn nothing_seen() -> Seen
    ensures value { (m : Known) → seen_in m result ≡ nothing_seen }
    ensures words { total result.words ≡ 0 }
    ensures named { result.named ≡ None }
{
    Seen {
        storage: Storage::Plain,
        constant: false,
        words: no_words(),
        named: None,
    }
}

/// So many of the first types of a table are looked at for an integer type.
const FIRST: u32 = 4;

/// Whether an integer type has this number.
fn is_integer(types: &Types, t: TypeId, kind: IntKind) -> bool
    ensures known { result ≡ true → t.0 < length types.now.terms }
    ensures tree { result ≡ true → tree types.now t.0 ≡ IntTy kind }
{
    if !types.has(t) {
        return false;
    }
    has_kind(types, t, kind)
}

/// An integer type, where it is among the first types. Those that a unit names most are mostly there, and their hash isn't
/// needed then.
fn first_integer(types: &Types, kind: IntKind) -> Option<TypeId>
    ensures known { IfSome result (λ t. t.0 < length types.now.terms) }
    ensures tree { IfSome result (λ t. tree types.now t.0 ≡ IntTy kind) }
{
    for i in 0..FIRST {
        if is_integer(types, TypeId(i), kind) {
            return Some(TypeId(i));
        }
    }
    None
}

/// An integer type.
fn integer(types: &mut Types, kind: IntKind) -> Result<TypeId, NoMemory>
    ensures known { IfOk result (λ r. r.0 < length types.new.terms) }
    ensures tree { IfOk result (λ r. tree types.new r.0 ≡ IntTy kind) }
    ensures grows { OnOk result (Grows types.old types.new) }
{
    match first_integer(types, kind) {
        Some(t) => Ok(t),
        None => interned(types, Term::Int(kind)),
    }
}

/// An integer type, or `void`.
pub(crate) fn base_of(types: &mut Types, base: Option<IntKind>) -> Result<TypeId, NoMemory>
    ensures known { IfOk result (λ r. r.0 < length types.new.terms) }
    ensures tree { IfOk result (λ r. tree types.new r.0 ≡ base_of base) }
    ensures grows { OnOk result (Grows types.old types.new) }
{
    match base {
        Some(kind) => integer(types, kind),
        None => interned(types, Term::Void),
    }
}

/// The type that type words name, or one without them (C17 6.7.2p2).
fn base_type(
    types: &mut Types,
    words: TypeWords,
    named: Option<TypeId>,
) -> Result<Option<TypeId>, NoMemory>
    requires { IsType types.old named }
    ensures known { IfOk result (λ r. IsType types.new r) }
    ensures tree { IfOk result (λ r. type_if types.new r ≡ base_type words (type_if types.old named)) }
    ensures grows { OnOk result (Grows types.old types.new) }
{
    match named {
        None => {
            let Some(base) = type_of_words(words) else {
                return Ok(None);
            };
            let r = base_of(types, base)?;
            Ok(Some(r))
        }
        Some(t) => {
            if same_words(words, no_words()) {
                Ok(Some(t))
            } else {
                Ok(None)
            }
        }
    }
}

/// What the specifiers say, all together.
pub(crate) fn taken_together(types: &mut Types, seen: Seen) -> Result<Option<Specified>, NoMemory>
    requires { IsType types.old seen.named }
    ensures known { IfOk result (λ r. IsSpecified types.new r) }
    ensures value { IfOk result (λ r. specified_if types.new r ≡ specification_of (seen_in types.old seen)) }
    ensures grows { OnOk result (Grows types.old types.new) }
{
    let Some(base) = base_type(types, seen.words, seen.named)? else {
        return Ok(None);
    };
    let Some(t) = with_const(types, seen.constant, base)? else {
        return Ok(None);
    };
    Ok(Some(Specified {
        storage: seen.storage,
        t,
    }))
}
