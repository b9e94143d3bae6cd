//! Expressions of a level (C17 6.5).
ghost use Rattle.std.specs.Prelude.{◌≡◌, None, IfOk};
ghost use Rattle.pv_tree.specs.Spells.{Spells};
ghost use Rattle.pv_tree.specs.Tables.{expression_at, is_expression, Is, Extends};
ghost use Rattle.pv_tree.specs.TypeNames.{AreTied};
ghost use Rattle.pv_expr_forms.specs.Known.{names_in};
ghost use Rattle.pv_expr_forms.specs.Numbers.{level_number};
ghost use Rattle.pv_expr_forms.specs.Spelled.{IsSpelled, IsLongest, IsOnly, NothingSpells};

use crate::reading::read_tree;
use indexmap::IndexSet;
use pv_expr_forms::{Level, Source};
use pv_token::{NoMemory, Tokens};
use pv_tree::{NodeId, TypeReader, Unit};

/// The longest expression of a level that begins at token number `at`, and the number of the token
/// behind it.
///
/// Of the trees of the level and of at most `depth` levels of nesting that spell a run of the
/// tokens from there, it is the one with the longest run, and the only one that spells that run.
/// `None` comes exactly where there is no such tree. `types` are the numbers of the typedef names,
/// and `reader` has the type names, as nodes of `into`. The new nodes are added to `into`, also
/// those that turn out to be part of no answer. The error is want of memory, or that `into` is full.
pub fn expression<R: TypeReader>(
    t: &Tokens,
    at: u32,
    level: Level,
    depth: u32,
    types: &IndexSet<u32>,
    into: &mut Unit,
    reader: &R,
) -> Result<Option<(NodeId, u32)>, NoMemory>
    requires { AreTied (R.types reader.now) into.old t.now.tokens }
    // Older nodes stay, also on a refusal.
    ensures keeps { Extends into.old into.new }
    // What is found spells the tokens up to the place.
    ensures found { let spells = Spells (names_in types.now (R.types reader.now) into.old t.now.tokens) (level_number level) depth t.now.tokens at in
        IfOk result (λ r. IsSpelled spells (Is into.new is_expression) (expression_at into.new.forest) t.now.tokens at r) }
    // No tree spells more.
    ensures longest { let spells = Spells (names_in types.now (R.types reader.now) into.old t.now.tokens) (level_number level) depth t.now.tokens at in
        IfOk result (λ r. IsLongest spells t.now.tokens at r) }
    // No other tree spells the same.
    ensures only { let spells = Spells (names_in types.now (R.types reader.now) into.old t.now.tokens) (level_number level) depth t.now.tokens at in
        IfOk result (λ r. IsOnly spells (expression_at into.new.forest) r) }
    // Where nothing is found, no tree spells anything.
    ensures none { let spells = Spells (names_in types.now (R.types reader.now) into.old t.now.tokens) (level_number level) depth t.now.tokens at in
        IfOk result (λ r. r ≡ None → NothingSpells spells t.now.tokens at) }
{
    if at > t.len() {
        return Ok(None);
    }
    let source = Source {
        tokens: t,
        typedefs: types,
        reader,
    };
    read_tree(&source, at, level.number(), depth, into)
}
