//! Laws of lines and places: functions without work, whose clauses are theorems on the definitions.
ghost use Rattle.std.specs.Prelude.{◌≡◌, ◌≤◌, ◌-◌, ℕ, List, length, Some, slice_get};
ghost use Rattle.pv_token.specs.Table.{Table};
ghost use Rattle.pv_token.specs.declared.token_table.Token.{Token as TokenKept};
ghost use Rattle.pv_lex.specs.Pieces.{Piece};
ghost use Rattle.pv_lex.specs.Rows.{Place, Row, start};
ghost use Rattle.pv_lex.specs.Lexes.{Lexes};
ghost use Rattle.pv_where.specs.Spots.{line_at};
ghost use Rattle.pv_where.specs.Laws.{IsLineOf};

/// A law: lines are counted as the lexer counts them (C17 6.10.4p2, p3). Where the pieces of a source lead in a row, be it to a fault or to the end,
/// the line is theirs; and the line of a token's first byte is the one that the table of tokens has of it, by which a run's report says where it ended.
pub fn lines_are_counted_alike()
    ensures rows { (name source : List ℕ) (xs : List Piece) (q : Place) → Row (start source) xs q →
        line_at name source (length source - length q.text) ≡ q.line }
    ensures tokens { (name source : List ℕ) (t : Table) (i : ℕ) (k : TokenKept) → Lexes source t →
        slice_get t.tokens i ≡ Some k → line_at name source k.start ≡ k.line }
{}

/// A law: the line of a place is a whole line of the source, and the place lies in it as far as the column says (C17 5.1.1.2p1).
pub fn the_line_is_of_the_source()
    ensures { (source : List ℕ) (place : ℕ) → place ≤ length source → IsLineOf source place }
{}
