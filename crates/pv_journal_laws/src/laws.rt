// Laws of journals, each a function without work.
ghost use Rattle.std.specs.Prelude.{◌≡◌, ◌≤◌, ◌↔◌, ℕ, Bool, List, Some, map, take};
ghost use Rattle.std.specs.List.{filter};
ghost use Rattle.std.specs.declared.option.Option.{Option};
ghost use Rattle.pv_script.specs.Lines.{ScriptLine};
ghost use Rattle.pv_lex.specs.Lexes.{Lexes};
ghost use Rattle.pv_token.specs.Table.{Table};
ghost use Rattle.pv_tree.specs.Syntax.{DeclarationTree};
ghost use Rattle.pv_typed.specs.Known.{Each, AreKnown};
ghost use Rattle.pv_typed.specs.Tables.{Stored, whole_unit};
ghost use Rattle.pv_unit.specs.Units.{UnitComes, Typed};
ghost use Rattle.pv_eval.specs.States.{end_of};
ghost use Rattle.pv_exec.specs.declared.outcome.Outcome.TheVariants as outcome;
ghost use Rattle.pv_exec.specs.Laws.{run_at};
ghost use Rattle.pv_exec.specs.Laying.{HasNoEmptyTag};
ghost use Rattle.pv_exec.specs.Run.{outcome_of};
ghost use Rattle.pv_exec.specs.Outlets.{event_of};
ghost use Rattle.pv_exec.specs.Words.{FitsWords};
ghost use Rattle.pv_eval.specs.declared.marked.Marked.{Marked};
ghost use Rattle.pv_journal_laws.specs.Naming.{HasNames};
ghost use Rattle.pv_journal_laws.specs.Runs.{run_end, events_at, is_upto, FitsLine, TellsAJournal, TookAll};

/// A law: what a run tells of its memory obeys the memory model (docs/FORMATS.md, Journals). The text that is written of its events is
/// the journal of lines each of which passes from the state that those before it leave, whatever the script and the bound are. So it is
/// with the first events alone, where no more are wanted.
///
/// Pairs of candidates are settled by uses, and pointers to what has ended may not be used (C17 6.2.4p2). Of the unit the law asks for
/// names that instances may have and that no structure is empty (`units_are_named`, and `check` of `pv_unit` promise that), and that
/// 64 bits can say the turns, and which instance of its name each is (`words_fit_lines`, and `run` of `pv_exec`).
pub fn events_obey()
    ensures obey { (u : Stored) (script : List ScriptLine) (n : ℕ) → HasNames (whole_unit u) → HasNoEmptyTag u →
        Each FitsLine (run_end u script n).events → TellsAJournal (events_at u script n) u.names }
    ensures first { (u : Stored) (script : List ScriptLine) (n k : ℕ) → HasNames (whole_unit u) → HasNoEmptyTag u →
        Each FitsLine (run_end u script n).events → TellsAJournal (take k (events_at u script n)) u.names }
{}

/// A law: of events whose numbers 64 bits can say they can say those of a line.
pub fn words_fit_lines()
    ensures fit { (events : List Marked) → Each FitsWords events → Each FitsLine events }
{}

/// A law: the names of a checked unit of a source's tokens are identifiers (C17 6.4.2.1) behind the two that no source has, those of string
/// literals and allocations, each has one number, and each object and each function has one.
pub fn units_are_named()
    ensures named { (source : List ℕ) (t : Table) (ds : List DeclarationTree) (m : Stored) →
        Lexes source t → UnitComes t ds (Typed (whole_unit m)) → AreKnown m → HasNames (whole_unit m) }
{}

/// A law: the events of a run at a lesser bound are those of the run at a greater one that came at its turns (C17 5.1.2.3). It ends by
/// turns exactly where the other one took more turns, or as many and ended by turns itself.
pub fn lesser_bound_tells_first_events()
    ensures events { (u : Stored) (sides : Option (List Bool)) (zap : Bool) (script : List ScriptLine) (n m : ℕ) → n ≤ m →
        map event_of (end_of (run_at u sides zap script n)).events ≡ filter (is_upto n) (map event_of (end_of (run_at u sides zap script m)).events) }
    ensures turns { (u : Stored) (sides : Option (List Bool)) (zap : Bool) (script : List ScriptLine) (n m : ℕ) → n ≤ m →
        (outcome_of (run_at u sides zap script n) ≡ Some outcome.Turns) ↔ TookAll n (run_at u sides zap script m) }
{}
