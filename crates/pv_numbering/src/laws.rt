//! Laws over the tables of typed units, each a function without work.
ghost use Rattle.std.specs.Prelude.{◌≡◌, ℕ, Bool, List};
ghost use Rattle.std.specs.declared.option.Option.{Option};
ghost use Rattle.pv_script.specs.Lines.{ScriptLine};
ghost use Rattle.pv_typed.specs.TypedUnits.{WholeUnit};
ghost use Rattle.pv_typed.specs.Tables.{Stored, whole_unit};
ghost use Rattle.pv_exec.specs.Laws.{run_at};
ghost use Rattle.pv_numbering.specs.Same.{SameRun};

/// A law: no run depends on how the types of its unit are numbered (C17 6.5p6), nor on anything else of the tables that stand for
/// the unit: outcome, turns, output, events and sides are the same by all of them, at every script and bound.
pub fn no_numbering_matters()
    ensures { (u v : Stored) → whole_unit u ≡ whole_unit v →
        (sides : Option (List Bool)) (zap : Bool) (script : List ScriptLine) (n : ℕ) → SameRun (run_at u sides zap script n) (run_at v sides zap script n) }
{}

/// A law: tables stand for each unit (C17 6.9), so that each has a run.
pub fn each_unit_has_tables()
    ensures { (w : WholeUnit) → (u : Stored) × (whole_unit u ≡ w) }
{}
