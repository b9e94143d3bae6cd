// Laws of how runs end, each a function without work.
ghost use Rattle.std.specs.Prelude.{◌≡◌, ℕ, Bool, List, Ok};
ghost use Rattle.std.specs.declared.option.Option.{Option};
ghost use Rattle.pv_script.specs.Lines.{ScriptLine};
ghost use Rattle.pv_script.specs.Scripts.{script_of};
ghost use Rattle.pv_typed.specs.Tables.{Stored};
ghost use Rattle.pv_exec.specs.Laws.{run_at};
ghost use Rattle.pv_verdicts.specs.Endings.{IsProgram, HasOutcome};

/// A law: every run of a source that is a program has an outcome, with every script that has a reading, whatever the
/// bound, the sides and `zap` are (C17 5.1.2). No level of a run is used up, and no storage instance is denied to an object or
/// to a string literal: `null` stands behind `@heap` alone, which is the name of no identifier (6.4.2.1), and an
/// allocation that is denied gives a null pointer (7.22.3p1).
pub fn every_run_has_an_outcome()
    ensures outcome { (source text : List ℕ) (script : List ScriptLine) → script_of text ≡ Ok script → (u : Stored) →
        IsProgram source u → (sides : Option (List Bool)) (zap : Bool) (n : ℕ) → HasOutcome (run_at u sides zap script n) }
{}
