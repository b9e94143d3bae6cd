//! A law of positions.
ghost use Rattle.std.specs.Prelude.{◌≡◌, ◌≤◌, ◌↔◌, ℕ, List, true, Some};
ghost use Rattle.std.specs.List.{filter};
ghost use Rattle.pv_script.specs.Lines.{ScriptLine};
ghost use Rattle.pv_typed.specs.Tables.{Stored};
ghost use Rattle.pv_exec.specs.declared.outcome.Outcome.TheVariants as outcome;
ghost use Rattle.pv_exec.specs.Run.{outcome_of};
ghost use Rattle.pv_serve.specs.Verdicts.{Ending};
ghost use Rattle.pv_journal.specs.Journals.{Row};
ghost use Rattle.pv_journal_laws.specs.Runs.{is_upto};
ghost use Rattle.pv_shown.specs.Commands.{last_position};
ghost use Rattle.pv_shown.specs.Shown.{runs_on};
ghost use Rattle.pv_step.specs.Answers.{run_of};
ghost use Rattle.pv_step.specs.Positions.{run_with_bound, IsWhole, events_in};

/// A law: what is read off the one run at a position is so of the run with that bound (C17 5.1.2.3). That one ends because another turn is due exactly
/// where the position says so; else it is the whole run, with its line; and what happened in its memory is what happened in the
/// whole run up to that turn.
pub fn positions_are_bounds()
    ensures running { (u : Stored) (script : List ScriptLine) (e : Ending) (line : List ℕ) (rows : List Row) (n : ℕ) → n ≤ last_position → IsWhole u script e →
        (runs_on (run_of e.turns e.outcome line rows) n ≡ true) ↔ (outcome_of (run_with_bound u script n) ≡ Some outcome.Turns) }
    ensures same { (u : Stored) (script : List ScriptLine) (n : ℕ) → n ≤ last_position →
        (outcome_of (run_with_bound u script n) ≡ Some outcome.Turns → ⊥) → run_with_bound u script n ≡ run_with_bound u script last_position }
    ensures events { (u : Stored) (script : List ScriptLine) (n : ℕ) → n ≤ last_position →
        events_in u script n ≡ filter (is_upto n) (events_in u script last_position) }
{
    pv_exec::lesser_bound_cuts();
    pv_journal_laws::lesser_bound_tells_first_events();
}
