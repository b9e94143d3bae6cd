// Laws of runs: theorems over the definition, each a function without work.
ghost use Rattle.std.specs.Prelude.{◌≡◌, ℕ, ◌<◌, ◌≤◌, Bool, List, Some, is_some, IsTrue};
ghost use Rattle.std.specs.declared.option.Option.{Option};
ghost use Rattle.pv_script.specs.Lines.{ScriptLine};
ghost use Rattle.pv_typed.specs.Known.{AreKnown};
ghost use Rattle.pv_typed.specs.Mains.{main_of};
ghost use Rattle.pv_typed.specs.Tables.{Stored, whole_unit};
ghost use Rattle.pv_eval.specs.States.{end_of};
ghost use Rattle.pv_exec.specs.declared.outcome.Outcome.TheVariants as outcome;
ghost use Rattle.pv_exec.specs.Run.{outcome_of};
ghost use Rattle.pv_exec.specs.Laws.{run_at, IsWithin, TakesAll, IsCut};
ghost use Rattle.pv_exec.specs.Laying.{HasNoEmptyTag};
ghost use Rattle.pv_exec.specs.Settling.{LateIsSettled, UndefinedIsUndefined};

use pv_typed::TypedUnit;

/// A law: no run takes more turns than its bound, each of its events came at one of its turns, when no more was printed than
/// is printed in all, and a run that ends by turns took all of them (C17 5.1.2.3).
pub fn turns_keep_the_bound()
    ensures within { (u : Stored) (sides : Option (List Bool)) (zap : Bool) (script : List ScriptLine) (n : ℕ) →
        IsWithin n (end_of (run_at u sides zap script n)) }
    ensures all { (u : Stored) (sides : Option (List Bool)) (zap : Bool) (script : List ScriptLine) (n : ℕ) →
        TakesAll n (run_at u sides zap script n) }
{}

/// A law: a run at a lesser bound is the run at the greater one, or that run cut off after as many turns as the lesser bound
/// allows. It is cut off exactly where the other one takes more turns.
pub fn lesser_bound_cuts()
    ensures cut { (u : Stored) (sides : Option (List Bool)) (zap : Bool) (script : List ScriptLine) (n m : ℕ) → n ≤ m →
        IsCut n (run_at u sides zap script n) (run_at u sides zap script m) }
    ensures due { (u : Stored) (sides : Option (List Bool)) (zap : Bool) (script : List ScriptLine) (n m : ℕ) → n < m →
        outcome_of (run_at u sides zap script n) ≡ Some outcome.Turns → n < (end_of (run_at u sides zap script m)).taken }
    ensures met { (u : Stored) (sides : Option (List Bool)) (zap : Bool) (script : List ScriptLine) (n m : ℕ) → n ≤ m →
        n < (end_of (run_at u sides zap script m)).taken → outcome_of (run_at u sides zap script n) ≡ Some outcome.Turns }
{}

/// A law: late settling is right (the memory model). A run that ends neither undefined nor undecided ends, with the same output
/// and after as many turns, as the run in which each pair of candidates keeps from its making the side that the first one ended
/// with. A run that ends undefined (C17 3.4.3) does so by every list that has a side for each of its pairs, at a turn that is no later.
pub fn late_settling_is_right()
    ensures same { LateIsSettled }
    ensures sooner { UndefinedIsUndefined }
{}

/// A law of the types of a unit that has a function: each completed structure and union has a byte (C17 6.2.6.1p2, 6.7.2.1p8).
pub(crate) fn no_empty_tag(unit: &TypedUnit)
    requires known { AreKnown unit.now }
    requires main { IsTrue (is_some (main_of (whole_unit unit.now))) }
    ensures { HasNoEmptyTag unit.now }
{
    let function = unit.function(0);
    let _layer = unit.types().view(function.t);
}
