// Laws of runs, each a function without work. A run at a bound is what a longer run is after so many turns: so what is said
// of every bound holds at each moment of a run.
ghost use Rattle.std.specs.Prelude.{ℕ, ◌≤◌, Bool, List};
ghost use Rattle.std.specs.declared.option.Option.{Option};
ghost use Rattle.pv_script.specs.Lines.{ScriptLine};
ghost use Rattle.pv_inst.specs.WellFormed.{IsWellFormed};
ghost use Rattle.pv_typed.specs.Tables.{Stored};
ghost use Rattle.pv_eval.specs.States.{end_of};
ghost use Rattle.pv_exec.specs.Laws.{run_at};
ghost use Rattle.pv_exec.specs.Laying.{table_at, LieApart, IsLaidOut, BytesAreOfLive, HasNoEmptyTag};
ghost use Rattle.pv_exec.specs.Staying.{InstancesRemain, PairsSettle};

/// A law: two different storage instances that live share no byte (C17 6.2.4p2), whatever the unit, the script and the sides are.
pub fn live_instances_lie_apart()
    ensures apart { (u : Stored) (sides : Option (List Bool)) (zap : Bool) (script : List ScriptLine) (n : ℕ) →
        LieApart (end_of (run_at u sides zap script n)) }
{}

/// A law: the memory's table is well formed. Instances lie within the addresses, live ones lie apart and have at most 2^24 bytes,
/// each pair of candidates keeps one at least, and its two are exposed and meet at its address. Where no structure or union of the
/// unit is empty, each instance has a byte, too.
pub fn memory_is_well_formed()
    ensures laid { (u : Stored) (sides : Option (List Bool)) (zap : Bool) (script : List ScriptLine) (n : ℕ) →
        IsLaidOut (table_at (end_of (run_at u sides zap script n))) }
    ensures formed { (u : Stored) (sides : Option (List Bool)) (zap : Bool) (script : List ScriptLine) (n : ℕ) → HasNoEmptyTag u →
        IsWellFormed (table_at (end_of (run_at u sides zap script n))) }
{}

/// A law: the addresses that have bytes are exactly those in live storage instances (C17 6.2.4p2, 6.2.6.1p2), and each provenance
/// name in a byte is of what was made, whatever the unit, the script and the sides are.
pub fn bytes_are_of_live_instances()
    ensures bytes { (u : Stored) (sides : Option (List Bool)) (zap : Bool) (script : List ScriptLine) (n : ℕ) →
        BytesAreOfLive (end_of (run_at u sides zap script n)) }
{}

/// A law: what was made is there ever after, under its number. No instance moves or changes its size, none that has ended lives
/// again (C17 6.2.4p2), and what is exposed stays exposed.
pub fn instances_stay()
    ensures stay { (u : Stored) (sides : Option (List Bool)) (zap : Bool) (script : List ScriptLine) (n m : ℕ) → n ≤ m →
        InstancesRemain (end_of (run_at u sides zap script n)) (end_of (run_at u sides zap script m)) }
{}

/// A law: a pair of candidates has the same two ever after, and what it dropped it keeps no more. So what was settled once stays so.
pub fn pairs_stay_settled()
    ensures settle { (u : Stored) (sides : Option (List Bool)) (zap : Bool) (script : List ScriptLine) (n m : ℕ) → n ≤ m →
        PairsSettle (end_of (run_at u sides zap script n)) (end_of (run_at u sides zap script m)) }
{}
