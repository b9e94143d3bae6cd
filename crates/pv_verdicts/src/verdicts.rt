//! A law of verdicts, a function without work.
ghost use Rattle.std.specs.Prelude.{◌≡◌, ℕ, Bool, List};
ghost use Rattle.std.specs.declared.option.Option.{Option};
ghost use Rattle.pv_serve.specs.declared.words.Task.{Task};
ghost use Rattle.pv_serve.specs.Verdicts.{Verdict};
ghost use Rattle.pv_serve.specs.Judged.{Judged};

/// A law: each source comes to exactly one verdict, with each script, whatever is done with it and whatever sides are given: it is run or settled with
/// at most so many turns (C17 5.1.2.3), or checked, or its layouts are told.
pub fn exactly_one_verdict()
    ensures some { (source script : List ℕ) (t : Task) (sides : Option (List Bool)) → (v : Verdict) × Judged source script t sides v }
    ensures one { (source script : List ℕ) (t : Task) (sides : Option (List Bool)) (v w : Verdict) →
        Judged source script t sides v → Judged source script t sides w → v ≡ w }
{}
