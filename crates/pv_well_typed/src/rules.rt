//! A law of what is run, a function without work.
ghost use Rattle.std.specs.Prelude.{◌≡◌, ◌≢◌, ◌<◌, ℕ, Bool, List};
ghost use Rattle.std.specs.declared.option.Option.{Option};
ghost use Rattle.pv_typed.specs.Known.{Each};
ghost use Rattle.pv_world.specs.Worlds.{Worth};
ghost use Rattle.pv_eval.specs.States.{State, Res, Gives, Stops, Unreached};
ghost use Rattle.pv_exec.specs.Run.{setting_of};
ghost use Rattle.pv_guards.specs.Laws.{IsStatus};
ghost use Rattle.pv_guards.specs.PlainRun as plain;
ghost use Rattle.pv_serve.specs.Judged.{IsToRun, IsRunBy};

/// A law: what is run is run by the rules alone (C17 5.1.2). Each run of which a verdict is the end, of any source of bytes that is a program, with any
/// script, bound, `zap` and sides, meets no guard: it is the run in which an operation does what its rule says, and has no outcome where C has no rule,
/// which it never comes to. And where `main` returns, what it gives is an `int` (5.1.2.2.3p1).
pub fn what_is_run_meets_no_guard()
    ensures same { (source script : List ℕ) → Each (λ b. b < 256) source → (job : IsToRun source script) (bound : ℕ) (zap : Bool) (sides : Option (List Bool)) →
        (run : Res Worth) (runs : IsRunBy job.unit job.lines bound zap sides run) → run ≡ plain.run_of (setting_of runs.tables bound sides zap) job.lines }
    ensures ruled { (source script : List ℕ) → Each (λ b. b < 256) source → (job : IsToRun source script) (bound : ℕ) (zap : Bool) (sides : Option (List Bool)) →
        (run : Res Worth) (runs : IsRunBy job.unit job.lines bound zap sides run) (s : State) → plain.run_of (setting_of runs.tables bound sides zap) job.lines ≢ Stops Unreached s }
    ensures status { (source script : List ℕ) → Each (λ b. b < 256) source → (job : IsToRun source script) (bound : ℕ) (zap : Bool) (sides : Option (List Bool)) →
        (run : Res Worth) → IsRunBy job.unit job.lines bound zap sides run → (v : Worth) (s : State) → run ≡ Gives v s → IsStatus v }
{}
