// Laws over the definitions of evaluation and of a run, each a function without work.
ghost use Rattle.std.specs.Prelude.{◌≡◌, ◌≢◌, ℕ, Bool, true, false, List, Some, Ok};
ghost use Rattle.std.specs.declared.option.Option.{Option};
ghost use Rattle.pv_script.specs.Lines.{ScriptLine};
ghost use Rattle.pv_types.specs.Ty.{Ty, PointerTo};
ghost use Rattle.pv_prov.specs.declared.names.Prov.{Prov};
ghost use Rattle.pv_prov.specs.Names.{stands, is_empty};
ghost use Rattle.pv_inst.specs.declared.values.Test.{Test};
ghost use Rattle.pv_inst.specs.declared.values.Tried.{Tried};
ghost use Rattle.pv_inst.specs.Table.{Table};
ghost use Rattle.pv_inst.specs.Use.{use_answer};
ghost use Rattle.pv_object.specs.Memory.{Mem};
ghost use Rattle.pv_object.specs.Access.{first_survivor};
ghost use Rattle.pv_library.specs.declared.library.Library.{Library};
ghost use Rattle.pv_libc.specs.declared.values.Arg.{Arg};
ghost use Rattle.pv_libc.specs.Calls.{reply_to_call};
ghost use Rattle.pv_typed.specs.Mains.{main_of};
ghost use Rattle.pv_typed.specs.Tables.{Stored, whole_unit};
ghost use Rattle.pv_typed.specs.TypedTree.{TypedTree};
ghost use Rattle.pv_world.specs.Worlds.{Worth, World};
ghost use Rattle.pv_eval.specs.States.{Setting, State, Gives, Stops, Unreached};
ghost use Rattle.pv_eval.specs.Steps.{Calling};
ghost use Rattle.pv_eval.specs.Operations.{Op};
ghost use Rattle.pv_exec.specs.Run.{setting_of};
ghost use Rattle.pv_exec.specs.Laws.{run_at};
ghost use Rattle.pv_guards.specs.Typed.{IsTyped};
ghost use Rattle.pv_guards.specs.TypedStatements.{IsTypedUnit};
ghost use Rattle.pv_guards.specs.Soundness.{Value, IsSound};
ghost use Rattle.pv_guards.specs.Promises.{Promised};
ghost use Rattle.pv_guards.specs.Wants.{had_memory, NeverWants};
ghost use Rattle.pv_guards.specs.PlainRun as plain;
ghost use Rattle.pv_guards.specs.Laws.{IsInstance, IsStatus, CallsAgree, MeetsNoGuard, GivesItsType, DoesItsRule, FindsFunction};

/// A law: a run of a well-typed unit (C17 5.1.2) meets no guard: it is the run of the rules alone, whatever the script, the sides, the
/// bound and zap are. So no verdict of such a run ever comes from an operand that isn't of its expression's type, and each object that
/// the run makes, fills, stores to or ends (6.2.4, 6.7.9, 6.9.1p10) can be made, or lives and has room.
/// The run of the rules has no outcome where C has no rule, as for a call of a function without a body (6.9p5), or an operand that is no number where
/// one is asked for (6.5): it never comes to that. And what `main` gives is an `int` (5.1.2.2.3p1).
pub fn typed_units_meet_no_guard()
    ensures same { (u : Stored) → IsTypedUnit (whole_unit u) → (sides : Option (List Bool)) (zap : Bool) (script : List ScriptLine) (n : ℕ) →
        run_at u sides zap script n ≡ plain.run_of (setting_of u n sides zap) script }
    ensures ruled { (u : Stored) → IsTypedUnit (whole_unit u) → (sides : Option (List Bool)) (zap : Bool) (script : List ScriptLine) (n : ℕ) (s : State) →
        plain.run_of (setting_of u n sides zap) script ≢ Stops Unreached s }
    ensures status { (u : Stored) → IsTypedUnit (whole_unit u) → (f : ℕ) → main_of (whole_unit u) ≡ Some f → (sides : Option (List Bool)) (zap : Bool) (script : List ScriptLine) (n : ℕ) →
        (v : Worth) (s : State) → run_at u sides zap script n ≡ Gives v s → IsStatus v }
{}

/// A law: a typed expression (C17 6.5) meets no guard. In every sound world, against all accesses of other operands, settled or not and
/// with zap or without, it is evaluated as by the rules alone, wherever calls of the unit's functions on values of their parameters'
/// types are so.
pub fn typed_expressions_meet_no_guard()
    ensures same { (b : Setting) (os : List ℕ) (call other : Calling) → CallsAgree b os call other →
        (x : TypedTree) → IsTyped b.unit os x → MeetsNoGuard b os call other x }
{}

/// A law: what a typed expression gives is a value of its type (C17 6.5p1), in a world that is sound again, wherever calls of the
/// unit's functions give values of their results' types.
pub fn values_are_of_their_types()
    ensures typed { (b : Setting) (os : List ℕ) (call : Calling) → CallsAgree b os call call →
        (x : TypedTree) → IsTyped b.unit os x → GivesItsType b os call x }
{}

/// A law: for each operation of an expression (C17 6.3, 6.5, 7) on operands of the types that typing promises there is a rule; it does what that says,
/// and gives a value of its type in a world that is sound again. The one that asks which function a pointer points to (6.5.2.2p1) gives one that is
/// defined, and may be called so (6.3.2.3p8).
pub fn operations_do_what_rules_say()
    ensures rule { (b : Setting) (os : List ℕ) (op : Op) (t : Ty) (w : World) → IsSound b os w → Promised b os w op t →
        DoesItsRule b os op t w }
    ensures found { (b : Setting) (os : List ℕ) (t pointee : Ty) (v : Worth) (w : World) → IsSound b os w → Value b w (PointerTo pointee) v → FindsFunction b os t v w }
{}

/// A law of the memory model: where a use of a name finds survivors, the first of them is an instance. So an access, a call by a pointer and `free` (C17 6.5.3.2p4,
/// 6.5.2.2p1, 7.22.3.3p2) never come to a row for a survivor that isn't there. (An empty name has no candidate: they look for it before.)
pub fn uses_find_instances()
    ensures survivor { (T : Table) (p : Prov) (t : Test) (tried : Tried) → is_empty p ≡ false → use_answer T p t ≡ Ok tried →
        IsInstance T.instances (first_survivor (stands T.pairs p) tried) }
{}

/// A law: no operation of a run, and no call of the library (C17 7), stops for want of memory in the definitions: they never come to the row that says what would
/// then be so. (That a machine has the memory is not promised: there want of it is an answer of its own.)
pub fn no_operation_wants_memory()
    ensures operations { (T : Table) → NeverWants T }
    ensures calls { (f : Library) (args : List Arg) (M : Mem) → had_memory (reply_to_call f args M).answer ≡ true }
{}
