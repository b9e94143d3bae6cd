// Laws over the definitions of typing, each a function without work.
ghost use Rattle.std.specs.Prelude.{◌≡◌, ℕ, Bool, List, Some};
ghost use Rattle.std.specs.declared.option.Option.{Option};
ghost use Rattle.pv_script.specs.Lines.{ScriptLine};
ghost use Rattle.pv_token.specs.Table.{Table};
ghost use Rattle.pv_tree.specs.Syntax.{ExpressionTree, DeclarationTree};
ghost use Rattle.pv_typed.specs.TypedTree.{TypedTree};
ghost use Rattle.pv_typed.specs.TypedUnits.{WholeUnit};
ghost use Rattle.pv_typed.specs.Tables.{Stored, whole_unit};
ghost use Rattle.pv_check.specs.State.{State, After};
ghost use Rattle.pv_check.specs.Typing.{types};
ghost use Rattle.pv_exec.specs.Run.{setting_of};
ghost use Rattle.pv_exec.specs.Laws.{run_at};
ghost use Rattle.pv_guards.specs.PlainRun as plain;
ghost use Rattle.pv_guards.specs.Typed.{IsTyped};
ghost use Rattle.pv_guards.specs.TypedStatements.{IsTypedUnit};
ghost use Rattle.pv_well_typed.specs.Checked.{IsChecked};
ghost use Rattle.pv_well_typed.specs.Later.{IsFinished, Later};
ghost use Rattle.pv_well_typed.specs.ProperStates.{IsEvaluated};

/// A law: an expression that has a typing (C17 6.5) is well typed: where it is evaluated, its tree is as evaluation asks, in every unit that is later
/// than the state behind it, whatever is declared, completed (6.2.7p4) and defined (6.9p5) between them.
pub fn typed_expressions_are_well_typed()
    ensures typed { (v : WholeUnit) (os : List ℕ) (e : ExpressionTree) (s : State) (a : After TypedTree) → IsFinished v → IsEvaluated v os s e →
        types e s ≡ Some a → Later a.state v → IsTyped v os a.value }
{}

/// A law: the unit of a source that has a typing (C17 6.9) is well typed: so each of its expressions, statements, initializers and functions is as
/// evaluation asks.
pub fn typed_units_are_well_typed()
    ensures typed { (source : List ℕ) (t : Table) (ds : List DeclarationTree) (v : WholeUnit) → IsChecked source t ds v → IsTypedUnit v }
{}

/// A law: a run of the unit of a source that has a typing (C17 5.1.2, 6.9) meets no guard: it is the run of the rules alone, whatever the script, the
/// sides, the bound and zap are.
pub fn checked_sources_meet_no_guard()
    ensures same { (source : List ℕ) (t : Table) (ds : List DeclarationTree) (u : Stored) → IsChecked source t ds (whole_unit u) →
        (sides : Option (List Bool)) (zap : Bool) (script : List ScriptLine) (n : ℕ) →
        run_at u sides zap script n ≡ plain.run_of (setting_of u n sides zap) script }
{}
