//! A law: which clauses the report of a suite counts.
ghost use Rattle.std.specs.Prelude.{◌≡◌, map, Contains};
ghost use Rattle.pv_fault.specs.declared.faults.Clause.{Clause};
ghost use Rattle.pv_fault.specs.FaultTexts.{clause_text};
ghost use Rattle.pv_cases.specs.Suites.{all_clauses};
ghost use Rattle.pv_suite.specs.Clauses.{every_clause};

/// The clauses that the report of a suite counts are all that a fault has, by the text that a run's report has for each, in the order of the standard.
pub fn each_clause_is_counted()
    ensures texts { all_clauses ≡ map clause_text every_clause }
    ensures every { (c : Clause) → Contains every_clause c }
{}
