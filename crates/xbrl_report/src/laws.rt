//! What holds of the facts of every body. What may live here: functions that do nothing, each with a law
//! about the definitions as its contract. `judge` says that a valid report has these facts.

ghost use Rattle.std.specs.Prelude.{List, ℕ, map};
ghost use Rattle.std.specs.Cmp.Lexicographic.{slice_cmp};
ghost use Rattle.std.specs.List.Sorted.{IsStrictlySortedBy};
ghost use Rattle.std.specs.Ordering.{nat_cmp};
ghost use Rattle.xbrl_report.specs.FactRecord.{FactRecord};
ghost use Rattle.xbrl_report.specs.ReportParts.{facts};

/// The facts ascend by identifier in byte order, and no two have one identifier.
pub fn facts_ascend()
    ensures { (body : List ℕ)
        → IsStrictlySortedBy (slice_cmp nat_cmp) (map (λ (fact : FactRecord). fact.id) (facts body)) }
{}
