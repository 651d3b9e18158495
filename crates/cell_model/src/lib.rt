//! Cells with strong and weak pointers, exact counts, and what log records do to them. Each law is the contract of a
//! function with an empty body, so that the check accepts this crate only where each law is proved.
#![tactic(auto)]

ghost use Rattle.cell_model.specs.Laws.{ExactLaw, AcyclicLaw, ConsistentLaw, ConsistentAfterLaw, OneMoreLaw, SelfPointerLaw};

/// Counts stay exact, strong pointers form no cycle, and cells stay consistent, record by record.
pub fn cells_stay_sound()
    ensures exact { ExactLaw }
    ensures acyclic { AcyclicLaw }
    ensures consistent { ConsistentLaw }
    ensures all_records { ConsistentAfterLaw }
    ensures one_more { OneMoreLaw }
{}

/// Why a pointer is made strong only where its target is another object than its source.
pub fn self_pointers_stay_weak()
    ensures { SelfPointerLaw }
{}
