//! Laws of collector rounds beside which no client is active. Each is the contract of a function with an empty body, so
//! that the check accepts this crate only where each law is proved.
//!
//! The first three speak of the stores that a journal has, one after another. The last ones speak of journals, by what
//! their calls ensure, and are what a user of a journal cites.
//!
//! One law speaks of rounds beside clients too: what is looked at and done in the green walk is what the plain walk looks
//! at and does, which saves no look.
#![tactic(auto)]

ghost use Rattle.quiet_rounds.specs.Laws.{QuietEventLaw, QuietLooksLaw};
ghost use Rattle.quiet_rounds.specs.WholeRounds.{DominatedLaw, DeletedLaw, KeptLaw, FewerLaw, BoundLaw};
ghost use Rattle.quiet_rounds.specs.Collections.{RoundsLaw, QueueLaw, AtRestLaw};
ghost use Rattle.quiet_rounds.specs.JournalSteps.{JournalEventLaw, JournalLooksLaw, NotedLaw};
ghost use Rattle.quiet_rounds.specs.RoundNotes.{NotedRoundLaw, NotedDominatedLaw, NotedDeletedLaw, NotedKeptLaw, NotedFewerLaw, NotedBoundLaw};
ghost use Rattle.quiet_rounds.specs.PlainWalk.{PlainLooksLaw, PlainEventsLaw};
ghost use Rattle.quiet_rounds.specs.StepsEnd.{StepsQueueLaw, StepsRoundsLaw, StepsEndLaw, StepsIdleLaw};

/// A round that was quiet since it opened stays so as long as no client begins. It takes no object into the queue.
pub fn quiet_rounds_stay_quiet()
    ensures events { QuietEventLaw }
    ensures looks { QuietLooksLaw }
{}

/// A whole round beside which no client is active.
pub fn quiet_rounds_are_exact()
    ensures dominated { DominatedLaw }
    ensures deleted { DeletedLaw }
    ensures kept { KeptLaw }
    ensures fewer { FewerLaw }
    ensures bound { BoundLaw }
{}

/// Whole rounds one after another, beside which no client is active: each leaves one object without strong pointers
/// fewer, none takes an object into the queue, and each takes one out.
pub fn quiet_collections_use_up_the_queue()
    ensures rounds { RoundsLaw }
    ensures queue { QueueLaw }
    ensures rest { AtRestLaw }
{}

/// A step of a journal's collector beside which no client is active is an event, or looks, of a quiet round.
pub fn journals_step_quietly()
    ensures event { JournalEventLaw }
    ensures looks { JournalLooksLaw }
    ensures noted { NotedLaw }
{}

/// A whole round of a journal beside which no client is active, read off its notes.
pub fn noted_rounds_are_exact()
    ensures round { NotedRoundLaw }
    ensures dominated { NotedDominatedLaw }
    ensures deleted { NotedDeletedLaw }
    ensures kept { NotedKeptLaw }
    ensures fewer { NotedFewerLaw }
    ensures bound { NotedBoundLaw }
{}

/// Steps of a journal's collector beside which no client is active, from a moment at which no round is open: they end,
/// after no more rounds than there were objects without strong pointers.
pub fn quiet_steps_end()
    ensures queue { StepsQueueLaw }
    ensures rounds { StepsRoundsLaw }
    ensures end { StepsEndLaw }
    ensures idle { StepsIdleLaw }
{}

/// The green walk of a journal's collector, beside clients too: its looks are looks of the plain walk, and each of its
/// events is the one that the plain walk finds next. So no look that it saves would find anything.
pub fn green_walks_are_plain()
    ensures looks { PlainLooksLaw }
    ensures events { PlainEventsLaw }
{}
