//! What the verdict and the sweep are to the laws of a store's journal.

ghost use Rattle.green_walk.specs.Laws.{SeedLaw, LiveLaw, CondemnedLaw, EmptyLaw, FreeLaw};
ghost use Rattle.green_walk.specs.GreenLaws.{AskedLaw, WaitsLaw, SeedsLiveLaw, SettledLaw, FoundLaw, TestingLaw, TestedLaw, TestedToLaw, WalkedToLaw, TestLaw, StartedWorkLaw, FoundWorkLaw, TestingWorkLaw, TestedWorkLaw, SettledGreeningLaw, FoundGreeningLaw, TestingGreeningLaw, TestedGreeningLaw, AgainGreeningLaw};

/// What the verdict says of a walk is what the laws of a journal say of its round, where the row and the
/// table are those of the journal.
pub fn condemned_objects_are_garbage()
    ensures seeds { SeedLaw }
    ensures live { LiveLaw }
    ensures condemned { CondemnedLaw }
{}

/// The sweep asks for condemned objects alone, and an object that is freed is condemned no more.
pub fn sweeps_free_the_condemned()
    ensures empties { EmptyLaw }
    ensures frees { FreeLaw }
{}

/// What the green walk asks for is of the objects that live, and what its answers leave.
pub fn green_walks_are_of_the_living()
    ensures asked { AskedLaw }
    ensures waits { WaitsLaw }
    ensures seeds { SeedsLiveLaw }
    ensures settled { SettledLaw }
    ensures found { FoundLaw }
    ensures testing { TestingLaw }
    ensures tested { TestedLaw }
    ensures tests_jump { TestedToLaw }
    ensures walks_jump { WalkedToLaw }
    ensures test { TestLaw }
{}

/// Each look and each event of the green walk leaves less work.
pub fn green_walks_end()
    ensures started { StartedWorkLaw }
    ensures found { FoundWorkLaw }
    ensures testing { TestingWorkLaw }
    ensures tested { TestedWorkLaw }
{}

/// What holds of every green walk holds after each of its changes.
pub fn green_walks_stay_in_step()
    ensures settled { SettledGreeningLaw }
    ensures found { FoundGreeningLaw }
    ensures testing { TestingGreeningLaw }
    ensures tested { TestedGreeningLaw }
    ensures again { AgainGreeningLaw }
{}
