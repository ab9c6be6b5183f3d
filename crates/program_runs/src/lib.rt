//! Runs of the programs, as the contracts of their commands say them, among the things that happen at the programs.
//! What may live here: what a run did by its own contract, what one leaves that ends before it closes its files
//! (`stops`), runs of both programs beside each other, and laws over every such deployment. There is no code but one
//! call, whose contract says what each connection keeps.
#![tactic(auto)]

pub mod stops;

ghost use Rattle.std.specs.Prelude.{◌≡◌, ◌≢◌, ◌≤◌, ℕ, true, List, [], Option, Some, None, Result, Ok};
ghost use Rattle.std.specs.Prelude.{IfSome, IsSome};
ghost use Rattle.std.specs.Borrow.{Bor};
ghost use Rattle.database_places.specs.Places.{IsHonest};
ghost use Rattle.connection_hall.specs.Answers.{Answer};
ghost use Rattle.gateway_rounds.specs.Ports.{Runs};
ghost use Rattle.outbox_tables.specs.Entries.{Contents, empty};
ghost use Rattle.outbox_process.specs.Dials.{Traffic};
ghost use Rattle.outbox_process.specs.Process.{Parts};
ghost use Rattle.outbox_commands.specs.declared.fault.NotDone.{NotDone};
ghost use Rattle.outbox_commands.specs.declared.options.Task.{Task};
ghost use Rattle.outbox_commands.specs.declared.options.Task.TheVariants.{Init};
ghost use Rattle.outbox_commands.specs.Tasks.{Does};
ghost use Rattle.outbox_commands.specs.Status.{status_by};
ghost use Rattle.program_runs.specs.Runs.{LiesClosed, IsRunBy, AreOfRun, IsFor};
ghost use Rattle.filing_model.specs.Request.{Request};
ghost use Rattle.programs.specs.Happenings.{Situation};
ghost use Rattle.program_runs.specs.Beside.{Act, network_of, AreCarried, DoTogether, TogetherHappen};
ghost use Rattle.intake_commands.specs.Tasks.{Means, Performs, Does as IntakeDoes};
ghost use Rattle.intake_commands.specs.declared.options.Serving.{Serving};
ghost use Rattle.intake_commands.specs.declared.options.Task.{Task as IntakeTask};
ghost use Rattle.intake_commands.specs.declared.options.Task.TheVariants.{Serve};
ghost use Rattle.program_runs.specs.Registers.{LiesRegister, IsServiceBy, AreOfPort, IsLimited};
ghost use Rattle.program_runs.specs.Deployment.{AnyRuns, AnyDeployment};

use connection_hall::Stream;
use programs::fronts::any_fronts;
use sqlite_disk::Disk;

/// A run of `outbox` on an outbox that lies there, or is not made yet, does deeds of its task, if its process is
/// certain at the end. They wrote what was written on the connections that its network recorded. If it makes an outbox,
/// that is this filer's.
pub fn a_run_of_outbox_is_deeds<D: Disk>()
    ensures { (task : Task) (net net' : Traffic) (out out' : Option (List ℕ)) (old new : Parts D.Disk)
        (result : Result (Unit {0}) NotDone) (it : Contents) → IsHonest D.Disk → LiesClosed old it → IsFor it.filer task
        → Does D.Disk task net net' out out' old new result → new.is_certain ≡ true
        → IsRunBy it old new (AreOfRun task net net' (status_by result)) }
{}

/// A run of `outbox init` that is done makes an outbox of its filer without entries, if its process is certain at the
/// end.
pub fn a_run_of_init_makes_an_outbox<D: Disk>()
    ensures { (database filer : Bor (List ℕ)) (net net' : Traffic) (out out' : Option (List ℕ))
        (old new : Parts D.Disk) → IsHonest D.Disk → old.outbox ≡ None → IsSome old.lying
        → Does {X = Unit {0}} D.Disk (Init database filer) net net' out out' old new (Ok tt)
        → new.is_certain ≡ true → LiesClosed new (empty filer.now) × (new.lying ≢ Some None) }
{}

/// Whatever programs do beside each other, in any order that keeps each one's own, happens one thing after another,
/// behind fronts or without, if what each read was written to it or given back by a front.
pub fn programs_happen_together()
    ensures { (limit : ℕ) (old : Situation) (acts : List Act) (last : ℕ → Contents) (after : List Request)
        → DoTogether limit old acts last after → AreCarried (network_of old) acts
        → TogetherHappen limit old last after }
{}

/// A run of `intake` on a register that lies there, or is not made yet, answers what comes on its port, one after
/// another, or does nothing with it, if its process is certain at the end. The port was told these answers before, none
/// if it is fresh, and is told those of this run.
pub fn a_run_of_intake_is_services<D: Disk, S: Stream>()
    ensures { (limit : ℕ) (task : IntakeTask) (told : List Answer) (old new : Means D.Disk S) (status : ℕ)
        (requests : List Request) → IsHonest D.Disk → IsLimited limit task → LiesRegister old.process requests
        → IfSome old.port (Runs S.Stream told) → Performs S.Stream task old new status
        → new.process.is_certain ≡ true
        → IsServiceBy limit requests old.process new.process (AreOfPort S.Stream limit requests told new.port) }
{}

/// A run of `intake serve --new` that is done answers what comes on its port, one after another, on a register that
/// begins without requests, if its process is certain at the end.
pub fn a_run_that_makes_a_register_is_services<D: Disk, S: Stream>()
    ensures { (limit status : ℕ) (serving : Serving) (told : List Answer) (old new : Means D.Disk S) → IsHonest D.Disk
        → serving.limit ≤ limit → IfSome old.port (Runs S.Stream told) → serving.new ≡ true
        → old.process.intake ≡ None → IsSome old.process.lying
        → IntakeDoes S.Stream (Serve serving) old new (Ok status) → new.process.is_certain ≡ true
        → IsServiceBy limit [] old.process new.process (AreOfPort S.Stream limit [] told new.port)
        × (new.process.lying ≢ Some None) }
{}

/// Whatever runs there are of both programs, one after another on each file and beside each other on different ones,
/// each killed or not, with strangers and fronts between: what lies in the files then is what such happenings keep, the
/// headline holds of it, and each confirmed entry is in the register once.
pub fn any_runs<D: Disk, S: Stream>()
    ensures { IsHonest D.Disk → AnyRuns D.Disk S.Stream }
{
    any_fronts();
}

/// Whatever runs there are of both programs from the first on, where no files lie before: each outbox is made for its
/// filer, and the register is made, at any time. What lies in the files then is what such happenings keep, the headline
/// holds of it, and each confirmed entry is in the register once.
pub fn any_deployment<D: Disk, S: Stream>()
    ensures { IsHonest D.Disk → AnyDeployment D.Disk S.Stream }
{
    any_fronts();
}
