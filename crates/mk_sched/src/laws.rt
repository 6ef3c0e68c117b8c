//! Laws of runs. Each function's contract is a law, and its body is empty.
ghost use Rattle.mk_sched.specs.Laws.{OwnFile, StaleAlike, LookAlike, Headline};
ghost use Rattle.mk_sched.specs.Serial.{RunsSerialise, EqualsSerialRun, KeepsActs, PutsInTurn};
ghost use Rattle.mk_sched.specs.Schedules.{RunIsSchedule, OthersStay, DeterminateFromOneRun};
ghost use Rattle.mk_sched.specs.Sure.{SurelyStale};
ghost use Rattle.mk_sched.specs.Plain.{AgreeMeans, IdleIsFresh, IdleNeverStarts, ListingAgrees};
ghost use Rattle.mk_sched.specs.Programs.{ProgramsAgree};
ghost use Rattle.mk_sched.specs.Table.{StateIsReported, MayIsTable, RunsByTable};
ghost use Rattle.mk_sched.specs.InTime.{InTime, BeginningIsRun};
ghost use Rattle.mk_sched.specs.Controls.{ControlsReport};
ghost use Rattle.mk_sched.specs.Counter.{CounterMoves};
ghost use Rattle.mk_sched.specs.Refused.{AllowedUnlessRefused};

/// Until a node starts, its own file is as at the opening.
pub fn own_file()
    ensures { OwnFile }
{}

/// A node that has started in neither of two runs is stale behind both or behind none, if its prerequisites did the same.
pub fn stale_alike()
    ensures { StaleAlike }
{}

/// A running node reads the same in two runs, if it and the nodes before it did the same.
pub fn look_alike()
    ensures { LookAlike }
{}

/// Valid jobs that are race-free are determinate.
pub fn headline()
    ensures { Headline }
{}

/// A run is a schedule that stays within the footprints.
pub fn run_is_schedule()
    ensures { RunIsSchedule }
{}

/// Where one complete run is known, each schedule whose recipes agree with it stays within the footprints.
pub fn others_stay()
    ensures { OthersStay }
{}

/// Valid jobs that are race-free are determinate from one run.
pub fn determinate_from_one_run()
    ensures { DeterminateFromOneRun }
{}

/// The serial list of a complete run is a complete serial run with the same outcome.
pub fn serialised()
    ensures { RunsSerialise }
{}

/// The serial list has each node's acts in their old order, except for times.
pub fn keeps_acts()
    ensures { KeepsActs }
{}

/// The puts of the serial list have rising times, one after the other.
pub fn puts_in_turn()
    ensures { PutsInTurn }
{}

/// Where jobs are determinate, a complete run has the outcome of each complete serial run whose recipes agree with its own.
/// It does not say that there is one.
pub fn equals_serial_run()
    ensures { EqualsSerialRun }
{}

/// Recipes that follow the same programs agree.
pub fn programs_agree()
    ensures { ProgramsAgree }
{}

/// A node that is surely stale by the times of the opening is stale in every run, until it starts.
pub fn surely_stale()
    ensures { SurelyStale }
{}

/// An idle node is not stale before it starts.
pub fn idle_is_fresh()
    ensures { IdleIsFresh }
{}

/// An idle recipe never starts.
pub fn idle_never_starts()
    ensures { IdleNeverStarts }
{}

/// A store that agrees with the plan's listing agrees with its jobs.
pub fn listing_agrees()
    ensures { ListingAgrees }
{}

/// Recipes that agree, in the plainest words.
pub fn agree_means()
    ensures { AgreeMeans }
{}

/// A beginning of a run is a run.
pub fn beginning_is_run()
    ensures { BeginningIsRun }
{}

/// A run in the order of time.
pub fn in_time()
    ensures { InTime }
{}

/// The sets of passed and of running nodes are what the events of a run say.
pub fn state_is_reported()
    ensures { StateIsReported }
{}

/// What is allowed after a run is what the table of events allows in its state.
pub fn may_is_table()
    ensures { MayIsTable }
{}

/// A list of events is a run exactly where the table allows each in its turn.
pub fn runs_by_table()
    ensures { RunsByTable }
{}

/// Skips, starts and finishes alone say who has passed and who runs.
pub fn controls_report()
    ensures { ControlsReport }
{}

/// The number of running nodes moves by one at a start and at a finish.
pub fn counter_moves()
    ensures { CounterMoves }
{}

/// An event is allowed exactly unless one of its refusals holds.
pub fn allowed_unless_refused()
    ensures { AllowedUnlessRefused }
{}
