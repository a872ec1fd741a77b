ghost use Rattle.rules.specs.Laws.{CopiesCountOnce, CopiesUseNothing, WantedSuffices, WantedGuards, AllWantedAreUsed, UsedByFiles, AddingIsRight, CopyingKeepsFiles, ErasingKeepsFiles, SomeBlockIsLight, StandingsMove};
ghost use Rattle.rules.specs.Safety.{CleaningIsSafe, CleaningKeepsFiles, CleaningMakesAPlace};
ghost use Rattle.rules.specs.Runs.{TwoCleaningsSuffice, AcceptedThroughout, StepsAreRight, HoldingSuffices, RunsAreRight};
ghost use Rattle.rules.specs.Worked.{Worked};

// The laws of the rules: each function states one by its contract, and has nothing else to do.

// Which records stand tells all: equal copies count as one record.
pub fn copies_count_once()
    ensures { CopiesCountOnce }
{}

pub fn copies_use_nothing()
    ensures { CopiesUseNothing }
{}

// What is not wanted can go.
pub fn wanted_suffices()
    ensures { WantedSuffices }
{}

// What is wanted and in no file keeps an older record away.
pub fn wanted_guards()
    ensures { WantedGuards }
{}

pub fn all_wanted_are_used()
    ensures { AllWantedAreUsed }
{}

pub fn used_by_files()
    ensures { UsedByFiles }
{}

// A change adds one record, and that does it.
pub fn adding_is_right()
    ensures { AddingIsRight }
{}

// A copy, an erase, whole or failed.
pub fn copying_keeps_files()
    ensures { CopyingKeepsFiles }
{}

pub fn erasing_keeps_files()
    ensures { ErasingKeepsFiles }
{}

// There is always something to clean.
pub fn some_block_is_light()
    ensures { SomeBlockIsLight }
{}

pub fn standings_move()
    ensures { StandingsMove }
{}

// One cleaning, wherever the supply fails in it.
pub fn cleaning_is_safe()
    ensures { CleaningIsSafe }
{}

pub fn cleaning_keeps_files()
    ensures { CleaningKeepsFiles }
{}

pub fn cleaning_makes_a_place()
    ensures { CleaningMakesAPlace }
{}

// A change finds its place after at most two cleanings, with at most P programs.
pub fn two_cleanings_suffice()
    ensures { TwoCleaningsSuffice 2048 }
{}

// Wherever the supply fails in a call, mount accepts what is left.
pub fn accepted_throughout()
    ensures { AcceptedThroughout 2048 }
{}

// One call, and what holds between calls.
pub fn steps_are_right()
    ensures { StepsAreRight 2048 }
{}

pub fn holding_suffices()
    ensures { HoldingSuffices 2048 }
{}

// The law of whole runs, over records of 2,048 data bytes.
pub fn runs_are_right()
    ensures { RunsAreRight 2048 }
{}

// The worked table.
pub fn worked()
    ensures { Worked }
{}
