// The theorems of planning: each function stands for one statement, which its contract says and its proof shows.
ghost use Rattle.model.specs.Theorems.{OrderFree, KeptHold, SpoiltGoes, LargestUnique, MarksSound, ContradictionNone, MarksPlan, ForcedClosed, ForcedLeast};
ghost use Rattle.model.specs.PathTheorems.{Few, AddingPassesOne, TurningPasses, WalksPass, WalksJoin, PassedBounded, WalksEnd, Backtracking, EndsFirst, FirstUnique, OneBefore, RankedOrdered};

pub fn order_free_stands()
    ensures { OrderFree }
{}

pub fn kept_hold_stands()
    ensures { KeptHold }
{}

pub fn spoilt_goes_stands()
    ensures { SpoiltGoes }
{}

pub fn largest_unique_stands()
    ensures { LargestUnique }
{}

pub fn marks_sound_stands()
    ensures { MarksSound }
{}

pub fn contradiction_none_stands()
    ensures { ContradictionNone }
{}

pub fn marks_plan_stands()
    ensures { MarksPlan }
{}

pub fn forced_closed_stands()
    ensures { ForcedClosed }
{}

pub fn forced_least_stands()
    ensures { ForcedLeast }
{}

pub fn few_stands()
    ensures { Few }
{}

pub fn adding_passes_one_stands()
    ensures { AddingPassesOne }
{}

pub fn turning_passes_stands()
    ensures { TurningPasses }
{}

pub fn walks_pass_stands()
    ensures { WalksPass }
{}

pub fn walks_join_stands()
    ensures { WalksJoin }
{}

pub fn passed_bounded_stands()
    ensures { PassedBounded }
{}

pub fn walks_end_stands()
    ensures { WalksEnd }
{}

pub fn backtracking_stands()
    ensures { Backtracking }
{}

pub fn ends_first_stands()
    ensures { EndsFirst }
{}

pub fn first_unique_stands()
    ensures { FirstUnique }
{}

pub fn one_before_stands()
    ensures { OneBefore }
{}

pub fn ranked_ordered_stands()
    ensures { RankedOrdered }
{}
