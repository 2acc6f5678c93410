// What holds over every history of calls.
ghost use Rattle.planner.specs.Histories.{EveryHistory};

// Whatever sequence of calls a planner goes through from new on, declined ones included.
pub fn every_history_stands()
    ensures { EveryHistory }
{}
