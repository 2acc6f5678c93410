// The theorems on marks: each function stands for one statement, which its contract says and its proof shows.
ghost use Rattle.marks.specs.Theorems.{ExactlyTells, SeedsBound, RestClosed};

pub fn exactly_tells_stands()
    ensures { ExactlyTells }
{}

pub fn seeds_bound_stands()
    ensures { SeedsBound }
{}

pub fn rest_closed_stands()
    ensures { RestClosed }
{}
