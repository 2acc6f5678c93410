// One step of a problem.
ghost use Rattle.std.specs.Prelude.{◌≡◌};
ghost use Rattle.model.specs.Problems.{closed_step};

use sets::facts::LiteralSet;

// A step may be used only while it is enabled ("open"); it needs some literals and makes others true.
#[derive(Clone, Copy)]
pub struct Step {
    pub enabled: bool,
    pub needs: LiteralSet,
    pub makes: LiteralSet,
}

impl Step {
    // What stands for a step beyond the count: closed, with no needs and no makes.
    pub fn closed() -> Step
        ensures { result ≡ closed_step }
    {
        Step {
            enabled: false,
            needs: LiteralSet::empty(),
            makes: LiteralSet::empty(),
        }
    }
}
