ghost use Rattle.io_strands.specs.Numbered.{StepsAlike};

/// Where what is ready goes by its number, each step of a strand is the step of the rules.
pub fn strands_step_alike<H, S>()
    ensures { StepsAlike H S }
{}
