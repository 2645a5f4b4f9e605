ghost use Rattle.nim_plan.specs.Legal.{LegalBySteps};

/// A list of orders may be given where each order may follow those before it.
pub fn legal_by_steps()
    ensures { LegalBySteps }
{}
