// The rule that gives each round its step.
ghost use Rattle.std.specs.Prelude.{◌≡◌, ◌≤◌, IfOk};
ghost use Rattle.refusals.specs.Numbers.{number_of};
ghost use Rattle.reader.specs.Steps.{step_refusal};

use refusals::Refusal;

// How far a multiplier moves: 1 to 4,096.
#[derive(Clone, Copy, PartialEq, Eq, Debug)]
pub struct Step {
    size: u32,
    ghost within: { (1 ≤ size) × (size ≤ 4096) },
}

impl Step {
    pub fn new(size: u32) -> Result<Step, Refusal>
        ensures number { number_of result ≡ step_refusal size }
        ensures size { IfOk result (λ s. s.size ≡ size) }
    {
        if !(1..=4096).contains(&size) {
            return Err(Refusal::StepRange);
        }
        Ok(Step { size })
    }

    pub fn size(self) -> u32
        ensures size { result ≡ self.size }
        ensures bounds { (1 ≤ result) × (result ≤ 4096) }
    {
        self.size
    }
}

// An enum and no closure, since a rule is made, kept and compared.
#[derive(Clone, Copy, PartialEq, Eq, Debug)]
pub enum StepRule {
    // the same step in every round
    Constant(Step),
    // the first step divided by the number of the round
    Divided(Step),
}

impl StepRule {
    ghost use Rattle.reader.specs.Rules.{step_of, IsConstant, IsDivided};

    // The same step in every round.
    pub fn constant(step: u32) -> Result<StepRule, Refusal>
        ensures number { number_of result ≡ step_refusal step }
        ensures rule { IfOk result (λ s. IsConstant s step) }
    {
        Ok(StepRule::Constant(Step::new(step)?))
    }

    // The first step divided by the number of the round.
    pub fn divided(first: u32) -> Result<StepRule, Refusal>
        ensures number { number_of result ≡ step_refusal first }
        ensures rule { IfOk result (λ s. IsDivided s first) }
    {
        Ok(StepRule::Divided(Step::new(first)?))
    }

    // The step of the round with this number, 1 to 4,096.
    pub fn step(self, round: u32) -> u32
        ensures value { result ≡ step_of self round }
        ensures bounds { (1 ≤ result) × (result ≤ 4096) }
    {
        match self {
            StepRule::Constant(step) => step.size(),
            StepRule::Divided(first) => {
                let by = round.max(1);
                (first.size() / by).max(1)
            }
        }
    }
}
