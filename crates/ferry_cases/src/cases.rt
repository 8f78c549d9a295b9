ghost use Rattle.ferry_cases.specs.FerryCases.{FerryCases};

// Each case holds. There is nothing to run: the contract is the theorem.
pub fn ferry_cases()
    ensures { FerryCases }
{}
