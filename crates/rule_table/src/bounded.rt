ghost use Rattle.std.specs.Prelude.{◌≡◌, ℕ, Bool};
ghost use Rattle.rule_table.specs.CoverTests.{each_below, some_below};

// Whether each number below the bound passes.
pub(crate) fn all_below<F: Fn(u8) -> bool>(bound: u8, test: F) -> bool
    requires { F.IsAlwaysCallable test }
    ensures { (p : ℕ → Bool) → ((n : ℕ) (b : Bool) → F.post test n b → b ≡ p n) → result ≡ each_below p bound }
{
    (0..bound).all(test)
}

// Whether some number below the bound passes.
pub(crate) fn any_below<F: Fn(u8) -> bool>(bound: u8, test: F) -> bool
    requires { F.IsAlwaysCallable test }
    ensures { (p : ℕ → Bool) → ((n : ℕ) (b : Bool) → F.post test n b → b ≡ p n) → result ≡ some_below p bound }
{
    (0..bound).any(test)
}
