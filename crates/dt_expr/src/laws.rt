//! Laws of expressions, for the crates that read them.

ghost use Rattle.std.specs.Prelude.{◌≡◌, ◌^◌, ◌<◌, List, Some, IfSome, All};
ghost use Rattle.dt_expr.specs.declared.step.Step.{Step};
ghost use Rattle.dt_expr.specs.Expression.{Expression, steps, value, height};
ghost use Rattle.dt_expr.specs.Numbers.{IsNumberBelow};

/// Steps behind which one operand is left are those of an expression, and of one only. So what `eval` says of each expression
/// with these steps is said of one: it has one value or none, and an answer and a refusal exclude each other.
pub fn one_expression()
    ensures is { (ss : List Step) → height 0 ss ≡ Some 1 → (e : Expression) × (steps e ≡ ss) }
    ensures only { (e f : Expression) → steps e ≡ steps f → e ≡ f }
    ensures height { (e : Expression) → height 0 (steps e) ≡ Some 1 }
{}

/// An expression of numbers below 2^64 has no other value.
pub fn values_fit()
    ensures { (e : Expression) → All (IsNumberBelow (2 ^ 64)) (steps e) → IfSome (value e) (λ n. n < 2 ^ 64) }
{}
