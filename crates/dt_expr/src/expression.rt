//! Expressions as their steps in postfix order.

ghost use Rattle.std.specs.Prelude.{◌≡◌, ◌↔◌, IsSome, IfSome, IsTrue};
ghost use Rattle.dt_expr.specs.Expression.{AreSteps};

use crate::step::Step;
use dt_names::limits::MOST_TOKENS;
use std::marker::Model;

/// An expression, as its steps in postfix order: each operator behind its operands. However deep the parentheses of a source
/// nest, it is a list.
#[derive(Drop)]
pub struct Expr<'a> {
    steps: &'a [Step],
}

impl<'a> Model for Expr<'a> {
    ghost use Rattle.std.specs.Prelude.{List};
    ghost use Rattle.dt_expr.specs.declared.step.Step.{Step};
    ghost use Rattle.dt_expr.specs.Expression.{AreSteps};

    ghost Value = { List Step };

    ghost view = { λ e. e.steps.now };

    ghost invariant = { λ e. AreSteps e.steps.now };
}

fn are_steps(steps: &[Step]) -> bool
    ensures { IsTrue result ↔ AreSteps steps.now }
{
    if steps.len() > MOST_TOKENS {
        return false;
    }
    let mut height = 0;
    for step in steps {
        let operands = step.operands();
        if height < operands {
            return false;
        }
        height = height - operands + 1;
    }
    height == 1
}

impl<'a> Expr<'a> {
    /// The expression of these steps; none where they are no expression's, or more than 1,024. Each operator comes after its
    /// operands, and one number is left over at the end (Devicetree Specification v0.4, 6.3).
    pub fn new(steps: &'a [Step]) -> Option<Expr<'a>>
        ensures valid { IsSome result ↔ AreSteps steps.now }
        ensures value { IfSome result (λ e. e ≡ steps.now) }
    {
        if are_steps(steps) {
            Some(Expr { steps })
        } else {
            None
        }
    }

    /// The expression of steps that are known to be one's. Looks at none of them.
    pub fn known(steps: &'a [Step]) -> Expr<'a>
        requires { AreSteps steps.now }
        ensures { result ≡ steps.now }
    {
        Expr { steps }
    }

    /// The steps of the expression, in postfix order.
    pub fn steps(&self) -> &'a [Step]
        ensures value { result.now ≡ self.now }
        ensures valid { AreSteps self.now }
    {
        self.steps
    }
}
