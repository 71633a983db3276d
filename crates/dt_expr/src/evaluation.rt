//! The value of an expression.

ghost use Rattle.std.specs.Prelude.{◌≡◌, ◌+◌, ◌*◌, ◌/◌, ◌%◌, ◌^◌, ◌<◌, ◌≤◌, [], ◌∷◌, length, Some, None, MatchOption, MatchResult};
ghost use Rattle.dt_model.specs.Limits.{most_tokens};
ghost use Rattle.dt_names.specs.declared.fault.FaultKind.TheVariants.{DivideByZero};
ghost use Rattle.dt_expr.specs.Expression.{Expression, steps, value, unary_value, binary_value};
ghost use Rattle.dt_expr.specs.Operands.{operands};
ghost use Rattle.dt_expr.specs.Evaluation.{after};

use crate::expression::Expr;
use crate::step::{Binary, Step, Unary};
use dt_names::limits::MOST_TOKENS;
use dt_names::{Fault, FaultKind};
use std::marker::Model;

/// The numbers that wait for their operators, the last one first: at most N.
#[derive(Drop)]
struct Stack<const N: usize> {
    numbers: [u64; N],
    top: usize,
}

impl<const N: usize> Model for Stack<N> {
    ghost use Rattle.std.specs.Prelude.{ℕ, ◌≤◌, List, drop};
    ghost use Rattle.dt_model.specs.Limits.{most_tokens};

    ghost Value = { List ℕ };

    ghost view = { λ s. drop s.top s.numbers };

    ghost invariant = { λ s. s.top ≤ N };
}

/// The number shifted to the left, modulo 2^64.
#[tactic(auto, using(crate::proofs::Shifts::left_out))]
fn shifted_left(number: u64, bits: u64) -> u64
    ensures { result ≡ number * 2 ^ bits % 2 ^ 64 }
{
    if bits < 64 { number << bits } else { 0 }
}

/// The number shifted to the right.
#[tactic(auto, using(crate::proofs::Shifts::right_out))]
fn shifted_right(number: u64, bits: u64) -> u64
    ensures { result ≡ number / 2 ^ bits }
{
    if bits < 64 { number >> bits } else { 0 }
}

/// What an operator gives at its operand.
fn of_one(operator: Unary, operand: u64) -> u64
    ensures { result ≡ unary_value operator operand }
{
    match operator {
        Unary::Minus => operand.wrapping_neg(),
        Unary::Complement => !operand,
        Unary::Not => u64::from(operand == 0),
    }
}

/// What an operator gives at its operands; none at a division by 0.
fn of_two(operator: Binary, left: u64, right: u64) -> Option<u64>
    ensures { result ≡ binary_value operator left right }
{
    match operator {
        Binary::Or => Some(u64::from(left != 0 || right != 0)),
        Binary::And => Some(u64::from(left != 0 && right != 0)),
        Binary::BitOr => Some(left | right),
        Binary::BitXor => Some(left ^ right),
        Binary::BitAnd => Some(left & right),
        Binary::Equal => Some(u64::from(left == right)),
        Binary::NotEqual => Some(u64::from(left != right)),
        Binary::Less => Some(u64::from(left < right)),
        Binary::Greater => Some(u64::from(left > right)),
        Binary::LessOrEqual => Some(u64::from(left <= right)),
        Binary::GreaterOrEqual => Some(u64::from(left >= right)),
        Binary::ShiftLeft => Some(shifted_left(left, right)),
        Binary::ShiftRight => Some(shifted_right(left, right)),
        Binary::Plus => Some(left.wrapping_add(right)),
        Binary::Minus => Some(left.wrapping_sub(right)),
        Binary::Times => Some(left.wrapping_mul(right)),
        Binary::Divide => left.checked_div(right),
        Binary::Remainder => left.checked_rem(right),
    }
}

impl<const N: usize> Stack<N> {
    fn new() -> Stack<N>
        ensures { result ≡ [] }
    {
        Stack {
            numbers: [0; N],
            top: N,
        }
    }

    fn push(&mut self, number: u64)
        requires { length self.old < N }
        ensures { self.new ≡ number ∷ self.old }
    {
        self.top -= 1;
        self.numbers[self.top] = number;
    }

    fn pop(&mut self) -> u64
        requires { 0 < length self.old }
        ensures { self.old ≡ result ∷ self.new }
    {
        let number = self.numbers[self.top];
        self.top += 1;
        number
    }

    /// Takes the operands of a step, and answers its number; none at a division by 0.
    fn take(&mut self, step: Step) -> Option<u64>
        requires { operands step ≤ length self.old }
        ensures { MatchOption result (after step self.old ≡ None) (λ n. after step self.old ≡ Some (n ∷ self.new)) }
    {
        match step {
            Step::Number(number) => Some(number),
            Step::Unary(operator) => Some(of_one(operator, self.pop())),
            Step::Binary(operator) => {
                let right = self.pop();
                let left = self.pop();
                of_two(operator, left, right)
            }
            Step::Conditional => {
                let otherwise = self.pop();
                let then = self.pop();
                let condition = self.pop();
                Some(if condition != 0 { then } else { otherwise })
            }
        }
    }
}

/// Most expressions have at most this many steps. A stack of this size is quick to clear.
const FEW: usize = 16;

/// The value of an expression of at most so many steps.
fn value_by<const N: usize>(expression: &Expr<'_>) -> Result<u64, Fault>
    requires fits { length expression.now ≤ N }
    requires small { N ≤ most_tokens }
    ensures { (e : Expression) → steps e ≡ expression.now →
        MatchResult result (λ n. value e ≡ Some n) (λ fault. (value e ≡ None) × (fault.kind ≡ DivideByZero) × (fault.at ≡ None)) }
{
    let mut stack = Stack::<N>::new();
    for step in expression.steps() {
        let Some(number) = stack.take(*step) else {
            return Err(Fault::of(FaultKind::DivideByZero));
        };
        stack.push(number);
    }
    Ok(stack.pop())
}

/// The value of an expression, as C gives it over unsigned 64-bit numbers: sums, differences, products and shifts wrap, a
/// shift by 64 or more gives 0, and comparisons, `!`, `&&` and `||` give 0 or 1 (Devicetree Specification v0.4, 6.3). Each
/// part is evaluated, also one that `&&`, `||` or `?` doesn't choose. It takes no memory.
///
/// # Errors
///
/// `DivideByZero` where a part divides by 0 or takes a remainder by 0, without a place.
pub fn eval(expression: &Expr<'_>) -> Result<u64, Fault>
    ensures exact { (e : Expression) → steps e ≡ expression.now →
        MatchResult result (λ n. value e ≡ Some n) (λ fault. (value e ≡ None) × (fault.kind ≡ DivideByZero) × (fault.at ≡ None)) }
{
    if expression.steps().len() <= FEW {
        value_by::<FEW>(expression)
    } else {
        value_by::<MOST_TOKENS>(expression)
    }
}
