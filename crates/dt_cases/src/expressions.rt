//! Expressions, as steps in postfix order.

use crate::numbers::number;
use crate::outcome::{Outcome, Stop};
use dt_expr::{Binary, Expr, Step, Unary, eval};
use std::alloc::Global;

/// `expression` prints the value of the expression whose steps are given, or `none` where they are no expression's.
pub fn call(alloc: Global, input: &[u8], out: &mut Outcome) -> Result<(), Stop> {
    let steps = steps_of(alloc, input)?;
    match Expr::new(&steps) {
        Some(expression) if expression.steps().len() == steps.len() => out.tell(eval(&expression)?),
        Some(_) => out.tell("other steps"),
        None => out.tell("none"),
    }
    Ok(())
}

/// The steps that are given.
pub fn steps_of(alloc: Global, input: &[u8]) -> Result<Vec<Step>, Stop> {
    let text = str::from_utf8(input).map_err(|_| Stop::Malformed)?;
    let mut steps = Vec::new(alloc);
    push_steps(text, &mut steps)?;
    Ok(steps)
}

fn push_steps(text: &str, steps: &mut Vec<Step>) -> Result<(), Stop> {
    for word in text.split_whitespace() {
        steps.push(step(word).ok_or(Stop::Malformed)?)?;
    }
    Ok(())
}

/// A step: a number, `?:`, `neg`, `~` or `!`, or the mark of an operator with two sides.
fn step(word: &str) -> Option<Step> {
    match word {
        "?:" => Some(Step::Conditional),
        "neg" => Some(Step::Unary(Unary::Minus)),
        "~" => Some(Step::Unary(Unary::Complement)),
        "!" => Some(Step::Unary(Unary::Not)),
        _ => match number(word) {
            Some(number) => Some(Step::Number(number)),
            None => Some(Step::Binary(operator(word)?)),
        },
    }
}

fn operator(word: &str) -> Option<Binary> {
    match word {
        "||" => Some(Binary::Or),
        "&&" => Some(Binary::And),
        "|" => Some(Binary::BitOr),
        "^" => Some(Binary::BitXor),
        "&" => Some(Binary::BitAnd),
        "==" => Some(Binary::Equal),
        "!=" => Some(Binary::NotEqual),
        "<" => Some(Binary::Less),
        ">" => Some(Binary::Greater),
        "<=" => Some(Binary::LessOrEqual),
        ">=" => Some(Binary::GreaterOrEqual),
        "<<" => Some(Binary::ShiftLeft),
        ">>" => Some(Binary::ShiftRight),
        "+" => Some(Binary::Plus),
        "-" => Some(Binary::Minus),
        "*" => Some(Binary::Times),
        "/" => Some(Binary::Divide),
        "%" => Some(Binary::Remainder),
        _ => None,
    }
}
