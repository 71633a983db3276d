//! Expressions of devicetree source, and their values: those of C over unsigned 64-bit numbers (Devicetree Specification v0.4,
//! 6.3). An [`Expr`] is a list of steps in postfix order: numbers, and operators that take what the steps before them left. It borrows them.
//!
//! ```text
//! let steps = vec![in alloc; Step::Number(1), Step::Number(64), Step::Binary(Binary::ShiftLeft)]?;
//! let expression = Expr::new(&steps)?;    // None where the steps are no expression's
//! eval(&expression)                       // Ok(0): a shift by 64 or more
//! ```
//!
//! It is a case of expressions.cases (docs/CASES.md).
#![tactic(auto)]

mod element;
mod evaluation;
mod expression;
mod laws;
mod step;

pub use element::fit;
pub use evaluation::eval;
pub use expression::Expr;
pub use laws::{one_expression, values_fit};
pub use step::{Binary, Step, Unary};
