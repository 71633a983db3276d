//! The parts of an expression.

ghost use Rattle.std.specs.Prelude.{◌≡◌};
ghost use Rattle.dt_expr.specs.Operands.{operands};

/// An operator in front of one operand.
#[derive(Clone, Copy, PartialEq, Eq)]
pub enum Unary {
    /// `-`
    Minus,
    /// `~`
    Complement,
    /// `!`
    Not,
}

/// An operator between two operands.
#[derive(Clone, Copy, PartialEq, Eq)]
pub enum Binary {
    /// `||`
    Or,
    /// `&&`
    And,
    /// `|`
    BitOr,
    /// `^`
    BitXor,
    /// `&`
    BitAnd,
    /// `==`
    Equal,
    /// `!=`
    NotEqual,
    /// `<`
    Less,
    /// `>`
    Greater,
    /// `<=`
    LessOrEqual,
    /// `>=`
    GreaterOrEqual,
    /// `<<`
    ShiftLeft,
    /// `>>`
    ShiftRight,
    /// `+`
    Plus,
    /// `-`
    Minus,
    /// `*`
    Times,
    /// `/`
    Divide,
    /// `%`
    Remainder,
}

/// A part of an expression in postfix order: a number, or an operator behind its operands.
#[derive(Clone, Copy, PartialEq, Eq)]
pub enum Step {
    Number(u64),
    Unary(Unary),
    Binary(Binary),
    /// `condition ? then : else`, behind the three.
    Conditional,
}

impl Step {
    /// How many operands the step takes.
    pub fn operands(self) -> usize
        ensures { result ≡ operands self }
    {
        match self {
            Step::Number(_) => 0,
            Step::Unary(_) => 1,
            Step::Binary(_) => 2,
            Step::Conditional => 3,
        }
    }
}
