//! Expressions, as steps in postfix order, by two stacks.

ghost use Rattle.std.specs.Prelude.{◌≡◌, ◌++◌, ◌∷◌, [], List, drop, OnOk};
ghost use Rattle.dt_grammar.specs.Words.{unary_of, binary_of, level_of};
ghost use Rattle.dt_parse.specs.Standing.{Answers};
ghost use Rattle.dt_parse.specs.Turns.{turn_at, operand_turn, whole_turn, wanted_turn, at_question, at_operand, behind_binary};
ghost use Rattle.dt_parse.specs.Turns.{behind_operand, at_else, at_close, unary_in, binary_in, kind_in};

use dt_expr::{Binary, Step, Unary};
use dt_lex::{Mark, Token, TokenKind};
use std::alloc::{AllocError, Global};

/// What waits for an operand or for a mark.
#[derive(Clone, Copy)]
pub(crate) enum Pending {
    Unary(Unary),
    Binary(Binary),
    /// `(`, which waits for `)`.
    Open,
    /// `?`, which waits for `:`.
    Question,
    /// `:`
    Colon,
}

/// What comes before a token.
#[derive(Clone, Copy)]
pub(crate) enum Stage {
    /// An operand is wanted.
    Wanted,
    /// An operand is complete.
    Operand,
    /// An expression is complete.
    Whole,
}

/// What is done at a token.
#[derive(Clone, Copy)]
pub(crate) enum Turn {
    Number(u64),
    Push(Pending),
    /// The last thing that is pending has its operands.
    Emit(Step),
    /// `:` comes in the place of `?`.
    Else,
    Close,
    Whole,
    Refuse,
}

/// The steps of an expression, and what is pending in it. The expressions of a text take turns in one room: only the first ones take memory.
#[derive(Drop)]
pub(crate) struct Room {
    pub alloc: Global,
    pub steps: Vec<Step>,
    pub pending: Vec<Pending>,
}

impl Room {
    pub(crate) fn new(alloc: Global) -> Room {
        Room {
            alloc,
            steps: Vec::new(alloc),
            pending: Vec::new(alloc),
        }
    }
}

/// Why there is no expression.
#[derive(Clone, Copy)]
pub(crate) enum Refusal {
    Memory,
    /// The token can't stand there; so many are left from it on.
    Syntax(usize),
}

impl From<AllocError> for Refusal {
    ghost use Rattle.std.specs.Prelude.{◌≡◌};
    ghost use Rattle.dt_parse.specs.declared.expression.Refusal.TheVariants.{Memory};

    ghost from_gives = { λ _ e. e ≡ Memory };

    fn from(_error: AllocError) -> Refusal {
        Refusal::Memory
    }
}

fn unary_of(kind: TokenKind) -> Option<Unary>
    ensures { result ≡ unary_of kind }
{
    match kind {
        TokenKind::Mark(Mark::Minus) => Some(Unary::Minus),
        TokenKind::Mark(Mark::Tilde) => Some(Unary::Complement),
        TokenKind::Mark(Mark::Exclamation) => Some(Unary::Not),
        _ => None,
    }
}

fn binary_of(kind: TokenKind) -> Option<Binary>
    ensures { result ≡ binary_of kind }
{
    match kind {
        TokenKind::Mark(mark) => match mark {
            Mark::Or => Some(Binary::Or),
            Mark::And => Some(Binary::And),
            Mark::Bar => Some(Binary::BitOr),
            Mark::Caret => Some(Binary::BitXor),
            Mark::Ampersand => Some(Binary::BitAnd),
            Mark::Equal => Some(Binary::Equal),
            Mark::NotEqual => Some(Binary::NotEqual),
            Mark::Less => Some(Binary::Less),
            Mark::Greater => Some(Binary::Greater),
            Mark::LessOrEqual => Some(Binary::LessOrEqual),
            Mark::GreaterOrEqual => Some(Binary::GreaterOrEqual),
            Mark::ShiftLeft => Some(Binary::ShiftLeft),
            Mark::ShiftRight => Some(Binary::ShiftRight),
            Mark::Plus => Some(Binary::Plus),
            Mark::Minus => Some(Binary::Minus),
            Mark::Star => Some(Binary::Times),
            Mark::Slash => Some(Binary::Divide),
            Mark::Percent => Some(Binary::Remainder),
            _ => None,
        },
        _ => None,
    }
}

fn level_of(operator: Binary) -> u8
    ensures { result ≡ level_of operator }
{
    match operator {
        Binary::Times => 1,
        Binary::Divide => 1,
        Binary::Remainder => 1,
        Binary::Plus => 2,
        Binary::Minus => 2,
        Binary::ShiftLeft => 3,
        Binary::ShiftRight => 3,
        Binary::Less => 4,
        Binary::Greater => 4,
        Binary::LessOrEqual => 4,
        Binary::GreaterOrEqual => 4,
        Binary::Equal => 5,
        Binary::NotEqual => 5,
        Binary::BitAnd => 6,
        Binary::BitXor => 7,
        Binary::BitOr => 8,
        Binary::And => 9,
        Binary::Or => 10,
    }
}

fn unary_in(next: Option<TokenKind>) -> Option<Unary>
    ensures { result ≡ unary_in next }
{
    match next {
        None => None,
        Some(kind) => unary_of(kind),
    }
}

fn binary_in(next: Option<TokenKind>) -> Option<Binary>
    ensures { result ≡ binary_in next }
{
    match next {
        None => None,
        Some(kind) => binary_of(kind),
    }
}

fn at_operand(next: Option<TokenKind>) -> Turn
    ensures { result ≡ at_operand next }
{
    match next {
        Some(TokenKind::Integer(n)) => Turn::Number(n),
        Some(TokenKind::Character(n)) => Turn::Number(u64::from(n)),
        Some(TokenKind::Mark(Mark::OpenParenthesis)) => Turn::Push(Pending::Open),
        _ => Turn::Refuse,
    }
}

fn behind_binary(operator: Binary, next: Option<Binary>) -> Turn
    ensures { result ≡ behind_binary operator next }
{
    match next {
        None => Turn::Emit(Step::Binary(operator)),
        Some(other) => {
            if level_of(operator) <= level_of(other) {
                Turn::Emit(Step::Binary(operator))
            } else {
                Turn::Push(Pending::Binary(other))
            }
        }
    }
}

fn at_question(next: Option<TokenKind>) -> Turn
    ensures { result ≡ at_question next }
{
    match next {
        Some(TokenKind::Mark(Mark::Question)) => Turn::Push(Pending::Question),
        _ => Turn::Whole,
    }
}

fn behind_operand(operator: Option<Binary>, next: Option<TokenKind>) -> Turn
    ensures { result ≡ behind_operand operator next }
{
    match operator {
        Some(other) => Turn::Push(Pending::Binary(other)),
        None => at_question(next),
    }
}

fn at_else(next: Option<TokenKind>) -> Turn
    ensures { result ≡ at_else next }
{
    match next {
        Some(TokenKind::Mark(Mark::Colon)) => Turn::Else,
        _ => Turn::Refuse,
    }
}

fn at_close(next: Option<TokenKind>) -> Turn
    ensures { result ≡ at_close next }
{
    match next {
        Some(TokenKind::Mark(Mark::CloseParenthesis)) => Turn::Close,
        _ => Turn::Refuse,
    }
}

fn operand_turn(top: Option<Pending>, next: Option<TokenKind>) -> Turn
    ensures { result ≡ operand_turn top next }
{
    match top {
        None => Turn::Refuse,
        Some(pending) => match pending {
            Pending::Unary(operator) => Turn::Emit(Step::Unary(operator)),
            Pending::Binary(operator) => behind_binary(operator, binary_in(next)),
            Pending::Open => behind_operand(binary_in(next), next),
            Pending::Question => behind_operand(binary_in(next), next),
            Pending::Colon => behind_operand(binary_in(next), next),
        },
    }
}

fn whole_turn(top: Option<Pending>, next: Option<TokenKind>) -> Turn
    ensures { result ≡ whole_turn top next }
{
    match top {
        Some(Pending::Colon) => Turn::Emit(Step::Conditional),
        Some(Pending::Question) => at_else(next),
        Some(Pending::Open) => at_close(next),
        _ => Turn::Refuse,
    }
}

fn wanted_turn(top: Option<Pending>, next: Option<TokenKind>) -> Turn
    ensures { result ≡ wanted_turn top next }
{
    match top {
        None => at_operand(next),
        Some(_) => match unary_in(next) {
            None => at_operand(next),
            Some(operator) => Turn::Push(Pending::Unary(operator)),
        },
    }
}

fn turn_at(stage: Stage, top: Option<Pending>, next: Option<TokenKind>) -> Turn
    ensures { result ≡ turn_at stage top next }
{
    match stage {
        Stage::Wanted => wanted_turn(top, next),
        Stage::Operand => operand_turn(top, next),
        Stage::Whole => whole_turn(top, next),
    }
}

fn kind_in(tokens: &[Token]) -> Option<TokenKind>
    ensures { result ≡ kind_in tokens.now }
{
    match tokens.first() {
        None => None,
        Some(token) => Some(token.kind),
    }
}

fn behind<'a>(tokens: &'a [Token]) -> &'a [Token]
    ensures { result.now ≡ drop 1 tokens.now }
{
    if tokens.is_empty() {
        tokens
    } else {
        &tokens[1..]
    }
}

fn push_step(out: &mut Vec<Step>, step: Step) -> Result<(), AllocError>
    ensures { OnOk result (out.new.items ≡ out.old.items ++ step ∷ []) }
{
    out.push(step)?;
    Ok(())
}

fn push_pending(waiting: &mut Vec<Pending>, pending: Pending) -> Result<(), AllocError>
    ensures { OnOk result (waiting.new.items ≡ waiting.old.items ++ pending ∷ []) }
{
    waiting.push(pending)?;
    Ok(())
}

/// Drops the last.
fn drop_last(waiting: &mut Vec<Pending>)
    ensures { (ps : List Pending) (p : Pending) → waiting.old.items ≡ ps ++ p ∷ [] → waiting.new.items ≡ ps }
{
    waiting.pop();
}

fn top_in(waiting: &Vec<Pending>) -> Option<Pending>
    ensures last { (ps : List Pending) (p : Pending) → waiting.now.items ≡ ps ++ p ∷ [] → result ≡ Some p }
    ensures none { waiting.now.items ≡ [] → result ≡ None }
{
    waiting.last().copied()
}

/// Reads the number that the tokens begin with: an integer, a character or an expression in parentheses (Devicetree
/// Specification v0.4, 6.3). The room then has its steps in postfix order; answers the tokens behind it. However deep the parentheses are
/// nested, nothing recurses; how many tokens they are and whether something divides by 0 isn't looked at.
///
/// # Errors
///
/// `Syntax` where the tokens begin with no number, and how many tokens are left from the first on at which none goes on; and `Memory`.
pub(crate) fn primary<'a>(room: &mut Room, tokens: &'a [Token]) -> Result<&'a [Token], Refusal>
    ensures { Answers tokens.now room.new.steps.items result }
{
    room.steps.clear();
    room.pending.clear();
    let mut rest = tokens;
    let mut stage = Stage::Wanted;
    'turns: loop {
        match turn_at(stage, top_in(&room.pending), kind_in(rest)) {
            Turn::Number(n) => {
                push_step(&mut room.steps, Step::Number(n))?;
                rest = behind(rest);
                stage = Stage::Operand;
                if room.pending.is_empty() {
                    return Ok(rest);
                }
            }
            Turn::Push(p) => {
                push_pending(&mut room.pending, p)?;
                rest = behind(rest);
                stage = Stage::Wanted;
            }
            Turn::Emit(step) => {
                drop_last(&mut room.pending);
                push_step(&mut room.steps, step)?;
            }
            Turn::Else => {
                drop_last(&mut room.pending);
                push_pending(&mut room.pending, Pending::Colon)?;
                rest = behind(rest);
                stage = Stage::Wanted;
            }
            Turn::Close => {
                drop_last(&mut room.pending);
                rest = behind(rest);
                stage = Stage::Operand;
                if room.pending.is_empty() {
                    return Ok(rest);
                }
            }
            Turn::Whole => {
                stage = Stage::Whole;
            }
            Turn::Refuse => return Err(Refusal::Syntax(rest.len())),
        }
    }
}
