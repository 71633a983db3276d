//! Numbers of cell lists and of reservations.

ghost use Rattle.std.specs.Prelude.{◌≡◌, ◌≤◌, ◌-◌, ℕ, List, length, MatchOption, IfOk, IfErr};
ghost use Rattle.dt_model.specs.Limits.{most_tokens};
ghost use Rattle.dt_names.specs.declared.fault.FaultKind.TheVariants.{Limit};
ghost use Rattle.dt_expr.specs.Expression.{Expression, AreSteps, steps, value};
ghost use Rattle.dt_expr.specs.Fits.{element, IsWidth};
ghost use Rattle.dt_grammar.specs.Words.{words_of};
ghost use Rattle.dt_grammar.specs.Unchecked.{value_or_zero};
ghost use Rattle.dt_grammar.specs.Wanted.{Made, Prim, expression_in};
ghost use Rattle.dt_grammar.specs.Faults.{Around, in_elements};
ghost use Rattle.dt_parse.specs.Reading.{IsRead, IsBroken};
ghost use Rattle.dt_parse.specs.Standing.{Refused};
ghost use Rattle.dt_parse.specs.Numbers.{IsLiteral, IsMeasured, IsValued};

use crate::cursor::Cursor;
use crate::expression::{Refusal, Room, primary};
use crate::stop::Stop;
use dt_expr::{Expr, Step, eval, fit, one_expression};
use dt_lex::{Token, TokenKind};
use dt_names::FaultKind;
use dt_names::limits::MOST_TOKENS;

/// The number that a token is by itself.
fn literal(next: Option<TokenKind>) -> Option<u64>
    ensures { MatchOption result ((n : ℕ) → ¬ IsLiteral next n) (λ n. IsLiteral next n) }
{
    match next {
        Some(TokenKind::Integer(n)) => Some(n),
        Some(TokenKind::Character(n)) => Some(u64::from(n)),
        _ => None,
    }
}

/// More tokens than a number may have: the first that is too many.
fn over_limit(tokens: &[Token]) -> Stop
    requires { most_tokens ≤ length tokens.now }
    ensures kind { result.kind ≡ Limit }
    ensures left { result.left ≡ length tokens.now - most_tokens }
{
    Stop {
        kind: FaultKind::Limit,
        left: tokens.len() - MOST_TOKENS,
    }
}

/// Where tokens that begin with no number stop: at the one that can't stand there, or behind as many as a number may have.
fn refused(tokens: &[Token], refusal: Refusal) -> Stop
    requires { Refused tokens.now refusal }
    ensures { (text : List ℕ) (a : Around) → IsBroken a Prim (words_of text tokens.now) result }
{
    match refusal {
        Refusal::Memory => Stop {
            kind: FaultKind::NoMemory,
            left: 0,
        },
        Refusal::Syntax(left) => {
            if tokens.len() - left <= MOST_TOKENS {
                Stop {
                    kind: FaultKind::Syntax,
                    left,
                }
            } else {
                over_limit(tokens)
            }
        }
    }
}

/// Of how many tokens the expression is that the tokens begin with. The room then has its steps.
#[inline(never)]
fn measured(room: &mut Room, tokens: &[Token]) -> Result<usize, Stop>
    ensures ok { IfOk result (λ used. (text : List ℕ) → IsMeasured (words_of text tokens.now) room.new.steps.items used) }
    ensures err { IfErr result (λ stop. (text : List ℕ) (a : Around) → IsBroken a Prim (words_of text tokens.now) stop) }
{
    match primary(room, tokens) {
        Err(refusal) => Err(refused(tokens, refusal)),
        Ok(rest) => {
            let used = tokens.len() - rest.len();
            if used <= MOST_TOKENS {
                Ok(used)
            } else {
                Err(over_limit(tokens))
            }
        }
    }
}

/// The value of the expression of these steps; none where it divides by 0.
#[inline(never)]
fn value_of(found: &[Step]) -> Option<u64>
    requires { AreSteps found.now }
    ensures { (e : Expression) → found.now ≡ steps e → result ≡ value e }
{
    match eval(&Expr::known(found)) {
        Ok(value) => Some(value),
        Err(_) => None,
    }
}

/// The value of the number that is next, and of how many tokens it is. A number that is one token takes no memory.
#[inline(always)]
fn valued(room: &mut Room, cursor: &Cursor<'_, '_>) -> Result<(u64, usize), Stop>
    ensures ok { IfOk result (λ r. IsValued cursor.now r.0 r.1) }
    ensures err { IfErr result (λ stop. (a : Around) → IsBroken a Prim cursor.now stop) }
{
    if let Some(value) = literal(cursor.kind()) {
        return Ok((value, 1));
    }
    let used = measured(room, cursor.tokens())?;
    one_expression();
    match value_of(&room.steps) {
        Some(value) => Ok((value, used)),
        None => Err(cursor.stop(FaultKind::DivideByZero)),
    }
}

/// Reads a number: an integer, a character or an expression in parentheses (Devicetree Specification v0.4, 6.3), as an
/// element of so many bits. Answers its low bits.
#[inline(always)]
pub(crate) fn number(room: &mut Room, bits: u32, cursor: &mut Cursor<'_, '_>) -> Result<u64, Stop>
    requires { IsWidth bits }
    ensures ok { IfOk result (λ n. (a : Around) → (m : Made) × IsRead (in_elements bits a) Prim cursor.old m cursor.new
        × (n ≡ element bits (value_or_zero (expression_in m)))) }
    ensures err { IfErr result (λ stop. (a : Around) → IsBroken (in_elements bits a) Prim cursor.old stop) }
{
    let (value, used) = valued(room, cursor)?;
    match fit(value, bits) {
        Ok(element) => {
            cursor.skip(used);
            Ok(element)
        }
        Err(_) => Err(cursor.stop(FaultKind::OutOfRange)),
    }
}
