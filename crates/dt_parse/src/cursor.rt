//! The tokens of a text that aren't read yet.

ghost use Rattle.std.specs.Prelude.{◌≡◌, ◌≢◌, length, true, Some, OnOk, IfErr, ◌≤◌, ℕ, List, drop};
ghost use Rattle.std.specs.List.{AllByRecursion};
ghost use Rattle.dt_names.specs.declared.fault.FaultKind.{FaultKind};
ghost use Rattle.dt_names.specs.declared.fault.FaultKind.TheVariants.{Syntax};
ghost use Rattle.dt_grammar.specs.Words.{words_of};
ghost use Rattle.dt_grammar.specs.Wanted.{kind_at, bytes_at};
ghost use Rattle.dt_grammar.specs.Descent.{first, after};
ghost use Rattle.dt_parse.specs.Reading.{IsInside};

use crate::stop::Stop;
use dt_lex::{Token, TokenKind};
use dt_names::FaultKind;
use std::marker::Model;

/// The tokens of a text from a place on. It is seen as the list of them, each with its kind and its bytes.
#[derive(Drop)]
pub(crate) struct Cursor<'a, 't> {
    text: &'a [u8],
    pub(crate) tokens: &'t [Token],
}

impl<'a, 't> Model for Cursor<'a, 't> {
    ghost use Rattle.std.specs.Prelude.{length};
    ghost use Rattle.std.specs.List.{AllByRecursion};
    ghost use Rattle.dt_grammar.specs.Words.{Words, words_of};
    ghost use Rattle.dt_parse.specs.Reading.{IsInside};

    ghost Value = { Words };

    ghost view = { λ c. words_of c.text.now c.tokens.now };

    ghost invariant = { λ c. AllByRecursion (IsInside (length c.text.now)) c.tokens.now };
}

impl<'a, 't> Cursor<'a, 't> {
    /// In front of all tokens of a text.
    pub(crate) fn new(text: &'a [u8], tokens: &'t [Token]) -> Cursor<'a, 't>
        requires { AllByRecursion (IsInside (length text.now)) tokens.now }
        ensures { result ≡ words_of text.now tokens.now }
    {
        Cursor { text, tokens }
    }

    /// What the next token is.
    pub(crate) fn kind(&self) -> Option<TokenKind>
        ensures { result ≡ kind_at (first self.now) }
    {
        match self.tokens.first() {
            None => None,
            Some(token) => Some(token.kind),
        }
    }

    /// What the token behind the next one is.
    pub(crate) fn second(&self) -> Option<TokenKind>
        ensures { result ≡ kind_at (first (after true self.now)) }
    {
        match self.tokens.get(1) {
            None => None,
            Some(token) => Some(token.kind),
        }
    }

    /// The bytes of the next token; none where there is no token.
    pub(crate) fn bytes(&self) -> &'a [u8]
        ensures { result.now ≡ bytes_at (first self.now) }
    {
        match self.tokens.first() {
            None => &[],
            Some(token) => &self.text[token.start as usize..token.end as usize],
        }
    }

    /// How many tokens are left.
    pub(crate) fn left(&self) -> usize
        ensures { result ≡ length self.now }
    {
        self.tokens.len()
    }

    /// A fault that shows here.
    pub(crate) fn stop(&self, kind: FaultKind) -> Stop
        ensures kind { result.kind ≡ kind }
        ensures left { result.left ≡ length self.now }
    {
        Stop {
            kind,
            left: self.left(),
        }
    }

    /// The tokens that are left, as the text has them.
    pub(crate) fn tokens(&self) -> &'t [Token]
        ensures { (text : List ℕ) × (words_of text result.now ≡ self.now) }
    {
        self.tokens
    }

    /// Steps over so many tokens.
    pub(crate) fn skip(&mut self, count: usize)
        requires { count ≤ length self.old }
        ensures { self.new ≡ drop count self.old }
    {
        self.tokens = &self.tokens[count..];
    }

    /// Steps over the next token.
    pub(crate) fn advance(&mut self)
        ensures { self.new ≡ after true self.old }
    {
        if !self.tokens.is_empty() {
            self.tokens = &self.tokens[1..];
        }
    }

    /// Steps over the next token, which is of this kind; `Syntax` where it isn't.
    pub(crate) fn expect(&mut self, kind: TokenKind) -> Result<(), Stop>
        ensures ok { OnOk result ((kind_at (first self.old) ≡ Some kind) × (self.new ≡ after true self.old)) }
        ensures err { IfErr result (λ stop. (kind_at (first self.old) ≢ Some kind) × (stop.kind ≡ Syntax) × (stop.left ≡ length self.old)) }
    {
        if self.kind() != Some(kind) {
            return Err(self.stop(FaultKind::Syntax));
        }
        self.advance();
        Ok(())
    }
}
