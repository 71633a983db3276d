//! Laws of the definitions: why what the functions share with them is what the grammar says.

ghost use Rattle.std.specs.Prelude.{◌≡◌, ◌≤◌, List, ℕ, Ok, length};
ghost use Rattle.dt_model.specs.Limits.{most_bytes};
ghost use Rattle.dt_names.specs.declared.fault.Fault.{Fault};
ghost use Rattle.dt_names.specs.declared.fault.FaultKind.TheVariants.{NoMemory};
ghost use Rattle.dt_lex.specs.declared.token.Token.{Token};
ghost use Rattle.dt_lex.specs.Vocabulary.{IsText, IsCharacter};
ghost use Rattle.dt_lex.specs.Texts.{text_bytes, character_value};
ghost use Rattle.dt_lex.specs.Lexing.{Lexed, IsLexed, WhyNotLexed};

/// A text has one token list, or one first flaw, and not both.
pub fn one_answer()
    ensures { (text : List ℕ) (a b : Lexed) → IsLexed text a → IsLexed text b → a ≡ b }
{}

/// A text has tokens, or one fault, and not both, unless memory is wanted.
pub fn one_outcome()
    ensures only { (text : List ℕ) (ts : List Token) (e : Fault) → length text ≤ most_bytes → IsLexed text (Ok ts) → WhyNotLexed text e → e.kind ≡ NoMemory }
    ensures fault { (text : List ℕ) (e f : Fault) → WhyNotLexed text e → WhyNotLexed text f → ¬ e.kind ≡ NoMemory → ¬ f.kind ≡ NoMemory → e ≡ f }
{}

/// The bytes of a text and the value of a character are those of the grammar, in which each escape is as long as it can be.
pub fn texts_are_read()
    ensures texts { (w value : List ℕ) → IsText w value → text_bytes w ≡ value }
    ensures characters { (w : List ℕ) (v : ℕ) → IsCharacter w v → character_value w ≡ v }
{}
