//! What is true of the grammar.

ghost use Rattle.std.specs.Prelude.{◌≡◌, ◌↔◌, ◌-◌, ◌<◌, ◌++◌, ℕ, List, [], length};
ghost use Rattle.std.specs.List.{AllByRecursion};
ghost use Rattle.dt_names.specs.declared.fault.FaultKind.{FaultKind};
ghost use Rattle.dt_names.specs.declared.fault.FaultKind.TheVariants.{Syntax};
ghost use Rattle.dt_model.specs.Source.{Reference, Part, IsPlace};
ghost use Rattle.dt_model.specs.Nested.{AreNested};
ghost use Rattle.dt_model.specs.Valid.{IsReservation};
ghost use Rattle.dt_expr.specs.Expression.{Expression};
ghost use Rattle.dt_grammar.specs.Words.{Word, Words, IsReferenceWord};
ghost use Rattle.dt_grammar.specs.WordBytes.{HaveBytes};
ghost use Rattle.dt_grammar.specs.Grammar.{
  Class,
  primary,
  SpellsExpression,
  SpellsNumber,
  SpellsValue,
  Says,
  SpellsSource,
};
ghost use Rattle.dt_grammar.specs.Unchecked.{RawSource};
ghost use Rattle.dt_grammar.specs.Relaxed.{RelaxedSource};
ghost use Rattle.dt_grammar.specs.Wanted.{Made, Whole, Prim, made_source, made_expression, expression_in};
ghost use Rattle.dt_grammar.specs.Descent.{Descends, found, stuck};
ghost use Rattle.dt_grammar.specs.Exactly.{IsChecked, NoneBegins};
ghost use Rattle.dt_grammar.specs.Faults.{outside, Breaks};
ghost use Rattle.dt_grammar.specs.FaultSamples.{FirstFaults};
ghost use Rattle.dt_grammar.specs.Samples.{
  empty_root,
  empty_root_says,
  unended_root,
  property_behind_child,
  small_source,
  small_source_says,
};

/// The tokens of an expression are one expression's.
pub fn one_expression()
    ensures { (c : Class) (ws : Words) (e f : Expression) → SpellsExpression c ws e → SpellsExpression c ws f → e ≡ f }
{}

/// The tokens of a number have one value.
pub fn one_number()
    ensures { (ws : Words) (m n : ℕ) → SpellsNumber ws m → SpellsNumber ws n → m ≡ n }
{}

/// A reference is by one label or one path.
pub fn one_reference()
    ensures { (w : Word) (r s : Reference) → IsReferenceWord w r → IsReferenceWord w s → r ≡ s }
{}

/// The tokens of a value are one value's.
pub fn one_value()
    ensures { (ws : Words) (v u : List Part) → SpellsValue ws v → SpellsValue ws u → v ≡ u }
{}

/// The tokens of a source say one thing.
pub fn one_source()
    ensures { (ws : Words) (s t : Says) → SpellsSource ws s → SpellsSource ws t → s ≡ t }
{}

/// The tokens of a relaxed source are one relaxed source's.
pub fn one_relaxed()
    ensures { (ws : Words) (s t : RawSource) → RelaxedSource ws s → RelaxedSource ws t → s ≡ t }
{}

/// A source is a relaxed one that passes the checks.
pub fn source_is_checked()
    ensures { (ws : Words) (s : Says) → SpellsSource ws s ↔ IsChecked ws s }
{}

/// The descent reads relaxed sources and nothing else, and where it is stuck, no relaxed source goes on. At the front of
/// tokens it reads a number or an expression in parentheses, and nothing else.
pub fn descent_is_exact()
    ensures reads { (ws : Words) (s : RawSource) → RelaxedSource ws s ↔ Descends Whole ws (found (made_source s) []) }
    ensures primary { (us rest : Words) (e : Expression) → SpellsExpression primary us e → Descends Prim (us ++ rest) (found (made_expression (length us) e) rest) }
    ensures spelled { (ws rest : Words) (m : Made) → Descends Prim ws (found m rest) → (us : Words) × (ws ≡ us ++ rest) × SpellsExpression primary us (expression_in m) }
    ensures stuck { (ws left : Words) → Descends Whole ws (stuck left) → NoneBegins ws (length ws - length left) }
{}

/// A syntax fault shows at the first token through which no relaxed source begins.
pub fn syntax_is_where_none_goes_on()
    ensures { (ws left : Words) → Breaks outside Whole ws Syntax left → NoneBegins ws (length ws - length left) }
{}

/// Nothing that the grammar spells is refused: its tokens break nowhere.
pub fn source_has_no_fault()
    ensures { (ws left : Words) (s : Says) (k : FaultKind) → SpellsSource ws s → ¬ Breaks outside Whole ws k left }
{}

/// The fault of a text's tokens and its place are one.
pub fn one_fault()
    ensures { (ws left rest : Words) (k j : FaultKind) → Breaks outside Whole ws k left → Breaks outside Whole ws j rest → (k ≡ j) × (left ≡ rest) }
{}

/// The places of a source are well nested, and there is one at least; its reservations are ones.
pub fn source_is_nested()
    ensures nested { (ws : Words) (s : Says) → SpellsSource ws s → AreNested 0 s.places }
    ensures some { (ws : Words) (s : Says) → SpellsSource ws s → 0 < length s.places }
    ensures reservations { (ws : Words) (s : Says) → SpellsSource ws s → AllByRecursion IsReservation s.reservations }
{}

/// The names at the places of a source are names, and its bytes are bytes, where its words are ones that a text may have: of
/// other words the grammar takes any number as a byte.
pub fn source_has_places()
    ensures { (ws : Words) (s : Says) → HaveBytes ws → SpellsSource ws s → AllByRecursion IsPlace s.places }
{}

/// Small sources say what they should, and one that ends too early, or has a property behind a child, says nothing.
pub(crate) fn small_sources()
    ensures empty { SpellsSource empty_root empty_root_says }
    ensures unended { (s : Says) → ¬ SpellsSource unended_root s }
    ensures disordered { (s : Says) → ¬ SpellsSource property_behind_child s }
    ensures small { SpellsSource small_source small_source_says }
{}

/// Small sources with a fault of each kind, and the token at which it shows.
pub(crate) fn first_faults()
    ensures { FirstFaults }
{}
