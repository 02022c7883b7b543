//! Laws of source texts: the contracts of functions that do nothing. A function whose proof needs one calls it.
ghost use Rattle.std.specs.Prelude.{◌≡◌, ◌⊎◌, ◌↔◌, ℕ, Bool, List, IsTrue};
ghost use Rattle.std.specs.List.{AllZip};
ghost use Rattle.graphql_lexical.specs.Place.{Span};
ghost use Rattle.graphql_lexical.specs.Cutting.{Lexeme, Cut};
ghost use Rattle.graphql_lexical.specs.laws.Alike.{Alike};
ghost use Rattle.graphql_grammar.specs.Tree.{Definition};
ghost use Rattle.graphql_grammar.specs.Unlocated.{SameDocument};
ghost use Rattle.juniper_tokens.specs.Errors.{Fault, failure_of};
ghost use Rattle.juniper_tokens.specs.declared.error.LexFailure.{LexFailure};
ghost use Rattle.juniper_values.specs.Scalar.{Content};
ghost use Rattle.juniper_parser.specs.Promise.{HasTree, IsRefusal};
ghost use Rattle.juniper_documents.specs.laws.RefusalClauses.{IsRefusalByClauses, IsRefusalInText};
ghost use Rattle.juniper_documents.specs.laws.TreeLaws.{FailsAtBreak, IsRefusedAtBreak};
ghost use Rattle.juniper_documents.specs.declared.document.limited.Limits.{Limits};
ghost use Rattle.juniper_tree.specs.Scalars.{stated};
ghost use Rattle.juniper_documents.specs.Sources.{AreRefusedAlike};
ghost use Rattle.juniper_documents.specs.Within.{HasTooDeep, HasOneResult};
ghost use Rattle.juniper_documents.specs.Limited.{HasOneResultLimited};
ghost use Rattle.graphql_grammar.specs.Grammar.{IsLocated, IsType, IsValue};
ghost use Rattle.juniper_documents.specs.Literals.{HasOneLiteralResult, NamesTypeError, NamesValueError};

use crate::document::limited::Limits;
use juniper_values::ScalarValue;

/// If a lexer fails where its source breaks, a parser returns the lexical error at that place.
pub fn lexer_failures_are_reported()
    ensures { (source : List ℕ) (failed : LexFailure) → FailsAtBreak source failed → IsRefusedAtBreak source (failure_of failed) }
{}

/// Limits are equal exactly if both of their numbers are.
pub fn limits_are_compared_whole()
    ensures { (a b : Limits) → IsTrue (⟦<Limits as PartialEq>⟧.eq a b) ↔ (a ≡ b) }
{}

/// A source text is a document or is refused at one position with one error, and never both.
pub fn document_or_fault<S: ScalarValue>()
    ensures either { (source : List ℕ) → ((tree : List (Definition Content)) × HasTree (stated S.reading S.of_bool) source tree) ⊎ ((fault : Fault) × IsRefusal (stated S.reading S.of_bool) source fault) }
    ensures one { (source : List ℕ) (f g : Fault) → IsRefusal (stated S.reading S.of_bool) source f → IsRefusal (stated S.reading S.of_bool) source g → f ≡ g }
    ensures never_both { (source : List ℕ) (tree : List (Definition Content)) (fault : Fault) → HasTree (stated S.reading S.of_bool) source tree → IsRefusal (stated S.reading S.of_bool) source fault → ⊥ }
{}

/// A refusal by cases is one by clauses, and the other way round.
pub fn refusals_by_clauses<S: ScalarValue>()
    ensures clauses { (source : List ℕ) (fault : Fault) → IsRefusal (stated S.reading S.of_bool) source fault → IsRefusalByClauses (stated S.reading S.of_bool) source fault }
    ensures in_characters { (source : List ℕ) (fault : Fault) → IsRefusal (stated S.reading S.of_bool) source fault → IsRefusalInText (stated S.reading S.of_bool) source fault }
    ensures cases { (source : List ℕ) (fault : Fault) → IsRefusalByClauses (stated S.reading S.of_bool) source fault → IsRefusal (stated S.reading S.of_bool) source fault }
{}

/// A source text has one token at most that is nested too deep.
pub fn one_too_deep<S: ScalarValue>()
    ensures { (depth : ℕ) (source : List ℕ) (a b : Span) → HasTooDeep (stated S.reading S.of_bool) depth source a → HasTooDeep (stated S.reading S.of_bool) depth source b → a ≡ b }
{}

/// Within a limit on nesting, a source text has a tree, is refused, or has a token that is nested too deep: exactly one
/// of these.
pub fn one_answer_within<S: ScalarValue>()
    ensures { (depth : ℕ) (source : List ℕ) → HasOneResult (stated S.reading S.of_bool) depth source }
{}

/// Within limits on nesting and on tokens, a source text has few tokens and a tree, is refused, or has a token that is
/// nested too deep, or it has too many tokens: exactly one of these four.
pub fn one_answer_limited<S: ScalarValue>()
    ensures { (depth most : ℕ) (source : List ℕ) → HasOneResultLimited (stated S.reading S.of_bool) depth most source }
{}

/// Two source texts whose tokens are alike, in kinds and texts, are both documents, whose trees differ in spans alone,
/// or are both refused at the same token's number with the same error.
pub fn alike_texts<S: ScalarValue>()
    ensures accepted { (a b : List ℕ) (ts us : List Lexeme) (x : List (Definition Content)) → Cut a ts → Cut b us → AllZip Alike ts us
        → HasTree (stated S.reading S.of_bool) a x → (y : List (Definition Content)) × HasTree (stated S.reading S.of_bool) b y × SameDocument x y }
    ensures refused { (a b : List ℕ) (ts us : List Lexeme) (f : Fault) → Cut a ts → Cut b us → AllZip Alike ts us
        → IsRefusal (stated S.reading S.of_bool) a f → (g : Fault) × IsRefusal (stated S.reading S.of_bool) b g × AreRefusedAlike (stated S.reading S.of_bool) ts us f g }
{}

/// Within a limit on nesting, a source text is one value, is refused at one position with one error, or has a token that is
/// nested too deep: exactly one of these.
pub fn one_value_result<S: ScalarValue>()
    ensures { (free : Bool) (depth : ℕ) (source : List ℕ) → HasOneLiteralResult (IsLocated (IsValue (stated S.reading S.of_bool) free)) depth source (NamesValueError (stated S.reading S.of_bool) free) }
{}

/// The same of one type.
pub fn one_type_result()
    ensures { (depth : ℕ) (source : List ℕ) → HasOneLiteralResult (IsLocated IsType) depth source NamesTypeError }
{}
