//! Laws of the document grammar.
ghost use Rattle.std.specs.Prelude.{◌≡◌, ◌<◌, ◌⊎◌, ◌++◌, ℕ, List, [], Bool, length, ◌∷◌};
ghost use Rattle.std.specs.List.{AllByRecursion, AllZip};
ghost use Rattle.graphql_lexical.specs.Cutting.{Lexeme, Cut, EndsOnce};
ghost use Rattle.graphql_lexical.specs.laws.Alike.{Alike};
ghost use Rattle.graphql_lexical.specs.Nesting.{opened, closed};
ghost use Rattle.graphql_lexical.specs.declared.kind.Kind.{Kind};
ghost use Rattle.graphql_grammar.specs.Tokens.{Text, IsSpelled};
ghost use Rattle.graphql_grammar.specs.Tree.{Scalars, Value, TypeRef, Definition};
ghost use Rattle.graphql_grammar.specs.Grammar.{IsLocated, IsValue, IsType, IsDocument};
ghost use Rattle.graphql_grammar.specs.Faults.{Begins, AtFault, DocumentRefusedAt};
ghost use Rattle.graphql_grammar.specs.device.AlikeFaults.{BeginsAlike};
ghost use Rattle.graphql_grammar.specs.device.Faults.{DocumentFaultAt, ValueFaultAt, TypeFaultAt};
ghost use Rattle.graphql_grammar.specs.ScalarTokens.{IsRead, IsReadAlso};
ghost use Rattle.graphql_grammar.specs.Texts.{BeginsText};
ghost use Rattle.graphql_grammar.specs.Unlocated.{SameDocument, SameValue};
ghost use Rattle.graphql_grammar.specs.Samples.{IsSample, AreSamples};
ghost use Rattle.graphql_grammar.specs.device.Reading.{a_value, a_type, fully, GivesWhole, GivesFront};
ghost use Rattle.graphql_grammar.specs.device.Productions.{document, symbol_at, reads};

/// No list of tokens is two documents.
pub fn one_document<C, F>()
    ensures { (S : Scalars C F) (ts : List Lexeme) (a b : List (Definition C)) → IsDocument S a ts → IsDocument S b ts → a ≡ b }
{}

/// No list of tokens is two values.
pub fn one_value<C, F>()
    ensures { (S : Scalars C F) (free : Bool) (ts : List Lexeme) (a b : Value C) → IsValue S free a ts → IsValue S free b ts → a ≡ b }
{}

/// No list of tokens is two types.
pub fn one_type()
    ensures { (ts : List Lexeme) (a b : TypeRef) → IsType a ts → IsType b ts → a ≡ b }
{}

/// No value's list of tokens is a proper prefix of another's.
pub fn value_front<C, F>()
    ensures { (S : Scalars C F) (free : Bool) (us vs : List Lexeme) (v w : Value C) → IsValue S free v us → IsValue S free w (us ++ vs) → vs ≡ [] }
{}

/// Some tokens begin a document exactly if a document, which a text spells, has a prefix that is alike with them.
pub fn begun_by_alike_tokens<C, F>()
    ensures alike { (S : Scalars C F) (ts : List Lexeme) → Begins S ts → BeginsAlike IsSpelled (IsDocument S) ts }
    ensures begins { (S : Scalars C F) (ts : List Lexeme) → BeginsAlike IsSpelled (IsDocument S) ts → Begins S ts }
{}

/// Tokens that a text spells, with one end, the last, are a document or are refused at one token, and never both.
pub fn document_or_fault<C, F>()
    ensures either { (at_end : F) (unexpected : Kind → Text → F) (S : Scalars C F) (ts : List Lexeme) → AllByRecursion IsSpelled ts → EndsOnce ts → ((ds : List (Definition C)) × IsDocument S ds ts) ⊎ ((before : List Lexeme) × (t : Lexeme) × (e : F) × DocumentRefusedAt at_end unexpected S ts before t e) }
    ensures one { (S : Scalars C F) (ts us vs : List Lexeme) (t u : Lexeme) → AtFault (Begins S) ts us t → AtFault (Begins S) ts vs u → (us ≡ vs) × (t ≡ u) }
    ensures never_both { (S : Scalars C F) (ts before : List Lexeme) (ds : List (Definition C)) (t : Lexeme) → AllByRecursion IsSpelled ts → IsDocument S ds ts → AtFault (Begins S) ts before t → ⊥ }
{}

/// A list of tokens is refused at one token, after the same tokens, and with one error.
pub fn one_refusal<C, F>()
    ensures { (at_end : F) (unexpected : Kind → Text → F) (S : Scalars C F) (ts us vs : List Lexeme) (t u : Lexeme) (e d : F) → DocumentRefusedAt at_end unexpected S ts us t e → DocumentRefusedAt at_end unexpected S ts vs u d → (us ≡ vs) × (t ≡ u) × (e ≡ d) }
{}

/// The tokens before the refused one can be completed to a document by sample tokens alone.
pub fn fault_completed<C, F>()
    ensures { (S : Scalars C F) (ts before : List Lexeme) (t : Lexeme) → AllByRecursion IsSpelled ts → EndsOnce ts → AtFault (Begins S) ts before t → (more : List Lexeme) × (ds : List (Definition C)) × AreSamples more × IsDocument S ds (before ++ more) }
{}

/// The text up to the end of the last token before the refused one, and a space, can be completed to a document's text
/// whose first tokens are those, with their spans. Up to the end of the refused one it can't.
pub fn fault_in_characters<C, F>()
    ensures { (S : Scalars C F) (source : List ℕ) (ts before : List Lexeme) (t : Lexeme) → Cut source ts → AtFault (Begins S) ts before t → BeginsText S source before × (BeginsText S source (before ++ t ∷ []) → ⊥) }
{}

/// A document closes as many brackets as it opens.
pub fn document_is_balanced<C, F>()
    ensures { (S : Scalars C F) (ts : List Lexeme) (ds : List (Definition C)) → IsDocument S ds ts → opened ts ≡ closed ts }
{}

/// A list that is refused at a token of a prefix is refused there whatever comes after that prefix.
pub fn refused_in_front<C, F>()
    ensures { (at_end : F) (unexpected : Kind → Text → F) (S : Scalars C F) (front more other before : List Lexeme) (t : Lexeme) (e : F) → length before < length front → DocumentRefusedAt at_end unexpected S (front ++ more) before t e → DocumentRefusedAt at_end unexpected S (front ++ other) before t e }
{}

/// Lists that are alike are both documents, whose trees differ in spans alone, or are both refused, after tokens that are
/// alike and at tokens that are, with the same error.
pub fn alike_documents<C, F>()
    ensures accepted { (S : Scalars C F) (ts us : List Lexeme) (a : List (Definition C)) → AllZip Alike ts us → IsDocument S a ts → (b : List (Definition C)) × IsDocument S b us × SameDocument a b }
    ensures refused { (at_end : F) (unexpected : Kind → Text → F) (S : Scalars C F) (ts us before : List Lexeme) (t : Lexeme) (e : F) → AllZip Alike ts us → DocumentRefusedAt at_end unexpected S ts before t e → (front : List Lexeme) × (u : Lexeme) × AllZip Alike before front × Alike t u × DocumentRefusedAt at_end unexpected S us front u e }
{}

/// Lists that are alike are both values, which differ in spans alone, or neither is one.
pub fn alike_values<C, F>()
    ensures { (S : Scalars C F) (free : Bool) (ts us : List Lexeme) (a : Value C) → AllZip Alike ts us → IsValue S free a ts → (b : Value C) × IsValue S free b us × SameValue a b }
{}

/// Each scalar token of a document is one that the scalar type reads.
pub fn scalar_tokens_are_read<C, F>()
    ensures { (S : Scalars C F) (ts : List Lexeme) (ds : List (Definition C)) → IsDocument S ds ts → AllByRecursion (IsRead S) ts }
{}

/// A document of one scalar type is the same document of another one that reads its scalar tokens, `true` and `false`
/// as the first does.
pub fn other_scalars<C, F>()
    ensures { (S T : Scalars C F) (ts : List Lexeme) (ds : List (Definition C)) → S.of_bool ≡ T.of_bool → AllByRecursion (IsReadAlso S T) ts → IsDocument S ds ts → IsDocument T ds ts }
{}

/// The tokens that a source is cut into are spelled. The last of them, and no other, is the end.
pub fn cut_is_spelled()
    ensures spelled { (source : List ℕ) (ts : List Lexeme) → Cut source ts → AllByRecursion IsSpelled ts }
    ensures ended { (source : List ℕ) (ts : List Lexeme) → Cut source ts → EndsOnce ts }
{}

/// Each sample token is spelled by some text.
pub fn samples_are_spelled()
    ensures { (t : Lexeme) → IsSample t → IsSpelled t }
{}

/// The reading of a document gives the one tree, or refuses when the definitions do.
pub fn document_is_read<C, F>()
    ensures { (S : Scalars C F) (ts : List Lexeme) → AllByRecursion IsSpelled ts → EndsOnce ts → GivesWhole (IsDocument S) (DocumentFaultAt S ts) ts (fully (λ n. reads S n document) ts) }
{}

/// The reading of a value gives the one prefix that is a value, or refuses when the definitions do.
pub fn value_is_read<C, F>()
    ensures { (S : Scalars C F) (free : Bool) (ts : List Lexeme) → EndsOnce ts → GivesFront (IsLocated (IsValue S free)) (ValueFaultAt S free ts) ts (fully (λ n. symbol_at S n _ (a_value free)) ts) }
{}

/// The reading of a type gives the longest prefix that is a type, with its span, or refuses when the definitions do.
pub fn type_is_read<C, F>()
    ensures { (S : Scalars C F) (ts : List Lexeme) → EndsOnce ts → GivesFront (IsLocated IsType) (TypeFaultAt ts) ts (fully (λ n. symbol_at S n _ a_type) ts) }
{}
