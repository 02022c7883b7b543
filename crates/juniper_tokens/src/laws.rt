//! Laws of the lexer, those of the token grammar among them.
ghost use Rattle.std.specs.Prelude.{◌≡◌, ◌&&◌, ◌++◌, ℕ, Option, Some, IsTrue, ◌↔◌};
ghost use Rattle.juniper_tokens.specs.laws.PositionOrder.{compare_places};
ghost use Rattle.std.specs.Ordering.{is_eq};
ghost use Rattle.graphql_lexical.specs.Place.{Place};
ghost use Rattle.juniper_tokens.specs.declared.span.Span.{Span};
ghost use Rattle.juniper_tokens.specs.declared.span.Spanning.{Spanning};
ghost use Rattle.juniper_tokens.specs.declared.error.LexerError.{LexerError};
ghost use Rattle.juniper_tokens.specs.declared.error.ParseError.{ParseError};
ghost use Rattle.juniper_tokens.specs.Errors.{view_lexer_error, view_error};
ghost use Rattle.juniper_tokens.specs.ByteClasses.{CountsOfClasses};
ghost use Rattle.std.specs.Hash.{usize};
ghost use Rattle.juniper_tokens.specs.device.ByteRuns.{GoesOverBytes};

use crate::error::{LexerError, ParseError};
use crate::position::SourcePosition;
use crate::span::{Span, Spanning};
pub use graphql_lexical::laws::{
    few_tokens, joined_texts, one_answer, one_cut_or_break, places_step_by_characters,
    slices_in_order, spaced_texts, three_quotes_begin_a_block_string,
};
use std::hash::Hash;

/// Steps that treat all non-ASCII characters alike go over the bytes of a text as over its characters.
#[tactic(auto, using(crate::proofs::ByteRuns::reach_bytes))]
pub fn bytes_go_as_characters<S>()
    ensures { (step : S → ℕ → Option S) → GoesOverBytes step }
{}

/// The number of bytes in each class.
pub fn counts_of_classes()
    ensures { CountsOfClasses }
{}

/// The orders of positions agree with equality, and with one another: index, then line, then column.
pub fn positions_agree()
    ensures equal { (p q : Place) → ⟦<SourcePosition as PartialEq>⟧.eq p q ≡ is_eq (⟦<SourcePosition as Ord>⟧.cmp p q) }
    ensures partial { (p q : Place) → ⟦<SourcePosition as PartialOrd>⟧.partial_cmp p q ≡ Some (⟦<SourcePosition as Ord>⟧.cmp p q) }
    ensures places { (p q : Place) → IsTrue (⟦<SourcePosition as PartialEq>⟧.eq p q) ↔ (p ≡ q) }
    ensures order { (p q : Place) → ⟦<SourcePosition as Ord>⟧.cmp p q ≡ compare_places p q }
{}

/// Spans are equal exactly if they are the same; items with their spans are equal if both the items and the spans are.
pub fn spanned_items_are_compared_whole<T: PartialEq>()
    ensures spans { (s t : Span) → IsTrue (⟦<Span as PartialEq>⟧.eq s t) ↔ (s ≡ t) }
    ensures items { (x y : Spanning T) → ⟦<Spanning<T> as PartialEq>⟧.eq x y
        ≡ (T.eq x.item y.item && ⟦<Span as PartialEq>⟧.eq x.span y.span) }
{}

/// Errors are equal exactly if they are of the same kind, with the same character or text.
pub fn errors_are_compared_whole()
    ensures lexical { (a b : LexerError) → IsTrue (⟦<LexerError as PartialEq>⟧.eq a b) ↔ (view_lexer_error a ≡ view_lexer_error b) }
    ensures refusals { (a b : ParseError) → IsTrue (⟦<ParseError as PartialEq>⟧.eq a b) ↔ (view_error a ≡ view_error b) }
{}

/// A position is hashed as its index, its line and its column, a span as its start and its end, and an item with its
/// span as the item and the span.
pub fn values_are_hashed_whole<T: Hash>()
    ensures positions { (p : Place) → ⟦<SourcePosition as Hash>⟧.hash_input p ≡ usize p.index ++ (usize p.line ++ usize p.column) }
    ensures spans { (s : Span) → ⟦<Span as Hash>⟧.hash_input s ≡ ⟦<SourcePosition as Hash>⟧.hash_input s.start ++ ⟦<SourcePosition as Hash>⟧.hash_input s.end }
    ensures items { (x : Spanning T) → ⟦<Spanning<T> as Hash>⟧.hash_input x ≡ T.hash_input x.item ++ ⟦<Span as Hash>⟧.hash_input x.span }
{}

/// Equal positions, equal spans, and equal items with equal spans hash alike.
pub fn equal_values_hash_alike<T: Hash>()
    ensures positions { (p q : Place) → IsTrue (⟦<SourcePosition as PartialEq>⟧.eq p q) → ⟦<SourcePosition as Hash>⟧.hash_input p ≡ ⟦<SourcePosition as Hash>⟧.hash_input q }
    ensures spans { (s t : Span) → IsTrue (⟦<Span as PartialEq>⟧.eq s t) → ⟦<Span as Hash>⟧.hash_input s ≡ ⟦<Span as Hash>⟧.hash_input t }
    ensures items { (x y : Spanning T) → IsTrue (⟦<Spanning<T> as PartialEq>⟧.eq x y) → ⟦<Spanning<T> as Hash>⟧.hash_input x ≡ ⟦<Spanning<T> as Hash>⟧.hash_input y }
{}
