//! The next token: it is looked at by `next_is` and `next_is_word`, taken if it is of a kind by `take_if`, and one that
//! has to be there is taken by `expect`, or by the cursor's `expect_name`.
ghost use Rattle.std.specs.Prelude.{◌≡◌, ◌<◌, ◌≤◌, length, true, false, Some, None, OnOk, if◌then◌else◌};
ghost use Rattle.std.specs.Str.{chars};
ghost use Rattle.graphql_lexical.specs.Kinds.{same_kind};
ghost use Rattle.graphql_lexical.specs.declared.kind.Kind.TheVariants.{EndOfFile, Name};
ghost use Rattle.juniper_tokens.specs.Cursor.{EndsOnce, first_of, kind_at, next_if};
ghost use Rattle.graphql_grammar.specs.device.Reading.{passes, word};
ghost use Rattle.juniper_tokens.specs.Taking.{left, last_end, GoesOn};
ghost use Rattle.juniper_parser.specs.device.Steps.{closing_at, GivesNext};

use juniper_tokens::text::same_text;
use juniper_tokens::{Cursor, Feed, Kind, ParseFailure, SourceText};

/// Whether the next token is of this kind. It is not taken.
pub fn next_is<W: SourceText, M: Feed>(tokens: &Cursor<'_, W, M>, kind: Kind) -> bool
    ensures is { result ≡ same_kind (kind_at (left tokens.now)) kind }
    ensures ended { EndsOnce (left tokens.now) }
{
    tokens.kind() == kind
}

/// Whether the next token is a Name of this text. It is not taken.
pub(crate) fn next_is_word<W: SourceText, M: Feed>(tokens: &Cursor<'_, W, M>, text: &str) -> bool
    ensures is { result ≡ passes (word (chars text.now)) (first_of (left tokens.now)) }
    ensures ended { EndsOnce (left tokens.now) }
{
    tokens.kind() == Kind::Name && same_text(tokens.text(), text)
}

/// Takes the next token if it is of this kind, and returns whether it is.
#[tactic(auto, using(crate::proofs::Cursors::closing_is_no_end, crate::proofs::Marks::last_taken, juniper_tokens::proofs::Public::stays))]
#[inline(always)]
pub(crate) fn take_if<W: SourceText, M: Feed>(tokens: &mut Cursor<'_, W, M>, kind: Kind) -> bool
    requires { same_kind kind EndOfFile ≡ false }
    ensures takes { (if result then Some (first_of (left tokens.old)).span else None, left tokens.new) ≡ closing_at kind (left tokens.old) }
    ensures ended { EndsOnce (left tokens.old) }
    ensures shorter { result ≡ true → length (left tokens.new) < length (left tokens.old) }
    ensures not_longer { length (left tokens.new) ≤ length (left tokens.old) }
    ensures on { GoesOn tokens.old tokens.new }
    ensures ends { result ≡ true → last_end tokens.new ≡ (first_of (left tokens.old)).span.end }
{
    let is_next = next_is(tokens, kind);
    if is_next {
        tokens.advance();
    }
    is_next
}

/// Takes the next token if it is of this kind, else returns an error.
///
/// Another token is taken too, and reported as unexpected. At the end nothing is taken.
#[tactic(auto, using(crate::proofs::Cursors::closing_is_no_end, crate::proofs::Marks::last_taken))]
#[inline(always)]
pub(crate) fn expect<W: SourceText, M: Feed>(
    tokens: &mut Cursor<'_, W, M>,
    kind: Kind,
) -> Result<(), ParseFailure>
    requires { same_kind kind EndOfFile ≡ false }
    ensures gives { GivesNext result (left tokens.old) (left tokens.new) (next_if (same_kind (kind_at (left tokens.old)) kind) (left tokens.old)) }
    ensures shorter { OnOk result (length (left tokens.new) < length (left tokens.old)) }
    ensures on { GoesOn tokens.old tokens.new }
    ensures ends { OnOk result (last_end tokens.new ≡ (first_of (left tokens.old)).span.end) }
{
    if next_is(tokens, kind) {
        tokens.advance();
        Ok(())
    } else {
        tokens.refuse()
    }
}
