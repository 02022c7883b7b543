//! Scalars of the default type that are read from tokens in another way.
ghost use Rattle.std.specs.Prelude.{Some};
ghost use Rattle.std.specs.Str.{encode_utf8_all};
ghost use Rattle.graphql_lexical.specs.declared.kind.Kind.{Kind};
ghost use Rattle.juniper_tokens.specs.Tokens.{scalar_kind, scalar_text};
ghost use Rattle.juniper_values.specs.Default.{default_content, default_shown};
ghost use Rattle.juniper_values.specs.Scalar.{Reading, MeetsReading};
ghost use Rattle.juniper_values.specs.Text.{Text};
ghost use Rattle.juniper_odd.specs.ReadBy.{held_content};

use juniper_tokens::ScalarToken;
use juniper_values::{
    BesideDefault, DefaultScalarValue, Held, ParseScalarResult, ParseScalarValue, ScalarValue,
};
use std::alloc::{AllocError, Global};
use std::fmt;
use std::marker::PhantomData;

/// A way to read scalars of the default type from tokens.
pub trait TokenReader {
    // What is stated of a token of that kind and text.
    ghost reads: { Kind → Text → Reading };

    /// Reads the scalar of the token in this way.
    ///
    /// Fails with `Refused` and the error that is stated of the token, or with `Memory` if memory runs out.
    fn read(alloc: Global, token: ScalarToken<'_>) -> ParseScalarResult<DefaultScalarValue>
        ensures { MeetsReading default_content (reads (scalar_kind token.entry) (scalar_text token.entry)) result };
}

/// A scalar of the default type that is read from tokens as `R` reads them. All else is as with the default type.
#[derive(Debug, Drop)]
pub struct ReadBy<R> {
    /// The scalar.
    pub scalar: DefaultScalarValue,
    reader: PhantomData<R>,
}

impl<R> From<DefaultScalarValue> for ReadBy<R> {
    ghost use Rattle.std.specs.Prelude.{◌≡◌};

    ghost from_gives = { λ s r. r.scalar ≡ s };

    fn from(scalar: DefaultScalarValue) -> ReadBy<R> {
        ReadBy {
            scalar,
            reader: PhantomData,
        }
    }
}

impl<R> PartialEq for ReadBy<R> {
    ghost use Rattle.juniper_values.specs.Scalar.{same_content};
    ghost use Rattle.juniper_values.specs.laws.ScalarLaws.{partial_by_content};

    ghost eq = { λ a b. same_content (held_content a) (held_content b) };

    ghost laws = { partial_by_content held_content };

    fn eq(&self, other: &ReadBy<R>) -> bool {
        self.scalar == other.scalar
    }
}

impl<R> Eq for ReadBy<R> {
    ghost use Rattle.juniper_values.specs.laws.ScalarLaws.{by_content};

    ghost laws = { by_content held_content };
}

/// Displays the scalar.
impl<R> fmt::Display for ReadBy<R> {
    ghost output = { λ s. Some (encode_utf8_all (default_shown (held_content s))) };

    fn fmt<W: fmt::Write>(&self, f: &mut fmt::Formatter<W>) -> fmt::Result {
        self.scalar.fmt(f)
    }
}

impl<R: TokenReader> ParseScalarValue<ReadBy<R>> for ReadBy<R> {
    ghost content = { held_content };

    ghost reading = { R.reads };

    fn from_str(alloc: Global, token: ScalarToken<'_>) -> ParseScalarResult<ReadBy<R>> {
        match R::read(alloc, token) {
            Ok(scalar) => Ok(ReadBy::from(scalar)),
            Err(failure) => Err(failure),
        }
    }
}

impl<R: TokenReader> BesideDefault for ReadBy<R> {
    ghost use Rattle.std.specs.Prelude.{[], None};
    ghost use Rattle.juniper_values.specs.laws.ScalarLaws.{same_content-Decides};
    ghost use Rattle.juniper_values.specs.laws.BesideLaws.{default-shown};

    ghost own_int = { λ ns. None };

    ghost own_str = { λ ns. None };

    ghost own_text = { λ ns. [] };

    ghost equal_by_content = { λ a b. same_content-Decides (held_content a) (held_content b) };

    ghost shows_itself = { λ a. cc (default-shown (λ ns. []) a.scalar) };

    ghost lent_is_text = { λ ns t e. absurd (cc e) };

    fn from_default(scalar: DefaultScalarValue) -> Self {
        ReadBy::from(scalar)
    }

    fn held(&self) -> Held<'_> {
        Held::Default(&self.scalar)
    }

    fn to_default(&self, alloc: Global) -> Result<DefaultScalarValue, AllocError> {
        self.scalar.try_clone(alloc)
    }

    fn into_default(self, _alloc: Global) -> Result<DefaultScalarValue, AllocError> {
        Ok(self.scalar)
    }

    fn try_copy(&self, alloc: Global) -> Result<Self, AllocError> {
        Ok(ReadBy::from(self.scalar.try_clone(alloc)?))
    }
}
