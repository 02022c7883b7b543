//! Where a cursor has its tokens from.
ghost use Rattle.std.specs.Prelude.{Bool, true, false};

/// Where a cursor has its tokens from.
pub trait Feed {
    // Whether each token is read when the one before it is taken.
    ghost IS_STREAM: { Bool };

    /// Whether each token is read when the one before it is taken. If not, all were read before.
    const IS_STREAM: bool;
}

/// All tokens were read before: they are those of a `Parser`.
pub struct Listed;

/// Each token is read when the one before it is taken.
pub struct Streamed;

impl Feed for Listed {
    ghost use Rattle.std.specs.Prelude.{false};

    ghost IS_STREAM = { false };

    const IS_STREAM: bool = false;
}

impl Feed for Streamed {
    ghost use Rattle.std.specs.Prelude.{true};

    ghost IS_STREAM = { true };

    const IS_STREAM: bool = true;
}
