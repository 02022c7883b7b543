//! What a call returns.

/// Success: the source is a document, has no more tokens than the limit, or can be cut into tokens.
pub const OK: u32 = 0;

/// The source is UTF-8 but not a document or, for calls that only want tokens, can't be cut into tokens.
pub const SYNTAX_ERROR: u32 = 1;

/// The source is not UTF-8.
pub const NOT_UTF8: u32 = 2;

/// Memory ran out.
pub const OUT_OF_MEMORY: u32 = 3;

/// The source can be cut into tokens. One of them is nested deeper than the limit, and those up to it begin a document.
pub const TOO_DEEP: u32 = 4;

/// The source has more tokens than the limit, before its end and before its first lexical error.
pub const TOO_MANY_TOKENS: u32 = 5;

/// A buffer is too short.
pub const BUFFER_TOO_SMALL: u32 = 6;

/// The source has 4 GiB or more, and was not read.
pub const SOURCE_TOO_LONG: u32 = 7;

/// The depth is above `MAX_DEPTH`, or a reserved word of the limits isn't 0. The source was not read.
pub const INVALID_LIMIT: u32 = 8;

/// The error that the caller gave isn't one of the source.
pub const INVALID_ERROR: u32 = 9;

/// The source is a document, and an operation has a spread that names no fragment, itself or through others.
pub const UNKNOWN_FRAGMENT: u32 = 10;

/// The source is a document, and an operation has a spread of a fragment in which it stands, itself or through others.
pub const FRAGMENT_CYCLE: u32 = 11;

/// The least number of bytes of a source that is too many: an offset in it has 32 bits.
pub const TOO_LONG_FROM: usize = 1 << 32;
