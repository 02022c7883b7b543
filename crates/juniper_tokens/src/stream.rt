//! The tokens of a source one after another, within limits.
ghost use Rattle.std.specs.Prelude.{◌≡◌, drop, false};
ghost use Rattle.std.specs.Str.{chars};
ghost use Rattle.graphql_lexical.specs.Place.{place};
ghost use Rattle.graphql_lexical.specs.device.Streams.{short_at};
ghost use Rattle.juniper_tokens.specs.device.BytePlaces.{byte_place};
ghost use Rattle.juniper_tokens.specs.device.Walks.{first_class};
ghost use Rattle.juniper_tokens.specs.device.Streams.{Counts, Gives, GivesNext, IsOpen, begun, moved, range_to, rest_here, standing};

use crate::byte_classes::ByteClass;
use crate::byte_position::BytePosition;
use crate::lexer::Lexer;
use crate::nesting::{is_closing, is_opening};
use crate::position::SourcePosition;
use crate::token_range::TokenRange;
use graphql_lexical::Kind;
use std::alloc::Global;
use std::marker::Model;

/// A token's kind, and the position at which it begins. It ends where the stream is that read it.
#[derive(Clone, Copy)]
pub(crate) struct Placed {
    pub(crate) kind: Kind,
    pub(crate) start: BytePosition,
}

/// The tokens of a source, each read when it is asked for.
///
/// They end where the source does, or before that: after the first one that is nested deeper than a limit, and in the
/// place of a lexical error or of a token past a limit.
#[derive(Drop)]
pub(crate) struct TokenStream<'a> {
    lexer: Lexer<'a>,
    // How many tokens there may be before the end, and how deep they may be nested.
    most: usize,
    depth: usize,
    // How many more there may be.
    left: usize,
    // How many brackets those that were read open, and how many they close.
    opened: usize,
    closed: usize,
    // Whether the one that was read last is nested too deep.
    is_deep: bool,
    // Whether the end that was read is not that of the source.
    is_short: bool,
}

impl<'a> Model for TokenStream<'a> {
    ghost use Rattle.juniper_tokens.specs.device.Streams.{StreamState, IsCounted};

    ghost Value = { StreamState };

    ghost view = { λ s. record { source = s.lexer.source; index = s.lexer.index; most = s.most; depth = s.depth; left = s.left; opened = s.opened; closed = s.closed; deep = s.is_deep; short = s.is_short } };

    ghost invariant = { λ s. IsCounted s.most s.depth s.left s.opened s.closed s.is_deep };
}

impl Placed {
    /// An end at the beginning of a source.
    pub(crate) fn at_origin() -> Self {
        Placed {
            kind: Kind::EndOfFile,
            start: BytePosition::origin(),
        }
    }
}

impl<'a> TokenStream<'a> {
    /// The tokens of a source, no more than `most` before the end, and no deeper than `depth`.
    pub(crate) fn new(alloc: Global, source: &'a str, depth: usize, most: usize) -> Self
        ensures { result ≡ begun (chars source.now) depth most }
    {
        TokenStream {
            lexer: Lexer::new(alloc, source),
            most,
            depth,
            left: most,
            opened: 0,
            closed: 0,
            is_deep: false,
            is_short: false,
        }
    }

    /// Whether the end that was read is not that of the source.
    pub(crate) fn is_short(&self) -> bool
        ensures { result ≡ self.now.short }
    {
        self.is_short
    }

    /// The position after the token that was read last, with its byte.
    #[inline(always)]
    pub(crate) fn here(&self) -> BytePosition
        ensures { result ≡ byte_place self.now.source self.now.index }
    {
        self.lexer.here()
    }

    /// The position after the token that was read last.
    #[inline(always)]
    pub(crate) fn position(&self) -> SourcePosition
        ensures { result ≡ place self.now.source self.now.index }
    {
        self.lexer.position()
    }

    /// How many tokens may be left, since few sources have more than one every four bytes.
    pub(crate) fn expected(&self) -> usize {
        self.lexer.bytes_left() / 4
    }

    /// The range of a token that was read last.
    #[inline(always)]
    pub(crate) fn range(&self, last: &Placed) -> TokenRange
        ensures { result ≡ range_to self.now last.now }
    {
        TokenRange {
            kind: last.kind,
            start: last.start.offset(),
            end: self.lexer.here().offset(),
        }
    }

    /// Reads the next token into `next`.
    #[inline(always)]
    pub(crate) fn next(&mut self, next: &mut Placed)
        requires { self.old.short ≡ false }
        ensures { GivesNext self.old (standing self.new next.new) self.new }
    {
        if self.left == 0 {
            return self.last(next);
        }
        let mut lexer = self.lexer.duplicate();
        let class = lexer.skip_blanks();
        // Names and punctuators are most tokens. Each has code of its own, which is small.
        if class == ByteClass::NameStart {
            return self.take(&mut lexer, ByteClass::NameStart, next);
        }
        if class == ByteClass::Punctuator {
            return self.take(&mut lexer, ByteClass::Punctuator, next);
        }
        self.lexer.go_to(&lexer);
        self.next_of_any_class(next);
    }

    // `next`, where one more token may come, whatever it begins with.
    #[inline(never)]
    fn next_of_any_class(&mut self, next: &mut Placed)
        requires { IsOpen self.old }
        ensures { GivesNext self.old (standing self.new next.new) self.new }
    {
        let mut lexer = self.lexer.duplicate();
        let class = lexer.skip_ignored();
        self.take(&mut lexer, class, next);
    }

    // Reads the token at which a lexer stands, before a byte of this class.
    #[inline(always)]
    fn take(&mut self, lexer: &mut Lexer<'a>, class: ByteClass, next: &mut Placed)
        requires open { IsOpen self.old }
        requires source { lexer.old.source ≡ self.old.source }
        requires class { class ≡ first_class (drop lexer.old.index lexer.old.source) }
        ensures { Gives (moved self.old lexer.old.index) (rest_here (moved self.old lexer.old.index)) (standing self.new next.new) self.new }
    {
        next.start = lexer.here();
        match lexer.take_plain(class) {
            Some(range) => {
                next.kind = range.kind;
                self.lexer.go_to(lexer);
                self.count(range.kind);
            }
            None => {
                self.lexer.go_to(lexer);
                self.other(next);
            }
        }
    }

    // Reads the end, where no further token may come: that of the source, or one in the place of what comes next.
    #[cold]
    #[inline(never)]
    fn last(&mut self, next: &mut Placed)
        requires none { self.old.left ≡ 0 }
        requires whole { self.old.short ≡ false }
        ensures { GivesNext self.old (standing self.new next.new) self.new }
    {
        if self.is_deep {
            return self.end_here(next);
        }
        let mut lexer = self.lexer.duplicate();
        lexer.skip_ignored();
        self.lexer = lexer.duplicate();
        let start = lexer.here();
        match lexer.scan_out_of_line(None) {
            Ok(range) if range.kind == Kind::EndOfFile => {
                self.lexer = lexer;
                next.kind = range.kind;
                next.start = start;
            }
            _ => self.end_here(next),
        }
    }

    // Reads the token that begins here and isn't a plain one.
    #[inline(never)]
    fn other(&mut self, next: &mut Placed)
        requires { IsOpen self.old }
        ensures { Gives self.old (rest_here self.old) (standing self.new next.new) self.new }
    {
        let mut lexer = self.lexer.duplicate();
        match lexer.scan_out_of_line(None) {
            Ok(range) => {
                next.kind = range.kind;
                next.start = self.lexer.here();
                self.lexer = lexer;
                if range.kind != Kind::EndOfFile {
                    self.count(range.kind);
                }
            }
            Err(_) => self.end_here(next),
        }
    }

    // Ends the tokens here, before the end of the source.
    #[cold]
    fn end_here(&mut self, next: &mut Placed)
        ensures { Gives self.old (short_at self.old.source self.old.index) (standing self.new next.new) self.new }
    {
        self.is_short = true;
        next.kind = Kind::EndOfFile;
        next.start = self.lexer.here();
    }

    // Counts a token of this kind, which was read.
    #[inline(always)]
    fn count(&mut self, kind: Kind)
        requires { IsOpen self.old }
        ensures { Counts self.old kind self.new }
    {
        self.left -= 1;
        if is_opening(kind) {
            self.opened += 1;
            if self.opened.saturating_sub(self.closed) > self.depth {
                self.left = 0;
                self.is_deep = true;
            }
        } else if is_closing(kind) {
            self.closed += 1;
        }
    }
}
