//! Lists between an opening and a closing token.
ghost use Rattle.std.specs.Prelude.{◌≡◌, List, IfOk, IfErr};
ghost use Rattle.std.specs.Borrow.{MutBor};
ghost use Rattle.graphql_lexical.specs.Cutting.{Lexeme};
ghost use Rattle.juniper_tokens.specs.DelimitedParts.{Opens, MayClose, Adds};
ghost use Rattle.juniper_tokens.specs.Delimited.{IsRest, IsProperRest, ReadsItems, ReadsList, ReadsNonempty, RefusesList, RefusesNonempty};

use crate::error::ParseFailure;
use crate::parser::Parser;
use crate::position::SourcePosition;
use crate::span::Spanning;
use crate::token::Token;

impl<'a> Parser<'a> {
    /// Parses the items between an opening and a closing token, each by a call of `f`. There may be none.
    ///
    /// The span runs from the opening to the closing token. The first error of a token or of an item is returned; the
    /// parser is then where that error left it. If memory runs out, a suffix of the tokens is left; if the list can't
    /// grow, the item has been taken.
    pub fn delimited_list<
        T: Drop,
        R: Drop + From<ParseFailure>,
        F: Fn(&mut Parser<'a>) -> Result<Spanning<T>, R>,
    >(
        &mut self,
        opening: &Token<'_>,
        f: F,
        closing: &Token<'_>,
    ) -> Result<Spanning<Vec<Spanning<T>>>, R>
        requires { ReadsItems (F.pre f) (F.post f) self.old }
        ensures list { IfOk result (λ list. ReadsList (F.post f) R.from_gives opening.now closing.now self.old list.item.items list.span self.new) }
        ensures refused { IfErr result (λ error. RefusesList (F.post f) R.from_gives opening.now closing.now self.old error self.new) }
        ensures taken { IfOk result (λ _. IsProperRest self.old self.new) }
        ensures rest { IsRest self.old self.new }
    {
        let start = self.take_opening::<R>(opening)?;
        let mut list = Vec::new(self.allocator());
        loop {
            if let Some(end) = self.take_closing::<R>(closing)? {
                return Ok(Spanning::start_end(&start, &end, list));
            }
            self.take_item(&f, &mut list)?;
        }
    }

    /// Parses one or more items between an opening and a closing token, each by a call of `f`.
    ///
    /// Span, errors and the state after them are as for `delimited_list`.
    pub fn delimited_nonempty_list<
        T: Drop,
        R: Drop + From<ParseFailure>,
        F: Fn(&mut Parser<'a>) -> Result<Spanning<T>, R>,
    >(
        &mut self,
        opening: &Token<'_>,
        f: F,
        closing: &Token<'_>,
    ) -> Result<Spanning<Vec<Spanning<T>>>, R>
        requires { ReadsItems (F.pre f) (F.post f) self.old }
        ensures list { IfOk result (λ list. ReadsNonempty (F.post f) R.from_gives opening.now closing.now self.old list.item.items list.span self.new) }
        ensures refused { IfErr result (λ error. RefusesNonempty (F.post f) R.from_gives opening.now closing.now self.old error self.new) }
        ensures taken { IfOk result (λ _. IsProperRest self.old self.new) }
        ensures rest { IsRest self.old self.new }
    {
        self.unlocated_delimited_nonempty_list(opening, f, closing)
    }

    /// Parses one or more items without spans of their own between an opening and a closing token, each by a call of
    /// `f`.
    ///
    /// Span, errors and the state after them are as for `delimited_list`.
    pub fn unlocated_delimited_nonempty_list<
        T: Drop,
        R: Drop + From<ParseFailure>,
        F: Fn(&mut Parser<'a>) -> Result<T, R>,
    >(&mut self, opening: &Token<'_>, f: F, closing: &Token<'_>) -> Result<Spanning<Vec<T>>, R>
        requires { ReadsItems (F.pre f) (F.post f) self.old }
        ensures list { IfOk result (λ list. ReadsNonempty (F.post f) R.from_gives opening.now closing.now self.old list.item.items list.span self.new) }
        ensures refused { IfErr result (λ error. RefusesNonempty (F.post f) R.from_gives opening.now closing.now self.old error self.new) }
        ensures taken { IfOk result (λ _. IsProperRest self.old self.new) }
        ensures rest { IsRest self.old self.new }
    {
        let start = self.take_opening::<R>(opening)?;
        let mut items = Vec::new(self.allocator());
        loop {
            self.take_item(&f, &mut items)?;
            if let Some(end) = self.take_closing::<R>(closing)? {
                return Ok(Spanning::start_end(&start, &end, items));
            }
        }
    }

    // Takes the opening token, and returns where it starts.
    fn take_opening<R: Drop + From<ParseFailure>>(
        &mut self,
        opening: &Token<'_>,
    ) -> Result<SourcePosition, R>
        ensures { Opens R.from_gives opening.now self.old result self.new }
    {
        match self.expect(opening) {
            Ok(token) => Ok(token.span.start),
            Err(failure) => Err(R::from(failure)),
        }
    }

    // Takes the closing token if it stands next, and returns where it ends.
    fn take_closing<R: Drop + From<ParseFailure>>(
        &mut self,
        closing: &Token<'_>,
    ) -> Result<Option<SourcePosition>, R>
        ensures { MayClose R.from_gives closing.now self.old result self.new }
    {
        match self.skip(closing) {
            Ok(Some(token)) => Ok(Some(token.span.end)),
            Ok(None) => Ok(None),
            Err(failure) => Err(R::from(failure)),
        }
    }

    // Parses an item, and appends it to those that are there.
    fn take_item<T: Drop, R: Drop + From<ParseFailure>, F: Fn(&mut Parser<'a>) -> Result<T, R>>(
        &mut self,
        f: &F,
        items: &mut Vec<T>,
    ) -> Result<(), R>
        requires { (given : MutBor (List Lexeme)) → given.now ≡ self.old → F.pre f.now given }
        ensures { Adds R.from_gives (F.post f.now) self.old items.old.items result self.new items.new.items }
    {
        let item = f(self)?;
        if items.push(item).is_err() {
            return Err(R::from(ParseFailure::Memory));
        }
        Ok(())
    }
}
