//! Remarks on a token that cannot stand where it does: what holds of what stands around it, and what is said then.

use crate::front::Front;
use crate::words::is_one_of;
use cilk_lex::TokenKind;

/// A token that stands near another one.
#[derive(Clone, Copy)]
pub(crate) enum Spot {
    /// So many tokens before it: with 0 it is that token itself.
    Before(usize),
    /// So many tokens behind it.
    Behind(usize),
    /// So many tokens behind the first of its statement or declaration.
    Begin(usize),
    /// So many tokens before the parenthesis or bracket that is open there.
    Opener(usize),
    /// So many tokens before the parenthesis or bracket that the token before it closes.
    Group(usize),
    /// The first brace that is open there.
    Brace,
}

/// What a token may be.
#[derive(Clone, Copy)]
pub(crate) enum Sort {
    Name,
    Number,
    Text,
    Header,
    Mark,
}

/// What may hold of a token and what stands around it.
pub(crate) enum Test {
    /// The token at the spot is spelled so, in one of these ways. One that is not there is spelled as nothing.
    Is(Spot, &'static [&'static str]),
    /// The token at the spot is of this sort.
    Sorted(Spot, Sort),
    /// Both spots are of one token.
    Same(Spot, Spot),
    /// The word stands before the token, in the same statement or declaration.
    Has(&'static str),
    /// The token stands in the header of a `for`, behind so many `;`.
    Parts(usize),
    /// A `spawn` stands in the rest of the statement.
    SpawnsBehind,
    /// The token opens the parameters of a function or a procedure.
    BeginsFunction,
}

/// What is said behind a token.
pub(crate) enum Saying {
    /// Words that name nothing. In them `@` stands for the line of the token before.
    Plain(&'static str),
    /// Words with a name, which stands at the spot.
    Named(&'static str, Spot),
    /// Words on a call of what stands at the spot: what is to be written in its place is said too.
    Call(&'static str, Spot),
}

/// What is said where all of the first tests hold, and none of the others.
pub(crate) struct Remark {
    pub(crate) saying: Saying,
    pub(crate) when: &'static [Test],
    pub(crate) unless: &'static [Test],
}

impl<'a> Front<'a> {
    // Which token stands at a spot.
    fn index_at(&self, spot: Spot) -> Option<usize> {
        match spot {
            Spot::Before(by) => self.index.checked_sub(by),
            Spot::Behind(by) => Some(self.index.saturating_add(by)),
            Spot::Begin(by) => Some(self.begin().saturating_add(by)),
            Spot::Opener(by) => self.source.opener(self.index)?.checked_sub(by),
            Spot::Group(by) => {
                let last = self.index.checked_sub(1)?;
                self.source.opener(last)?.checked_sub(by)
            }
            Spot::Brace => self.source.open_brace(self.index),
        }
    }

    /// How the token at a spot is spelled.
    pub(crate) fn spelled(&self, spot: Spot) -> &'a str {
        match self.index_at(spot) {
            Some(index) => self.source.word(index),
            None => "",
        }
    }

    fn is_sorted(&self, spot: Spot, sort: Sort) -> bool {
        let kind = match self.index_at(spot) {
            Some(index) => self.source.kind(index),
            None => None,
        };
        match (kind, sort) {
            (Some(TokenKind::Name), Sort::Name) => true,
            (Some(TokenKind::Number(_)), Sort::Number) => true,
            (Some(TokenKind::Text), Sort::Text) => true,
            (Some(TokenKind::Include(_)), Sort::Header) => true,
            (Some(TokenKind::Mark(_)), Sort::Mark) => true,
            _ => false,
        }
    }

    fn are_same(&self, left: Spot, right: Spot) -> bool {
        match (self.index_at(left), self.index_at(right)) {
            (Some(left), Some(right)) => left == right,
            _ => false,
        }
    }

    // Whether the token stands in the header of a `for`, behind so many `;`.
    fn has_parts(&self, wanted: usize) -> bool {
        let Some(opener) = self.source.opener(self.index) else {
            return false;
        };
        let mut count = 0usize;
        for index in opener..self.index {
            if self.source.word(index) == ";" {
                count = count.saturating_add(1);
            }
        }
        self.spelled(Spot::Opener(1)) == "for" && count == wanted
    }

    fn is_met(&self, test: &Test) -> bool {
        match test {
            Test::Is(spot, words) => is_one_of(words, self.spelled(*spot)),
            Test::Sorted(spot, sort) => self.is_sorted(*spot, *sort),
            Test::Same(left, right) => self.are_same(*left, *right),
            Test::Has(word) => self.has_before(word),
            Test::Parts(count) => self.has_parts(*count),
            Test::SpawnsBehind => self.spawns_behind(),
            Test::BeginsFunction => self.begins_function(),
        }
    }

    // Whether all of these tests come out so.
    fn all_are(&self, tests: &[Test], wanted: bool) -> bool {
        for test in tests {
            if self.is_met(test) != wanted {
                return false;
            }
        }
        true
    }

    /// The first of these remarks that holds of the token.
    pub(crate) fn remark_in(&self, remarks: &'static [Remark]) -> Option<&'static Remark> {
        for remark in remarks {
            if self.all_are(remark.when, true) && self.all_are(remark.unless, false) {
                return Some(remark);
            }
        }
        None
    }
}
