//! Where the actions of a program stand in its text: statements, tests, initialisers and the braces that end bodies, which are
//! numbered in the order of the text.

use crate::source::Source;
use cilk_check_scopes::Memory;
use cilk_lex::{Keyword, LexFault, Mark, TokenKind, tokens};
use std::alloc::{AllocError, Global};

// What is open around a statement.
#[derive(Clone, Copy)]
enum Around {
    // The body of a function, a procedure or an inlet.
    Body,
    Block,
    // A `do` whose statement comes.
    Do,
}

// A walk over the tokens of a program that is known to be one.
#[derive(Drop)]
struct Walk<'a> {
    source: Source<'a>,
    // The token that comes.
    index: usize,
    around: Vec<Around>,
    // How many actions are left, up to the one that is sought.
    left: u32,
    found: Option<u32>,
}

impl<'a> Walk<'a> {
    fn is(&self, word: &str) -> bool {
        self.source.word(self.index) == word
    }

    fn go_on(&mut self) {
        self.index = self.index.saturating_add(1);
    }

    // Counts an action that begins at a token.
    fn act(&mut self, index: usize) {
        if self.left == 1 {
            self.found = Some(self.source.place_at(index));
        }
        self.left = self.left.saturating_sub(1);
    }

    // Goes behind the next token that is spelled so.
    fn pass(&mut self, word: &str) {
        for _ in 0..self.source.tokens.len() {
            let is_met = self.is(word);
            self.go_on();
            if is_met {
                return;
            }
        }
    }

    // Goes behind the parenthesis with which none is open any more, of so many and those that come.
    fn pass_parentheses(&mut self, open: usize) {
        let mut open = open;
        for _ in 0..self.source.tokens.len() {
            if self.is("(") {
                open = open.saturating_add(1);
            } else if self.is(")") {
                open = open.saturating_sub(1);
            }
            self.go_on();
            if open == 0 {
                return;
            }
        }
    }

    // Goes behind a declaration, whose initialisers are actions.
    fn declaration(&mut self) {
        for _ in 0..self.source.tokens.len() {
            if self.is("=") {
                self.act(self.index.saturating_sub(1));
            }
            let is_last = self.is(";");
            self.go_on();
            if is_last {
                return;
            }
        }
    }

    // Goes behind the header of a `for`: its test is an action, and so are its other parts where they are there.
    fn header(&mut self) {
        self.go_on();
        self.go_on();
        if !self.is(";") {
            self.act(self.index);
        }
        self.pass(";");
        self.act(self.index);
        self.pass(";");
        if !self.is(")") {
            self.act(self.index);
        }
        self.pass_parentheses(1);
    }

    // Goes on behind a statement: with an `else`, or with the test of a `do`, and then behind that.
    fn statement_ends(&mut self) {
        for _ in 0..self.source.tokens.len() {
            if self.is("else") {
                return self.go_on();
            }
            if !matches!(self.around.last(), Some(Around::Do)) {
                return;
            }
            self.around.pop();
            self.act(self.index);
            self.pass(";");
        }
    }

    // Goes behind the next token that is spelled so, into what it opens.
    fn open(&mut self, word: &str, around: Around) -> Result<(), Memory> {
        self.pass(word);
        self.around.push(around)?;
        Ok(())
    }

    fn close(&mut self) {
        match self.around.pop() {
            Some(Around::Body) => {
                self.act(self.index);
                self.go_on();
            }
            _ => {
                self.go_on();
                self.statement_ends();
            }
        }
    }

    // Goes on within a body.
    fn within(&mut self) -> Result<(), Memory> {
        match self.source.kind(self.index) {
            Some(TokenKind::Mark(Mark::OpenBrace)) => return self.open("{", Around::Block),
            Some(TokenKind::Word(Keyword::Do)) => return self.open("do", Around::Do),
            Some(TokenKind::Word(Keyword::Inlet)) => return self.open("{", Around::Body),
            Some(TokenKind::Mark(Mark::CloseBrace)) => self.close(),
            Some(TokenKind::Word(Keyword::Int)) => self.declaration(),
            Some(TokenKind::Word(Keyword::If | Keyword::While | Keyword::Switch)) => {
                self.act(self.index);
                self.go_on();
                self.pass_parentheses(0);
            }
            Some(TokenKind::Word(Keyword::Case | Keyword::Default)) => self.pass(":"),
            Some(TokenKind::Word(Keyword::For)) => self.header(),
            _ => {
                self.act(self.index);
                self.pass(";");
                self.statement_ends();
            }
        }
        Ok(())
    }

    fn walk(&mut self) -> Result<(), Memory> {
        for _ in 0..self.source.tokens.len() {
            if self.left == 0 {
                return Ok(());
            }
            if !self.around.is_empty() {
                self.within()?;
            } else if self.is("{") {
                self.open("{", Around::Body)?;
            } else {
                self.go_on();
            }
        }
        Ok(())
    }
}

/// The place of the action with this number, counted from 1, in the text of a program. None where it has no such action, and of
/// a text that is no program.
pub fn action_place(alloc: Global, text: &str, number: u32) -> Result<Option<u32>, Memory> {
    let found = match tokens(alloc, text) {
        Ok(found) => found,
        Err(LexFault::Memory) => return Err(Memory::from(AllocError)),
        Err(_) => return Ok(None),
    };
    let source = Source {
        text,
        tokens: &found,
    };
    let mut walk = Walk {
        source,
        index: 0,
        around: Vec::new(alloc),
        left: number,
        found: None,
    };
    walk.walk()?;
    Ok(walk.found)
}
