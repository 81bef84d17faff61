//! A cursor over the tokens of a text. Contracts see it as the list of the tokens that are left, and its methods as the
//! steps of the readers in `specs/Parsers.antt` of `table_model`: a function that reads with a cursor ensures `Reads
//! memory (reader tokens.old) result tokens.new`.

ghost use Rattle.std.specs.Prelude.{◌≡◌, length};
ghost use Rattle.table_model.specs.Parsers as spec;

use crate::lex::same_kind;
use std::marker::Model;
use table_model::queries::Name;
use table_model::texts::Slice;
use table_model::tokens::{Token, TokenKind};

/// The tokens that are left to be read. After the last one, the kind of the next token is Bad, and its place is 0.
#[derive(Drop)]
pub struct Cursor<'t, 'a> {
    left: &'t [Token<'a>],
}

impl<'t, 'a> Model for Cursor<'t, 'a> {
    ghost use Rattle.std.specs.Prelude.{List};
    ghost use Rattle.table_model.specs.declared.tokens.Token.{Token};

    ghost Value = { List Token };

    ghost view = { λ c. c.left.now };
}

impl<'t, 'a> Cursor<'t, 'a> {
    /// Makes a cursor before the first of these tokens.
    pub fn new(tokens: &'t [Token<'a>]) -> Cursor<'t, 'a>
        ensures { result ≡ tokens.now }
    {
        Cursor { left: tokens }
    }

    /// The kind of the next token.
    #[tactic(auto, unfolding(table_model::specs::Parsers::kind))]
    pub fn kind(&self) -> TokenKind
        ensures { result ≡ spec.kind self.now }
    {
        match self.left {
            [first, ..] => first.kind,
            [] => TokenKind::Bad,
        }
    }

    /// The byte, from 0, at which the next token starts.
    #[tactic(auto, unfolding(table_model::specs::Parsers::place))]
    pub fn place(&self) -> usize
        ensures { result ≡ spec.place self.now }
    {
        match self.left {
            [first, ..] => first.at,
            [] => 0,
        }
    }

    /// The text of the next token.
    #[tactic(auto, unfolding(table_model::specs::Parsers::spelling))]
    pub fn spelling(&self) -> &'a [u8]
        ensures { result.now ≡ spec.spelling self.now }
    {
        match self.left {
            [first, ..] => first.text.bytes(),
            [] => &[],
        }
    }

    /// The text and the place of the next token.
    pub fn written(&self) -> Name<'a>
        ensures { result ≡ spec.written self.now }
    {
        Name {
            text: Slice::new(self.spelling()),
            at: self.place(),
        }
    }

    /// The number of tokens that are left.
    pub fn count(&self) -> usize
        ensures { result ≡ length self.now }
    {
        self.left.len()
    }

    /// Reads the next token, whichever it is.
    #[tactic(auto, unfolding(table_model::specs::Parsers::next))]
    pub fn advance(&mut self)
        ensures { self.new ≡ spec.next self.old }
    {
        if let [_, rest @ ..] = self.left {
            self.left = rest;
        }
    }

    /// Whether the next token is of a kind.
    #[tactic(auto, unfolding(table_model::specs::Parsers::sees))]
    pub fn sees(&self, wanted: TokenKind) -> bool
        ensures { result ≡ spec.sees wanted self.now }
    {
        same_kind(self.kind(), wanted)
    }

    /// The kind of the token after the next one.
    #[tactic(auto, unfolding(table_model::specs::Parsers::kind, table_model::specs::Parsers::next))]
    fn second_kind(&self) -> TokenKind
        ensures { result ≡ spec.kind (spec.next self.now) }
    {
        match self.left {
            [_, second, ..] => second.kind,
            _ => TokenKind::Bad,
        }
    }

    /// Whether the token after the next one is of a kind.
    #[tactic(auto, unfolding(table_model::specs::Parsers::sees))]
    pub fn second_sees(&self, wanted: TokenKind) -> bool
        ensures { result ≡ spec.sees wanted (spec.next self.now) }
    {
        same_kind(self.second_kind(), wanted)
    }

    /// Reads the next token if it is of this kind, and returns whether it is.
    #[tactic(auto, unfolding(table_model::specs::Parsers::after))]
    pub fn eat(&mut self, wanted: TokenKind) -> bool
        ensures found { result ≡ spec.sees wanted self.old }
        ensures after { self.new ≡ spec.after wanted self.old }
    {
        let found = self.sees(wanted);
        if found {
            self.advance();
        }
        found
    }
}
