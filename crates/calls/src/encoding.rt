// Encoding: a source's tokens from the left to the right, with the word that waits for what stands behind it.
ghost use Rattle.std.specs.Prelude.{◌≡◌, ◌+◌, ◌≤◌, false, [], ◌∷◌, cond, ◌++◌, length, drop};
ghost use Rattle.doc.specs.Doc.{text};
ghost use Rattle.doc.specs.Laws.{encode};
ghost use Rattle.calls.specs.Tokens.{tokens};
ghost use Rattle.calls.specs.Values.{bare, word_doc};
ghost use Rattle.calls.specs.Parsing.{opened_by};
ghost use Rattle.calls.specs.Lexing.{tokens_left};
ghost use Rattle.calls.specs.Emitting.{held, opening_bytes, closing_bytes, separating_bytes, next_is, empty_list, mark_bytes, emit};
ghost use Rattle.calls.specs.Filling.{Adds};

use crate::encoder::Encoder;
use crate::lexer::{Lexeme, Lexemes, Source, Token};
use crate::rule::Rule;
use doc::reserved::Full;
use doc::tag::Tag;

// A text has at most so many bytes.
const MOST_TEXT: usize = u8::MAX as usize;

impl Lexemes<'_> {
    // Passes the next token if it is this bracket, and tells whether it is.
    fn passes(&mut self, close: u8) -> bool
        ensures is { result ≡ next_is close (bare (tokens_left self.old)) }
        ensures left { tokens_left self.new ≡ drop (cond result 1 0) (tokens_left self.old) }
    {
        let mut ahead = *self;
        // A pattern and no `==`, as the token's position does not count.
        let passed =
            matches!(ahead.next(), Some(Lexeme { token: Token::Mark(mark), .. }) if mark == close);
        if passed {
            *self = ahead;
        }
        passed
    }
}

impl Encoder {
    // Bytes behind the others, if there is room for them.
    fn bytes(&mut self, more: &[u8]) -> Result<(), Full>
        ensures { Adds self.old.out self.new.out more.now result }
    {
        self.out.try_extend_from_slice(more)
    }

    // One text, given in two parts.
    fn text(&mut self, first: &[u8], second: &[u8]) -> Result<(), Full>
        requires { length first.now + length second.now ≤ 255 }
        ensures { Adds self.old.out self.new.out (encode (text (first.now ++ second.now))) result }
    {
        let len = first.len() + second.len();
        self.bytes(&[Tag::Text as u8, len as u8])?;
        self.bytes(first)?;
        self.bytes(second)
    }

    // The end of a word, in one text or, where it is too long for one, in two.
    fn word_end(&mut self, name: &[u8], tail: &[u8]) -> Result<(), Full>
        requires name { length name.now ≤ 255 }
        requires tail { length tail.now ≤ 2 }
        ensures { Adds self.old.out self.new.out (encode (word_doc (name.now ++ tail.now))) result }
    {
        if name.len() + tail.len() <= MOST_TEXT {
            return self.text(name, tail);
        }
        let (here, behind) = tail.split_at(MOST_TEXT - name.len());
        self.bytes(&[Tag::Cat as u8])?;
        self.text(name, here)?;
        self.text(behind, &[])
    }

    // A word in texts of at most 255 bytes, each but the last behind a cat.
    fn word(&mut self, name: &[u8], tail: &[u8]) -> Result<(), Full>
        requires { length tail.now ≤ 2 }
        ensures { Adds self.old.out self.new.out (encode (word_doc (name.now ++ tail.now))) result }
    {
        let mut rest = name;
        // No `chunks`: the last part is not a text of its own, but goes with the tail.
        while rest.len() > MOST_TEXT {
            let (first, others) = rest.split_at(MOST_TEXT);
            self.bytes(&[Tag::Cat as u8])?;
            self.text(first, &[])?;
            rest = others;
        }
        self.word_end(rest, tail)
    }

    // The word that waits, if there is one.
    fn held(&mut self, waiting: &[u8]) -> Result<(), Full>
        ensures { Adds self.old.out self.new.out (held waiting.now) result }
    {
        if waiting.is_empty() {
            return Ok(());
        }
        self.word(waiting, &[])
    }

    // A bracket that opens a list, behind the word that waits; if it is empty, it is a word with its closing bracket. Which of the two is a flag, as the definition of a mark's bytes takes it; likewise below.
    fn opening(&mut self, waiting: &[u8], rule: Rule, empty: bool) -> Result<(), Full>
        ensures { Adds self.old.out self.new.out (cond empty (encode (word_doc (waiting.now ++ (rule.open ∷ rule.close ∷ [])))) (opening_bytes waiting.now rule)) result }
    {
        if empty {
            return self.word(waiting, &[rule.open, rule.close]);
        }
        self.bytes(&[Tag::Group as u8, Tag::Cat as u8])?;
        self.word(waiting, &[rule.open])?;
        self.bytes(&[
            Tag::Cat as u8,
            Tag::Nest as u8,
            rule.indent,
            Tag::Cat as u8,
            Tag::Line as u8,
            Tag::Cat as u8,
        ])
    }

    // A closing bracket or a separator behind the word that waits.
    fn closing_or_separator(&mut self, waiting: &[u8], byte: u8, closes: bool) -> Result<(), Full>
        ensures { Adds self.old.out self.new.out (held waiting.now ++ cond closes (closing_bytes byte) (separating_bytes byte)) result }
    {
        self.held(waiting)?;
        if closes {
            return self.bytes(&[
                Tag::Nil as u8,
                Tag::Cat as u8,
                Tag::Line as u8,
                Tag::Text as u8,
                1,
                byte,
            ]);
        }
        self.bytes(&[
            Tag::Cat as u8,
            Tag::Text as u8,
            1,
            byte,
            Tag::Cat as u8,
            Tag::Line as u8,
            Tag::Cat as u8,
        ])
    }

    // A bracket or separator behind the word that waits, and the bracket behind it where that closes at once what it opens. The rules come from the source, since the field of the tokens is the lexer's own.
    fn mark(
        &mut self,
        source: &Source,
        lexemes: &mut Lexemes,
        waiting: &[u8],
        byte: u8,
    ) -> Result<(), Full>
        ensures adds { Adds self.old.out self.new.out (mark_bytes source.now.rules.now waiting.now byte (opened_by source.now.rules.now byte) (empty_list (opened_by source.now.rules.now byte) (bare (tokens_left lexemes.old)))) result }
        ensures left { tokens_left lexemes.new ≡ drop (cond (empty_list (opened_by source.now.rules.now byte) (bare (tokens_left lexemes.old))) 1 0) (tokens_left lexemes.old) }
    {
        match source.opened_by(byte) {
            Some(rule) => {
                let empty = lexemes.passes(rule.close);
                self.opening(waiting, rule, empty)
            }
            None => self.closing_or_separator(waiting, byte, source.closes(byte)),
        }
    }

    // Encodes a source's document, token by token.
    pub(crate) fn encode(&mut self, source: &Source) -> Result<(), Full>
        ensures { Adds [] self.new.out (emit source.now.rules.now [] false (bare (tokens source.now.rules.now 0 source.now.bytes.now))) result }
    {
        self.begin();
        // No Option: where no word waits, it is the word of no bytes, as a list's name is where it has none.
        let mut waiting: &[u8] = &[];
        let mut lexemes = source.lexemes();
        // No `for`: `mark` may take the token behind its own from the iterator, which a `for` would hold.
        while let Some(lexeme) = lexemes.next() {
            match lexeme.token {
                Token::Word(word) => {
                    self.held(waiting)?;
                    waiting = word;
                }
                Token::Mark(byte) => {
                    self.mark(source, &mut lexemes, waiting, byte)?;
                    waiting = &[];
                }
            }
        }
        self.held(waiting)
    }
}
