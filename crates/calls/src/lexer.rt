// The tokens of a source, one after the other: brackets and separators by the rules, and words of all else.
ghost use Rattle.std.specs.Prelude.{◌≡◌, ◌≤◌, length};
ghost use Rattle.std.specs.List.{prefix_len};
ghost use Rattle.calls.specs.Tokens.{blank, marks, in_word};

use crate::rule::{Rule, is_blank};

// The rules and the bytes that are read by them, behind one thin reference.
#[derive(Clone, Copy)]
pub(crate) struct Source<'a> {
    pub(crate) rules: &'a [Rule],
    pub(crate) bytes: &'a [u8],
}

// A word by its bytes, or a bracket or separator by its byte. The definitions have tokens of their own, as what a source is must not name the code.
#[derive(Clone, Copy)]
pub(crate) enum Token<'a> {
    Word(&'a [u8]),
    Mark(u8),
}

// A token, and where it begins.
#[derive(Clone, Copy)]
pub(crate) struct Lexeme<'a> {
    pub(crate) token: Token<'a>,
    pub(crate) at: usize,
}

// The tokens of a source that are left, by the bytes that are.
#[derive(Clone, Copy)]
pub(crate) struct Lexemes<'a> {
    source: Source<'a>,
    rest: &'a [u8],
    ghost within: { length rest.now ≤ length source.bytes.now },
}

// How many blanks stand in front.
// `word_len` is this chain with another test: one function that takes the test would be no plainer, as its clause would have to say what a closure computes.
fn blanks(bytes: &[u8]) -> usize
    ensures { result ≡ prefix_len blank bytes.now }
{
    bytes.iter().take_while(|byte| is_blank(**byte)).count()
}

impl<'a> Source<'a> {
    ghost use Rattle.calls.specs.Tokens.{tokens};
    ghost use Rattle.calls.specs.Lexing.{tokens_left};

    // Whether a byte is a bracket or a separator of some rule.
    #[tactic(auto, unfolding(crate::specs::Tokens::marks))]
    pub(crate) fn is_mark(&self, byte: u8) -> bool
        ensures { result ≡ marks self.now.rules.now byte }
    {
        self.rules.iter().any(|rule| rule.has(byte))
    }

    // Whether a byte is part of a word.
    pub(crate) fn in_word(&self, byte: u8) -> bool
        ensures { result ≡ in_word self.now.rules.now byte }
    {
        !is_blank(byte) && !self.is_mark(byte)
    }

    // How many bytes of a word stand in front.
    fn word_len(&self, bytes: &[u8]) -> usize
        ensures { result ≡ prefix_len (in_word self.now.rules.now) bytes.now }
    {
        bytes.iter().take_while(|byte| self.in_word(**byte)).count()
    }

    // All tokens.
    pub(crate) fn lexemes(&self) -> Lexemes<'a>
        ensures { tokens_left result ≡ tokens self.now.rules.now 0 self.now.bytes.now }
    {
        Lexemes {
            source: *self,
            rest: self.bytes,
        }
    }
}

impl<'a> Iterator for Lexemes<'a> {
    ghost use Rattle.std.specs.Iterator.{item_count};
    ghost use Rattle.calls.specs.Lexing.{tokens_left, GivesLexeme};

    type Item = Lexeme<'a>;

    ghost next_gives = { GivesLexeme };

    ghost remaining = { item_count tokens_left };

    // Inlined, so that rules which a program has as a constant are known where a byte is held against them: not inlined, a byte of a word takes three times as long there.
    #[inline(always)]
    fn next(&mut self) -> Option<Lexeme<'a>> {
        let (_, rest) = self.rest.split_at(blanks(self.rest));
        let (byte, behind) = rest.split_first()?;
        let at = self.source.bytes.len() - rest.len();
        if self.source.is_mark(*byte) {
            self.rest = behind;
            return Some(Lexeme {
                token: Token::Mark(*byte),
                at,
            });
        }
        let (word, others) = rest.split_at(self.source.word_len(rest));
        self.rest = others;
        Some(Lexeme {
            token: Token::Word(word),
            at,
        })
    }
}
