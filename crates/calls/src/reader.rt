// The check of a source: what is wrong with it, by its tokens and a stack of open brackets.
ghost use Rattle.std.specs.Prelude.{◌≡◌, ◌≢◌, ◌∷◌, Err};
ghost use Rattle.calls.specs.declared.error.CallError.TheVariants.{NoMemory};
ghost use Rattle.calls.specs.Tokens.{mark};
ghost use Rattle.calls.specs.Lexing.{token_of};
ghost use Rattle.calls.specs.Machine.{a_value_or_close, at_end, behind_value, goes, own_close, own_separator, popped, step, step_behind, step_value};
ghost use Rattle.calls.specs.Checking.{expects_of, frame_of, frames_of, Innermost, StepSays, Told, Tells};

use crate::error::{CallError, FaultKind};
use crate::lexer::{Lexeme, Source, Token};
use crate::rule::Rule;
use std::alloc::Global;
use std::marker::Model;

// A bracket that is open: its rule, and where it stands. The definitions have brackets and expectations of their own, as what a source is must not name the code.
#[derive(Clone, Copy)]
struct Frame {
    rule: Rule,
    opened: usize,
}

// What may come next.
#[derive(Clone, Copy)]
enum Expects {
    Value,
    ValueOrClose,
    BehindWord,
    BehindValue,
}

// The brackets that are open, the innermost one last. A clause sees the list of them, the innermost one first.
#[derive(Drop)]
pub(crate) struct Reader {
    stack: Vec<Frame>,
}

impl Model for Reader {
    ghost use Rattle.std.specs.Prelude.{List};
    ghost use Rattle.calls.specs.Machine as machine;
    ghost use Rattle.calls.specs.Checking.{frames_of};

    ghost Value = { List machine.Frame };

    ghost view = { λ r. frames_of r.stack.items };
}

impl Reader {
    // A reader with no bracket open, and no memory taken yet.
    pub(crate) fn new(heap: Global) -> Reader {
        Reader {
            stack: Vec::new(heap),
        }
    }

    // The innermost open bracket.
    fn innermost(&self) -> Option<Frame>
        ensures { Innermost self.now result }
    {
        self.stack.last().copied()
    }

    // Whether a byte closes the innermost open bracket. This and the next one are two definitions, of a field each: one function would take the field by a closure, and its clause would have to say what that computes.
    fn own_close(&self, byte: u8) -> bool
        ensures { result ≡ own_close self.now byte }
    {
        self.innermost()
            .is_some_and(|frame| byte == frame.rule.close)
    }

    // Whether a byte separates the values in the innermost open bracket.
    fn own_separator(&self, byte: u8) -> bool
        ensures { result ≡ own_separator self.now byte }
    {
        self.innermost()
            .is_some_and(|frame| byte == frame.rule.separator)
    }

    // A bracket opens.
    fn push(&mut self, rule: Rule, opened: usize) -> Result<Expects, CallError>
        ensures { StepSays (goes (frame_of (record { rule = rule; opened = opened }) ∷ self.old) a_value_or_close) self.new result }
    {
        self.stack.push(Frame { rule, opened })?;
        Ok(Expects::ValueOrClose)
    }

    // The innermost bracket closes.
    fn pop(&mut self) -> Expects
        ensures { goes (popped self.old) behind_value ≡ goes self.new (expects_of result) }
    {
        self.stack.pop();
        Expects::BehindValue
    }

    // A bracket or separator where a value should begin. Its byte and its position are two parameters here and below, as the definition of a step has them.
    fn mark_at_value(&mut self, source: &Source, byte: u8, at: usize) -> Result<Expects, CallError>
        ensures { StepSays (step_value source.now.rules.now self.old at (mark byte)) self.new result }
    {
        if let Some(rule) = source.opened_by(byte) {
            return self.push(rule, at);
        }
        if source.closes(byte) && !self.own_close(byte) {
            return Err(CallError::faulty(FaultKind::ClosesNothing, at));
        }
        Err(CallError::faulty(FaultKind::NoValue, at))
    }

    // A bracket or separator behind a value.
    fn mark_behind(&mut self, source: &Source, byte: u8, at: usize) -> Result<Expects, CallError>
        ensures says { StepSays (step_behind source.now.rules.now self.old at (mark byte)) self.new result }
        ensures told { result ≢ Err NoMemory }
    {
        if self.own_separator(byte) {
            return Ok(Expects::Value);
        }
        if self.own_close(byte) {
            return Ok(self.pop());
        }
        if source.closes(byte) {
            return Err(CallError::faulty(FaultKind::ClosesNothing, at));
        }
        Err(CallError::faulty(FaultKind::Behind, at))
    }

    // One bracket or separator.
    fn step_mark(
        &mut self,
        source: &Source,
        expects: Expects,
        byte: u8,
        at: usize,
    ) -> Result<Expects, CallError>
        ensures { StepSays (step source.now.rules.now self.old (expects_of expects) at (mark byte)) self.new result }
    {
        match expects {
            Expects::Value => self.mark_at_value(source, byte, at),
            Expects::ValueOrClose => {
                if self.own_close(byte) {
                    return Ok(self.pop());
                }
                self.mark_at_value(source, byte, at)
            }
            Expects::BehindWord => {
                if let Some(rule) = source.opened_by(byte) {
                    return self.push(rule, at);
                }
                self.mark_behind(source, byte, at)
            }
            Expects::BehindValue => self.mark_behind(source, byte, at),
        }
    }

    // One token.
    fn step(
        &mut self,
        source: &Source,
        expects: Expects,
        lexeme: Lexeme,
    ) -> Result<Expects, CallError>
        ensures { StepSays (step source.now.rules.now self.old (expects_of expects) lexeme.entry.at (token_of lexeme.entry.token)) self.new result }
    {
        if let Token::Mark(byte) = lexeme.token {
            return self.step_mark(source, expects, byte, lexeme.at);
        }
        match expects {
            Expects::Value | Expects::ValueOrClose => Ok(Expects::BehindWord),
            Expects::BehindWord | Expects::BehindValue => {
                Err(CallError::faulty(FaultKind::Behind, lexeme.at))
            }
        }
    }

    // What is wrong at the source's end.
    fn at_end(&self, end: usize, expects: Expects) -> Result<(), CallError>
        ensures says { Told (at_end end self.now (expects_of expects)) result }
        ensures told { result ≢ Err NoMemory }
    {
        if let Some(frame) = self.innermost() {
            return Err(CallError::faulty(FaultKind::LeftOpen, frame.opened));
        }
        match expects {
            Expects::Value | Expects::ValueOrClose => Err(CallError::faulty(
                FaultKind::NoValue,
                end,
            )),
            Expects::BehindWord | Expects::BehindValue => Ok(()),
        }
    }

    // What is wrong with a source, if anything is.
    pub(crate) fn check(&mut self, source: &Source) -> Result<(), CallError>
        ensures { Tells source.now.rules.now source.now.bytes.now result }
    {
        self.stack.clear();
        let mut expects = Expects::Value;
        for lexeme in source.lexemes() {
            expects = self.step(source, expects, lexeme)?;
        }
        self.at_end(source.bytes.len(), expects)
    }
}
