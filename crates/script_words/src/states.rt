// What a byte does, by where the reading is.
ghost use Rattle.std.specs.Prelude.{◌≡◌, OnOk, IfOk};
ghost use Rattle.script_words.specs.Lexer.{fresh};
ghost use Rattle.script_words.specs.Words as spec;

use crate::keyword::keyword_of;
use crate::lexer::{Lexer, State};
use crate::{Mark, Placed, Word};
use plain_types::{Bytes, List};
use std::alloc::{AllocError, Global};

/// What a byte between words begins.
#[derive(Clone, Copy, Debug, PartialEq, Eq)]
pub(crate) enum First {
    Blank,
    /// A word whose text the byte belongs to.
    Kept(State),
    Left(State),
    Mark(Mark),
    Nothing,
}

fn is_blank(byte: u8) -> bool
    ensures { result ≡ spec.is_blank byte }
{
    byte == b' ' || byte == b'\t' || byte == b'\n' || byte == b'\r'
}

pub(crate) fn is_digit(byte: u8) -> bool
    ensures { result ≡ spec.is_digit byte }
{
    b'0' <= byte && byte <= b'9'
}

pub(crate) fn is_name_start(byte: u8) -> bool
    ensures { result ≡ spec.is_name_start byte }
{
    (b'A' <= byte && byte <= b'Z') || (b'a' <= byte && byte <= b'z') || byte == b'_'
}

fn first_of(byte: u8) -> First
    ensures { result ≡ spec.first_of byte }
{
    if is_blank(byte) {
        First::Blank
    } else if is_name_start(byte) {
        First::Kept(State::Name)
    } else if is_digit(byte) {
        First::Kept(State::Digits)
    } else {
        opening_of(byte)
    }
}

fn opening_of(byte: u8) -> First
    ensures { result ≡ spec.opening_of byte }
{
    match byte {
        b'\'' => First::Left(State::Text),
        b'`' => First::Left(State::Backquoted),
        b'-' => First::Left(State::Dash),
        b'<' => First::Left(State::Less),
        b'>' => First::Left(State::Greater),
        b'!' => First::Left(State::Exclamation),
        _ => mark_of(byte),
    }
}

fn mark_of(byte: u8) -> First
    ensures { result ≡ spec.mark_of byte }
{
    match byte {
        b'(' => First::Mark(Mark::Open),
        b')' => First::Mark(Mark::Close),
        b',' => First::Mark(Mark::Comma),
        b';' => First::Mark(Mark::Semicolon),
        b'.' => First::Mark(Mark::Point),
        b'*' => First::Mark(Mark::Star),
        b'=' => First::Mark(Mark::Equal),
        b'+' => First::Mark(Mark::Plus),
        _ => First::Nothing,
    }
}

#[tactic(auto, unfolding(crate::specs::Words::named))]
fn named(name: Bytes) -> Word
    ensures { result ≡ spec.named name }
{
    match keyword_of(name.as_slice()) {
        Some(key) => Word::Key(key),
        None => Word::Name(name),
    }
}

impl Lexer {
    fn put_name(&mut self) -> Result<(), AllocError>
        ensures { OnOk result (self.new ≡ spec.put_name self.old) }
    {
        let name = self.take();
        self.put(named(name))
    }

    fn put_number(&mut self) -> Result<(), AllocError>
        ensures { OnOk result (self.new ≡ spec.put_number self.old) }
    {
        let number = self.take();
        self.put(Word::Number(number))
    }

    fn put_text(&mut self) -> Result<(), AllocError>
        ensures { OnOk result (self.new ≡ spec.put_text self.old) }
    {
        let text = self.take();
        self.put(Word::Text(text))
    }

    fn put_mark(&mut self, mark: Mark) -> Result<(), AllocError>
        ensures { OnOk result (self.new ≡ spec.put_mark mark self.old) }
    {
        self.put(Word::Mark(mark))
    }

    fn refuse(&mut self) -> Result<(), AllocError>
        ensures { OnOk result (self.new ≡ spec.refused self.old) }
    {
        self.put(Word::Bad)?;
        self.turn(State::Stopped);
        Ok(())
    }

    #[tactic(auto, unfolding(crate::specs::Words::between))]
    fn between(&mut self, byte: u8) -> Result<(), AllocError>
        ensures { OnOk result (self.new ≡ spec.between byte self.old) }
    {
        match first_of(byte) {
            First::Blank => Ok(()),
            First::Kept(state) => {
                self.start(state);
                self.keep(byte)
            }
            First::Left(state) => {
                self.start(state);
                Ok(())
            }
            First::Mark(mark) => {
                self.start(State::Between);
                self.put_mark(mark)
            }
            First::Nothing => {
                self.start(State::Between);
                self.refuse()
            }
        }
    }

    #[tactic(auto, unfolding(crate::specs::Words::in_comment))]
    fn in_comment(&mut self, byte: u8) -> Result<(), AllocError>
        ensures { OnOk result (self.new ≡ spec.in_comment byte self.old) }
    {
        if byte == b'\n' {
            self.turn(State::Between);
        }
        Ok(())
    }

    #[tactic(auto, unfolding(crate::specs::Words::in_name))]
    fn in_name(&mut self, byte: u8) -> Result<(), AllocError>
        ensures { OnOk result (self.new ≡ spec.in_name byte self.old) }
    {
        if is_name_start(byte) || is_digit(byte) {
            return self.keep(byte);
        }
        self.put_name()?;
        self.between(byte)
    }

    #[tactic(auto, unfolding(crate::specs::Words::in_backquotes))]
    fn in_backquotes(&mut self, byte: u8) -> Result<(), AllocError>
        ensures { OnOk result (self.new ≡ spec.in_backquotes byte self.old) }
    {
        if byte != b'`' {
            return self.keep(byte);
        }
        if self.held.is_empty() {
            return self.refuse();
        }
        let name = self.take();
        self.put(Word::Quoted(name))
    }

    #[tactic(auto, unfolding(crate::specs::Words::in_text))]
    fn in_text(&mut self, byte: u8) -> Result<(), AllocError>
        ensures { OnOk result (self.new ≡ spec.in_text byte self.old) }
    {
        if byte == b'\'' {
            self.turn(State::Quote);
            return Ok(());
        }
        self.keep(byte)
    }

    #[tactic(auto, unfolding(crate::specs::Words::after_quote))]
    fn after_quote(&mut self, byte: u8) -> Result<(), AllocError>
        ensures { OnOk result (self.new ≡ spec.after_quote byte self.old) }
    {
        if byte == b'\'' {
            self.turn(State::Text);
            return self.keep(byte);
        }
        self.put_text()?;
        self.between(byte)
    }

    #[tactic(auto, unfolding(crate::specs::Words::in_digits))]
    fn in_digits(&mut self, byte: u8) -> Result<(), AllocError>
        ensures { OnOk result (self.new ≡ spec.in_digits byte self.old) }
    {
        if is_digit(byte) {
            return self.keep(byte);
        }
        if byte == b'.' {
            self.turn(State::Point);
            return Ok(());
        }
        self.put_number()?;
        self.between(byte)
    }

    #[tactic(auto, unfolding(crate::specs::Words::after_point))]
    fn after_point(&mut self, byte: u8) -> Result<(), AllocError>
        ensures { OnOk result (self.new ≡ spec.after_point byte self.old) }
    {
        if is_digit(byte) {
            self.turn(State::Fraction);
            self.keep(b'.')?;
            return self.keep(byte);
        }
        self.put_number()?;
        self.put_mark(Mark::Point)?;
        self.between(byte)
    }

    #[tactic(auto, unfolding(crate::specs::Words::in_fraction))]
    fn in_fraction(&mut self, byte: u8) -> Result<(), AllocError>
        ensures { OnOk result (self.new ≡ spec.in_fraction byte self.old) }
    {
        if is_digit(byte) {
            return self.keep(byte);
        }
        self.put_number()?;
        self.between(byte)
    }

    #[tactic(auto, unfolding(crate::specs::Words::after_dash))]
    fn after_dash(&mut self, byte: u8) -> Result<(), AllocError>
        ensures { OnOk result (self.new ≡ spec.after_dash byte self.old) }
    {
        if byte == b'-' {
            self.turn(State::Comment);
            return Ok(());
        }
        if is_digit(byte) && !self.operand {
            self.turn(State::Digits);
            self.keep(b'-')?;
            return self.keep(byte);
        }
        self.put_mark(Mark::Minus)?;
        self.between(byte)
    }

    #[tactic(auto, unfolding(crate::specs::Words::after_less))]
    fn after_less(&mut self, byte: u8) -> Result<(), AllocError>
        ensures { OnOk result (self.new ≡ spec.after_less byte self.old) }
    {
        if byte == b'>' {
            return self.put_mark(Mark::NotEqual);
        }
        if byte == b'=' {
            return self.put_mark(Mark::LessOrEqual);
        }
        self.put_mark(Mark::Less)?;
        self.between(byte)
    }

    #[tactic(auto, unfolding(crate::specs::Words::after_greater))]
    fn after_greater(&mut self, byte: u8) -> Result<(), AllocError>
        ensures { OnOk result (self.new ≡ spec.after_greater byte self.old) }
    {
        if byte == b'=' {
            return self.put_mark(Mark::GreaterOrEqual);
        }
        self.put_mark(Mark::Greater)?;
        self.between(byte)
    }

    #[tactic(auto, unfolding(crate::specs::Words::after_exclamation))]
    fn after_exclamation(&mut self, byte: u8) -> Result<(), AllocError>
        ensures { OnOk result (self.new ≡ spec.after_exclamation byte self.old) }
    {
        if byte == b'=' {
            return self.put_mark(Mark::NotEqual);
        }
        self.refuse()
    }

    #[tactic(auto, unfolding(crate::specs::Words::step_in))]
    fn step_in(&mut self, byte: u8) -> Result<(), AllocError>
        ensures { OnOk result (self.new ≡ spec.step_in self.old.state byte self.old) }
    {
        match self.state {
            State::Between => self.between(byte),
            State::Comment => self.in_comment(byte),
            State::Name => self.in_name(byte),
            State::Backquoted => self.in_backquotes(byte),
            State::Text => self.in_text(byte),
            State::Quote => self.after_quote(byte),
            State::Digits => self.in_digits(byte),
            State::Point => self.after_point(byte),
            State::Fraction => self.in_fraction(byte),
            State::Dash => self.after_dash(byte),
            State::Less => self.after_less(byte),
            State::Greater => self.after_greater(byte),
            State::Exclamation => self.after_exclamation(byte),
            State::Stopped => Ok(()),
        }
    }

    #[tactic(auto, unfolding(crate::specs::Words::step))]
    fn step(&mut self, byte: u8) -> Result<(), AllocError>
        ensures { OnOk result (self.new ≡ spec.step byte self.old) }
    {
        self.step_in(byte)?;
        if byte == b'\n' {
            self.end_line();
        }
        Ok(())
    }

    /// The script ends here.
    #[tactic(auto, unfolding(crate::specs::Words::finished_in))]
    fn finish(&mut self) -> Result<(), AllocError>
        ensures { OnOk result (self.new ≡ spec.finished_in self.old.state self.old) }
    {
        match self.state {
            State::Between | State::Comment | State::Stopped => Ok(()),
            State::Name => self.put_name(),
            State::Backquoted | State::Text | State::Exclamation => self.refuse(),
            State::Quote => self.put_text(),
            State::Digits | State::Fraction => self.put_number(),
            State::Point => {
                self.put_number()?;
                self.put_mark(Mark::Point)
            }
            State::Dash => self.put_mark(Mark::Minus),
            State::Less => self.put_mark(Mark::Less),
            State::Greater => self.put_mark(Mark::Greater),
        }
    }
}

/// The words of a script, each with its line, and the end after them on the line of the last word.
#[tactic(auto, unfolding(crate::specs::Words::words_of, crate::specs::Words::run))]
pub fn words_of(alloc: Global, text: &str) -> Result<List<Placed>, AllocError>
    ensures { IfOk result (λ words. words ≡ spec.words_of text.now) }
{
    let lexer = run(alloc, text.as_bytes())?;
    finished(lexer)
}

fn finished(mut lexer: Lexer) -> Result<List<Placed>, AllocError>
    ensures { IfOk result (λ words. words ≡ spec.finished lexer) }
{
    lexer.finish()?;
    lexer.into_words()
}

#[tactic(auto, unfolding(crate::specs::Words::run))]
fn run(alloc: Global, bytes: &[u8]) -> Result<Lexer, AllocError>
    ensures { IfOk result (λ lexer. lexer ≡ spec.run bytes.now fresh) }
{
    let mut lexer = Lexer::new(alloc);
    let mut rest = bytes;
    while let [byte, after @ ..] = rest {
        lexer.step(*byte)?;
        rest = after;
    }
    Ok(lexer)
}
