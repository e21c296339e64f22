//! Reads the tokens of a line.
ghost use Rattle.std.specs.Prelude.{◌≡◌, ◌≤◌, ◌<◌, ◌-◌, [], true, false, ℕ, List, length, IsTrue, Option};
ghost use Rattle.std.specs.Prelude.{Some, None, Ok};
ghost use Rattle.std.specs.Prelude.{IfOk, MatchOption, MatchResult};
ghost use Rattle.cap_value.specs.Bytes.{bytes_eq};
ghost use Rattle.cap_language.specs.Forms.{a_blob, a_word, at_end, keyword, natural, sign, worker};
ghost use Rattle.cap_language.specs.Forms.{worker_number};
ghost use Rattle.cap_language.specs.Grammar.{Reads, misfit, next_at, read, sign_at};
ghost use Rattle.cap_language.specs.Tokens.{behind_blanks};
ghost use Rattle.cap_language.specs.declared.fault.LineFault.TheVariants.{Syntax};

use crate::fault::LineFault;
use crate::token::{Start, after_blanks, after_sign, blob_at, natural_at, start_of, word_at};
use cap_value::{AllocHandle, OutOfMemory};

// The greatest number of a worker.
const WORKER_MAX: u64 = 63;

/// The rest of a line, read token by token. Spaces may come before, between and after tokens, and tokens may
/// touch.
#[derive(Drop)]
pub struct Cursor<'a> {
    /// What is left to read.
    pub rest: &'a str,
}

/// A word of a line, and the fault of the line where the word is not expected.
#[derive(Clone, Copy, Drop)]
pub struct Word<'a> {
    /// The word.
    pub text: &'a str,
    /// The fault.
    pub misfit: LineFault,
}

impl<'a> Word<'a> {
    /// Whether it is this word.
    #[inline(always)]
    pub fn is(&self, wanted: &str) -> bool
        ensures { result ≡ bytes_eq self.now.text.now wanted.now }
    {
        self.text == wanted
    }
}

impl<'a> Cursor<'a> {
    /// The fault of a token that begins here and is not expected.
    pub fn misfit(&self) -> LineFault
        ensures { result ≡ misfit self.now.rest.now }
    {
        LineFault::Syntax {
            left: self.rest.len(),
        }
    }

    /// The fault of a token that begins at this offset in the rest and is not expected.
    pub fn misfit_at(&self, at: u64) -> LineFault
        ensures { result ≡ Syntax (length self.now.rest.now - at) }
    {
        LineFault::Syntax {
            left: self.rest.len().saturating_sub(at as usize),
        }
    }

    /// Skips the spaces before the next token.
    pub fn skip_spaces(&mut self)
        ensures { self.new.rest.now ≡ behind_blanks self.old.rest.now }
    {
        self.rest = after_blanks(self.rest);
    }

    /// Skips the sign, if it is the next token.
    pub fn takes_sign(&mut self, wanted: u8) -> bool
        requires { wanted < 128 }
        ensures there { IsTrue result
            → sign_at wanted (behind_blanks self.old.rest.now) ≡ Some self.new.rest.now }
        ensures other { result ≡ false → (sign_at wanted (behind_blanks self.old.rest.now) ≡ None)
            × (self.new.rest.now ≡ behind_blanks self.old.rest.now) }
    {
        self.skip_spaces();
        match after_sign(self.rest, wanted) {
            Some(rest) => {
                self.rest = rest;
                true
            }
            None => false,
        }
    }

    /// Skips the sign, which must be the next token.
    pub fn sign(&mut self, wanted: u8) -> Result<(), LineFault>
        requires { wanted < 128 }
        ensures reads { Reads result self.new.rest.now (read (sign wanted) self.old.rest.now) }
    {
        if self.takes_sign(wanted) {
            Ok(())
        } else {
            Err(self.misfit())
        }
    }

    /// Refuses a line that has another token.
    pub fn end(&mut self) -> Result<(), LineFault>
        ensures reads { Reads result [] (read at_end self.old.rest.now) }
    {
        self.skip_spaces();
        if self.rest.is_empty() {
            Ok(())
        } else {
            Err(self.misfit())
        }
    }

    /// Reads a word, the next token: an ASCII letter or `_`, and then letters, digits or `_`.
    pub fn word(&mut self) -> Result<Word<'a>, LineFault>
        ensures { MatchResult result
            (λ found. (next_at a_word self.old.rest.now ≡ Some (found.text.now, self.new.rest.now))
            × (found.misfit ≡ misfit (behind_blanks self.old.rest.now)))
            (λ fault. (next_at a_word self.old.rest.now ≡ None)
            × (fault ≡ misfit (behind_blanks self.old.rest.now))) }
    {
        self.skip_spaces();
        let misfit = self.misfit();
        match word_at(self.rest) {
            Some((text, rest)) => {
                self.rest = rest;
                Ok(Word { text, misfit })
            }
            None => Err(misfit),
        }
    }

    /// Skips this word, which must be the next token.
    #[tactic(auto, unfolding(crate::specs::Forms::keyword))]
    pub fn keyword(&mut self, wanted: &str) -> Result<(), LineFault>
        ensures reads { Reads result self.new.rest.now (read (keyword wanted.now) self.old.rest.now) }
    {
        let found = self.word()?;
        if found.is(wanted) {
            Ok(())
        } else {
            Err(found.misfit)
        }
    }

    /// Reads an integer without `-`, the next token.
    #[tactic(auto, unfolding(crate::specs::Forms::natural))]
    pub fn natural(&mut self) -> Result<u64, LineFault>
        ensures reads { Reads result self.new.rest.now (read natural self.old.rest.now) }
    {
        self.skip_spaces();
        match natural_at(self.rest) {
            Some((number, rest)) => {
                self.rest = rest;
                Ok(number)
            }
            None => Err(self.misfit()),
        }
    }

    /// Reads the bytes of a blob, the next token. None where another token is next, which is not skipped.
    pub fn blob<A: AllocHandle>(&mut self, alloc: A) -> Result<Option<Vec<u8, A>>, OutOfMemory>
        ensures { IfOk result (λ found. MatchOption found
            ((next_at a_blob self.old.rest.now ≡ None)
            × (self.new.rest.now ≡ behind_blanks self.old.rest.now))
            (λ bytes. next_at a_blob self.old.rest.now ≡ Some (bytes.items, self.new.rest.now))) }
    {
        self.skip_spaces();
        match start_of(self.rest.as_bytes()) {
            Start::X => match blob_at(alloc, self.rest)? {
                Some((bytes, rest)) => {
                    self.rest = rest;
                    Ok(Some(bytes))
                }
                None => Ok(None),
            },
            _ => Ok(None),
        }
    }

    /// Reads the worker, where the line begins with `@`: the number right after `@`, from 0 to 63, and a
    /// space.
    #[tactic(auto, unfolding(crate::specs::Forms::worker))]
    pub fn worker(&mut self) -> Result<Option<u64>, LineFault>
        ensures reads { Reads result self.new.rest.now (read worker self.old.rest.now) }
    {
        if self.takes_sign(b'@') {
            self.worker_number()
        } else {
            Ok(None)
        }
    }

    fn worker_number(&mut self) -> Result<Option<u64>, LineFault>
        ensures reads { Reads result self.new.rest.now (read worker_number self.old.rest.now) }
    {
        let misfit = self.misfit();
        let Some((number, rest)) = natural_at(self.rest) else {
            return Err(misfit);
        };
        if number > WORKER_MAX {
            return Err(misfit);
        }
        self.rest = rest;
        match after_sign(self.rest, b' ') {
            Some(behind) => {
                self.rest = behind;
                Ok(Some(number))
            }
            None => Err(self.misfit()),
        }
    }
}
