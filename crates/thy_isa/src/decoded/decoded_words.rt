//! The words that were executed last, with what they mean.

ghost use Rattle.std.specs.Prelude.{◌≡◌, ◌<◌};
ghost use Rattle.thy_isa.specs.Table.{instr_of};
ghost use Rattle.thy_isa.specs.Found.{instr_by};

use crate::decoded::found::{Found, found_of};
use std::marker::Model;

/// A word and what it means, found once.
#[derive(Clone, Copy)]
struct DecodedWord {
    word: u32,
    found: Found,
}

impl Model for DecodedWord {
    ghost use Rattle.std.specs.Prelude.{◌≡◌};
    ghost use Rattle.thy_isa.specs.Table.{instr_of};
    ghost use Rattle.thy_isa.specs.Found.{Kept, instr_by};

    ghost Value = { Kept };

    ghost view = { λ d. record { word = d.word; found = d.found } };

    ghost invariant = { λ d. instr_by d.word d.found ≡ instr_of d.word };

    ghost inverse = { λ k. record { word = k.word; found = k.found } };
}

impl DecodedWord {
    /// A word, with what it means.
    fn new(word: u32) -> DecodedWord
        ensures { result.word ≡ word }
    {
        DecodedWord {
            word,
            found: found_of(word),
        }
    }

    /// Holds this word in place of another one.
    #[inline(never)]
    fn replace(&mut self, word: u32)
        ensures { self.new.word ≡ word }
    {
        *self = DecodedWord::new(word);
    }

    /// Holds this word, as it mostly does already.
    #[inline(always)]
    fn keep(&mut self, word: u32)
        ensures { self.new.word ≡ word }
    {
        if self.word != word {
            self.replace(word);
        }
    }

    /// What the word means.
    #[inline(always)]
    fn found(&self) -> &Found
        ensures { instr_by self.now.word result.now ≡ instr_of self.now.word }
    {
        &self.found
    }
}

/// How many words are kept: a power of two.
const KEPT: u64 = 256;

/// The words that were executed last, one at each of 256 places. What they mean depends on nothing else: not on the memory that
/// they are in, nor on who executes them.
#[derive(Drop)]
pub struct DecodedWords {
    words: [DecodedWord; 256],
}

impl DecodedWords {
    /// The words before any was executed: at each place the word 0, with what it means.
    pub fn new() -> DecodedWords {
        DecodedWords {
            words: [DecodedWord::new(0); 256],
        }
    }

    /// Where the word at an address is kept. So no two words of a loop of at most 256 have one place.
    #[inline(always)]
    fn place_of(at: u64) -> usize
        ensures { result < 256 }
    {
        (at / 4 % KEPT) as usize
    }

    /// What a word at `pc` means.
    #[inline(always)]
    pub fn found(&mut self, word: u32, pc: u64) -> &Found
        ensures { instr_by word result.now ≡ instr_of word }
    {
        let place = DecodedWords::place_of(pc);
        self.words[place].keep(word);
        let kept = &*self;
        kept.words[place].found()
    }
}
