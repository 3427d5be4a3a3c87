// The calls that lines make.
ghost use Rattle.std.specs.Prelude.{◌≡◌, IfOk, vec_items};
ghost use Rattle.std.specs.Option.{option_map};
ghost use Rattle.text.specs.declared.verbs.Verb.TheVariants as verbs;
ghost use Rattle.text.specs.Words.{words, nth};
ghost use Rattle.text.specs.Values.{Tells};
ghost use Rattle.text.specs.Calls.{meant, number_at, number_or, bytes_at, bytes_or, numbers_at, parsed, heard};

use crate::values::{Form, Misread, number, numbers, spelled};
use crate::verbs::{Verb, verb_of};
use crate::words::word;
use std::alloc::{AllocError, Global};
use std::marker::Model;

// A call with its arguments, or a line that is none, with words that say so.
#[derive(Drop)]
pub enum Call {
    StoreFlat {
        limit: u64,
        content: Vec<u8>,
    },
    StoreSplit {
        first: u64,
        second: u64,
        content: Vec<u8>,
    },
    StoreLength,
    StoreLimit,
    StoreRead {
        first: u64,
        count: u64,
    },
    StoreReplace {
        first: u64,
        new: Vec<u8>,
    },
    StoreGrow {
        length: u64,
    },
    DiskZeros {
        sectors: u64,
    },
    DiskRaw {
        content: Vec<u8>,
    },
    DiskRescued {
        content: Vec<u8>,
        spoiled: Vec<u64>,
    },
    DiskSectors,
    DiskRead {
        sector: u64,
    },
    Create {
        version: u64,
        bits: u64,
        size: u64,
        name: Vec<u8>,
    },
    Mount,
    Read {
        sector: u64,
        length: u64,
    },
    Peek {
        id: Vec<u8>,
        sector: u64,
        length: u64,
    },
    Map {
        id: Vec<u8>,
        words: u64,
    },
    Check {
        words: u64,
    },
    Mistake(&'static str),
}

// A line, and where what its words spell is kept.
// A contract sees its words.
#[derive(Drop)]
struct Line<'a> {
    heap: Global,
    text: &'a [u8],
}

impl<'a> Model for Line<'a> {
    ghost use Rattle.std.specs.Prelude.{ℕ, List};
    ghost use Rattle.text.specs.Words.{words};

    ghost Value = { List (List ℕ) };

    ghost view = { λ line. words line.text.now };
}

impl Line<'_> {
    // A word that may not be left out.
    fn word(&self, i: usize) -> Result<&[u8], Misread>
        ensures value { Tells result (λ w. w.now) (nth i self.now) }
    {
        word(self.text, i).ok_or(Misread::Misspelt)
    }

    fn number(&self, i: usize) -> Result<u64, Misread>
        ensures value { Tells result (λ n. n) (number_at self.now i) }
    {
        number(self.word(i)?)
    }

    // A number that may be left out.
    fn number_or(&self, i: usize, otherwise: u64) -> Result<u64, Misread>
        ensures value { Tells result (λ n. n) (number_or self.now i otherwise) }
    {
        word(self.text, i).map_or(Ok(otherwise), number)
    }

    fn bytes(&self, i: usize, form: Form) -> Result<Vec<u8>, Misread>
        ensures value { Tells result vec_items (bytes_at self.now i form) }
    {
        spelled(self.heap, self.word(i)?, form)
    }

    // Bytes that are left out are none.
    fn bytes_or(&self, i: usize) -> Result<Vec<u8>, Misread>
        ensures value { Tells result vec_items (bytes_or self.now i) }
    {
        match word(self.text, i) {
            Some(w) => spelled(self.heap, w, Form::Hexadecimal),
            None => Ok(Vec::new(self.heap)),
        }
    }

    fn numbers(&self, i: usize) -> Result<Vec<u64>, Misread>
        ensures value { Tells result vec_items (numbers_at self.now i) }
    {
        numbers(self.heap, self.word(i)?)
    }

    fn store_flat(&self) -> Result<Call, Misread>
        ensures value { Tells result meant (parsed verbs.StoreFlat self.now) }
    {
        let limit = self.number(1)?;
        let content = self.bytes_or(2)?;
        Ok(Call::StoreFlat { limit, content })
    }

    fn store_split(&self) -> Result<Call, Misread>
        ensures value { Tells result meant (parsed verbs.StoreSplit self.now) }
    {
        let first = self.number(1)?;
        let second = self.number(2)?;
        let content = self.bytes_or(3)?;
        Ok(Call::StoreSplit {
            first,
            second,
            content,
        })
    }

    fn store_read(&self) -> Result<Call, Misread>
        ensures value { Tells result meant (parsed verbs.StoreRead self.now) }
    {
        let first = self.number(1)?;
        let count = self.number(2)?;
        Ok(Call::StoreRead { first, count })
    }

    fn store_replace(&self) -> Result<Call, Misread>
        ensures value { Tells result meant (parsed verbs.StoreReplace self.now) }
    {
        let first = self.number(1)?;
        let new = self.bytes(2, Form::Hexadecimal)?;
        Ok(Call::StoreReplace { first, new })
    }

    fn store_grow(&self) -> Result<Call, Misread>
        ensures value { Tells result meant (parsed verbs.StoreGrow self.now) }
    {
        let length = self.number(1)?;
        Ok(Call::StoreGrow { length })
    }

    fn disk_zeros(&self) -> Result<Call, Misread>
        ensures value { Tells result meant (parsed verbs.DiskZeros self.now) }
    {
        let sectors = self.number(1)?;
        Ok(Call::DiskZeros { sectors })
    }

    fn disk_raw(&self) -> Result<Call, Misread>
        ensures value { Tells result meant (parsed verbs.DiskRaw self.now) }
    {
        let content = self.bytes(1, Form::Hexadecimal)?;
        Ok(Call::DiskRaw { content })
    }

    fn disk_rescued(&self) -> Result<Call, Misread>
        ensures value { Tells result meant (parsed verbs.DiskRescued self.now) }
    {
        let content = self.bytes(1, Form::Hexadecimal)?;
        let spoiled = self.numbers(2)?;
        Ok(Call::DiskRescued { content, spoiled })
    }

    fn disk_read(&self) -> Result<Call, Misread>
        ensures value { Tells result meant (parsed verbs.DiskRead self.now) }
    {
        let sector = self.number(1)?;
        Ok(Call::DiskRead { sector })
    }

    fn create(&self) -> Result<Call, Misread>
        ensures value { Tells result meant (parsed verbs.Create self.now) }
    {
        let version = self.number(1)?;
        let bits = self.number(2)?;
        let size = self.number(3)?;
        let name = self.bytes(4, Form::Plain)?;
        Ok(Call::Create {
            version,
            bits,
            size,
            name,
        })
    }

    fn read(&self) -> Result<Call, Misread>
        ensures value { Tells result meant (parsed verbs.Read self.now) }
    {
        let sector = self.number(1)?;
        let length = self.number_or(2, 512)?;
        Ok(Call::Read { sector, length })
    }

    fn peek(&self) -> Result<Call, Misread>
        ensures value { Tells result meant (parsed verbs.Peek self.now) }
    {
        let id = self.bytes(1, Form::Plain)?;
        let sector = self.number(2)?;
        let length = self.number_or(3, 512)?;
        Ok(Call::Peek { id, sector, length })
    }

    fn map(&self) -> Result<Call, Misread>
        ensures value { Tells result meant (parsed verbs.Map self.now) }
    {
        let id = self.bytes(1, Form::Plain)?;
        let words = self.number(2)?;
        Ok(Call::Map { id, words })
    }

    fn check(&self) -> Result<Call, Misread>
        ensures value { Tells result meant (parsed verbs.Check self.now) }
    {
        let words = self.number(1)?;
        Ok(Call::Check { words })
    }

    // The call of a verb that these words make.
    fn call(&self, verb: Verb) -> Result<Call, Misread>
        ensures value { Tells result meant (parsed verb self.now) }
    {
        match verb {
            Verb::StoreFlat => self.store_flat(),
            Verb::StoreSplit => self.store_split(),
            Verb::StoreLength => Ok(Call::StoreLength),
            Verb::StoreLimit => Ok(Call::StoreLimit),
            Verb::StoreRead => self.store_read(),
            Verb::StoreReplace => self.store_replace(),
            Verb::StoreGrow => self.store_grow(),
            Verb::DiskZeros => self.disk_zeros(),
            Verb::DiskRaw => self.disk_raw(),
            Verb::DiskRescued => self.disk_rescued(),
            Verb::DiskSectors => Ok(Call::DiskSectors),
            Verb::DiskRead => self.disk_read(),
            Verb::Create => self.create(),
            Verb::Mount => Ok(Call::Mount),
            Verb::Read => self.read(),
            Verb::Peek => self.peek(),
            Verb::Map => self.map(),
            Verb::Check => self.check(),
        }
    }
}

// The call that a line makes; none if it has no words.
pub fn call_of(heap: Global, line: &[u8]) -> Result<Option<Call>, AllocError>
    ensures value { IfOk result (λ o. option_map meant o ≡ heard (words line.now)) }
{
    let Some(name) = word(line, 0) else {
        return Ok(None);
    };
    let Some(verb) = verb_of(name) else {
        return Ok(Some(Call::Mistake("unknown word")));
    };
    match (Line { heap, text: line }).call(verb) {
        Ok(call) => Ok(Some(call)),
        Err(Misread::Misspelt) => Ok(Some(Call::Mistake(verb.usage()))),
        Err(Misread::OutOfMemory(e)) => Err(e),
    }
}
