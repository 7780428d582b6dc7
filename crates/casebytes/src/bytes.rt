// The bytes of a file of cases.
use anyhow::anyhow;
use bank::call::Call;
use freebank::choice::Choice;
use std::alloc::Global;

// What is left of the bytes.
#[derive(Drop)]
pub struct Bytes<'a> {
    pub rest: &'a [u8],
}

impl<'a> Bytes<'a> {
    pub fn take(&mut self, count: usize) -> anyhow::Result<&'a [u8]> {
        let (front, rest) = self
            .rest
            .split_at_checked(count)
            .ok_or_else(|| anyhow!("a case is cut short"))?;
        self.rest = rest;
        Ok(front)
    }

    pub fn array<const N: usize>(&mut self) -> anyhow::Result<[u8; N]> {
        let (front, rest) = self
            .rest
            .split_first_chunk::<N>()
            .ok_or_else(|| anyhow!("a case is cut short"))?;
        self.rest = rest;
        Ok(*front)
    }

    pub fn byte(&mut self) -> anyhow::Result<u8> {
        let [byte] = self.array::<1>()?;
        Ok(byte)
    }

    pub fn number(&mut self) -> anyhow::Result<u16> {
        Ok(u16::from_le_bytes(self.array::<2>()?))
    }

    pub fn word(&mut self) -> anyhow::Result<u32> {
        Ok(u32::from_le_bytes(self.array::<4>()?))
    }

    // A count, and so many words.
    pub fn words(&mut self, heap: Global) -> anyhow::Result<Vec<u32>> {
        let mut words = Vec::new(heap);
        for _ in 0..self.byte()? {
            words.push(self.word()?)?;
        }
        Ok(words)
    }

    fn choice(&mut self) -> anyhow::Result<Choice> {
        let word = self.word()?;
        let hindrances = self.array::<64>()?;
        Ok(Choice::new(word, &hindrances))
    }

    // A count, and so many choices.
    pub fn choices(&mut self, heap: Global) -> anyhow::Result<Vec<Choice>> {
        let mut choices = Vec::new(heap);
        for _ in 0..self.byte()? {
            choices.push(self.choice()?)?;
        }
        Ok(choices)
    }

    // A call, of which the letter tells the kind.
    fn call(&mut self) -> anyhow::Result<Call> {
        let letter = self.byte()?;
        let device = self.byte()?;
        let word = self.word()?;
        match letter {
            b'c' => Ok(Call::Count),
            b'l' => Ok(Call::Look { device }),
            b'p' => Ok(Call::Put { device, word }),
            b'd' => Ok(Call::Lower { device }),
            b'u' => Ok(Call::Raise { device }),
            _ => Err(anyhow!("no call has this letter")),
        }
    }

    // A count, and so many calls.
    pub fn calls(&mut self, heap: Global) -> anyhow::Result<Vec<Call>> {
        let mut calls = Vec::new(heap);
        for _ in 0..self.number()? {
            calls.push(self.call()?)?;
        }
        Ok(calls)
    }
}
