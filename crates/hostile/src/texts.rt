// The sorts of texts.
use super::damage::damaged;
use super::growth::grown;
use super::random::Random;
use super::soup::{bytes, deep, long, soup};
use std::alloc::{AllocError, Global};

// A script with an input for it.
#[derive(Drop)]
pub struct Stored {
    pub text: Vec<u8>,
    pub input: Vec<u8>,
}

#[derive(Clone, Copy)]
pub enum Sort {
    Bytes,
    Tokens,
    Deep,
    Long,
    Grown,
    Damaged,
}

impl Sort {
    pub const ALL: [Sort; 6] = [
        Sort::Bytes,
        Sort::Tokens,
        Sort::Deep,
        Sort::Long,
        Sort::Grown,
        Sort::Damaged,
    ];

    pub fn name(self) -> &'static str {
        match self {
            Sort::Bytes => "bytes",
            Sort::Tokens => "tokens",
            Sort::Deep => "brackets",
            Sort::Long => "long words",
            Sort::Grown => "grown scripts",
            Sort::Damaged => "damaged scripts",
        }
    }

    // How many of it are tried.
    pub fn count(self) -> u32 {
        match self {
            Sort::Bytes | Sort::Tokens => 2000,
            Sort::Deep => 500,
            Sort::Long => 200,
            Sort::Grown => 1500,
            Sort::Damaged => 3000,
        }
    }

    // One more of it, and the input for its runs.
    pub fn made(
        self,
        heap: Global,
        random: &mut Random,
        scripts: &[Stored],
    ) -> Result<Stored, AllocError> {
        let input = bytes(heap, random, 40)?;
        let text = match self {
            Sort::Bytes => bytes(heap, random, 100)?,
            Sort::Tokens => soup(heap, random, 60)?,
            Sort::Deep => deep(heap, random)?,
            Sort::Long => long(heap, random)?,
            Sort::Grown => grown(heap, random, 24)?,
            Sort::Damaged => {
                let i = random.below(scripts.len());
                let Some(script) = scripts.get(i) else {
                    return Ok(Stored {
                        text: Vec::new(heap),
                        input,
                    });
                };
                return Ok(Stored {
                    text: damaged(heap, random, &script.text)?,
                    input: script.input.to_vec(heap)?,
                });
            }
        };
        Ok(Stored { text, input })
    }
}
