// The index: literals of a text in the order in which they were added, and for each bucket a chain of those that lie in it, the newest first.
// It is not one type with the index of `names`, which has no sums, stops when it is full and answers numbers: only a walk of a dozen lines is
// common to both, and its two sizes, its parts, its sums and a fact that there is a bucket would be parameters.
ghost use Rattle.std.specs.Prelude.{◌≡◌, ◌↔◌, ℕ, ◌<◌, IsTrue, List};
ghost use Rattle.symbols.specs.Indexing.{IsIndex, bytes_in, Finds, Adds};
ghost use Rattle.names.specs.Parts.{sum_of};

use super::bytes::between;
use layout::Word;
use names::sum;

const BUCKETS: usize = 4096;

#[derive(Drop)]
pub struct Index {
    // the newest literal of each bucket
    heads: [Option<u16>; 4096],
    literals: [Word; 4096],
    sums: [u32; 4096],
    // for each literal the one before it in its bucket
    links: [Option<u16>; 4096],
    count: usize,
}

impl Index {
    pub(crate) fn new() -> Index
        ensures index { (text : List ℕ) → IsIndex text result }
        ensures empty { result.count ≡ 0 }
    {
        Index {
            heads: [None; 4096],
            literals: [Word::UNUSED; 4096],
            sums: [0; 4096],
            links: [None; 4096],
            count: 0,
        }
    }

    // Whether the literal with a number has these bytes, of which the sum is given.
    fn has(&self, text: &[u8], k: usize, bytes: &[u8], wanted: usize) -> bool
        requires index { IsIndex text.now self.now }
        requires within { k < self.now.count }
        requires sum { wanted ≡ sum_of bytes.now }
        ensures { IsTrue result ↔ (bytes_in text.now self.now k ≡ bytes.now) }
    {
        self.sums[k] as usize == wanted && between(text, self.literals[k]) == bytes
    }

    // A literal with these bytes, where one was added.
    pub(crate) fn find(&self, text: &[u8], bytes: &[u8]) -> Option<Word>
        requires { IsIndex text.now self.now }
        ensures { Finds text.now self.now bytes.now result }
    {
        let wanted = sum(bytes);
        let mut below = self.count;
        let mut at = self.heads[wanted % BUCKETS];
        // all literals from `below` on have other bytes
        'chain: while let Some(link) = at {
            let k = link as usize;
            if k >= below {
                return None;
            }
            if self.has(text, k, bytes, wanted) {
                return Some(self.literals[k]);
            }
            below = k;
            at = self.links[k];
        }
        None
    }

    // A literal more.
    pub(crate) fn add(&mut self, text: &[u8], literal: Word)
        requires { IsIndex text.now self.old × (self.old.count < 4096) }
        ensures index { IsIndex text.now self.new }
        ensures adds { Adds text.now self.old self.new literal }
    {
        let n = self.count;
        let sum = sum(between(text, literal));
        let bucket = sum % BUCKETS;
        self.literals[n] = literal;
        self.sums[n] = sum as u32;
        self.links[n] = self.heads[bucket];
        self.heads[bucket] = Some(n as u16);
        self.count = n + 1;
    }
}
