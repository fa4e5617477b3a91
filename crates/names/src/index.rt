// The index: names in the order in which they were added, and for each bucket a chain of those that lie in it, the newest first.
ghost use Rattle.std.specs.Prelude.{◌≡◌, ℕ, ◌<◌, ◌≤◌, List, [], ◌∷◌, ◌++◌, length, IfSome};
ghost use Rattle.names.specs.Indexing.{IsIndex, names_in, Finds};
ghost use Rattle.names.specs.Parts.{part_of};

use super::parts::{bucket, part};
use layout::Word;

// The most names.
const MOST: usize = 512;

#[derive(Clone, Copy)]
// Arrays side by side: a map of the library would take heap.
pub struct Index {
    // the newest name of each bucket
    heads: [Option<u16>; 256],
    names: [Word; 512],
    // for each name the one before it in its bucket
    links: [Option<u16>; 512],
    count: usize,
}

impl Index {
    pub fn new() -> Index
        ensures index { (text : List ℕ) → IsIndex text result }
        ensures empty { (text : List ℕ) → names_in text result ≡ [] }
    {
        Index {
            heads: [None; 256],
            names: [Word::UNUSED; 512],
            links: [None; 512],
            count: 0,
        }
    }

    // How many names it has.
    pub fn count(&self) -> usize
        ensures names { (text : List ℕ) → IsIndex text self.now → result ≡ length (names_in text self.now) }
        ensures within { result ≤ 512 }
    {
        self.count.min(MOST)
    }

    // The number of a name, where it is one of them.
    pub fn find(&self, text: &[u8], name: &[u8]) -> Option<usize>
        ensures found { IsIndex text.now self.now → Finds name.now (names_in text.now self.now) result }
        ensures within { IfSome result (λ k. k < 512) }
    {
        let mut below = self.count.min(MOST);
        let mut at = self.heads[bucket(name)];
        // all names from `below` on are others
        'chain: while let Some(link) = at {
            let k = link as usize;
            if k >= below {
                return None;
            }
            if name == part(text, self.names[k]) {
                return Some(k);
            }
            below = k;
            at = self.links[k];
        }
        None
    }

    // A name more, unless it is full: then nothing changes.
    pub fn add(&mut self, text: &[u8], word: Word)
        ensures index { IsIndex text.now self.old → IsIndex text.now self.new }
        ensures full { length (names_in text.now self.old) ≡ 512 → self.new ≡ self.old }
        ensures names { IsIndex text.now self.old → length (names_in text.now self.old) < 512 → names_in text.now self.new ≡ names_in text.now self.old ++ part_of text.now word ∷ [] }
    {
        let n = self.count;
        if n >= MOST {
            return;
        }
        let h = bucket(part(text, word));
        self.names[n] = word;
        self.links[n] = self.heads[h];
        self.heads[h] = Some(n as u16);
        self.count = n + 1;
    }
}
