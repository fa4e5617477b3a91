// What is left of a file, and taking from its front what has to stand there: a known word, a number, a block, a line.
ghost use Rattle.std.specs.Prelude.{◌≡◌, ◌+◌, ◌≤◌, ◌<◌, ◌++◌, ◌∷◌, length, decimal, All, ◌≢◌, IfOk, IfErr, IfSome};
ghost use Rattle.cases.specs.Blanks.{without_newlines};
ghost use Rattle.cases.specs.Taking.{Takes};
ghost use Rattle.cases.specs.Written.{numbered, told_block};

use super::Malformed;

#[derive(Drop)]
pub(crate) struct Front<'c> {
    pub(crate) left: &'c [u8],
}

// The number that a first digit, which is not 0, and more digits write; none where it has more than 32 bits. The library's `parse`
// takes a plus and needless zeros besides, so it is no plainer here.
fn number_on(first: u32, more: &[u8]) -> Option<u32>
    requires positive { 0 < first }
    requires digit { first < 10 }
    ensures { IfSome result (λ n. decimal n ≡ (48 + first) ∷ more.now) }
{
    let mut n = first;
    for d in more {
        if !d.is_ascii_digit() {
            return None;
        }
        n = n.checked_mul(10)?.checked_add(u32::from(*d - b'0'))?;
    }
    Some(n)
}

// The number that a word writes in decimal, with no needless 0.
fn number_of(word: &[u8]) -> Option<u32>
    ensures { IfSome result (λ n. word.now ≡ decimal n) }
{
    match word {
        [b'0'] => Some(0),
        [first @ b'1'..=b'9', more @ ..] => number_on(u32::from(*first - b'0'), more),
        _ => None,
    }
}

impl<'c> Front<'c> {
    // That what has to stand at the front does not.
    fn malformed(&self) -> Malformed
        ensures { result.left ≡ length self.now.left.now }
    {
        Malformed {
            left: self.left.len(),
        }
    }

    // A known word.
    pub(crate) fn word(&mut self, word: &[u8]) -> Result<(), Malformed>
        ensures takes { Takes result self.old.left.now self.new.left.now (λ _ rest. word.now ++ rest) }
        ensures kept { IfErr result (λ _. self.new.left.now ≡ self.old.left.now) }
    {
        self.left = self.left.strip_prefix(word).ok_or(self.malformed())?;
        Ok(())
    }

    // A number in decimal.
    pub(crate) fn number(&mut self) -> Result<u32, Malformed>
        ensures { Takes result self.old.left.now self.new.left.now (λ n rest. decimal n ++ rest) }
    {
        let digits = self
            .left
            .iter()
            .position(|b| !b.is_ascii_digit())
            .unwrap_or(self.left.len());
        let number = number_of(&self.left[..digits]).ok_or(self.malformed())?;
        self.left = &self.left[digits..];
        Ok(number)
    }

    // A block of so many bytes, whatever they are, and the newline that ends it.
    pub(crate) fn block(&mut self, size: u32) -> Result<&'c [u8], Malformed>
        ensures takes { Takes result self.old.left.now self.new.left.now (λ bytes rest. bytes.now ++ 10 ∷ rest) }
        ensures length { IfOk result (λ bytes. length bytes.now ≡ size) }
    {
        match self.left.split_at_checked(size as usize) {
            Some((bytes, [b'\n', rest @ ..])) => {
                self.left = rest;
                Ok(bytes)
            }
            _ => Err(self.malformed()),
        }
    }

    // A line, and the newline that ends it.
    pub(crate) fn line(&mut self) -> Result<&'c [u8], Malformed>
        ensures takes { Takes result self.old.left.now self.new.left.now (λ bytes rest. bytes.now ++ 10 ∷ rest) }
        ensures line { IfOk result (λ bytes. All (λ b. b ≢ 10) bytes.now) }
    {
        let end = self
            .left
            .iter()
            .position(|b| *b == b'\n')
            .ok_or(self.malformed())?;
        let bytes = &self.left[..end];
        self.left = &self.left[end + 1..];
        Ok(bytes)
    }

    // A known word, and a number.
    pub(crate) fn numbered(&mut self, word: &[u8]) -> Result<u32, Malformed>
        ensures { Takes result self.old.left.now self.new.left.now (λ n rest. numbered word.now n rest) }
    {
        self.word(word)?;
        self.number()
    }

    // A block, on the line behind its length.
    pub(crate) fn told_block(&mut self, word: &[u8]) -> Result<&'c [u8], Malformed>
        ensures { Takes result self.old.left.now self.new.left.now (λ bytes rest. told_block word.now bytes.now rest) }
    {
        let size = self.numbered(word)?;
        self.word(b"\n")?;
        self.block(size)
    }

    // The newlines in front go.
    pub(crate) fn skip_newlines(&mut self)
        ensures value { self.new.left.now ≡ without_newlines self.old.left.now }
        ensures within { length self.new.left.now ≤ length self.old.left.now }
    {
        while let [b'\n', rest @ ..] = self.left {
            self.left = rest;
        }
    }
}
