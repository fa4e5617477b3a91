// One case: its text, and the lines that it lists.
ghost use Rattle.std.specs.Prelude.{◌≡◌, ◌++◌, [], IfOk, string_bytes, codes};
ghost use Rattle.case_files.specs.Hex.{hex_bytes};
ghost use Rattle.case_files.specs.Repeated.{repeated};

use super::hex::byte_of;
use std::alloc::{AllocError, Global};

#[derive(Drop)]
pub(crate) struct Case {
    pub text: Vec<u8>,
    // a line for each thing that is to be found; empty where they are only counted
    pub listing: String,
}

impl Case {
    pub(crate) fn new(heap: Global) -> Case
        ensures text { result.text.items ≡ [] }
        ensures listing { string_bytes result.listing ≡ [] }
    {
        Case {
            text: Vec::new(heap),
            listing: String::new(heap),
        }
    }

    // The bytes, so many times.
    pub(crate) fn add_times(&mut self, count: usize, bytes: &str) -> Result<(), AllocError>
        ensures text { IfOk result (λ _. self.new.text.items ≡ self.old.text.items ++ repeated count bytes.now) }
        ensures listing { IfOk result (λ _. string_bytes self.new.listing ≡ string_bytes self.old.listing) }
    {
        for _ in 0..count {
            self.text.extend_from_slice(bytes.as_bytes())?;
        }
        Ok(())
    }

    // The bytes that the digits write, two digits each.
    pub(crate) fn add_hex(&mut self, digits: &str) -> Result<(), AllocError>
        ensures text { IfOk result (λ _. self.new.text.items ≡ self.old.text.items ++ hex_bytes digits.now) }
        ensures listing { IfOk result (λ _. string_bytes self.new.listing ≡ string_bytes self.old.listing) }
    {
        let mut rest = digits.as_bytes();
        while let [high, low, more @ ..] = rest {
            self.text.push(byte_of(*high, *low))?;
            rest = more;
        }
        Ok(())
    }

    // One line more of the listing.
    pub(crate) fn add_line(&mut self, line: &str) -> Result<(), AllocError>
        ensures text { self.new.text.items ≡ self.old.text.items }
        ensures listing { IfOk result (λ _. string_bytes self.new.listing ≡ string_bytes self.old.listing ++ (line.now ++ codes "\n")) }
    {
        self.listing.push_str(line)?;
        self.listing.push('\n')
    }

    // Another case begins.
    pub(crate) fn clear(&mut self)
        ensures text { self.new.text.items ≡ [] }
        ensures listing { string_bytes self.new.listing ≡ [] }
    {
        self.text.clear();
        self.listing.clear();
    }
}
