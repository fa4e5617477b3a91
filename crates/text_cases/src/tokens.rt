// What the scan finds of the text of a case.
use super::described::listing;
use case_files::{Expected, Found, Refused, Trial};
use std::alloc::{AllocError, Global};
use text::scan;

#[derive(Clone, Copy)]
pub struct Tokens;

impl Trial for Tokens {
    // no words but the listing's
    fn set(&mut self, _word: &str, _rest: &str) -> Option<()> {
        None
    }

    fn found(
        &mut self,
        heap: Global,
        text: &[u8],
        expected: Expected,
    ) -> Result<Found, AllocError> {
        let answer = scan(text).map_err(Refused::from);
        let listing = if answer.is_err() || expected.needs_no_listing(answer) {
            String::new(heap)
        } else {
            listing(heap, text)?
        };
        Ok(Found {
            answer,
            listing,
            complaint: None,
        })
    }
}
