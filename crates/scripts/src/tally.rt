// What was tried, and how much of it differs from what is expected.
use std::fmt;

#[derive(Clone, Copy, Default)]
pub struct Tally {
    pub tried: u32,
    pub runs: u32,
    pub steps: u64,
    pub different: u32,
}

impl Tally {
    pub fn add(&mut self, other: Tally) {
        self.tried = self.tried.saturating_add(other.tried);
        self.runs = self.runs.saturating_add(other.runs);
        self.steps = self.steps.saturating_add(other.steps);
        self.different = self.different.saturating_add(other.different);
    }

    // One text more was read and checked.
    pub fn count_text(&mut self, agrees: bool) {
        self.tried = self.tried.saturating_add(1);
        self.count(agrees);
    }

    // One run more, of so many steps.
    pub fn count_run(&mut self, steps: u64, agrees: bool) {
        self.runs = self.runs.saturating_add(1);
        self.steps = self.steps.saturating_add(steps);
        self.count(agrees);
    }

    pub fn word(&self) -> &'static str {
        match self.different {
            0 => "same",
            _ => "DIFFERENT",
        }
    }

    fn count(&mut self, agrees: bool) {
        if !agrees {
            self.different = self.different.saturating_add(1);
        }
    }
}

impl fmt::Display for Tally {
    fn fmt<W: fmt::Write>(&self, f: &mut fmt::Formatter<W>) -> fmt::Result {
        write!(
            f,
            "{} texts, {} runs, {} steps, {} different",
            self.tried, self.runs, self.steps, self.different
        )
    }
}
