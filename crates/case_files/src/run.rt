// The run over the case file: the case that is being read, and what was counted.
ghost use Rattle.std.specs.Prelude.{◌≡◌, ◌↔◌, ◌+◌, min, true, false, IsTrue, string_bytes};
ghost use Rattle.case_files.specs.Agreeing.{Agrees};

use super::agreeing::agrees;
use super::answer::Answer;
use super::case::Case;
use super::expected::Expected;
use super::line::{Line, parse_line};
use super::tally::Tally;
use super::trial::{Found, Trial};
use std::alloc::Global;
use std::{fs, io};

#[derive(Drop)]
struct Run<'w, T> {
    trial: T,
    // the word of the lines of a listing
    listed: &'w str,
    case: Case,
    // of the group, and of the whole file
    group: Tally,
    whole: Tally,
    title: String,
    // the number of the line, from 1; refusals at the file's end tell the last one, so it stands here and not beside `lines()`
    line: u32,
}

impl<'w, T: Trial + Drop> Run<'w, T> {
    fn new(heap: Global, listed: &'w str, trial: T) -> Run<'w, T> {
        Run {
            trial,
            listed,
            case: Case::new(heap),
            group: Tally::default(),
            whole: Tally::default(),
            title: String::new(heap),
            line: 0,
        }
    }

    // Takes one line of the file.
    fn take(&mut self, rt: &HostRuntime, line: &str) -> io::Result<()> {
        self.line = self.line.saturating_add(1);
        // By let-else the refusal would stand twice: a line may also be read and then not be followed.
        let understood = match parse_line(line) {
            Some(said) => self.follow(rt, said)?,
            None => false,
        };
        if !understood {
            self.refuse_line(rt, line)?;
        }
        Ok(())
    }

    // Does what a line says; false where it is none that the program has. A closed enum, and each kind of line does its own.
    fn follow(&mut self, rt: &HostRuntime, line: Line<'_>) -> io::Result<bool> {
        match line {
            Line::Skip => {}
            Line::Group(title) => self.begin_group(rt, title)?,
            Line::Text(count, bytes) => self.case.add_times(count, bytes)?,
            Line::Hex(digits) => self.case.add_hex(digits)?,
            Line::Ends(expected) => self.end_case(rt, expected)?,
            Line::Other(word, rest) if word == self.listed => self.case.add_line(rest)?,
            Line::Other(word, rest) => return Ok(self.trial.set(word, rest).is_some()),
        }
        Ok(true)
    }

    // A line that says nothing of a case is a fault of the file, and counts as one.
    fn refuse_line(&mut self, rt: &HostRuntime, line: &str) -> io::Result<()> {
        self.whole.count_fault();
        let number = self.line;
        println!(rt; "line {number}: not understood: {line}")
    }

    fn begin_group(&mut self, rt: &HostRuntime, title: &str) -> io::Result<()> {
        self.end_group(rt)?;
        self.title.push_str(title)?;
        Ok(())
    }

    // Prints what was counted of the group, if there is one.
    fn end_group(&mut self, rt: &HostRuntime) -> io::Result<()> {
        if !self.title.is_empty() {
            let title = self.title.as_str();
            let group = self.group;
            println!(rt; "{title}: {group}")?;
        }
        self.group = Tally::default();
        self.title.clear();
        Ok(())
    }

    // Counts the case as right or wrong.
    fn judge(&mut self, found: &Found, expected: Answer) -> bool
        ensures right { IsTrue result ↔ Agrees found.now expected (string_bytes self.old.case.listing) }
        ensures wrong { elim result [ true ↦ self.new.whole.wrong ≡ self.old.whole.wrong | false ↦ self.new.whole.wrong ≡ min (self.old.whole.wrong + 1) 4294967295 ] }
    {
        let right = agrees(found, expected, self.case.listing.as_str());
        self.group.count(expected, right);
        self.whole.count(expected, right);
        right
    }

    fn end_case(&mut self, rt: &HostRuntime, expected: Answer) -> io::Result<()> {
        let asked = Expected {
            answer: expected,
            listed: !self.case.listing.is_empty(),
        };
        let found = self.trial.found(rt.alloc(), &self.case.text, asked)?;
        if !self.judge(&found, expected) {
            self.print_wrong(rt, &found)?;
        }
        self.case.clear();
        Ok(())
    }

    fn print_wrong(&self, rt: &HostRuntime, found: &Found) -> io::Result<()> {
        let line = self.line;
        if let Some(complaint) = found.complaint {
            println!(rt; "line {line}: wrong, {complaint}")?;
        }
        let listing = found.listing.as_str();
        match found.answer {
            Ok(count) => println!(rt; "line {line}: wrong, found accepted {count}\n{listing}"),
            Err(refused) => {
                let number = refused.number;
                let place = refused.place;
                println!(rt; "line {line}: wrong, found refused {number} {place}")?;
                if listing.is_empty() {
                    return Ok(());
                }
                println!(rt; "{listing}")
            }
        }
    }

    // The end of the file.
    fn finish(&mut self, rt: &HostRuntime) -> io::Result<()> {
        self.end_group(rt)?;
        if !self.case.text.is_empty() {
            self.refuse_line(rt, "a case without an end")?;
        }
        let whole = self.whole;
        println!(rt; "all: {whole}")
    }
}

// Tries each case of `cases.txt`. The lines of a listing begin with the word `listed`.
pub fn run_cases<T: Trial + Drop>(rt: &HostRuntime, listed: &str, trial: T) -> io::Result<()> {
    let file = fs::read_to_string(rt, "cases.txt")?;
    let mut run = Run::new(rt.alloc(), listed, trial);
    for line in file.as_str().lines() {
        run.take(rt, line)?;
    }
    run.finish(rt)
}
