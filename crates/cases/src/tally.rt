// The lines that the program writes: one for each case, then a count.
use std::fmt;
use std::io::Stdout;

#[derive(Clone, Copy)]
pub(crate) struct Tally {
    out: Stdout,
    cases: u64,
    differ: u64,
}

impl Tally {
    pub(crate) fn none(out: Stdout) -> Tally {
        Tally {
            out,
            cases: 0,
            differ: 0,
        }
    }

    // A case, and whether all of it came out as document 01 says. A line that cannot be written is let go.
    pub(crate) fn case<N: fmt::Display + Drop>(self, name: N, same: bool) -> Tally {
        let verdict = if same { "ok" } else { "DIFFERS" };
        let _ = println!(self.out; "{verdict} {name}");
        Tally {
            out: self.out,
            cases: self.cases.saturating_add(1),
            differ: self.differ.saturating_add(u64::from(!same)),
        }
    }

    pub(crate) fn told(self) {
        let _ = println!(self.out; "{} of {} cases differ", self.differ, self.cases);
    }
}
