// How many vectors of a file agree, and the first line that does not.
ghost use Rattle.std.specs.Prelude.{◌≡◌, ◌+◌, ◌^◌, ◌<◌, ◌≤◌, is_some, if◌then◌else◌, nat_lt};
ghost use Rattle.vectors.specs.First.{first_fault};

use thiserror::Error;

// Why a line does not count as one that agrees.
#[derive(Clone, Copy, Debug, Error)]
pub(crate) enum Problem {
    #[error("disagrees")]
    Disagrees,
    #[error("cannot be read")]
    Unreadable,
}

// A line, counted from 1, and what is wrong with it.
#[derive(Clone, Copy, Debug, Error)]
#[error("line {line} {problem}")]
pub(crate) struct Fault {
    line: usize,
    problem: Problem,
}

// There is a fault just where not all agree.
#[derive(Drop)]
pub(crate) struct Tally {
    pub(crate) total: usize,
    pub(crate) agree: usize,
    pub(crate) fault: Option<Fault>,
    ghost told: { is_some fault ≡ nat_lt agree total },
    ghost within: { agree ≤ total },
}

impl Tally {
    // Nothing counted yet; by the facts above none agree, and there is no fault.
    pub(crate) fn new() -> Tally
        ensures { result.total ≡ 0 }
    {
        Tally {
            total: 0,
            agree: 0,
            fault: None,
        }
    }

    // Counts one more vector, which stands on `line`.
    pub(crate) fn add(&mut self, line: usize, problem: Option<Problem>)
        requires { self.old.total + 1 < 2 ^ 64 }
        ensures total { self.new.total ≡ self.old.total + 1 }
        ensures agree { self.new.agree ≡ self.old.agree + (if is_some problem then 0 else 1) }
        ensures fault { self.new.fault ≡ first_fault self.old.fault line problem }
    {
        self.total += 1;
        match problem {
            None => self.agree += 1,
            Some(problem) => {
                if self.fault.is_none() {
                    self.fault = Some(Fault { line, problem });
                }
            }
        }
    }
}
