// The eight lines of a cache.
ghost use Rattle.std.specs.Prelude.{◌≡◌, ◌<◌, ◌≤◌, ◌-◌, ◌^◌, ℕ, MatchOption, replicate, set, length, Some, None};
ghost use Rattle.device.specs.Lines.{AreDistinct, AreWhole, NoLineOf, IsLineOf, IsSlotFor, held, line, none_held, filled, rewritten};
ghost use Rattle.device.specs.Seen.{IsBetterOf};

// A block that is not yet put back.
#[derive(Clone, Copy)]
pub(crate) struct Line {
    pub number: usize,
    // How often it was written since the line was filled, at most 255.
    pub count: u8,
    pub bytes: [u8; 512],
}

// Where a block goes when it is written: the line that holds it, the lowest empty line, or the line that is written least.
#[derive(Clone, Copy)]
pub(crate) enum Slot {
    Held(usize),
    Empty(usize),
    Least(usize),
}

pub(crate) const LINES: usize = 8;

#[derive(Drop)]
pub(crate) struct Lines {
    lines: [Option<Line>; LINES],
    ghost distinct: { AreDistinct lines },
    ghost whole: { AreWhole lines },
}

// The line that is written least among those seen so far.
#[derive(Clone, Copy)]
struct Seen {
    at: usize,
    count: u8,
    number: usize,
}

impl Lines {
    pub(crate) fn empty() -> Lines
        ensures { result.lines ≡ replicate 8 None }
    {
        Lines {
            lines: [None; LINES],
        }
    }

    // The line that holds a block.
    pub(crate) fn find(&self, number: usize) -> Option<&Line>
        ensures { MatchOption result (held self.now.lines number ≡ None) (λ r. held self.now.lines number ≡ Some r.now.bytes) }
    {
        for line in &self.lines {
            if let Some(line) = line
                && line.number == number
            {
                return Some(line);
            }
        }
        None
    }

    // Where a block goes: one pass looks for all three.
    pub(crate) fn slot_for(&self, number: usize) -> Slot
        ensures { IsSlotFor self.now.lines number result }
    {
        let mut empty: Option<usize> = None;
        // Any line takes the place of this one.
        let mut least = Seen {
            at: 0,
            count: u8::MAX,
            number: usize::MAX,
        };
        for (at, line) in self.lines.iter().enumerate() {
            match line {
                Some(line) if line.number == number => return Slot::Held(at),
                Some(line) => least = least.or(at, line),
                None => empty = empty.or(Some(at)),
            }
        }
        match empty {
            Some(at) => Slot::Empty(at),
            None => Slot::Least(least.at),
        }
    }

    pub(crate) fn get(&self, at: usize) -> Option<&Line>
        ensures { MatchOption result (line self.now.lines at ≡ None) (λ r. line self.now.lines at ≡ Some r.now) }
    {
        self.lines.get(at)?.as_ref()
    }

    // The line's block is written once more.
    pub(crate) fn rewrite(&mut self, at: usize, block: &[u8; 512])
        requires inside { at < length self.old.lines }
        ensures { (a : Line) → line self.old.lines at ≡ Some a → self.new.lines ≡ set self.old.lines at (Some (rewritten a block.now)) }
    {
        if let Some(line) = &mut self.lines[at] {
            line.count = line.count.saturating_add(1);
            line.bytes = *block;
        }
    }

    // A block that no line holds comes into this line.
    pub(crate) fn fill(&mut self, at: usize, number: usize, block: &[u8; 512])
        requires inside { at < length self.old.lines }
        requires held_by_no_line { NoLineOf self.old.lines number }
        ensures { self.new.lines ≡ set self.old.lines at (Some (filled number block.now)) }
    {
        self.lines[at] = Some(Line {
            number,
            count: 1,
            bytes: *block,
        });
    }

    pub(crate) fn empty_line(&mut self, at: usize)
        requires { at < 8 }
        ensures { self.new.lines ≡ set self.old.lines at None }
    {
        self.lines[at] = None;
    }

    #[tactic(auto, using(crate::specs::LinesLaws::none_held_so, crate::specs::LinesLaws::none_held_not))]
    pub(crate) fn none_held(&self) -> bool
        ensures { result ≡ none_held self.now.lines }
    {
        for line in &self.lines {
            if line.is_some() {
                return false;
            }
        }
        true
    }
}

impl Seen {
    // The line instead, if it is written less often, or as often and its number is no higher.
    fn or(self, at: usize, line: &Line) -> Seen
        ensures better { IsBetterOf self at line.now result }
        ensures fits { (line.now.count ≤ 255) × (line.now.number ≤ 2 ^ 64 - 1) }
    {
        let other = Seen {
            at,
            count: line.count,
            number: line.number,
        };
        if other.count < self.count || other.count == self.count && other.number <= self.number {
            other
        } else {
            self
        }
    }
}
