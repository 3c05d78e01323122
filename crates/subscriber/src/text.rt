// The lines of a text, and the words of a line.
ghost use Rattle.std.specs.Prelude.{◌≡◌, ◌^◌, ◌<◌, [], ◌∷◌, length, MatchOption};
ghost use Rattle.std.specs.Iterator.{YieldsFirstRef, item_count};
ghost use Rattle.subscriber.specs.Text.{blank, lines, words};

// The lines that are left of a text, each without its newline.
#[derive(Drop)]
pub(crate) struct Lines<'a> {
    pub(crate) text: &'a [u8],
    // So that a count of them fits.
    ghost few: { length (lines text.now) < 2 ^ 63 },
}

// The first line, and what follows its newline.
fn cut_line(text: &[u8]) -> (&[u8], &[u8])
    requires { 0 < length text.now }
    ensures { lines text.now ≡ result.0.now ∷ lines result.1.now }
{
    match text.iter().position(|b| *b == b'\n') {
        Some(end) => (&text[..end], &text[end + 1..]),
        None => (text, &[]),
    }
}

impl<'a> Iterator for Lines<'a> {
    type Item = &'a [u8];

    ghost next_gives = { YieldsFirstRef (λ left. lines left.text.now) };

    ghost remaining = { item_count (λ left. lines left.text.now) };

    fn next(&mut self) -> Option<&'a [u8]> {
        if self.text.is_empty() {
            return None;
        }
        let (line, rest) = cut_line(self.text);
        self.text = rest;
        Some(line)
    }
}

// A space, a tab or a carriage return.
fn is_blank(b: u8) -> bool
    ensures { result ≡ blank b }
{
    matches!(b, b' ' | b'\t' | b'\r')
}

// The first word of a line, and what follows it. Not inlined, since its loops are slower within a caller that has more to keep at hand.
#[inline(never)]
fn first_word(line: &[u8]) -> Option<(&[u8], &[u8])>
    ensures { MatchOption result (words line.now ≡ []) (λ cut. words line.now ≡ cut.0.now ∷ words cut.1.now) }
{
    let start = line.iter().position(|b| !is_blank(*b))?;
    let line = &line[start..];
    let end = line.iter().take_while(|b| !is_blank(**b)).count();
    Some(line.split_at(end))
}

// The words of a line, which blanks part.
#[derive(Drop)]
pub(crate) struct Words<'a> {
    pub(crate) text: &'a [u8],
}

impl<'a> Iterator for Words<'a> {
    type Item = &'a [u8];

    ghost next_gives = { YieldsFirstRef (λ s. words s.text.now) };

    ghost remaining = { item_count (λ s. words s.text.now) };

    fn next(&mut self) -> Option<&'a [u8]> {
        if self.text.is_empty() {
            return None;
        }
        let Some((word, rest)) = first_word(self.text) else {
            // So that a further call does not go over these blanks again.
            self.text = &[];
            return None;
        };
        self.text = rest;
        Some(word)
    }
}
