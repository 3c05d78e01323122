// What a pile is told to do, one command a line.

#[derive(Clone, Copy)]
pub(crate) enum Command {
    // Fills a block with one byte.
    Write { number: usize, byte: u8 },
    Read { way: usize, number: usize },
    Settle,
}

impl Command {
    // The command that a line is, if it is one.
    pub(crate) fn of_line(line: &str) -> Option<Command> {
        let mut words = line.split_whitespace();
        let command = match words.next()? {
            "write" => Command::Write {
                number: words.next()?.parse().ok()?,
                byte: words.next()?.parse().ok()?,
            },
            "read" => Command::Read {
                way: words.next()?.parse().ok()?,
                number: words.next()?.parse().ok()?,
            },
            "settle" => Command::Settle,
            _ => return None,
        };
        match words.next() {
            Some(_) => None,
            None => Some(command),
        }
    }
}
