// A script that is read piece by piece: each whole line goes to what runs it.
ghost use Rattle.std.specs.Prelude.{◌≡◌, ◌≤◌, IfErr};
ghost use Rattle.script_line.specs.Reads.{blank};
ghost use Rattle.script_line.specs.Scripts.{fed_byte, fed};

use super::{Line, Reading};
use std::io::Read;

// What runs the lines of a script.
pub trait Runner {
    // A line of the form of an item.
    fn item(&mut self, name: u64, numbers: &[u32]);

    // A line that is no item, nor a comment.
    fn unknown(&mut self);
}

// The input has not ended after so many turns.
#[derive(Clone, Copy, Debug, PartialEq, Eq)]
pub struct StillOpen {
    pub turns: u64,
}

// The line that is being read, and its numbers: N at most.
#[derive(Drop)]
pub struct Script<const N: usize> {
    pub line: Line,
    pub numbers: [u32; N],
    pub ghost within: { line.count ≤ N },
}

impl<const N: usize> Script<N> {
    fn end<R: Runner>(&mut self, runner: &mut R)
        ensures { self.new.line ≡ blank }
    {
        let whole = super::finish(self.line, &mut self.numbers);
        self.line = Line::new();
        match whole.reading {
            Reading::Name => runner.item(whole.name, &self.numbers[..whole.count]),
            Reading::Comment => (),
            _ => runner.unknown(),
        }
    }

    fn byte<R: Runner>(&mut self, b: u8, runner: &mut R)
        ensures { self.new.line ≡ fed_byte N self.old.line b }
    {
        if b == b'\n' {
            self.end(runner);
        } else {
            self.line = super::step(self.line, b, &mut self.numbers);
        }
    }

    // The next piece, of any length.
    pub fn feed<R: Runner>(&mut self, bytes: &[u8], runner: &mut R)
        ensures { self.new.line ≡ fed N self.old.line bytes.now }
    {
        for b in bytes {
            self.byte(*b, runner);
        }
    }

    // The end of the input: a last line without a newline is run.
    pub fn finish<R: Runner>(&mut self, runner: &mut R)
        ensures { self.new.line ≡ blank }
    {
        if self.line != Line::new() {
            self.end(runner);
        }
    }

    // Runs what has arrived, if the input has not ended.
    fn turn<I: Read, R: Runner>(&mut self, input: &mut I, runner: &mut R) -> Option<()> {
        let mut buffer = [0u8; 65536];
        // An input that cannot be read has ended.
        let n = input.read(&mut buffer).ok()?;
        if n == 0 {
            return None;
        }
        self.feed(&buffer[..n], runner);
        Some(())
    }

    // A proved loop has to end, and nothing says that the input does: the turns count up to a number that no run reaches.
    pub fn run<I: Read, R: Runner>(
        &mut self,
        input: &mut I,
        runner: &mut R,
    ) -> Result<(), StillOpen>
        ensures { IfErr result (λ e. e.turns ≡ 18446744073709551615) }
    {
        let mut turns = 0;
        // No `for` over `0..u64::MAX`: the error tells the count.
        while turns < u64::MAX {
            if self.turn(input, runner).is_none() {
                self.finish(runner);
                return Ok(());
            }
            turns += 1;
        }
        Err(StillOpen { turns })
    }
}
