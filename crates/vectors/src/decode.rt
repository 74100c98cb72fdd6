// Numbers and lists as the stored cases have them. Past the end of a block all is 0.
ghost use Rattle.std.specs.Prelude.{◌≤◌, length};

use argo::Answer;

// Numbers of one byte are below this; a larger byte says how many more there are, from 1 to 8.
const LONG: u8 = 248;

// What is left of a block.
#[derive(Drop)]
pub struct Block<'a> {
    pub left: &'a [u8],
}

impl<'a> Block<'a> {
    // So many bytes, at most to the end.
    fn take(&mut self, count: u64) -> &'a [u8]
        ensures { length result.now ≤ count }
    {
        let size = count.min(self.left.len() as u64) as usize;
        let (front, left) = self.left.split_at(size);
        self.left = left;
        front
    }

    pub fn byte(&mut self) -> u8 {
        self.take(1).first().copied().unwrap_or(0)
    }

    pub fn number(&mut self) -> u64 {
        let first = self.byte();
        if first < LONG {
            return u64::from(first);
        }
        let bytes = self.take(u64::from(first - LONG + 1));
        let mut word = [0; 8];
        word[..bytes.len()].copy_from_slice(bytes);
        u64::from_le_bytes(word)
    }

    // The two numbers of an answer.
    pub fn answer(&mut self) -> Answer {
        Answer {
            number: self.number(),
            second: self.number(),
        }
    }

    // Puts runs of bytes into `into`, as far as there is room. Not one function with `words`: a run of bytes is stepped over
    // whole, numbers are read one by one, and only as far as there is room.
    pub fn bytes<'b>(&mut self, into: &'b mut [u8]) -> &'b [u8] {
        let mut size = 0;
        for _ in 0..self.number() {
            let times = self.number();
            let count = self.number();
            let run = self.take(count);
            for _ in 0..times {
                // Nothing to put, or no room: the other times put nothing either.
                let n = run.len().min(into.len() - size);
                if n == 0 {
                    break;
                }
                into[size..size + n].copy_from_slice(&run[..n]);
                size += n;
            }
        }
        &into[..size]
    }

    // The same with runs of numbers.
    pub fn words<'b>(&mut self, into: &'b mut [u64]) -> &'b [u64] {
        let mut size = 0;
        for _ in 0..self.number() {
            let times = self.number();
            let count = self.number();
            let run = self.left;
            for _ in 0..times {
                self.left = run;
                if count == 0 || into.len() <= size {
                    break;
                }
                for _ in 0..count {
                    if into.len() <= size {
                        break;
                    }
                    into[size] = self.number();
                    size += 1;
                }
            }
        }
        &into[..size]
    }
}
