// Runs stored cases through the library, and prints how many there are and how many differ. Standard input has them in
// blocks of one size, with zeros after the last of each; model/src/store.rs writes them and says how.
#![tactic(auto)]

mod buffers;
mod cases;
mod decode;

use buffers::Buffers;
use decode::Block;
use std::io::Read;
use std::{fmt, io};

const BLOCK: usize = 65536;

// How many cases there were, and how many of them differ.
#[derive(Drop)]
struct Tally {
    ran: u64,
    differ: u64,
}

impl fmt::Display for Tally {
    fn fmt<W: fmt::Write>(&self, f: &mut fmt::Formatter<W>) -> fmt::Result {
        write!(f, "{} cases, {} differ", self.ran, self.differ)
    }
}

impl Tally {
    // One more case; one that differs is named by its number. No input has so many that a number would stay.
    fn count(&mut self, rt: &impl Print, same: bool) -> io::Result<()> {
        self.ran = self.ran.saturating_add(1);
        if same {
            return Ok(());
        }
        self.differ = self.differ.saturating_add(1);
        println!(rt; "differs: case {}", self.ran)
    }
}

// The case after its letter.
fn case(letter: u8, block: &mut Block, buffers: &mut Buffers) -> bool {
    match letter {
        b'T' => cases::table_case(block, buffers),
        b'R' => cases::read_case(block, buffers),
        b'W' => cases::write_case(block, buffers),
        b'L' => cases::look_case(block, buffers),
        _ => cases::part_case(block, buffers),
    }
}

// The cases of a block: each has one byte at least.
fn run(rt: &impl Print, stored: &[u8], tally: &mut Tally, buffers: &mut Buffers) -> io::Result<()> {
    let mut block = Block { left: stored };
    for _ in 0..stored.len() {
        let letter = block.byte();
        if letter == 0 {
            break;
        }
        let same = case(letter, &mut block, buffers);
        tally.count(rt, same)?;
    }
    Ok(())
}

fn main(rt: HostRuntime) -> io::Result<()> {
    let mut input = rt.stdin();
    let mut tally = Tally { ran: 0, differ: 0 };
    let mut buffers = Buffers {
        table: [0; 73728],
        bytes: [0; 73728],
        out: [0; 73728],
        rows: [0; 33000],
        wanted: [0; 33000],
        work: [0; 21504],
    };
    for _ in 0..1000 {
        let mut stored = Vec::new(rt.alloc());
        let size = input.by_ref().take(BLOCK as u64).read_to_end(&mut stored)?;
        run(&rt, &stored, &mut tally, &mut buffers)?;
        if size != BLOCK {
            break;
        }
    }
    println!(rt; "{tally}")
}
