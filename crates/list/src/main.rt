// Reads a table and then a message on standard input, and prints the rows of the message, or the refusal.
#![tactic(auto)]

ghost use Rattle.std.specs.Prelude.{◌≤◌, length};

use format::{MOST_ROWS, ROW_WIDTH, Refusal, WORK_WORDS};
use rows::Seen;
use std::io::{BufWriter, Read, Write};
use std::{fmt, io};

// The longest table and message, and one byte more, so that a message that is too long shows as one.
const MOST_INPUT: u64 = 69640;

// What looking at a row answers, as a line shows it.
#[derive(Clone, Copy)]
struct Shown(Result<Seen, Refusal>);

impl fmt::Display for Shown {
    fn fmt<W: fmt::Write>(&self, f: &mut fmt::Formatter<W>) -> fmt::Result {
        match self.0 {
            Ok(Seen::Null) => write!(f, "null"),
            Ok(Seen::Absent) => write!(f, "absent"),
            Ok(Seen::Truth(truth)) => write!(f, "{truth}"),
            Ok(Seen::Integer(n)) => write!(f, "int {n}"),
            Ok(Seen::Float(_, bits)) => write!(f, "float {bits:016x}"),
            Ok(Seen::String(place)) => write!(f, "string {} {}", place.start, place.size),
            Ok(Seen::Bytes(place)) => write!(f, "bytes {} {}", place.start, place.size),
            Ok(Seen::Fixed(place)) => write!(f, "fixed {} {}", place.start, place.size),
            Ok(Seen::Record(fields)) => write!(f, "record {fields}"),
            Ok(Seen::Array(entries)) => write!(f, "array {entries}"),
            Err(refusal) => write!(f, "{}", refusal.number()),
        }
    }
}

// How long the table is by its own node count; if there is less, all is table.
fn table_size(input: &[u8]) -> usize
    ensures { result ≤ length input.now }
{
    let [_, _, _, _, _, low, high, ..] = input else {
        return input.len();
    };
    let nodes = u16::from_le_bytes([*low, *high]);
    input.len().min(7 + 4 * usize::from(nodes))
}

fn read<W: Write>(out: &mut W, table: &[u8], message: &[u8]) -> io::Result<()> {
    let mut rows = [0u64; ROW_WIDTH * MOST_ROWS];
    let mut work = [0u32; WORK_WORDS];
    match reader::read(table, message, &mut rows, &mut work) {
        Ok(count) => {
            writeln!(out, "rows {count}")?;
            for i in 0..count {
                writeln!(out, "{i} {}", Shown(rows::look(&rows, message, i)))?;
            }
            Ok(())
        }
        Err(refusal) => writeln!(out, "refused {} {}", refusal.number(), refusal.second()),
    }
}

fn main(rt: HostRuntime) -> io::Result<()> {
    let mut input = Vec::new(rt.alloc());
    rt.stdin().take(MOST_INPUT).read_to_end(&mut input)?;
    let (table, message) = input.split_at(table_size(&input));
    let mut out = BufWriter::new(rt.alloc(), rt.stdout())?;
    read(&mut out, table, message)?;
    out.flush()
}
