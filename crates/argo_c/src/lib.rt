// The C interface (include/argo.h): the calls of argo, exported under their own names, each with the contract that it has
// there. A slice is a pointer and a length. They stand apart, since a crate is a library or a static library and not both.
#![tactic(auto)]

ghost use Rattle.std.specs.Prelude.{◌≡◌, length};
ghost use Rattle.format.specs.Answer.{number, second, output, zeros};
ghost use Rattle.format.specs.Table.{check};
ghost use Rattle.format.specs.Row.{words as words_of, look};
ghost use Rattle.format.specs.Read.{read};
ghost use Rattle.format.specs.Write.{write};
ghost use Rattle.writer.specs.Demands.{Demands};
ghost use Rattle.argo.specs.Exported.{Shows, Stands};

use argo::{Answer, Place, Seen};

// Checks a table.
#[unsafe(no_mangle)]
pub extern "C" fn argo_check(table: &[u8], work: &mut [u32]) -> Answer
    ensures number_value { result.number ≡ number (check (length work.old) table.now) }
    ensures second_value { result.second ≡ second (λ s. s.count) (check (length work.old) table.now) }
    ensures work_after { work.new ≡ zeros (length work.old) }
{
    argo::argo_check(table, work)
}

// Reads a message into rows.
#[unsafe(no_mangle)]
pub extern "C" fn argo_read(
    table: &[u8],
    message: &[u8],
    rows: &mut [u64],
    work: &mut [u32],
) -> Answer
    ensures number_value { result.number ≡ number (read (length work.old) table.now message.now (length rows.old)) }
    ensures second_value { result.second ≡ second (λ rs. length rs) (read (length work.old) table.now message.now (length rows.old)) }
    ensures rows_after { rows.new ≡ output words_of (length rows.old) (read (length work.old) table.now message.now (length rows.old)) }
    ensures work_after { work.new ≡ zeros (length work.old) }
{
    argo::argo_read(table, message, rows, work)
}

// Writes rows as a message.
#[unsafe(no_mangle)]
pub extern "C" fn argo_write(
    table: &[u8],
    modes: u64,
    rows: &[u64],
    pool: &[u8],
    out: &mut [u8],
    work: &mut [u32],
) -> Answer
    ensures number_value { result.number ≡ number (write (length work.old) table.now modes rows.now pool.now (length out.old)) }
    ensures second_value { result.second ≡ second (λ m. length m) (write (length work.old) table.now modes rows.now pool.now (length out.old)) }
    ensures out_after { out.new ≡ output (λ m. m) (length out.old) (write (length work.old) table.now modes rows.now pool.now (length out.old)) }
    ensures work_after { work.new ≡ zeros (length work.old) }
    ensures demands { Demands (length work.old) table.now modes rows.now pool.now (length out.old) result.number result.second out.new }
{
    argo::argo_write(table, modes, rows, pool, out, work)
}

// Looks at one row, whose place, if it has one, is in bytes.
#[unsafe(no_mangle)]
pub extern "C" fn argo_look(rows: &[u64], bytes: &[u8], index: usize) -> Seen
    ensures { Shows result (look rows.now (length bytes.now) index) }
{
    argo::argo_look(rows, bytes, index)
}

// Where the part of the bytes that a row names stands, whatever its node; the empty one at 0 if it names none.
#[unsafe(no_mangle)]
pub extern "C" fn argo_part(rows: &[u64], bytes: &[u8], index: usize) -> Place
    ensures { Stands rows.now bytes.now index result }
{
    argo::argo_part(rows, bytes, index)
}
