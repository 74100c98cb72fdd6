// The stored cases: each calls the library, and tells whether it answers as it is stored.
use super::buffers::{Buffers, hold, lent, soil};
use super::decode::Block;
use argo::Answer;

pub fn table_case(block: &mut Block, buffers: &mut Buffers) -> bool {
    let words = block.number();
    let table = block.bytes(&mut buffers.table);
    let wanted = block.answer();
    let work = &mut buffers.work[..];
    let k = soil(work, words);
    let answer = argo::argo_check(table, &mut work[..k]);
    answer == wanted && hold(work, &[], k)
}

pub fn read_case(block: &mut Block, buffers: &mut Buffers) -> bool {
    let words = block.number();
    let row_words = block.number();
    let table = block.bytes(&mut buffers.table);
    let message = block.bytes(&mut buffers.bytes);
    let wanted = block.answer();
    let wanted_rows = block.words(&mut buffers.wanted);
    let rows = &mut buffers.rows[..];
    let n = soil(rows, row_words);
    let work = &mut buffers.work[..];
    let k = soil(work, words);
    let answer = argo::argo_read(table, message, &mut rows[..n], &mut work[..k]);
    answer == wanted && hold(rows, wanted_rows, n) && hold(work, &[], k)
}

// The stored message takes the pool's place.
pub fn write_case(block: &mut Block, buffers: &mut Buffers) -> bool {
    let words = block.number();
    let room = block.number();
    let modes = block.number();
    let table = block.bytes(&mut buffers.table);
    let rows = block.words(&mut buffers.rows);
    let pool = block.bytes(&mut buffers.bytes);
    let wanted = block.answer();
    let out = &mut buffers.out[..];
    let n = soil(out, room);
    let work = &mut buffers.work[..];
    let k = soil(work, words);
    let answer = argo::argo_write(table, modes, rows, pool, &mut out[..n], &mut work[..k]);
    let message = block.bytes(&mut buffers.bytes);
    answer == wanted && hold(out, message, n) && hold(work, &[], k)
}

// So many bytes are lent; looking reads none of them.
pub fn look_case(block: &mut Block, buffers: &mut Buffers) -> bool {
    let count = block.number();
    let index = block.number();
    let rows = block.words(&mut buffers.rows);
    let wanted = block.answer();
    let wanted_row = [
        block.number(),
        block.number(),
        block.number(),
        block.number(),
    ];
    let k = lent(buffers.bytes.len(), count);
    let seen = argo::argo_look(rows, &buffers.bytes[..k], index as usize);
    let answer = Answer {
        number: seen.number,
        second: seen.second,
    };
    answer == wanted && [seen.kind, seen.a, seen.b, seen.node] == wanted_row
}

// The part itself, and where it stands. The stored part takes the place of a table, which this case has not.
pub fn part_case(block: &mut Block, buffers: &mut Buffers) -> bool {
    let index = block.number() as usize;
    let rows = block.words(&mut buffers.rows);
    let bytes = block.bytes(&mut buffers.bytes);
    let wanted = block.bytes(&mut buffers.table);
    let place = argo::argo_part(rows, bytes, index);
    let start = place.start as usize;
    let end = start + place.len as usize;
    rows::part(rows, bytes, index) == wanted && &bytes[start..end] == wanted
}
