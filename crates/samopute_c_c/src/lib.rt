// The boundary to C and Rust as a static library: each call of `samopute_c` under its own name, for include/samopute.h.
//
// Promise: each export answers and leaves what the call of `samopute_c` does, by the same clauses. It has no `requires`: a
// slice is a pointer and a length, and `answer` a pointer to as many numbers as its type says.
#![tactic(auto)]

ghost use Rattle.std.specs.Prelude.{◌≡◌, length};
ghost use Rattle.bits.specs.Calls.{cursor_at, remaining_of, read_u64_of, read_u32_of, read_u16_of, read_u8_of, advance_of, read_slice_of};
ghost use Rattle.offers.specs.Records.{offer_of_lem};
ghost use Rattle.tables.specs.Table.{table_of};
ghost use Rattle.tables.specs.Check.{check_of};
ghost use Rattle.samopute_c.specs.Answers.{Laid, of_read, of_slice, of_moved};
ghost use Rattle.samopute_c.specs.Checks.{check_status, check_cells};
ghost use Rattle.samopute_c.specs.Clauses.{Writes, WritesSlice, GivesRaw, Decodes, DecodesPgn, Encodes, EncodesPgn};
ghost use Rattle.samopute_c.specs.Decodes.{version_of};
ghost use Rattle.samopute_c.specs.Values.{field_of, scale_status, scale_cells};

#[unsafe(no_mangle)]
pub extern "C" fn samopute_bits_remaining(buffer: &[u8], cursor: usize) -> usize
    ensures { result ≡ (remaining_of (length buffer.now) (cursor_at cursor)).0 }
{
    samopute_c::samopute_bits_remaining(buffer, cursor)
}

#[unsafe(no_mangle)]
pub extern "C" fn samopute_read_u64(
    buffer: &[u8],
    cursor: usize,
    width: u32,
    answer: &mut [u64; 3],
) -> u32
    ensures { Laid result answer.new cursor (of_read (read_u64_of buffer.now (cursor_at cursor) width)) }
{
    samopute_c::samopute_read_u64(buffer, cursor, width, answer)
}

#[unsafe(no_mangle)]
pub extern "C" fn samopute_read_u32(
    buffer: &[u8],
    cursor: usize,
    width: u32,
    answer: &mut [u64; 3],
) -> u32
    ensures { Laid result answer.new cursor (of_read (read_u32_of buffer.now (cursor_at cursor) width)) }
{
    samopute_c::samopute_read_u32(buffer, cursor, width, answer)
}

#[unsafe(no_mangle)]
pub extern "C" fn samopute_read_u16(
    buffer: &[u8],
    cursor: usize,
    width: u32,
    answer: &mut [u64; 3],
) -> u32
    ensures { Laid result answer.new cursor (of_read (read_u16_of buffer.now (cursor_at cursor) width)) }
{
    samopute_c::samopute_read_u16(buffer, cursor, width, answer)
}

#[unsafe(no_mangle)]
pub extern "C" fn samopute_read_u8(
    buffer: &[u8],
    cursor: usize,
    width: u32,
    answer: &mut [u64; 3],
) -> u32
    ensures { Laid result answer.new cursor (of_read (read_u8_of buffer.now (cursor_at cursor) width)) }
{
    samopute_c::samopute_read_u8(buffer, cursor, width, answer)
}

#[unsafe(no_mangle)]
pub extern "C" fn samopute_advance(
    buffer: &[u8],
    cursor: usize,
    width: u32,
    answer: &mut [u64; 3],
) -> u32
    ensures { Laid result answer.new cursor (of_moved (advance_of (length buffer.now) (cursor_at cursor) width 64)) }
{
    samopute_c::samopute_advance(buffer, cursor, width, answer)
}

#[unsafe(no_mangle)]
pub extern "C" fn samopute_read_slice(
    buffer: &[u8],
    cursor: usize,
    count: usize,
    answer: &mut [u64; 3],
) -> u32
    ensures { Laid result answer.new cursor (of_slice (read_slice_of (length buffer.now) (cursor_at cursor) count)) }
{
    samopute_c::samopute_read_slice(buffer, cursor, count, answer)
}

#[unsafe(no_mangle)]
pub extern "C" fn samopute_write_u64(
    buffer: &mut [u8],
    cursor: usize,
    value: u64,
    width: u32,
    answer: &mut [u64; 3],
) -> u32
    ensures { Writes result buffer.new answer.new 64 buffer.old cursor value width }
{
    samopute_c::samopute_write_u64(buffer, cursor, value, width, answer)
}

#[unsafe(no_mangle)]
pub extern "C" fn samopute_write_u32(
    buffer: &mut [u8],
    cursor: usize,
    value: u32,
    width: u32,
    answer: &mut [u64; 3],
) -> u32
    ensures { Writes result buffer.new answer.new 32 buffer.old cursor value width }
{
    samopute_c::samopute_write_u32(buffer, cursor, value, width, answer)
}

#[unsafe(no_mangle)]
pub extern "C" fn samopute_write_u16(
    buffer: &mut [u8],
    cursor: usize,
    value: u16,
    width: u32,
    answer: &mut [u64; 3],
) -> u32
    ensures { Writes result buffer.new answer.new 16 buffer.old cursor value width }
{
    samopute_c::samopute_write_u16(buffer, cursor, value, width, answer)
}

#[unsafe(no_mangle)]
pub extern "C" fn samopute_write_u8(
    buffer: &mut [u8],
    cursor: usize,
    value: u8,
    width: u32,
    answer: &mut [u64; 3],
) -> u32
    ensures { Writes result buffer.new answer.new 8 buffer.old cursor value width }
{
    samopute_c::samopute_write_u8(buffer, cursor, value, width, answer)
}

#[unsafe(no_mangle)]
pub extern "C" fn samopute_write_advance(
    buffer: &mut [u8],
    cursor: usize,
    width: u32,
    answer: &mut [u64; 3],
) -> u32
    ensures { Laid result answer.new cursor (of_moved (advance_of (length buffer.old) (cursor_at cursor) width 64)) × (buffer.new ≡ buffer.old) }
{
    samopute_c::samopute_write_advance(buffer, cursor, width, answer)
}

#[unsafe(no_mangle)]
pub extern "C" fn samopute_write_slice(
    buffer: &mut [u8],
    cursor: usize,
    source: &[u8],
    answer: &mut [u64; 3],
) -> u32
    ensures { WritesSlice result buffer.new answer.new buffer.old cursor source.now }
{
    samopute_c::samopute_write_slice(buffer, cursor, source, answer)
}

#[unsafe(no_mangle)]
pub extern "C" fn samopute_scale(
    kind: u32,
    width: u32,
    is_signed: u32,
    mark: u32,
    resolution: u32,
    raw: u64,
    answer: &mut [u64; 4],
) -> u32
    ensures { (result ≡ scale_status (field_of kind width is_signed mark resolution)) × (answer.new ≡ scale_cells (field_of kind width is_signed mark resolution) raw) }
{
    samopute_c::samopute_scale(kind, width, is_signed, mark, resolution, raw, answer)
}

#[unsafe(no_mangle)]
pub extern "C" fn samopute_raw_of(
    kind: u32,
    width: u32,
    is_signed: u32,
    mark: u32,
    resolution: u32,
    value_kind: u32,
    value: u64,
    answer: &mut [u64; 3],
) -> u32
    ensures { GivesRaw result answer.new (field_of kind width is_signed mark resolution) (offer_of_lem value_kind value) }
{
    samopute_c::samopute_raw_of(
        kind, width, is_signed, mark, resolution, value_kind, value, answer,
    )
}

#[unsafe(no_mangle)]
pub extern "C" fn samopute_check(words: &[u64], answer: &mut [u64; 3]) -> u32
    ensures { (result ≡ check_status (check_of (table_of words.now))) × (answer.new ≡ check_cells (check_of (table_of words.now))) }
{
    samopute_c::samopute_check(words, answer)
}

#[unsafe(no_mangle)]
pub extern "C" fn samopute_decode(
    words: &[u64],
    payload: &[u8],
    padding: &mut [u8],
    readings: &mut [u8],
    answer: &mut [u64; 6],
) -> u32
    ensures { Decodes result padding.new readings.new answer.new words.now payload.now padding.old readings.old }
{
    samopute_c::samopute_decode(words, payload, padding, readings, answer)
}

#[unsafe(no_mangle)]
pub extern "C" fn samopute_decode_pgn(
    pgn: u32,
    payload: &[u8],
    padding: &mut [u8],
    readings: &mut [u8],
    answer: &mut [u64; 6],
) -> u32
    ensures { DecodesPgn result padding.new readings.new answer.new pgn payload.now padding.old readings.old }
{
    samopute_c::samopute_decode_pgn(pgn, payload, padding, readings, answer)
}

#[unsafe(no_mangle)]
pub extern "C" fn samopute_version() -> u32
    ensures { result ≡ version_of }
{
    samopute_c::samopute_version()
}

#[unsafe(no_mangle)]
pub extern "C" fn samopute_encode(
    words: &[u64],
    values: &[u8],
    text: &[u8],
    payload: &mut [u8],
    answer: &mut [u64; 4],
) -> u32
    ensures { Encodes result payload.new answer.new words.now values.now text.now payload.old }
{
    samopute_c::samopute_encode(words, values, text, payload, answer)
}

#[unsafe(no_mangle)]
pub extern "C" fn samopute_encode_pgn(
    pgn: u32,
    values: &[u8],
    text: &[u8],
    payload: &mut [u8],
    answer: &mut [u64; 4],
) -> u32
    ensures { EncodesPgn result payload.new answer.new pgn values.now text.now payload.old }
{
    samopute_c::samopute_encode_pgn(pgn, values, text, payload, answer)
}
