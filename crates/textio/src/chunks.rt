// Reads and writes.
ghost use Rattle.std.specs.Prelude.{◌≤◌, ◌≡◌, ◌≢◌, ◌+◌, ◌⊎◌, true, false, Ok, Err, Some, None, length, take, IfOk, IfErr, IfSome, OnOk};
ghost use Rattle.std.specs.IoError.{error_kind};
ghost use Rattle.std.specs.Io.KnownBytes.{Appends, Consumes, IsAtEnd};
ghost use Rattle.textio.specs.Io.{start_io, due_in, moved_to, fetched, chunk_of, IsLast, IsOver, Begins, Reads, Fetches};

use crate::{Failure, Io};
use std::io::{Error, ErrorKind, Read, Write};

pub fn start() -> Io
    ensures { result ≡ start_io }
{
    Io {
        from: 0,
        to: 0,
        waits: false,
        inside: false,
        ended: false,
    }
}

// Whether a call is due before more is read.
fn is_due(at: Io, size: usize) -> bool
    ensures { result ≡ due_in at size }
{
    (at.waits | (at.from < at.to)) & ((at.from <= at.to) & (at.to <= size))
}

// What is left of the chunk, or the next one: it stands in `input` between `from` and `to`. There is none
// once the input has ended, and its last line has its newline.
pub fn fetch<R: Read>(reader: &mut R, input: &mut [u8], at: Io) -> Result<Option<Io>, Failure>
    ensures fetches { Fetches result input.new at input.old }
    ensures from_le_to { IfOk result (λ some. IfSome some (λ r. (r.from ≤ r.to) × (r.to ≤ length input.old))) }
    ensures taken { Consumes (R.remaining reader.old) (R.remaining reader.new)
        (fetched (due_in at (length input.old)) result input.new) }
    ensures at_end { due_in at (length input.old) ≡ false → IsLast result (R.remaining reader.new) }
    ensures over { result ≡ Ok None → IsOver at (R.remaining reader.new) }
{
    if is_due(at, input.len()) {
        return Ok(Some(at));
    }
    if at.ended {
        return Ok(None);
    }
    read(reader, input, at)
}

// The next chunk, from the start of the buffer.
fn read<R: Read>(reader: &mut R, input: &mut [u8], at: Io) -> Result<Option<Io>, Failure>
    ensures reads { Reads result input.new at }
    ensures from_bound { IfOk result (λ some. IfSome some (λ r. (r.from ≤ 0) × (r.to ≤ length input.old))) }
    ensures taken { Consumes (R.remaining reader.old) (R.remaining reader.new) (chunk_of result input.new) }
    ensures at_end { IsLast result (R.remaining reader.new) }
    ensures over { result ≡ Ok None → (at.inside ≡ false) × IsAtEnd (R.remaining reader.new) }
{
    let n = reader.read(input).map_err(Failure::Input)?;
    // Of a buffer without a byte a read tells nothing.
    if input.is_empty() {
        return Err(Failure::Unfit);
    }
    if n == 0 {
        return Ok(last(input, at));
    }
    Ok(Some(Io {
        from: 0,
        to: n,
        inside: input[n - 1] != b'\n',
        ended: false,
        ..at
    }))
}

// The input has ended: a line with no newline gets one.
fn last(input: &mut [u8], at: Io) -> Option<Io>
    ensures reads { Reads {E = Unit {0}} (Ok result) input.new at }
    ensures over { result ≡ None → (length input.old ≡ 0) ⊎ (at.inside ≡ false) }
    ensures ended { IfSome result (λ r. r.ended ≡ true) }
    ensures from_bound { IfSome result (λ r. (r.from ≤ 0) × (r.to ≤ length input.old)) }
{
    if !at.inside || input.is_empty() {
        return None;
    }
    input[0] = b'\n';
    Some(Io {
        from: 0,
        to: 1,
        inside: false,
        ended: true,
        ..at
    })
}

// Writes the first n bytes of a page, the text of a call that took so many bytes of the chunk and left
// a line that waits, or none. Where that fails nothing follows, as it would stand after a gap. A call
// that has moved nothing has found no room on an empty page, and would find none again.
pub fn store<W: Write>(
    writer: &mut W,
    page: &[u8],
    n: usize,
    taken: usize,
    waits: bool,
    at: Io,
) -> Result<Io, Failure>
    ensures stores { IfOk result (λ r. r ≡ moved_to at (at.from + taken) waits) }
    ensures written { OnOk result (Appends (W.contents writer.old) (W.contents writer.new) (take n page.now)) }
    ensures begun { Begins (W.contents writer.old) (W.contents writer.new) (take n page.now) }
    ensures retried { (e : Error) → result ≡ Err (Failure.Output e) → error_kind e ≢ ErrorKind.Interrupted }
{
    if page.len() < n || at.to < at.from || at.to - at.from < taken {
        return Err(Failure::Unfit);
    }
    if n == 0 && taken == 0 && (waits || at.from < at.to) {
        return Err(Failure::NoRoom);
    }
    put(writer, &page[..n]).map_err(Failure::Output)?;
    Ok(Io {
        from: at.from + taken,
        waits,
        ..at
    })
}

// Writes all of a text, or stops at the first write that takes nothing or fails, when some of it may have
// been written. A write that a signal interrupts has taken nothing, and is tried again.
fn put<W: Write>(output: &mut W, text: &[u8]) -> Result<(), Error>
    ensures begun { Begins (W.contents output.old) (W.contents output.new) text.now }
    ensures whole { OnOk result (Appends (W.contents output.old) (W.contents output.new) text.now) }
    ensures retried { IfErr result (λ e. error_kind e ≢ ErrorKind.Interrupted) }
{
    let mut done = 0;
    for _ in 0..u64::MAX {
        if done == text.len() {
            return Ok(());
        }
        match output.write(&text[done..]) {
            Ok(0) => return Err(Error::new(ErrorKind::WriteZero, "failed to write whole buffer")),
            Ok(n) => done += n,
            Err(error) if error.kind() == ErrorKind::Interrupted => {}
            Err(error) => return Err(error),
        }
    }
    Err(Error::new(
        ErrorKind::TimedOut,
        "gave up reading or writing after 2^64 tries",
    ))
}
