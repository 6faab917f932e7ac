// The calls by their names.
ghost use Rattle.std.specs.Prelude.{◌≡◌, get_or};
ghost use Rattle.columns.specs.Parts.{field};
ghost use Rattle.bitcalls.specs.declared.names.Call.TheVariants.{Unknown};
ghost use Rattle.bitcalls.specs.Names.{calls, call_of, spaces_of_lem, count_max_lem, largest};

use columns::{place_in, word};

// How wide a number call is at the most.
#[derive(Clone, Copy)]
pub(crate) enum Width {
    W64,
    W32,
    W16,
    W8,
}

#[derive(Clone, Copy)]
pub(crate) enum Call {
    Read(Width),
    Advance,
    ReadSlice,
    Write(Width),
    WriteAdvance,
    WriteSlice,
    Remaining,
    Unknown,
}

fn call_at(place: usize) -> Call
    ensures { result ≡ get_or calls place Unknown }
{
    match place {
        0 => Call::Read(Width::W64),
        1 => Call::Read(Width::W32),
        2 => Call::Read(Width::W16),
        3 => Call::Read(Width::W8),
        4 => Call::Write(Width::W64),
        5 => Call::Write(Width::W32),
        6 => Call::Write(Width::W16),
        7 => Call::Write(Width::W8),
        8 => Call::Advance,
        9 => Call::WriteAdvance,
        10 => Call::ReadSlice,
        11 => Call::WriteSlice,
        12 => Call::Remaining,
        _ => Call::Unknown,
    }
}

// The call that a line names, in its first field.
pub(crate) fn call_of(line: &[u8]) -> Call
    ensures { result ≡ call_of (field line.now 0) }
{
    call_at(place_in(
        word(line, 0),
        b"read_u64 read_u32 read_u16 read_u8 write_u64 write_u32 write_u16 write_u8 advance write_advance read_slice write_slice bits_remaining",
    ))
}

// How many spaces a line of the call has between its fields: only those that write bits or bytes have
// a VALUE.
pub(crate) fn spaces_of(call: Call) -> usize
    ensures { result ≡ spaces_of_lem call }
{
    match call {
        Call::Write(_) | Call::WriteSlice => 4,
        _ => 3,
    }
}

// The largest COUNT that a line of the call can have: a width has 32 bits.
pub(crate) fn count_max(call: Call) -> usize
    ensures { result ≡ count_max_lem call }
{
    match call {
        Call::ReadSlice | Call::WriteSlice | Call::Remaining => usize::MAX,
        _ => 0xffff_ffff,
    }
}

// The largest number that a call of this width takes.
pub(crate) fn most(w: Width) -> u64
    ensures { result ≡ largest w }
{
    match w {
        Width::W64 => 0xffff_ffff_ffff_ffff,
        Width::W32 => 0xffff_ffff,
        Width::W16 => 0xffff,
        Width::W8 => 0xff,
    }
}
