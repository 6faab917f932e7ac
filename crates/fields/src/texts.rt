// Texts and bytes.
ghost use Rattle.std.specs.Prelude.{◌≡◌, ◌+◌, ◌-◌, ◌*◌, ◌/◌, ◌≤◌, ◌<◌, length};
ghost use Rattle.bits.specs.Calls.{bits as bitCount};
ghost use Rattle.fields.specs.Payload.{payload_of};
ghost use Rattle.fields.specs.Taken.{bytes_room_lem, text_room_lem, fixed_bytes_lem, lau_taken, closed_at_lem, lz_taken, taken_by};
ghost use Rattle.fields.specs.Content.{text_at_lem, text_read_lem, refused_of, read_over};
ghost use Rattle.fields.specs.declared.Shape.TheVariants as shape;

use crate::{DecodeRefusal, FieldAt, FieldRead};
use bits::{BitPos, BitRefusal, ByteCount, Cursor};
use descriptor::{PgnBytes, PgnValue};

// A StringFix over so many bytes may stop early where it is the last field.
const FIXED_MAX: usize = 32;

// Whether n whole bytes can be read at bit `at`.
fn bytes_room(s: &[u8], at: usize, n: usize) -> Result<(), BitRefusal>
    ensures { result ≡ bytes_room_lem (payload_of s.now) at n }
{
    let c = Cursor { at: BitPos(at) };
    c.read_slice(s, ByteCount(n))?;
    Ok(())
}

// Of a text: where it is empty, nothing is asked of its place.
fn text_room(s: &[u8], at: usize, n: usize) -> Result<(), BitRefusal>
    ensures { result ≡ text_room_lem (payload_of s.now) at n }
{
    if n == 0 {
        return Ok(());
    }
    bytes_room(s, at, n)
}

// A text or bytes at a byte place: 0 if there are none.
fn text_at(place: usize, n: usize, encoding: Option<u8>) -> PgnValue
    ensures { result ≡ text_at_lem place n encoding }
{
    let start = if n == 0 { 0 } else { place };
    PgnValue::Bytes(PgnBytes {
        start: ByteCount(start),
        len: ByteCount(n),
        encoding,
    })
}

// The n bits from `at` on, and 8 more if they are there and zero.
fn closed_at(s: &[u8], at: usize, n: usize) -> usize
    requires { (at ≤ 524288) × (n ≤ 65536) }
    ensures { result ≡ closed_at_lem (payload_of s.now) at n }
{
    let c = Cursor { at: BitPos(at + n) };
    match c.read_u64(s, 8) {
        Ok(read) if read.value == 0 => n + 8,
        _ => n,
    }
}

impl FieldAt {
    // The n bytes at a place, of a field that takes so many bits, if there is room for them.
    fn text(
        self,
        room: Result<(), BitRefusal>,
        taken: usize,
        place: usize,
        n: usize,
        encoding: Option<u8>,
    ) -> Result<FieldRead, DecodeRefusal>
        ensures { result ≡ text_read_lem room self.i taken place n encoding }
    {
        room.map_err(|refusal| self.refused(refusal))?;
        Ok(FieldRead::Got {
            bits: BitPos(taken),
            raw: None,
            value: text_at(place, n, encoding),
        })
    }

    // How many bytes a StringFix takes.
    fn fixed_bytes(self, s: &[u8]) -> usize
        ensures { result ≡ fixed_bytes_lem (payload_of s.now) self.early self.at self.f.width }
    {
        let size = self.f.width as usize / 8;
        if self.early && FIXED_MAX < size {
            let left = self.cursor().bits_remaining(s);
            return size.min(left.0 / 8);
        }
        size
    }

    pub(crate) fn fixed(self, s: &[u8]) -> Result<FieldRead, DecodeRefusal>
        ensures { result ≡ read_over (taken_by shape.Fixed (payload_of s.now) self.i self.early self.f.width self.at) shape.Fixed self.f (payload_of s.now) self.at }
    {
        let n = self.fixed_bytes(s);
        let room = bytes_room(s, self.at, n);
        self.text(room, 8 * n, self.at / 8, n, None)
    }

    pub(crate) fn whole(self, s: &[u8]) -> Result<FieldRead, DecodeRefusal>
        ensures { result ≡ read_over (taken_by shape.Whole (payload_of s.now) self.i self.early self.f.width self.at) shape.Whole self.f (payload_of s.now) self.at }
    {
        let n = self.f.width as usize / 8;
        let room = bytes_room(s, self.at, n);
        self.text(room, 8 * n, self.at / 8, n, None)
    }

    // A StringLau with its length byte.
    fn lau_text(self, s: &[u8], len: usize) -> Result<FieldRead, DecodeRefusal>
        requires { self.at ≤ 524288 }
        ensures { result ≡ read_over (lau_taken (payload_of s.now) self.i self.at len) shape.Lau self.f (payload_of s.now) self.at }
    {
        if tables::PAYLOAD_MAX < len {
            return Err(DecodeRefusal::InvalidDataLength { field: self.i });
        }
        if len < 2 {
            return self.text(Ok(()), 8, 0, 0, None);
        }
        let c = Cursor {
            at: BitPos(self.at + 8),
        };
        let encoding = c.read_u8(s, 8).map_err(|refusal| self.refused(refusal))?;
        let n = len - 2;
        let room = text_room(s, self.at + 16, n);
        let place = self.at / 8 + 2;
        self.text(room, 16 + 8 * n, place, n, Some(encoding.value))
    }

    pub(crate) fn lau(self, s: &[u8]) -> Result<FieldRead, DecodeRefusal>
        ensures { result ≡ read_over (taken_by shape.Lau (payload_of s.now) self.i self.early self.f.width self.at) shape.Lau self.f (payload_of s.now) self.at }
    {
        let length = self
            .cursor()
            .read_u64(s, 8)
            .map_err(|refusal| self.refused(refusal))?;
        self.lau_text(s, length.value as usize)
    }

    // A StringLz with its length byte.
    fn lz_text(self, s: &[u8], len: usize) -> Result<FieldRead, DecodeRefusal>
        requires { (self.at ≤ 524288) × (len ≡ (payload_of s.now).bits self.at 8) }
        ensures { result ≡ read_over (lz_taken (payload_of s.now) self.i self.at len) shape.Lz self.f (payload_of s.now) self.at }
    {
        if tables::PAYLOAD_MAX < len {
            return Err(DecodeRefusal::InvalidDataLength { field: self.i });
        }
        let room = text_room(s, self.at + 8, len);
        let taken = closed_at(s, self.at, 8 + 8 * len);
        self.text(room, taken, self.at / 8 + 1, len, None)
    }

    pub(crate) fn lz(self, s: &[u8]) -> Result<FieldRead, DecodeRefusal>
        ensures { result ≡ read_over (taken_by shape.Lz (payload_of s.now) self.i self.early self.f.width self.at) shape.Lz self.f (payload_of s.now) self.at }
    {
        let length = self
            .cursor()
            .read_u64(s, 8)
            .map_err(|refusal| self.refused(refusal))?;
        self.lz_text(s, length.value as usize)
    }
}
