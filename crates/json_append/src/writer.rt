// A lent slice that is written from its start or from a place on.
ghost use Rattle.std.specs.Prelude.{◌≡◌, ◌<◌, ◌≤◌, ◌+◌, ◌^◌, [], ◌∷◌, ◌++◌, length, take};
ghost use Rattle.write.specs.Holds.{Filled};

// The slice, and the place behind what is written. What has no room is only counted, up to the greatest place.
#[derive(Drop)]
pub struct Writer<'a> {
    out: &'a mut [u8],
    at: usize,
    ghost fits: { at < 2 ^ 64 },
}

// Stores the bytes at place `at`. A loop: `copy_from_slice` of a length that only a run tells is a call of memcpy, slower on short texts, which
// the library for C would need from outside.
fn copy(out: &mut [u8], at: usize, bytes: &[u8])
    requires { at + length bytes.now ≤ length out.old }
    ensures { Filled (take at out.old ++ bytes.now) (at + length bytes.now) out.new }
{
    for j in 0..bytes.len() {
        out[at + j] = bytes[j];
    }
}

impl<'a> Writer<'a> {
    ghost use Rattle.json_append.specs.Appended.{Wrote};

    pub fn new(out: &'a mut [u8]) -> Writer<'a>
        ensures same { result.out.ghost_name ≡ out.entry.ghost_name }
        ensures slice { result.out.now ≡ out.old }
        ensures start { result.at ≡ 0 }
    {
        Writer { out, at: 0 }
    }

    // What is written stands behind place `at`, which may be behind the end.
    pub fn behind(out: &'a mut [u8], at: usize) -> Writer<'a>
        ensures same { result.out.ghost_name ≡ out.entry.ghost_name }
        ensures slice { result.out.now ≡ out.old }
        ensures start { result.at ≡ at }
    {
        Writer { out, at }
    }

    #[inline]
    pub fn put(&mut self, bytes: &[u8])
        ensures { Wrote self.old bytes.now self.new }
    {
        let end = self.at.saturating_add(bytes.len());
        if end <= self.out.len() {
            copy(self.out, self.at, bytes);
        }
        self.at = end;
    }

    #[inline]
    pub fn put_byte(&mut self, byte: u8)
        ensures { Wrote self.old (byte ∷ []) self.new }
    {
        self.put(&[byte]);
    }

    // How many bytes are written or counted.
    pub fn len(&self) -> usize
        ensures { result ≡ self.now.at }
    {
        self.at
    }
}
