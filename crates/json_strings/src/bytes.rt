// Up to four bytes.
ghost use Rattle.std.specs.Prelude.{◌≡◌, ◌≤◌, take};

// The first n of four bytes.
#[derive(Clone, Copy)]
pub struct Bytes {
    pub n: usize,
    pub all: [u8; 4],
    ghost at_most_4: { n ≤ 4 },
}

impl Bytes {
    pub fn as_slice(&self) -> &[u8]
        ensures { result.now ≡ take self.now.n self.now.all }
    {
        &self.all[..self.n]
    }
}
