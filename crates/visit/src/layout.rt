// Where the rows of one family stand in the working space. For n lines, rows of r words for lines, the last of which is a row's span (crate
// bits), and of w words for definitions, it holds
//
//   word                     words    holds
//   0                        n r      predecessors of each line         } crate bits
//   n r                      n r      successors of each line           }
//   2 n r                    r        lines to visit in this sweep
//   2 n r + r                r        lines to visit in the next sweep
//   2 n r + 2 r              n w      outgoing row of each line
//   2 n r + 2 r + n w        w        row in the making: what comes to a line, where that is asked after the sweeps
//
// By `room` of proofs/LayoutLaws the words of question 5 have room for it.
ghost use Rattle.std.specs.Prelude.{◌≡◌, ◌+◌, ◌*◌, ◌/◌, ◌<◌, ◌≤◌};
ghost use Rattle.bits.specs.Edges.{row_words};
ghost use Rattle.visit.specs.Layout.{making};
ghost use Rattle.visit.specs.Numbers.{Numbered};

// How many lines there are, and the words of a row of lines and of a row of definitions. The words themselves are lent beside it: a struct that
// held them would have to say in every contract that it holds the same words after.
#[derive(Clone, Copy)]
pub struct Layout {
    pub n: usize,
    pub r: usize,
    pub w: usize,
    pub ghost lines: { 0 < n },
    pub ghost some: { 0 < w },
    pub ghost wide: { n + 64 ≤ r * 64 },
    pub ghost small: { n * r + n * r + r + r + n * w + w ≤ 65536 },
}

impl Layout {
    // The layout for n lines and c definitions.
    pub fn new(n: usize, c: usize) -> Self
        requires { (c < n) × (n ≤ 1024) }
        ensures { (result.n ≡ n) × (result.r ≡ row_words n) × (result.w ≡ c / 64 + 1) }
    {
        Layout {
            n,
            r: (n + 63) / 64 + 1,
            w: c / 64 + 1,
        }
    }

    // The first word of the list of the lines to visit in this sweep.
    pub fn todo(self) -> usize
        ensures { result ≡ self.n * self.r + self.n * self.r }
    {
        2 * self.n * self.r
    }

    // The same in the next sweep.
    pub fn next(self) -> usize
        ensures { result ≡ self.n * self.r + self.n * self.r + self.r }
    {
        self.todo() + self.r
    }

    // The first word of the row in the making.
    pub fn making(self) -> usize
        ensures { result ≡ making self.n self.r self.w }
    {
        self.next() + self.r + self.n * self.w
    }
}

// The definitions of one family: the number of the definition on each line, 0 where there is none, and the layout for them.
#[derive(Clone, Copy)]
pub struct Definitions<'a> {
    pub layout: Layout,
    pub nums: &'a [u16],
    pub ghost numbered: { Numbered layout.n layout.w nums.now },
}
