// What the header number of a word says: no header, or a loop's head and its condition.
ghost use Rattle.plan.specs.Headers.{Asks, Says};

// The condition of a header: that of the guard on the word's own line; 1; the negated one of a leading test.
#[derive(Clone, Copy, PartialEq, Eq)]
pub enum Test {
    Guard,
    Always,
    Leading,
}

// A line as it is, or the head of a `while` or of a `for` over a condition.
#[derive(Clone, Copy, PartialEq, Eq)]
pub enum Header {
    NoHeader,
    While(Test),
    For(Test),
}

impl Test {
    // The condition of the header of the word w.
    pub fn of(w: usize) -> Test
        ensures { Asks w result }
    {
        match crate::header(w) % 4 {
            2 => Test::Always,
            3 => Test::Leading,
            _ => Test::Guard,
        }
    }
}

impl Header {
    // The header of the word w. 4 is not made: it reads as 5 does.
    pub fn of(w: usize) -> Header
        ensures { Says w result }
    {
        match crate::header(w) {
            0 => Header::NoHeader,
            1 => Header::While(Test::Guard),
            2 => Header::While(Test::Always),
            3 => Header::While(Test::Leading),
            4 | 5 => Header::For(Test::Guard),
            6 => Header::For(Test::Always),
            _ => Header::For(Test::Leading),
        }
    }
}
