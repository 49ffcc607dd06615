// A piece of a line of a plan: what stands of a line of the lent columns.
//
// A plan holds it as a word, 4 times the line and the form's number, so that a line of a plan fits one word.
ghost use Rattle.std.specs.Prelude.{◌≡◌, ◌+◌, ◌*◌, ◌/◌, ◌<◌};
ghost use Rattle.pieces.specs.Pieces.{number, source, Says};

// Line i as it is; its tokens before its first goto, then `continue;` or `break;`; a closing brace in its place.
#[derive(Clone, Copy)]
pub enum Piece {
    Kept(usize),
    Continued(usize),
    Broken(usize),
    Closed(usize),
}

impl Piece {
    // The piece that the word p says.
    pub fn of(p: usize) -> Piece
        ensures { Says p result }
    {
        let i = p / 4;
        match p % 4 {
            0 => Piece::Kept(i),
            1 => Piece::Continued(i),
            2 => Piece::Broken(i),
            _ => Piece::Closed(i),
        }
    }

    // The word that says it.
    pub fn word(self) -> usize
        requires { source self < 1024 }
        ensures { result ≡ 4 * source self + number self }
    {
        match self {
            Piece::Kept(i) => 4 * i,
            Piece::Continued(i) => 4 * i + 1,
            Piece::Broken(i) => 4 * i + 2,
            Piece::Closed(i) => 4 * i + 3,
        }
    }
}

// The line that the piece of the word p is made of.
pub fn source(p: usize) -> usize
    ensures { result ≡ p / 4 }
{
    p / 4
}
