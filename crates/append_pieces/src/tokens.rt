// The tokens of a line, of its first tokens, and of a piece, appended to the open line.
ghost use Rattle.std.specs.Prelude.{◌≡◌, true, false, [], ◌∷◌, ◌≤◌, ◌<◌, length, take, get_or};
ghost use Rattle.definitions.specs.Model.{tok, no_token, token, line, Punct};
ghost use Rattle.definitions.specs.Questions.{question_2};
ghost use Rattle.model.specs.Listings.{listing_of};
ghost use Rattle.pieces.specs.Pieces.{piece, jumped};
ghost use Rattle.append.specs.Adds.{Adding};
ghost use Rattle.append_pieces.specs.Dressed.{dressed, trimmed};

use append::add;
use model::listing::Listing;
use pieces::piece::Piece;
use pieces::reading::cut_place;
use pop::popped_length;
use write::Writer;

// The kind of token j of line i.
pub fn kind_at(code: &Listing, i: usize, j: usize) -> usize
    ensures { (result ≡ (token (line (listing_of code.now) i) j).kind) × (result < 256) }
{
    code.kind(i, j)
}

// The text s, without its last code point where `popped` says so.
fn trimmed(s: &[u8], popped: bool) -> &[u8]
    ensures { result.now ≡ trimmed popped s.now }
{
    if popped {
        text::part(s, 0, popped_length(s))
    } else {
        s
    }
}

// The text of token j of the first n tokens of line i, the last of them without its last code point where `popped` says so.
fn dressed_text<'a>(code: &Listing<'_, 'a>, i: usize, n: usize, j: usize, popped: bool) -> &'a [u8]
    requires { (j < n) × (n ≤ length (line (listing_of code.now) i).tokens) }
    ensures { result.now ≡ (get_or (dressed popped (take n (line (listing_of code.now) i).tokens)) j no_token).text }
{
    trimmed(code.text_at(i, j), popped && n - j == 1)
}

// The first n tokens of line i, the last of them without its last code point where `popped` says so.
fn add_first(out: &mut Writer, code: &Listing, i: usize, n: usize, popped: bool, merged: bool)
    requires { n ≤ length (line (listing_of code.now) i).tokens }
    ensures { let l = line (listing_of code.now) i in
        Adding merged (dressed popped (take n l.tokens)) out.old out.new }
{
    for j in 0..n {
        let s = dressed_text(code, i, n, j, popped);
        let kind = kind_at(code, i, j);
        add(out, s, kind, merged);
    }
}

// The punctuation s, without its last code point where `popped` says so.
fn add_last(out: &mut Writer, s: &[u8], popped: bool, merged: bool)
    ensures { Adding merged (dressed popped (tok s.now Punct ∷ [])) out.old out.new }
{
    add(out, trimmed(s, popped), 6, merged);
}

// What stands before the first goto of line i, then `kw;`.
fn add_jumped(out: &mut Writer, code: &Listing, i: usize, kw: &[u8], popped: bool, merged: bool)
    ensures { let l = line (listing_of code.now) i in
        Adding merged (dressed popped (jumped kw.now l)) out.old out.new }
{
    let n = cut_place(code, i);
    add_first(out, code, i, n, false, merged);
    add(out, kw, 3, merged);
    add_last(out, b";", popped, merged);
}

// The tokens of line i as they are, in one copy.
fn add_kept(out: &mut Writer, code: &Listing, i: usize)
    requires { question_2 code.now.lines.now code.now.tokens.now code.now.text.now ≡ true }
    ensures { let l = line (listing_of code.now) i in
        Adding false l.tokens out.old out.new }
{
    let s = code.line_start(i);
    let e = code.line_end(i);
    if s < e {
        write_run::add_run(out, code, s, e);
    }
}

// The tokens of the piece p, the last without its last code point where `popped` says so.
pub fn add_piece(out: &mut Writer, code: &Listing, p: usize, popped: bool, merged: bool)
    ensures { let C = listing_of code.now in
        Adding merged (dressed popped (piece C p).tokens) out.old out.new }
{
    match Piece::of(p) {
        Piece::Kept(i) => add_first(out, code, i, code.token_count(i), popped, merged),
        Piece::Continued(i) => add_jumped(out, code, i, b"continue", popped, merged),
        Piece::Broken(i) => add_jumped(out, code, i, b"break", popped, merged),
        Piece::Closed(_) => add_last(out, b"}", popped, merged),
    }
}

// The tokens of the piece p; a line as it is in one copy.
pub fn add_plain(out: &mut Writer, code: &Listing, p: usize)
    requires { question_2 code.now.lines.now code.now.tokens.now code.now.text.now ≡ true }
    ensures { let C = listing_of code.now in
        Adding false (piece C p).tokens out.old out.new }
{
    match Piece::of(p) {
        Piece::Kept(i) => add_kept(out, code, i),
        _ => add_piece(out, code, p, false, false),
    }
}
