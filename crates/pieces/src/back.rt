// The back edge: the text of a piece against `goto h;`, byte by byte where it stands.
#![tactic(auto, using(crate::proofs::Backs::texts))]

ghost use Rattle.std.specs.Prelude.{◌≡◌, true, ◌++◌, ◌-◌};
ghost use Rattle.definitions.specs.Lists.{◌≟◌, ascii};
ghost use Rattle.definitions.specs.Model.{line};
ghost use Rattle.definitions.specs.Questions.{question_2};
ghost use Rattle.model.specs.Listings.{listing_of};
ghost use Rattle.pieces.specs.Pieces.{piece_text, text_before, JumpWord};

use crate::piece::Piece;
use crate::reading::cut_place;
use model::listing::Listing;
use pseudo_types::texts::text_from;

// The texts of the first g tokens of line i, one after the other.
pub fn text_before<'a>(code: &Listing<'_, 'a>, i: usize, g: usize) -> &'a [u8]
    requires { question_2 code.now.lines.now code.now.tokens.now code.now.text.now ≡ true }
    ensures { result.now ≡ text_before (line (listing_of code.now) i) g }
{
    let s = text_from(code, i, 0);
    let n = text_from(code, i, g).len();
    text::part(s, 0, s.len().saturating_sub(n))
}

// The bytes a, then b, are s.
fn joins(a: &[u8], b: &[u8], s: &[u8]) -> bool
    ensures { result ≡ ((a.now ++ b.now) ≟ s.now) }
{
    let n = a.len();
    n <= s.len() && text::equal(a, text::part(s, 0, n)) && text::equal(b, text::part(s, n, s.len()))
}

// The text s reads `goto h;`.
fn kept_reads(s: &[u8], h: &[u8]) -> bool
    ensures { result ≡ (s.now ≟ (ascii "goto " ++ (h.now ++ ascii ";"))) }
{
    text::starts_with(s, b"goto ") && joins(h, b";", text::part(s, 5, s.len()))
}

// The text s, then `kw;`, reads `goto h;`.
fn jump_reads(s: &[u8], kw: &[u8], h: &[u8]) -> bool
    requires { JumpWord kw.now }
    ensures { result ≡ ((s.now ++ (kw.now ++ ascii ";")) ≟ (ascii "goto " ++ (h.now ++ ascii ";"))) }
{
    text::starts_with(s, b"goto ") && joins(text::part(s, 5, s.len()), kw, h)
}

// The piece p reads `goto h;`.
pub fn is_back(code: &Listing, p: usize, h: &[u8]) -> bool
    requires { question_2 code.now.lines.now code.now.tokens.now code.now.text.now ≡ true }
    ensures { let C = listing_of code.now in
        result ≡ (piece_text C p ≟ (ascii "goto " ++ (h.now ++ ascii ";"))) }
{
    match Piece::of(p) {
        Piece::Kept(i) => kept_reads(text_from(code, i, 0), h),
        Piece::Continued(i) => jump_reads(text_before(code, i, cut_place(code, i)), b"continue", h),
        Piece::Broken(i) => jump_reads(text_before(code, i, cut_place(code, i)), b"break", h),
        Piece::Closed(_) => false,
    }
}
