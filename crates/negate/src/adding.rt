// Appends the negated condition of a leading test to the destination, in time linear in its bytes.
//
// Contracts cite `negate_cond` of Rattle.definitions.specs.Condition and `Adding` of Rattle.append.specs.Adds: what is appended is merged,
// as the header that it stands in is.
ghost use Rattle.std.specs.Prelude.{◌≡◌, true, [], ◌∷◌, map, ◌<◌};
ghost use Rattle.definitions.specs.Lists.{range};
ghost use Rattle.definitions.specs.Model.{tok, line};
ghost use Rattle.definitions.specs.Condition.{flip, negate_cond};
ghost use Rattle.model.specs.Listings.{listing_of};
ghost use Rattle.write.specs.State.{add_bytes};
ghost use Rattle.write.specs.Holds.{text_lent, Writes};
ghost use Rattle.negate.specs.Tests.{test};
ghost use Rattle.negate.specs.Comparisons.{found_of, flipped, negated_token};
ghost use Rattle.append.specs.Adds.{Adding, whole};

use crate::comparison::{Comparison, Found, only_comparison};
use crate::test::{test_count, test_kind, test_text};
use model::listing::Listing;
use write::Writer;

// Appends what comparison w is flipped to to the open token.
fn add_flipped(out: &mut Writer, w: Comparison)
    ensures { Writes text_lent (add_bytes (flipped w)) out.old out.new }
{
    match w {
        Comparison::Equal => out.add_bytes(b" != "),
        Comparison::Unequal => out.add_bytes(b" == "),
        Comparison::AtMost => out.add_bytes(b" > "),
        Comparison::AtLeast => out.add_bytes(b" < "),
        Comparison::Less => out.add_bytes(b" >= "),
        Comparison::Greater => out.add_bytes(b" <= "),
    }
}

// Appends the token with text s and a kind, the comparison f of it flipped.
fn add_negated_token(out: &mut Writer, s: &[u8], kind: usize, f: Found)
    requires { kind < 256 }
    ensures { Adding true (flip (found_of f) (tok s.now kind) ∷ []) out.old out.new }
{
    out.add_bytes(text::part(s, 0, f.byte));
    add_flipped(out, f.which);
    let rest = text::part(s, f.byte, s.len());
    out.add_bytes(text::part(rest, f.which.width(), rest.len()));
    out.end_merged(kind);
}

// Appends token k of the m tokens of the condition, unless it is empty, with the comparison that the answer o says flipped.
fn add_test_token(out: &mut Writer, code: &Listing, i: usize, m: usize, k: usize, o: Option<Found>)
    requires { k < m }
    ensures { let l = line (listing_of code.now) i in
        Adding true (whole (negated_token l m o k ∷ [])) out.old out.new }
{
    let s = test_text(code, i, m, k);
    let kind = test_kind(code, i, m, k);
    let Some(f) = o else {
        append::add_unless_empty(out, s, kind, true);
        return;
    };
    if k == f.place {
        add_negated_token(out, s, kind, f);
    } else {
        append::add_unless_empty(out, s, kind, true);
    }
}

// Appends the m tokens of the condition, with the comparison that the answer o says flipped.
fn add_test_tokens(out: &mut Writer, code: &Listing, i: usize, m: usize, o: Option<Found>)
    ensures { let l = line (listing_of code.now) i in
        Adding true (whole (map (negated_token l m o) (range 0 m))) out.old out.new }
{
    for k in 0..m {
        add_test_token(out, code, i, m, k, o);
    }
}

// Appends the negation of the condition between the first token of line i and its place g.
pub fn add_negated(out: &mut Writer, code: &Listing, i: usize, g: usize)
    ensures { let l = line (listing_of code.now) i in
        Adding true (negate_cond (test l g)) out.old out.new }
{
    let m = test_count(code, i, g);
    let o = only_comparison(code, i, g);
    let Some(_) = o else {
        out.add_merged(b"!(", 6);
        add_test_tokens(out, code, i, m, o);
        out.add_merged(b")", 6);
        return;
    };
    add_test_tokens(out, code, i, m, o);
}
