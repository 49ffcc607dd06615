// Tokens.
#![tactic(auto, using(crate::proofs::ElementRules::elements), unfolding(json_definitions::specs::Writer::token_text, json_definitions::specs::Writer::string_text))]

ghost use Rattle.std.specs.Prelude.{◌++◌, ◌≤◌, length, get_or};
ghost use Rattle.definitions.specs.Lists.{ascii, part};
ghost use Rattle.definitions.specs.Model.{no_token};
ghost use Rattle.model.specs.Listings.{tokens_of};
ghost use Rattle.json_definitions.specs.Writer.{token_text, elements_text, array_text};
ghost use Rattle.json_append.specs.Appended.{Wrote};

use json_append::writer::Writer;
use model::listing::Listing;

// Token k of all.
fn put_token(to: &mut Writer, code: &Listing, k: usize)
    ensures { Wrote to.old (token_text (get_or (tokens_of code.now) k no_token)) to.new }
{
    to.put(b"{\"t\":\"");
    to.put_characters(code.token_text(k));
    to.put(b"\",\"k\":");
    to.put_kind(code.token_kind(k));
    to.put_byte(b'}');
}

// "," and token k of all.
fn put_next_token(to: &mut Writer, code: &Listing, k: usize)
    ensures { Wrote to.old (ascii "," ++ token_text (get_or (tokens_of code.now) k no_token)) to.new }
{
    to.put_byte(b',');
    put_token(to, code, k);
}

// The tokens from `from` up to `end` of all, each behind a ",", and "]".
fn put_tokens(to: &mut Writer, code: &Listing, from: usize, end: usize)
    requires { end ≤ length code.now.tokens.now }
    ensures { Wrote to.old (elements_text token_text (part from end (tokens_of code.now))) to.new }
{
    for k in from..end {
        put_next_token(to, code, k);
    }
    to.put_byte(b']');
}

// The array of the tokens from `from` up to `end` of all.
pub fn put_token_array(to: &mut Writer, code: &Listing, from: usize, end: usize)
    requires { end ≤ length code.now.tokens.now }
    ensures { Wrote to.old (array_text token_text (part from end (tokens_of code.now))) to.new }
{
    if end <= from {
        to.put(b"[]");
        return;
    }
    to.put_byte(b'[');
    put_token(to, code, from);
    put_tokens(to, code, from + 1, end);
}
