// The condition of a guard, appended to the open line. Each token of the line is looked at once.
ghost use Rattle.std.specs.Prelude.{[], ◌+◌, ◌<◌, length};
ghost use Rattle.definitions.specs.Lists.{or_else, ascii};
ghost use Rattle.definitions.specs.Model.{line};
ghost use Rattle.definitions.specs.Condition.{condition};
ghost use Rattle.model.specs.Listings.{listing_of};
ghost use Rattle.pseudo_types.specs.Cuts.{cut_run};
ghost use Rattle.append.specs.Adds.{Adding, whole};

use crate::tokens::kind_at;
use append::add_unless_empty;
use condition::Cut;
use model::listing::Listing;
use pseudo_types::conditions::cut_text;
use write::Writer;

// The tokens of the condition behind the keyword of line i.
fn add_run(out: &mut Writer, code: &Listing, i: usize, cut: Cut, merged: bool)
    requires { cut.keyword < length (line (listing_of code.now) i).tokens }
    ensures { let l = line (listing_of code.now) i in
        Adding merged (whole (cut_run l cut.keyword cut.end (cut.keyword + 1))) out.old out.new }
{
    let n = code.token_count(i);
    for j in cut.keyword + 1..n {
        let s = cut_text(code, i, cut.keyword, cut.end, j);
        add_unless_empty(out, s, kind_at(code, i, j), merged);
    }
}

// The condition after the keyword if of line i.
pub fn add_condition(out: &mut Writer, code: &Listing, i: usize, merged: bool)
    ensures { let l = line (listing_of code.now) i in
        Adding merged (or_else (condition l (ascii "if")) []) out.old out.new }
{
    if let Some(cut) = condition::condition(code, i, b"if") {
        add_run(out, code, i, cut, merged);
    }
}
