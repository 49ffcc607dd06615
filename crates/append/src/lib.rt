// Tokens appended to the open line of the destination, merged or as they are. Each function takes time linear in the bytes that it appends.
//
// Contracts cite `Adding` of this crate's specs/: what is appended, whatever the open line has before it.

#![tactic(auto)]

ghost use Rattle.std.specs.Prelude.{[], ◌∷◌, ◌<◌};
ghost use Rattle.definitions.specs.Model.{tok};
ghost use Rattle.append.specs.Adds.{Adding, whole};

use write::Writer;

// Appends a token, which joins the last one where it is to be merged.
pub fn add(out: &mut Writer, s: &[u8], kind: usize, merged: bool)
    requires { kind < 256 }
    ensures { Adding merged (tok s.now kind ∷ []) out.old out.new }
{
    if merged {
        out.add_merged(s, kind);
    } else {
        out.add_token(s, kind);
    }
}

// The same, unless it is empty.
pub fn add_unless_empty(out: &mut Writer, s: &[u8], kind: usize, merged: bool)
    requires { kind < 256 }
    ensures { Adding merged (whole (tok s.now kind ∷ [])) out.old out.new }
{
    if !s.is_empty() {
        add(out, s, kind, merged);
    }
}
