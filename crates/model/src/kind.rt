// The kinds of a token. In memory a kind is a number, as Rattle.definitions.specs.Model has it; a listing that no question was asked of may
// have numbers there that are no kind.
ghost use Rattle.std.specs.Prelude.{◌≡◌};
ghost use Rattle.model.specs.Kinds.{number, kind_of};

#[derive(Clone, Copy, Debug, PartialEq, Eq)]
pub enum Kind {
    Text,
    Register,
    Number,
    Keyword,
    Symbol,
    Address,
    Punct,
    Prefix,
}

impl Kind {
    pub fn number(self) -> usize
        ensures { result ≡ number self }
    {
        self as usize
    }

    // The kind with this number, none above 7.
    pub fn of(n: usize) -> Option<Kind>
        ensures { result ≡ kind_of n }
    {
        match n {
            0 => Some(Kind::Text),
            1 => Some(Kind::Register),
            2 => Some(Kind::Number),
            3 => Some(Kind::Keyword),
            4 => Some(Kind::Symbol),
            5 => Some(Kind::Address),
            6 => Some(Kind::Punct),
            7 => Some(Kind::Prefix),
            _ => None,
        }
    }
}
