// Kinds and numbers.
#![tactic(auto, using(crate::proofs::ValueRules::values), unfolding(json_definitions::specs::Writer::kind_text, json_definitions::specs::Writer::address_text))]

ghost use Rattle.json_definitions.specs.Writer.{kind_text, decimal, address_text};

use crate::writer::Writer;
use itoa::Buffer;
use model::kind::Kind;

impl Writer<'_> {
    ghost use Rattle.json_append.specs.Appended.{Wrote};

    // The name of a kind.
    pub fn put_kind(&mut self, kind: usize)
        ensures { Wrote self.old (kind_text kind) self.new }
    {
        match Kind::of(kind) {
            Some(Kind::Text) => self.put(b"\"text\""),
            Some(Kind::Register) => self.put(b"\"register\""),
            Some(Kind::Number) => self.put(b"\"number\""),
            Some(Kind::Keyword) => self.put(b"\"keyword\""),
            Some(Kind::Symbol) => self.put(b"\"symbol\""),
            Some(Kind::Address) => self.put(b"\"address\""),
            Some(Kind::Punct) => self.put(b"\"punct\""),
            Some(Kind::Prefix) => self.put(b"\"prefix\""),
            None => self.put(b""),
        }
    }

    // The decimal digits of n.
    pub fn put_decimal(&mut self, n: u64)
        ensures { Wrote self.old (decimal n) self.new }
    {
        let mut digits = Buffer::new();
        let text = digits.format(n).as_bytes();
        for digit in text {
            self.put_byte(*digit);
        }
    }

    pub fn put_address(&mut self, a: Option<u64>)
        ensures { Wrote self.old (address_text a) self.new }
    {
        match a {
            Some(v) => self.put_decimal(v),
            None => self.put(b"null"),
        }
    }
}
