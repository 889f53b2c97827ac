// The primitive types, by their codes.
#![tactic(auto)]

ghost use Rattle.std.specs.Prelude.{◌≡◌};
ghost use Rattle.types.specs.Short.{short_text};
ghost use Rattle.primitive.specs.Primitive.{primitive_text, is_number, is_float, is_addable, is_subtype_of};

use types::short_text::ShortText;

#[derive(Clone, Copy, Debug, PartialEq, Eq)]
pub struct PrimitiveTy {
    pub code: u32,
}

// How each is printed.
const NULL_TEXT: ShortText = ShortText {
    bytes: *b"null\0\0\0\0\0\0\0",
    len: 4,
};

const BOOL_TEXT: ShortText = ShortText {
    bytes: *b"bool\0\0\0\0\0\0\0",
    len: 4,
};

const INT_TEXT: ShortText = ShortText {
    bytes: *b"int\0\0\0\0\0\0\0\0",
    len: 3,
};

const FLOAT_TEXT: ShortText = ShortText {
    bytes: *b"float\0\0\0\0\0\0",
    len: 5,
};

const STRING_TEXT: ShortText = ShortText {
    bytes: *b"string\0\0\0\0\0",
    len: 6,
};

const PATH_TEXT: ShortText = ShortText {
    bytes: *b"path\0\0\0\0\0\0\0",
    len: 4,
};

const URI_TEXT: ShortText = ShortText {
    bytes: *b"uri\0\0\0\0\0\0\0\0",
    len: 3,
};

const NUMBER_TEXT: ShortText = ShortText {
    bytes: *b"number\0\0\0\0\0",
    len: 6,
};

impl PrimitiveTy {
    pub const NULL: u32 = 0;

    pub const BOOL: u32 = 1;

    pub const INT: u32 = 2;

    pub const FLOAT: u32 = 3;

    pub const STRING: u32 = 4;

    pub const PATH: u32 = 5;

    pub const URI: u32 = 6;
    // What an operand of arithmetic is held to be before it is known as int or float.
    pub const NUMBER: u32 = 7;

    pub fn is_number(self) -> bool
        ensures { result ≡ is_number self.code }
    {
        self.is_float() || (self.code == PrimitiveTy::INT || self.code == PrimitiveTy::NUMBER)
    }

    pub fn is_float(self) -> bool
        ensures { result ≡ is_float self.code }
    {
        self.code == PrimitiveTy::FLOAT
    }

    pub fn is_addable(self) -> bool
        ensures { result ≡ is_addable self.code }
    {
        self.is_number() || (self.code == PrimitiveTy::STRING || self.code == PrimitiveTy::PATH)
    }

    pub fn is_subtype_of(self, other: PrimitiveTy) -> bool
        ensures { result ≡ is_subtype_of self.code other.code }
    {
        other.code == PrimitiveTy::NUMBER
            && (self.code == PrimitiveTy::INT || self.code == PrimitiveTy::FLOAT)
    }

    pub fn text(self) -> ShortText
        ensures { result ≡ short_text (primitive_text self.code) }
    {
        let code = self.code;
        match code {
            PrimitiveTy::NULL => NULL_TEXT,
            PrimitiveTy::BOOL => BOOL_TEXT,
            PrimitiveTy::INT => INT_TEXT,
            PrimitiveTy::FLOAT => FLOAT_TEXT,
            PrimitiveTy::STRING => STRING_TEXT,
            PrimitiveTy::PATH => PATH_TEXT,
            PrimitiveTy::URI => URI_TEXT,
            PrimitiveTy::NUMBER => NUMBER_TEXT,
            _ => ShortText::new(),
        }
    }
}
