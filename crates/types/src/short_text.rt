// A text of at most 11 bytes by value: how a primitive type or a type variable is printed.
ghost use Rattle.std.specs.Prelude.{◌≡◌, [], ◌∷◌, length};
ghost use Rattle.types.specs.Decimal.{decimal};
ghost use Rattle.types.specs.Short.{short_text};
ghost use Rattle.types.specs.Inner.{appended, Room};

// The bytes after `len` are zero.
#[derive(Clone, Copy, Debug, PartialEq, Eq)]
pub struct ShortText {
    pub bytes: [u8; 11],
    pub len: usize,
}

impl ShortText {
    pub fn new() -> Self
        ensures { result ≡ short_text [] }
    {
        Self {
            bytes: [0u8; 11],
            len: 0,
        }
    }

    pub(crate) fn push(mut self, byte: u8) -> Self
        requires { Room self 1 }
        ensures { result ≡ appended self (byte ∷ []) }
    {
        let at = self.len;
        self.bytes[at] = byte;
        self.len = at + 1;
        self
    }

    // The digits of n in base ten: those of its tenth first.
    pub fn push_decimal(self, n: u32) -> Self
        requires { Room self (length (decimal n)) }
        ensures { result ≡ appended self (decimal n) }
    {
        if n < 10 {
            return self.push(b'0' + n as u8);
        }
        self.push_decimal(n / 10).push(b'0' + (n % 10) as u8)
    }
}
