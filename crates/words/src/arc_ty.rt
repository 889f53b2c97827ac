// The head of a node, and a child in a word.
ghost use Rattle.std.specs.Prelude.{◌≡◌};
ghost use Rattle.words.specs.Words.{IsBit, HeadFits, head_word, head_kind, head_open, head_dynamic, head_zero, head_count, child};
ghost use Rattle.words.specs.Words.{child_zero};

// One in the lowest bit of a head's field.
const KIND: u32 = 0x1000_0000;

const OPENED: u32 = 0x0800_0000;

const DYNAMIC: u32 = 0x0400_0000;

const ZERO: u32 = 0x0001_0000;

// The numbers that fit a child's 12 bits.
pub(crate) const CHILDREN: u32 = 0x1000;

// The head of a node.
#[derive(Clone, Copy, Debug, PartialEq, Eq)]
pub struct Head {
    pub word: u32,
}

impl Head {
    pub const BOTTOM: u32 = 0;

    pub const TOP: u32 = 1;

    pub const PRIMITIVE: u32 = 2;

    pub const TY_VAR: u32 = 3;

    pub const LIST: u32 = 4;

    pub const LAMBDA: u32 = 5;

    pub const ATTR_SET: u32 = 6;

    pub const UNION: u32 = 7;

    pub const INTERSECTION: u32 = 8;

    pub const NAMED: u32 = 9;

    pub const NEG: u32 = 10;

    pub fn new(kind: u32, opened: bool, dynamic: bool, count: usize) -> Self
        requires { HeadFits kind count }
        ensures { result.word ≡ head_word kind opened dynamic count }
    {
        Self {
            word: kind * KIND + flag(opened) * OPENED + flag(dynamic) * DYNAMIC + count as u32,
        }
    }

    pub fn kind(self) -> u32
        ensures { result ≡ head_kind self.word }
    {
        self.word / KIND
    }

    // Whether a set accepts fields beyond those it lists.
    pub fn opened(self) -> bool
        ensures { result ≡ head_open self.word }
    {
        self.word / OPENED % 2 == 1
    }

    // Whether a set's last body word is the type of its other fields.
    pub fn dynamic(self) -> bool
        ensures { result ≡ head_dynamic self.word }
    {
        self.word / DYNAMIC % 2 == 1
    }

    // The bits that a sound head has zero.
    pub fn zero(self) -> u32
        ensures { result ≡ head_zero self.word }
    {
        self.word / ZERO % 0x400
    }

    // How many words follow the head.
    pub fn count(self) -> usize
        ensures { result ≡ head_count self.word }
    {
        wide(self.word % ZERO)
    }
}

// A flag as one bit of a word.
pub(crate) fn flag(b: bool) -> u32
    ensures { IsBit b result }
{
    u32::from(b)
}

// A word as a count or a place.
pub fn wide(x: u32) -> usize
    ensures { result ≡ x }
{
    x as usize
}

// The node that a child word or a field word names.
pub fn child(word: u32) -> u32
    ensures { result ≡ child word }
{
    word % CHILDREN
}

// The bits that a sound child word has zero.
pub fn child_zero(word: u32) -> u32
    ensures { result ≡ child_zero word }
{
    word / CHILDREN
}
