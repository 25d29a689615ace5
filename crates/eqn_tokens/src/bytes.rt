// The bytes of typed text.

ghost use Rattle.std.specs.Prelude.{◌≡◌};
ghost use Rattle.eqn_tokens.specs.Bytes.{is_separator, is_word_byte, all_word_bytes, same};

const TAB: u8 = 9;

const LINE_FEED: u8 = 10;

const SPACE: u8 = 32;

const FIRST_WORD_BYTE: u8 = 33;

const LAST_WORD_BYTE: u8 = 126;

pub const OPENING_BRACE: u8 = 123;

pub const CLOSING_BRACE: u8 = 125;

// Whether a byte only separates.
pub fn is_separator(b: u8) -> bool
    ensures { result ≡ is_separator b }
{
    (b == TAB) | (b == LINE_FEED) | (b == SPACE)
}

// Whether a byte may stand in a word.
pub fn is_word_byte(b: u8) -> bool
    ensures { result ≡ is_word_byte b }
{
    (FIRST_WORD_BYTE <= b) & (b <= LAST_WORD_BYTE) & (b != OPENING_BRACE) & (b != CLOSING_BRACE)
}

// Whether all bytes may stand in a word.
pub fn are_word_bytes(s: &[u8]) -> bool
    ensures { result ≡ all_word_bytes s.now }
{
    s.iter().all(|b| is_word_byte(*b))
}

// Whether two runs of bytes are the same. Names that begin alike mostly end in another byte, which is told before all are compared.
pub fn are_same(a: &[u8], b: &[u8]) -> bool
    ensures { result ≡ same a.now b.now }
{
    a.last() == b.last() && a == b
}
