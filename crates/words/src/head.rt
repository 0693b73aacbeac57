// A head, kind × 2^24 + number: the number is a rule's or an id.
ghost use Rattle.std.specs.Prelude.{◌<◌, ◌≡◌};
ghost use Rattle.semantics.specs.Words.{head_kind, head_number, head_word};

// The kinds stay numbers: they are fields of words that are read, where any number can stand.
pub const REACT: u32 = 0;

// 01's release
pub const COMMIT: u32 = 1;

// call-off
pub const ABORT: u32 = 2;

// The five words of a move.
#[derive(Clone, Copy)]
pub struct MoveWords {
    pub head: u32,
    pub picks: [u32; 4],
}

pub fn kind_of(head: u32) -> u32
    ensures { result ≡ head_kind head }
{
    head / 16777216
}

pub fn number_of(head: u32) -> u32
    ensures { result ≡ head_number head }
{
    head % 16777216
}

// The largest id that a transaction can have.
pub const MAX_ID: u32 = 65535;

// The id of an end, whose form is in order.
pub fn id_of(head: u32) -> u16
    requires { head_number head < 65536 }
    ensures { result ≡ head_number head }
{
    number_of(head) as u16
}

pub fn head_of(kind: u32, number: u32) -> u32
    requires { (kind < 256) × (number < 16777216) }
    ensures { result ≡ head_word kind number }
{
    kind * 16777216 + number
}
