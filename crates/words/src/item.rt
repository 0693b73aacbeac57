// An item's fields: kind from bit 24 on, port from 16, then the value; and its kinds.
ghost use Rattle.std.specs.Prelude.{ℕ, ◌/◌, ◌<◌, ◌≡◌, ◌&&◌, eqb, ltb};
ghost use Rattle.words.specs.Item.{as_message};
ghost use Rattle.semantics.specs.Words.{item_kind, item_word, port_of, value_of};

// 01's note
pub const MESSAGE: u32 = 0;

// call-off note
pub const COMPENSATION: u32 = 1;

// stop mark
pub const ABORT_MARK: u32 = 2;

// lot mark
pub const MEMBER_MARK: u32 = 3;

pub fn kind_of(item: u32) -> u32
    ensures { result ≡ item_kind item }
{
    item / 16777216
}

pub fn port_of(item: u32) -> u32
    ensures { result ≡ port_of item }
{
    item / 65536 % 256
}

// Kind and port as one number: of a message its port.
pub fn kind_and_port(item: u32) -> u32
    ensures { result ≡ item / 65536 }
{
    item / 65536
}

pub fn value_of(item: u32) -> u32
    ensures { result ≡ value_of item }
{
    item % 65536
}

// The first item beyond the messages on so many ports.
pub fn messages_end(ports: u64) -> u32
    ensures { (item : ℕ) → ltb item result ≡ (eqb (item_kind item) 0 && ltb (port_of item) ports) }
{
    (ports.min(256) * 65536) as u32
}

pub fn item_of(kind: u32, port: u32, value: u32) -> u32
    requires { (kind < 256) × (port < 256) × (value < 65536) }
    ensures { result ≡ item_word kind port value }
{
    kind * 16777216 + port * 65536 + value
}

// The same port and value as a message.
pub fn as_message(item: u32) -> u32
    ensures { result ≡ as_message item }
{
    item % 16777216
}
