// An origin as one number below 65,536. A place of the start is itself, below 1,024; the products of the maker m are
// the sixteen numbers from 16 (m + 63) on. A move has at most 15 products.
ghost use Rattle.std.specs.Prelude.{◌<◌, ◌≡◌};
ghost use Rattle.words.specs.Origin.{Maker, maker_in, origin_word};

// How many products of one maker are told apart.
const PRODUCTS: u32 = 16;

// Makers count from 1, so the products of the first begin at (1 + BEFORE) × PRODUCTS, which is 1,024.
const BEFORE: u32 = 63;

pub fn origin_of(maker: u32, index: u32) -> u16
    requires { Maker maker × (index < 16) }
    ensures { result ≡ origin_word maker index }
{
    ((maker + BEFORE) * PRODUCTS + index) as u16
}

// 0 for the start.
#[tactic(auto, unfolding(crate::specs::Origin::maker_in))]
pub fn maker_of(origin: u16) -> u16
    ensures { result ≡ maker_in origin }
{
    let block = u32::from(origin) / PRODUCTS;
    if block < BEFORE {
        0
    } else {
        (block - BEFORE) as u16
    }
}
