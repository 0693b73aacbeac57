// The ids in a set in order, and the place of an id among them.
ghost use Rattle.std.specs.Prelude.{◌≤◌, ◌<◌, ◌-◌, ◌≡◌, true, cond, length, get_or};
ghost use Rattle.lists.specs.Lists.{count_if, up_from};
ghost use Rattle.lists.specs.Ascending.{Ascending, PlaceIn};
ghost use Rattle.idset.specs.IdSet.{has};
ghost use Rattle.transactions.specs.Ids.{AddedIf, IdsBelow};

use idset::WORDS;

// v behind the first n ids if it is in the set; how many ids there are then.
fn add_if(set: &[u64; WORDS], v: u32, ids: &mut [u16; 1024], n: usize) -> usize
    requires { (v < 65536) × (length ids.old ≡ 1024) × (n ≤ 1024) × (has set.now v ≡ true → n < 1024) }
    ensures { AddedIf (has set.now v) v n ids.old ids.new result }
{
    if !idset::has(set, v) {
        return n;
    }
    ids[n] = v as u16;
    n + 1
}

// The ids in the set from 1 on and below next, in order, and how many they are.
pub fn ids_of(set: &[u64; WORDS], next: u32, ids: &mut [u16; 1024]) -> usize
    requires { (1 ≤ next) × (next ≤ 65536) × (length ids.old ≡ 1024) × (count_if (has set.now) (up_from 1 (next - 1)) ≤ 1024) }
    ensures { IdsBelow next (has set.now) ids.new result }
{
    let mut n = 0;
    let mut v = 1;
    while v < next {
        n = add_if(set, v, ids, n);
        v = idset::behind(set, v, next);
    }
    n
}

fn later(b: bool, x: usize, y: usize) -> usize
    ensures { result ≡ cond b x y }
{
    if b { x } else { y }
}

// The place of an id among the first m: half of the places are left in each turn, without a branch.
pub fn place_of(ids: &[u16; 1024], m: usize, id: u16) -> usize
    requires { (m ≤ 1024) × Ascending ids.now m × PlaceIn ids.now id 0 m }
    ensures { (result < m) × (get_or ids.now result 0 ≡ id) }
{
    let mut from = 0;
    let mut size = m;
    while 1 < size {
        let half = size / 2;
        from = later(ids[from + half] <= id, from + half, from);
        size -= half;
    }
    from
}
