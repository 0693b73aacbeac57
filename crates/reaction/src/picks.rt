// The picks of a reaction, at most four, and what a column holds there.
ghost use Rattle.std.specs.Prelude.{◌≡◌, cond, true, ℕ, min, ◌≤◌, ◌<◌, take, length, get_or};
ghost use Rattle.lists.specs.Lists.{is_in, distinct, least};
ghost use Rattle.reaction.specs.Places.{Places, four_at};

// Whether the first k differ. By cases of k: a branch on k is predicted, where a test of k in each term is waited for.
pub fn all_differ(picks: [u32; 4], k: usize) -> bool
    requires { k ≤ 4 }
    ensures { result ≡ distinct (take k picks) }
{
    if k < 2 {
        return true;
    }
    let two = picks[0] != picks[1];
    if k < 3 {
        return two;
    }
    let three = two & (picks[0] != picks[2]) & (picks[1] != picks[2]);
    if k < 4 {
        return three;
    }
    three & (picks[0] != picks[3]) & (picks[1] != picks[3]) & (picks[2] != picks[3])
}

fn either(b: bool, x: u16, y: u16) -> u16
    ensures { result ≡ cond b x y }
{
    if b { x } else { y }
}

// Four that are the same numbers as the first k, so that a number is compared with four always: the first stands again in the
// places of those that are not used.
pub fn repeated(owners: [u16; 4], k: usize) -> [u16; 4]
    requires { (1 ≤ k) × (k ≤ 4) }
    ensures { (x : ℕ) → is_in x result ≡ is_in x (take k owners) }
{
    let a = owners[0];
    let b = either(1 < k, owners[1], a);
    let c = either(2 < k, owners[2], a);
    let d = either(3 < k, owners[3], a);
    [a, b, c, d]
}

fn smaller(a: u16, b: u16) -> u16
    ensures { result ≡ min a b }
{
    if a <= b { a } else { b }
}

// The smallest of the first k.
pub fn smallest(owners: [u16; 4], k: usize) -> u16
    requires { (1 ≤ k) × (k ≤ 4) }
    ensures { result ≡ least (take k owners) }
{
    let all = repeated(owners, k);
    smaller(smaller(all[0], all[1]), smaller(all[2], all[3]))
}

fn item_at(column: &[u32; 1024], pick: u32, used: bool) -> u32
    requires { (length column.now ≡ 1024) × (used ≡ true → pick < 1024) }
    ensures { result ≡ cond used (get_or column.now pick 0) 0 }
{
    if used { column[pick as usize] } else { 0 }
}

// The items at the first k picks, and 0 after them. One by one, so that no array is filled in a loop.
pub fn items_at(column: &[u32; 1024], picks: [u32; 4], k: usize) -> [u32; 4]
    requires { (k ≤ 4) × (length column.now ≡ 1024) × Places 1024 (take k picks) }
    ensures { result ≡ four_at column.now (take k picks) }
{
    let a = item_at(column, picks[0], 0 < k);
    let b = item_at(column, picks[1], 1 < k);
    let c = item_at(column, picks[2], 2 < k);
    let d = item_at(column, picks[3], 3 < k);
    [a, b, c, d]
}

fn owner_at(column: &[u16; 1024], pick: u32, used: bool) -> u16
    requires { (length column.now ≡ 1024) × (used ≡ true → pick < 1024) }
    ensures { result ≡ cond used (get_or column.now pick 0) 0 }
{
    if used { column[pick as usize] } else { 0 }
}

// The owners there.
pub fn owners_at(column: &[u16; 1024], picks: [u32; 4], k: usize) -> [u16; 4]
    requires { (k ≤ 4) × (length column.now ≡ 1024) × Places 1024 (take k picks) }
    ensures { result ≡ four_at column.now (take k picks) }
{
    let a = owner_at(column, picks[0], 0 < k);
    let b = owner_at(column, picks[1], 1 < k);
    let c = owner_at(column, picks[2], 2 < k);
    let d = owner_at(column, picks[3], 3 < k);
    [a, b, c, d]
}
