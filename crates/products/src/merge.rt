// The owners of a reaction's picks put under one of them.
ghost use Rattle.std.specs.Prelude.{ℕ, ◌≤◌, ◌<◌, ◌≡◌, [], ◌∷◌, length, get_or, take};
ghost use Rattle.products.specs.Products.{merged_owner};

use reaction::picks::repeated;

fn merged_owner(owner: u16, a: u16, b: u16, c: u16, d: u16, home: u16) -> u16
    ensures { result ≡ merged_owner (a ∷ b ∷ c ∷ d ∷ []) home owner }
{
    if (owner == a) | ((owner == b) | ((owner == c) | (owner == d))) {
        home
    } else {
        owner
    }
}

// All entries of the owners found go under the smallest of them, home, not only the picked ones.
pub fn merge(owners: &mut [u16; 1024], n: usize, found: [u16; 4], k: usize, home: u16)
    requires { (length owners.old ≡ 1024) × (n ≤ 1024) × (1 ≤ k) × (k ≤ 4) }
    ensures { (length owners.new ≡ 1024)
        × ((j : ℕ) → j < n → get_or owners.new j 0 ≡ merged_owner (take k found) home (get_or owners.old j 0)) }
{
    let four = repeated(found, k);
    let a = four[0];
    let b = four[1];
    let c = four[2];
    let d = four[3];
    if (a == home) & (b == home) & (c == home) & (d == home) {
        return;
    }
    let mut j = 0;
    while j < n {
        owners[j] = merged_owner(owners[j], a, b, c, d, home);
        j += 1;
    }
}
