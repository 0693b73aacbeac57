// How many entries there are on each port.
ghost use Rattle.std.specs.Prelude.{◌≡◌, ℕ, min, ◌≤◌, length, get_or, take};
ghost use Rattle.eligible.specs.Ports.{PortCounts};

// Keys on a local port, which have a group, are all counted at the last place, which is no port.
fn bin_of(key: u32) -> usize
    ensures { result ≡ min key 511 }
{
    if key <= 511 { key as usize } else { 511 }
}

// The counts are handed in as zeros.
pub fn count_ports(keys: &[u32; 1024], n: usize, counts: &mut [u16; 512])
    requires { (n ≤ 1024) × (length keys.now ≡ 1024) × (length counts.old ≡ 512) × ((t : ℕ) → get_or counts.old t 0 ≡ 0) }
    ensures { PortCounts (take n keys.now) counts.new }
{
    let mut i = 0;
    while i < n {
        let bin = bin_of(keys[i]);
        counts[bin] += 1;
        i += 1;
    }
}
