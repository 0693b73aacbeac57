// Those from one pick up to the next moved down in the three columns, by the number of picks before them.
ghost use Rattle.std.specs.Prelude.{◌≡◌, ◌+◌, ◌≤◌, length};
ghost use Rattle.std.specs.List.{copy_within};
ghost use Rattle.state.specs.Arrays.{Arrays};
ghost use Rattle.removal.specs.Closed.{Closed};

// A distance that is a constant, from place 0 of a slice that is lent: of such a copy LLVM makes a memmove, and of one in `close` it makes none.
fn down<T: Copy, const K: usize>(part: &mut [T])
    requires { K ≤ length part.old }
    ensures { part.new ≡ copy_within part.old K (length part.old) 0 }
{
    part.copy_within(K.., 0);
}

pub fn close<const K: usize>(
    owners: &mut [u16],
    items: &mut [u32],
    origins: &mut [u16],
    w: usize,
    end: usize,
)
    requires arrays { Arrays owners.old items.old origins.old }
    requires holds_distance { w + K ≤ end }
    requires fits { end ≤ 1024 }
    ensures { Closed w end K owners.old items.old origins.old owners.new items.new origins.new }
{
    down::<u16, K>(&mut owners[w..end]);
    down::<u32, K>(&mut items[w..end]);
    down::<u16, K>(&mut origins[w..end]);
}
