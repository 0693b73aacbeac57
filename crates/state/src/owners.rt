// Whether a transaction (batch) is open: of a state's words, or of a working state's owners.
ghost use Rattle.std.specs.Prelude.{◌≤◌, ◌≡◌, length, take};
ghost use Rattle.state.specs.Owners.{some_owned};

// Whether one of the first n owners, in words, is a transaction. It looks at them all: most often none is, and
// without an early exit several are compared at once.
pub fn any_open(owners: &[u32], n: usize) -> bool
    requires { n ≤ length owners.now }
    ensures { result ≡ some_owned (take n owners.now) }
{
    let mut found = false;
    let mut i = 0;
    while i < n {
        found = found | (owners[i] != 0);
        i += 1;
    }
    found
}

// The same of a column of the working state.
pub fn any_owned(owners: &[u16], n: usize) -> bool
    requires { n ≤ length owners.now }
    ensures { result ≡ some_owned (take n owners.now) }
{
    let mut found = false;
    let mut i = 0;
    while i < n {
        found = found | (owners[i] != 0);
        i += 1;
    }
    found
}
