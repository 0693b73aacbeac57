// The four picks of a move, or their origins, put at a place.
ghost use Rattle.std.specs.Prelude.{◌+◌, ◌≤◌, length};
ghost use Rattle.lists.specs.Over.{Pasted};

pub fn put_four<T: Copy>(out: &mut [T], at: usize, four: [T; 4])
    requires { at + 4 ≤ length out.old }
    ensures { Pasted out.old at four 4 out.new }
{
    out[at..at + 4].copy_from_slice(&four);
}

pub fn put_picks(out: &mut [u32], at: usize, picks: [u32; 4])
    requires { at + 4 ≤ length out.old }
    ensures { Pasted out.old at picks 4 out.new }
{
    put_four(out, at, picks);
}

pub fn put_origins(out: &mut [u16], at: usize, four: [u16; 4])
    requires { at + 4 ≤ length out.old }
    ensures { Pasted out.old at four 4 out.new }
{
    put_four(out, at, four);
}
