// An atom's fields: role from bit 28 on, mode from 24, port from 16, then the value.
ghost use Rattle.std.specs.Prelude.{◌+◌, ◌*◌, ◌≡◌};
ghost use Rattle.semantics.specs.Words.{atom_role, atom_mode, port_of, value_of};

// Values are below this.
pub const VALUES: usize = 65536;

pub fn role_of(atom: u32) -> u32
    ensures { result ≡ atom_role atom }
{
    atom / 268435456
}

pub fn mode_of(atom: u32) -> u32
    ensures { result ≡ atom_mode atom }
{
    atom / 16777216 % 16
}

pub fn port_of(atom: u32) -> u32
    ensures { result ≡ port_of atom }
{
    atom / 65536 % 256
}

pub fn value_of(atom: u32) -> u32
    ensures { result ≡ value_of atom }
{
    atom % 65536
}

// The mode in front of the value, mode × 2^16 + value.
pub fn moded_value_of(atom: u32) -> u32
    ensures { result ≡ atom_mode atom * 65536 + value_of atom }
{
    mode_of(atom) * 65536 + value_of(atom)
}
