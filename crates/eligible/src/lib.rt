// Which entries a rule may consume: a key for each, group * 512 + port on a local port, the port alone on a global or merge port,
// 256 for what no rule may take, as what is in a transaction with an abort mark. The group is the place of the transaction's id
// among those of all that are open.
#![tactic(auto)]

mod keys;
mod ports;

pub use keys::keys_of;
pub use ports::count_ports;
