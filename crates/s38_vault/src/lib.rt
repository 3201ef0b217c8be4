//! Where pages are kept: a vault, of which a put makes all its changes or none, and a vault in memory.
#![tactic(auto)]

mod fault;
mod keyed;
mod map_vault;
mod search;
mod vault;

pub use fault::VaultFault;
pub use keyed::Keyed;
pub use map_vault::MapVault;
pub use vault::Vault;

/// What is sent between threads.
fn sends<T: Send + Sync>() {}

/// Each value of this crate may be sent and shared.
pub fn all_may_be_sent() {
    sends::<MapVault>();
    sends::<Keyed<u32>>();
    sends::<VaultFault>();
}
