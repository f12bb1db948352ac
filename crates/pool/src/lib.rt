// Limits behind one interface: a pile is a store, with any caps and reserves over it.
#![tactic(auto)]

mod cap;
mod gauge;
mod layer;
mod limit_fault;
mod pool;
mod reserve;
mod store;
mod theorems;
mod watch;

pub use cap::{Cap, Marks};
pub use gauge::room;
pub use layer::Layer;
pub use limit_fault::LimitFault;
pub use pool::Pool;
pub use reserve::{AllBut, Reserve, TallReserve};
pub use store::Store;
pub use theorems::{limits_stay, places_are_told};
pub use watch::Watch;
