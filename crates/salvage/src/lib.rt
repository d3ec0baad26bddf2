// Salvage of a broken volume. The call is `salvage::salvage`, on any bytes.
#![tactic(auto)]

pub mod chains;
pub mod salvage;
pub mod slots;
pub mod table;
