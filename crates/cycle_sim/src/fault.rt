use thiserror::Error;

/// Why a simulation stops: what is at fault in a cycle, in the order of what is told first. A fault has its cycle.
#[derive(Clone, Copy, Debug, PartialEq, Eq, Error)]
pub enum SimFault {
    /// The control of this number in the setup has to be known in the cycle, and is not.
    #[error("control {control} is unknown in cycle {cycle}")]
    ControlDepends { control: u32, cycle: u32 },
    /// The asynchronous reset of the flop of this number is at its active level.
    #[error("the reset of flop {flop} is active in cycle {cycle}")]
    ResetActive { flop: u32, cycle: u32 },
    /// A memory port asks for an address outside both regions of the memory.
    #[error("a request for address {address} in cycle {cycle}")]
    AddressOutside { cycle: u32, address: u32 },
}
