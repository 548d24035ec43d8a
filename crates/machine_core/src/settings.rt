//! The settings of a machine.

ghost use Rattle.std.specs.Prelude.{◌≡◌, ◌&&◌, nat_le};
ghost use Rattle.node_memory.specs.Bytes.{is_memory_size};
ghost use Rattle.machine_core.specs.Machine.{most_nodes, most_memory};

use crate::error::MachineError;
use cost_ledger::LedgerText;
use node_memory::is_memory_size;

/// The most nodes of a machine, and of a large one (own limits).
const MAX_NODES: u32 = 1_024;

const LARGE_NODES: u32 = 65_536;

/// The most bytes of memory of a node, and of one of a large machine (own limits).
const MAX_MEMORY: u32 = 1 << 24;

const LARGE_MEMORY: u32 = 1 << 31;

/// The prices at which clocks count what supersteps cost.
#[derive(Clone, Copy, Debug, PartialEq, Eq)]
pub struct Prices {
    /// The version of the ledger, which says what h counts.
    pub ledger: LedgerText,
    /// The price of a byte of the h-relation, in ticks.
    pub g: u32,
    /// The price of a superstep's end, in ticks.
    pub l: u32,
}

/// How many nodes there are, and what each of them has. The ranges are own rules.
#[derive(Clone, Copy, Debug, PartialEq, Eq)]
pub struct Settings {
    /// How many nodes: 1 to 1,024, or to 65,536 in a large machine. Their ranks are 0 to `nodes` - 1.
    pub nodes: u32,
    /// The memory of each node in bytes: 4,096 to 2^24, or to 2^31 in a large machine, a multiple of 4,096.
    pub memory: u32,
    /// How many ticks, each of one step, a node may make: 1 to 2^40.
    pub limit: u64,
    /// At which prices the nodes' clocks count. With none the nodes have no clocks, and the call that reads one is unknown.
    pub clock: Option<Prices>,
    /// Whether each node has a unit of floating point. Without one, the instructions of F, D and Zicsr are illegal.
    pub float: bool,
    /// Whether each node has the instructions of A. Else they are illegal.
    pub atomic: bool,
    /// Whether the machine is a large one, with limits of its own.
    pub large: bool,
}

impl Settings {
    ghost use Rattle.std.specs.Result.{result_err};
    ghost use Rattle.machine_core.specs.Machine.{settings_fault};

    /// Whether the settings are within their ranges.
    ///
    /// # Errors
    /// [`MachineError::BadNodes`], [`MachineError::BadMemory`] or [`MachineError::BadLimit`], the first that applies.
    pub fn check(&self) -> Result<(), MachineError>
        ensures { result_err result ≡ settings_fault self.now }
    {
        if !(1..=most_nodes(self.large)).contains(&self.nodes) {
            return Err(MachineError::BadNodes);
        }
        if !is_memory_of(self.memory, self.large) {
            return Err(MachineError::BadMemory);
        }
        if !(1..=1 << 40).contains(&self.limit) {
            return Err(MachineError::BadLimit);
        }
        Ok(())
    }
}

/// The most nodes of a machine.
fn most_nodes(large: bool) -> u32
    ensures { result ≡ most_nodes large }
{
    if large { LARGE_NODES } else { MAX_NODES }
}

/// Whether a node may have `size` bytes of memory.
fn is_memory_of(size: u32, large: bool) -> bool
    ensures { result ≡ (is_memory_size size && nat_le size (most_memory large)) }
{
    is_memory_size(size) && size <= most_memory(large)
}

/// The most bytes of memory of a node.
fn most_memory(large: bool) -> u32
    ensures { result ≡ most_memory large }
{
    if large { LARGE_MEMORY } else { MAX_MEMORY }
}
