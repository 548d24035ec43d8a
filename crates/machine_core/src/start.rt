//! The start of a machine.

ghost use Rattle.std.specs.Prelude.{◌≡◌, ◌≢◌, ◌↔◌, ◌<◌, ◌⊎◌, [], map, false, true, Some, None, IfOk, IfErr, OnOk, IsErrOf};
ghost use Rattle.std.specs.List.{range_with_len};
ghost use Rattle.node_memory.specs.Image.{is_segment_outside};
ghost use Rattle.bsp_exchange.specs.Exchange.{states};
ghost use Rattle.machine_core.specs.Clock.{closed_by};
ghost use Rattle.machine_core.specs.Machine.{node_at_start, settings_fault, start_nodes as start_nodes_of};

use crate::error::MachineError;
use crate::settings::Settings;
use node_core::Node;
use node_memory::{Image, MemoryError};
use std::alloc::{AllocError, Allocator};

/// Each node at its start, in rank order. The image is laid once, for the first, whose memory the others share.
pub(crate) fn start_nodes<A: Allocator + Copy>(
    alloc: A,
    image: &Image<A>,
    settings: &Settings,
) -> Result<Vec<Node<A>, A>, MachineError>
    requires { settings_fault settings.now ≡ None }
    ensures ok { IfOk result (λ nodes. states nodes.items ≡ start_nodes_of image.now settings.now) }
    ensures fits { OnOk result (is_segment_outside image.now settings.now.memory ≡ false) }
    ensures outside { IsErrOf result MachineError.SegmentOutside
        ↔ (is_segment_outside image.now settings.now.memory ≡ true) }
    ensures kinds { IfErr result (λ e.
        (e ≡ MachineError.SegmentOutside) ⊎ (e ≡ MachineError.NoMemory)) }
{
    let first = first_node(alloc, image, settings)?;
    let mut nodes = Vec::new(alloc);
    nodes.push(first).map_err(AllocError::from)?;
    for rank in 1..settings.nodes {
        let node = nodes[0].share(alloc, rank)?;
        nodes.push(node).map_err(AllocError::from)?;
    }
    Ok(nodes)
}

/// The node of rank 0 at its start.
fn first_node<A: Allocator + Copy>(
    alloc: A,
    image: &Image<A>,
    settings: &Settings,
) -> Result<Node<A>, MachineError>
    requires { settings_fault settings.now ≡ None }
    ensures ok { let s = settings.now in
        IfOk result (λ node. node.node ≡ node_at_start image.now s 0) }
    ensures fits { OnOk result (is_segment_outside image.now settings.now.memory ≡ false) }
    ensures outside { IsErrOf result MachineError.SegmentOutside
        ↔ (is_segment_outside image.now settings.now.memory ≡ true) }
    ensures kinds { IfErr result (λ e.
        (e ≡ MachineError.SegmentOutside) ⊎ (e ≡ MachineError.NoMemory)) }
{
    let made = Node::new(
        alloc,
        image,
        0,
        settings.nodes,
        settings.memory,
        settings.limit,
        settings.large,
    );
    match made {
        Ok(mut node) => {
            node.set_unit(settings.float);
            node.set_atomics(settings.atomic);
            node.set_clock(closed_at_start(settings));
            Ok(node)
        }
        Err(MemoryError::BadSize) => unreachable!(),
        Err(MemoryError::SegmentOutside) => Err(MachineError::SegmentOutside),
        Err(MemoryError::NoMemory) => Err(MachineError::NoMemory),
    }
}

/// What the supersteps cost that are over before the first, if there are prices for clocks: nothing.
fn closed_at_start(settings: &Settings) -> Option<u128>
    ensures { result ≡ closed_by settings.now.clock [] }
{
    match settings.clock {
        Some(_) => Some(0),
        None => None,
    }
}
