//! The text of the states that a debugger keeps.

ghost use Rattle.std.specs.Prelude.{◌≡◌, ◌++◌, List, map, IfOk, string_bytes};
ghost use Rattle.std.specs.List.{flat_map};
ghost use Rattle.node_core.specs.Node.{PreparedNode};
ghost use Rattle.debug_lines.specs.Kept.{Group as GroupValue, alone as alone_of_node, group_text};
ghost use Rattle.debug_lines.specs.Kept.{groups_of, joined, kept_text, ranks_text, site as site_of_node};
ghost use Rattle.debug_lines.specs.KeptViews.{group_value};

use node_core::Node;
use rv_listing::EightDigits;
use std::alloc::{AllocError, Allocator};
use std::mem;

/// Adds to a text the line of a state that is kept under a number: its superstep, and where its nodes are. Those of ranks in a row that are
/// at one place are told as one. It is an error only if memory is refused.
pub fn add_kept<A: Allocator, B: Allocator + Copy>(
    alloc: B,
    text: &mut String<B>,
    number: u64,
    superstep: u64,
    nodes: &[Node<A>],
) -> Result<(), AllocError>
    ensures { IfOk result (λ _. string_bytes text.new ≡ string_bytes text.old
        ++ kept_text number superstep (map (λ (p : PreparedNode). p.node) nodes.now)) }
{
    write!(text, "kept {number} superstep {superstep}")?;
    add_groups(alloc, text, nodes)?;
    writeln!(text)
}

/// Adds to a text where nodes are, group by group.
fn add_groups<A: Allocator, B: Allocator + Copy>(
    alloc: B,
    text: &mut String<B>,
    nodes: &[Node<A>],
) -> Result<(), AllocError>
    ensures { IfOk result (λ _. string_bytes text.new ≡ string_bytes text.old
        ++ flat_map group_text (groups_of (map (λ (p : PreparedNode). p.node) nodes.now))) }
{
    let Some((node, others)) = nodes.split_first() else {
        return Ok(());
    };
    let mut group = alone(alloc, node)?;
    for node in others {
        add_next(alloc, text, &mut group, node)?;
    }
    add_group(text, &group)
}

/// Nodes of some ranks in a row, all of them at one place.
#[derive(Drop)]
struct Group<B: Allocator> {
    first: u32,
    last: u32,
    /// Their place as it is written.
    site: String<B>,
}

/// A node by itself.
fn alone<A: Allocator, B: Allocator>(alloc: B, node: &Node<A>) -> Result<Group<B>, AllocError>
    ensures { IfOk result (λ group. group_value group ≡ alone_of_node node.now.node) }
{
    let rank = node.rank();
    let site = site_of(alloc, node)?;
    Ok(Group {
        first: rank,
        last: rank,
        site,
    })
}

/// Has a group take a node in if that is at its place; else adds the group to a text, and the node begins the next one.
fn add_next<A: Allocator, B: Allocator + Copy>(
    alloc: B,
    text: &mut String<B>,
    group: &mut Group<B>,
    node: &Node<A>,
) -> Result<(), AllocError>
    ensures { IfOk result (λ _. (others : List GroupValue)
        → string_bytes text.new ++ flat_map group_text (joined (group_value group.new) others)
        ≡ string_bytes text.old ++ flat_map group_text (joined (group_value group.old) (joined (alone_of_node node.now.node) others))) }
{
    let mut next = alone(alloc, node)?;
    if group.site == next.site {
        group.last = next.last;
    } else {
        add_group(text, group)?;
        mem::swap(group, &mut next);
    }
    Ok(())
}

/// Where a node is, without its rank.
fn site_of<A: Allocator, B: Allocator>(alloc: B, node: &Node<A>) -> Result<String<B>, AllocError>
    ensures { IfOk result (λ site. string_bytes site ≡ site_of_node node.now.node) }
{
    let pc = EightDigits(node.pc());
    let state = node.state();
    format!(in alloc; " pc {pc} state {state}")
}

/// Adds a group of nodes to a text: their ranks, and the place where they are.
fn add_group<B: Allocator>(text: &mut String<B>, group: &Group<B>) -> Result<(), AllocError>
    ensures { IfOk result (λ _. string_bytes text.new
        ≡ string_bytes text.old ++ group_text (group_value group.now)) }
{
    add_ranks(text, group.first, group.last)?;
    text.push_str(group.site.as_str())
}

/// Adds the ranks of a group to a text.
fn add_ranks<B: Allocator>(text: &mut String<B>, first: u32, last: u32) -> Result<(), AllocError>
    ensures { IfOk result (λ _. string_bytes text.new ≡ string_bytes text.old ++ ranks_text first last) }
{
    if first == last {
        write!(text, ", rank {first}")
    } else {
        write!(text, ", ranks {first} to {last}")
    }
}
