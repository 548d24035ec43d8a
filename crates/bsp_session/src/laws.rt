//! Laws of what is written superstep by superstep, each the contract of a function that does nothing.

ghost use Rattle.std.specs.Prelude.{◌≡◌, ℕ, ◌+◌, ◌^◌, ◌++◌, List, false, flat_map};
ghost use Rattle.std.specs.Fn.{iterate};
ghost use Rattle.std.specs.List.{range_with_len};
ghost use Rattle.rv_atomics.specs.declared.extensions.Extensions.{Extensions};
ghost use Rattle.machine_core.specs.Machine.{MachineState};
ghost use Rattle.machine_core.specs.Sound.{IsSoundMachine};
ghost use Rattle.machine_core.specs.Turn.{end_of, superstep};
ghost use Rattle.bsp_session.specs.declared.job.Format.TheVariants.{Asm, Elf, Raw};
ghost use Rattle.bsp_session.specs.Images.{most_bytes};
ghost use Rattle.bsp_session.specs.Live.{WritesUpTo, written_in};
ghost use Rattle.bsp_session.specs.Session.{most_input};
ghost use Rattle.bsp_session.specs.Streams.{Stream};

/// What the nodes write in the supersteps of a run, one superstep after another, is what their machine has as its output: after the first
/// k of them, and at its end.
pub fn the_supersteps_write_the_output()
    ensures first { (start : MachineState) (k : ℕ)
        → (iterate superstep k start).output
        ≡ start.output ++ flat_map (written_in start) (range_with_len 0 k) }
    ensures all { (start : MachineState)
        → (end_of start).output
        ≡ start.output ++ flat_map (written_in start) (range_with_len 0 (start.settings.limit + 1)) }
{}

/// What stands written of a run that was stopped is how the output at its end begins.
pub fn what_stands_written_begins_the_output()
    ensures { (start m : MachineState) (out : Stream) → IsSoundMachine start → WritesUpTo start out m
        → (more : List ℕ) × ((end_of start).output ≡ m.output ++ more) }
{}

/// An input of a machine that is not large has 2^24 bytes at most. An image file for it has 2^25 as an ELF file and 2^24 as a raw one; a
/// text has 2^22 for any machine.
pub fn a_session_reads_these_bytes_unless_the_machine_is_large()
    ensures input { most_input false ≡ 2 ^ 24 }
    ensures elf { most_bytes (Elf false) ≡ 2 ^ 25 }
    ensures raw { most_bytes (Raw false) ≡ 2 ^ 24 }
    ensures text { (extensions : Extensions) → most_bytes (Asm extensions) ≡ 2 ^ 22 }
{}
