//! Laws of what a debugger does, each the contract of a function that does nothing.

ghost use Rattle.std.specs.Prelude.{◌≡◌, ◌++◌, List, All, IfSome, IsSome};
ghost use Rattle.machine_core.specs.declared.event.Event.{Event};
ghost use Rattle.machine_core.specs.Events.{after};
ghost use Rattle.machine_core.specs.Machine.{MachineState};
ghost use Rattle.machine_core.specs.Sound.{IsSoundMachine};
ghost use Rattle.machine_core.specs.Turn.{end_of};
ghost use Rattle.bsp_debug.specs.declared.command.Command.{Command};
ghost use Rattle.bsp_debug.specs.declared.made.Made.{Made};
ghost use Rattle.bsp_debug.specs.declared.point.Point.{Point};
ghost use Rattle.bsp_debug.specs.Debugger.{DebuggerState, Makes, MakesPart, rest_of};
ghost use Rattle.bsp_debug.specs.Made.{events_of};
ghost use Rattle.bsp_debug.specs.Reached.{EndsAs, HasReachedStates, IsReached};
ghost use Rattle.bsp_debug.specs.Reply.{Answer};
ghost use Rattle.bsp_debug.specs.Stops.{Goes};

/// A command that was refused memory goes on: given again, `Step` and `Run` with as many steps less as were made, it makes together with
/// what it made before just what it would have made at once.
pub fn a_refused_command_goes_on()
    ensures { (points : List Point) (m : MachineState) (command : Command) (part rest : List Event) (reply : Answer)
        → IsSoundMachine m → MakesPart points m command part
        → Makes points (after m part) (rest_of command part) rest reply
        → (whole : Answer) × Makes points m command (part ++ rest) whole }
{}

/// `Go` has one way to go: its events and its stop are determined by the machine and the points.
pub fn go_has_one_way()
    ensures events { (points : List Point) (m : MachineState) (one other : List Event) (stop end : Answer)
        → Goes points m one stop → Goes points m other end → one ≡ other }
    ensures stop { (points : List Point) (m : MachineState) (one other : List Event) (stop end : Answer)
        → Goes points m one stop → Goes points m other end → stop ≡ end }
{}

/// Nothing that a debugger does changes how a run ends: after the events that a command reports, a sound machine has the end that it had
/// before; and if it has its outcome, it is at that end.
pub fn a_debugger_changes_no_end()
    ensures same { (m : MachineState) (entries : List Made)
        → IsSoundMachine m → end_of (after m (events_of entries)) ≡ end_of m }
    ensures there { (m : MachineState) (entries : List Made)
        → IsSoundMachine m → IsSome (after m (events_of entries)).outcome → after m (events_of entries) ≡ end_of m }
{}

/// Going back changes no end either. A debugger's machine is reached at all times from the machine with which it began, and so is each
/// state that it keeps. What is reached from a sound machine has the end of that machine; and every schedule that finishes from
/// there, whatever it is, leaves that end. `debugger` and `kept` say so of any debugger, with what [`Debugger::machine`],
/// [`Debugger::kept`] and [`Debugger::into_machine`] ensure of it.
///
/// [`Debugger::machine`]: crate::Debugger::machine
/// [`Debugger::kept`]: crate::Debugger::kept
/// [`Debugger::into_machine`]: crate::Debugger::into_machine
pub fn going_back_changes_no_end()
    ensures same { (first m : MachineState) → IsSoundMachine first → IsReached first m → end_of m ≡ end_of first }
    ensures every_schedule { (first m : MachineState) (schedule : List Event)
        → IsSoundMachine first → IsReached first m
        → IsSome (after m schedule).outcome → after m schedule ≡ end_of first }
    ensures debugger { (d : DebuggerState) → HasReachedStates d → EndsAs d.first d.machine }
    ensures kept { (d : DebuggerState) → HasReachedStates d
        → All (λ state. IfSome state (λ m. EndsAs d.first m)) d.kept }
{}
