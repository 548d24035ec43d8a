//! Laws of what is reported, each the contract of a function that does nothing.

ghost use Rattle.std.specs.Prelude.{◌≡◌, ◌≢◌, ℕ, List};
ghost use Rattle.machine_core.specs.Machine.{MachineState};
ghost use Rattle.exposed_runs.specs.Lines.{header};
ghost use Rattle.exposed_runs.specs.Runs.{IsExposedIn, TellsExposed};

/// If nothing is told but the names of the columns, no call of the run exposes a byte. If more is told, some byte is exposed in some
/// superstep.
pub fn what_is_told_is_exposed()
    ensures none { (start : MachineState) (k rank addr : ℕ) → TellsExposed start header → IsExposedIn k start rank addr → ⊥ }
    ensures some { (start : MachineState) (text : List ℕ) → TellsExposed start text → text ≢ header
        → (k rank addr : ℕ) × IsExposedIn k start rank addr }
{}
