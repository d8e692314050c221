//! The laws that users of the program can rely on, each stated as the contract of a function that
//! does nothing.
ghost use Rattle.std.specs.Prelude.{◌≡◌, ◌↔◌, IsTrue};
ghost use Rattle.numeral.specs.declared.devices.DeviceFault.{DeviceFault as Fault};
ghost use Rattle.numeral.specs.declared.fault.RunError.{RunError as Error};

use crate::devices::DeviceFault;
use crate::fault::RunError;
pub use cn_lines::laws::{each_input_has_one_output, each_line_has_one_answer};

/// Two errors of a run are equal exactly if they are the same variant, and all faults of a device
/// are equal.
///
/// For callers that compare the results of runs.
pub fn equal_values_are_the_same_variant()
    ensures errors { (a b : Error) → IsTrue (⟦<RunError as PartialEq>⟧.eq a b) ↔ (a ≡ b) }
    ensures faults { (a b : Fault) → IsTrue (⟦<DeviceFault as PartialEq>⟧.eq a b) ↔ (a ≡ b) }
{}
