//! What was loaded for a job: a workflow with the files of its scans, as one value.
//! Rests on `Flow` and `Files`; `load_scans` alone makes one.

ghost use Rattle.std.specs.Prelude.{◌≡◌};
ghost use Rattle.amber_course.specs.Loaded.{AreInputs};

use amber_rows::{Files, Flow};
use std::marker::Model;

/// A workflow with a file for each of its scans, which begins with the names of the scan's columns.
#[derive(Drop)]
pub struct Inputs {
    flow: Flow,
    files: Files,
}

impl Model for Inputs {
    ghost use Rattle.amber_course.specs.Loaded.{AreInputs, Loaded};

    ghost Value = { Loaded };

    ghost view = { λ inputs. record { flow = inputs.flow; files = inputs.files } };

    ghost invariant = { λ inputs. AreInputs
        (record { flow = inputs.flow; files = inputs.files }) };
}

impl Inputs {
    // A workflow with these files.
    pub(crate) fn new(flow: Flow, files: Files) -> Inputs
        requires { AreInputs (record { flow = flow; files = files }) }
        ensures { result ≡ record { flow = flow; files = files } }
    {
        Inputs { flow, files }
    }

    /// The workflow and the files.
    pub fn into_parts(self) -> (Flow, Files)
        ensures flow { result.0 ≡ self.flow }
        ensures files { result.1 ≡ self.files }
        ensures inputs { AreInputs self }
    {
        let Inputs { flow, files } = self;
        (flow, files)
    }
}
