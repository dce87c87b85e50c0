//! What holds of each kind of operator. Over `What`.

ghost use Rattle.std.specs.Prelude.{◌≡◌, option_map};
ghost use Rattle.amber_rows.specs.Topology.{reads};
ghost use Rattle.amber_rows.specs.Kinds.{build_input, is_keyed, is_scan, is_sink, main_input, settable_cond};

use crate::cond::Cond;
use crate::flow::What;

impl What {
    /// Whether an operator of this kind reads from the operator with this number.
    pub fn reads(&self, op: u32) -> bool
        ensures { result ≡ reads self.now op }
    {
        match self {
            What::Scan { .. } => false,
            What::Filter { input, .. }
            | What::Project { input, .. }
            | What::Group { input, .. }
            | What::Sink { input } => *input == op,
            What::Join { build, probe, .. } => *build == op || *probe == op,
        }
    }

    /// The input whose rows it works on, one after the other, of a join the probe side; a scan has none.
    pub fn main_input(&self) -> Option<u32>
        ensures { result ≡ main_input self.now }
    {
        match self {
            What::Scan { .. } => None,
            What::Filter { input, .. }
            | What::Project { input, .. }
            | What::Group { input, .. }
            | What::Sink { input } => Some(*input),
            What::Join { probe, .. } => Some(*probe),
        }
    }

    /// The input whose rows it keeps first, to look them up: a join has one, its build side.
    pub fn build_input(&self) -> Option<u32>
        ensures { result ≡ build_input self.now }
    {
        match self {
            What::Join { build, .. } => Some(*build),
            What::Scan { .. }
            | What::Filter { .. }
            | What::Project { .. }
            | What::Group { .. }
            | What::Sink { .. } => None,
        }
    }

    /// Whether its rows are those of a file.
    pub fn is_scan(&self) -> bool
        ensures { result ≡ is_scan self.now }
    {
        matches!(self, What::Scan { .. })
    }

    /// Whether its rows are the answer.
    pub fn is_sink(&self) -> bool
        ensures { result ≡ is_sink self.now }
    {
        matches!(self, What::Sink { .. })
    }

    /// Whether rows go to it by their keys.
    pub fn is_keyed(&self) -> bool
        ensures { result ≡ is_keyed self.now }
    {
        matches!(self, What::Join { .. } | What::Group { .. })
    }

    /// The condition whose constant a command may set: a filter's.
    pub fn settable_cond(&self) -> Option<&Cond>
        ensures { option_map (λ cond. cond.now) result ≡ settable_cond self.now }
    {
        match self {
            What::Filter { cond, .. } => Some(cond),
            What::Scan { .. }
            | What::Project { .. }
            | What::Join { .. }
            | What::Group { .. }
            | What::Sink { .. } => None,
        }
    }
}
