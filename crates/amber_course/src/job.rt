//! The jobs that a call may ask for, with all that was loaded and read for them.
//! Rests on `Inputs`, on the commands of a script and on `Log`.

use crate::inputs::Inputs;
use amber_log::{Commands, Log};
use amber_rows::Text;

/// What a run is to do: the workflow over the files of its scans, by the commands of a script, with
/// what was done written into the log of this name; on `threads` threads, from 1 to 64, with
/// `batch_size` rows in a batch, from 1 to 65,536.
#[derive(Drop)]
pub struct RunJob {
    pub inputs: Inputs,
    pub commands: Commands,
    pub log: Text,
    pub threads: u32,
    pub batch_size: u32,
}

/// Whose transcript a replay is to print: the workflow over the files of its scans, and a log that is to be judged.
#[derive(Drop)]
pub struct ReplayJob {
    pub inputs: Inputs,
    pub log: Log,
}

/// With what a recovery is to go on: the workflow over the files of its scans, by the commands of a script from that on
/// which is the first behind an old log, which is to be judged; with what was done, the old log's items among it, written
/// into the log of this name; on `threads` threads, from 1 to 64.
#[derive(Drop)]
pub struct RecoverJob {
    pub inputs: Inputs,
    pub commands: Commands,
    pub old: Log,
    pub log: Text,
    pub threads: u32,
}

/// What a call is to do, once nothing is left that refuses it.
#[derive(Drop)]
pub enum Job {
    /// To print the sequential answer of a workflow over the files of its scans.
    Plain { inputs: Inputs },
    /// To run a workflow by the commands of a script and then to its end.
    Run(RunJob),
    /// To print the transcript that a log tells.
    Replay(ReplayJob),
    /// To go on with a run from its log.
    Recover(RecoverJob),
}
