//! A law of the definitions that the contracts cite.
ghost use Rattle.chess_hub.specs.RunLaw.{LawOfRun};
ghost use Rattle.sector_dev.specs.Device.{measures};

use crate::moments::Moments;
use sector_dev::Device;

/// The law that ties what a run writes to the text of a hub's session. The run's whole lines are the merged list of a
/// session that sends the input, in whatever pieces, and then has a turn for each line; they have answers, each by the
/// verdict on the table before; and what is written is that session's text. Of a run's first lines it says the same,
/// without the farewell. It does nothing when it runs.
pub fn law_of_run<D: Device, M: Moments>()
    ensures { LawOfRun (measures D.state D.sector_count D.failures) M.gives }
{}
