//! Counts the messages and summaries that the lines of a script make.
ghost use Rattle.std.specs.Prelude.{◌≡◌, ◌<◌, ◌^◌};
ghost use Rattle.program_drills.specs.ScriptLines.{after_operation};

use http_service::Operation;

/// The numbers of messages and of summaries that the first lines of a script make.
#[derive(Clone, Copy)]
pub(crate) struct MadeCounts {
    pub(crate) messages: usize,
    pub(crate) summaries: usize,
}

/// Returns the numbers of messages and summaries after an operation, where `made` has the numbers before it, each below
/// 2^63.
pub(crate) fn after_operation(made: MadeCounts, operation: &Operation) -> MadeCounts
    requires messages { made.messages < 2 ^ 63 }
    requires summaries { made.summaries < 2 ^ 63 }
    ensures { result ≡ after_operation made operation.now }
{
    match operation {
        Operation::Offer | Operation::OfferDelta(_) => MadeCounts {
            messages: made.messages + 1,
            summaries: made.summaries,
        },
        Operation::Summary => MadeCounts {
            messages: made.messages,
            summaries: made.summaries + 1,
        },
        _ => made,
    }
}
