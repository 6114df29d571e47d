//! Theorems on many connections. The functions are no-ops.
ghost use Rattle.connections.specs.Bounds.{TablesAreBounded};
ghost use Rattle.connections.specs.Framing.{HasOneCut};
ghost use Rattle.connections.specs.Losses.{LostRepliesEnd};
ghost use Rattle.connections.specs.Quiet.{QuietAreAnswered};
ghost use Rattle.connections.specs.Ready.{TablesAreReady};
ghost use Rattle.connections.specs.Stories.{StoriesFit};

use crate::service::Service;

/// Proves that each connection fits its story, whatever happens at the others, and in whatever order. No-op.
pub fn stories_fit()
    ensures { StoriesFit }
{}

/// Proves that a stream has at most one cut into requests, so answers do not depend on the pieces in which its bytes
/// came. No-op.
pub fn one_cut<S: Service>()
    ensures { HasOneCut S.is_request S.is_unfinished }
{}

/// Proves that in a quiet table each connection that may have a request answered has had all its requests answered, and
/// its writer has taken all replies. No-op.
pub fn quiet_are_answered<S: Service>()
    ensures { QuietAreAnswered S.answers S.lines S.commits S.commit_fails S.is_request S.is_unfinished }
{}

/// Proves that a free table is ready for a round, and that a ready table remains so at each change that is no turn.
/// No-op.
pub fn tables_are_ready<S: Service>()
    ensures { TablesAreReady S.is_unfinished }
{}

/// Proves that each table to which entries lead from a free one holds a bounded number of bytes. No-op.
pub fn tables_are_bounded()
    ensures { TablesAreBounded }
{}

/// Proves that nothing happens to a connection whose last reply was lost, since its commit failed or its line was cut
/// off, but that it is closed for that reason. No-op.
pub fn lost_replies_end()
    ensures { LostRepliesEnd }
{}
