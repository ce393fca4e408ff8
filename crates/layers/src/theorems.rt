//! What is proved of runs of calls to a withdrawn layer.
ghost use Rattle.layers.specs.Histories.{RestoredIsThere};

/// After any calls to withdraw and restore, a triple that is restored is there again, and nothing else
/// changes.
pub fn restored_is_there()
    ensures { RestoredIsThere }
{}
