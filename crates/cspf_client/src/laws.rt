ghost use Rattle.cspf_client.specs.ClientRows.{RepliesAreFresh};
ghost use Rattle.cspf_client.specs.ClientRuns.{ClientsGoForward};

/// Law: clients go forward. Let a client answer some rows: the batches that it knew before are a
/// prefix of the batches that it knows afterwards. So the versions of its replies never fall.
pub fn clients_go_forward()
    ensures { ClientsGoForward }
{}

/// Law: replies are fresh. The version of a reply is at least the count of published batches that
/// the client read before this reply. This count is at least the count that follows from the steps
/// of the journal that the client had already seen.
pub fn replies_are_fresh()
    ensures { RepliesAreFresh }
{}
