ghost use Rattle.cspf_serve.specs.ServedLaws.{NoReplyIsBehind, SeatsHaveOneSession, ServedRepliesAreFresh};

use cspf_client::Reopens;
use cspf_ero::one_head;

/// Law: in a run over updates and clients, the version of each reply is at least the number of
/// batches that were published before the request's row was read. This is seen from the list of the
/// journal's steps that the run returns. A client learns of published batches from the publisher
/// only after the client's last row is answered.
pub fn served_replies_are_fresh<W, J, Q, V: Reopens<Q>>()
    ensures { ServedRepliesAreFresh W J V.reopens }
{}

/// Law: if `reopen` never returns streams, each client has exactly one session.
pub fn seats_with_one_session<Q, V: Reopens<Q>>()
    ensures { SeatsHaveOneSession V.reopens }
{}

/// Law: suppose that one batch is published and counted, and that a client reads the count after
/// that and before it answers its only row. Then the client's reply isn't at version 0.
pub fn no_reply_is_behind()
    ensures { NoReplyIsBehind }
{
    // Law: the line of a reply has only one id and one version.
    one_head();
}
