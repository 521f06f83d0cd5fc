ghost use Rattle.cspf_ero.specs.Laws.{AreObjectsRead, SpellsOneHopList, AreRoutesReadBack};
ghost use Rattle.cspf_ero.specs.ReplyHead.{HasOneHead};
ghost use Rattle.cspf_ero.specs.ReplyLine.{HasOneReplyLine};

/// Law: bytes are read as hops exactly if they are an object that spells these hops. A list of
/// bytes spells at most one list of hops.
pub fn objects_are_read()
    ensures read { AreObjectsRead }
    ensures one { SpellsOneHopList }
{}

/// Law: the object of a route of 1 to 7 links is read as the route's hops.
pub fn routes_are_read_back()
    ensures { AreRoutesReadBack }
{}

/// Law: a line begins with at most one pair of an id and a version.
pub fn one_head()
    ensures { HasOneHead }
{}

/// Law: there is at most one reply line for a request's id, a version of the database and an
/// answer.
pub fn one_reply_line()
    ensures { HasOneReplyLine }
{}
