//! Laws of the definitions, worked out on small networks. Each function here has an empty body, and
//! its contract states the law.
ghost use Rattle.std.specs.Prelude.{[], ◌∷◌};
ghost use Rattle.cspf_model.specs.Database.{IsRouterOf};
ghost use Rattle.cspf_model.specs.Best.{unknown_from, unknown_to};
ghost use Rattle.cspf_model.specs.Examples.{router, back, from_1_to_2};
ghost use Rattle.cspf_model.specs.NetworkLaws.{network, back_to_other_address, back_from_other_address, back_to_other_router, back_from_other_router, IsUnusableAmong, IsUsableAmong, MayBeAdmitted, way_by_2, way_and_back, way_by_1_again, IsWalkWithMarks, IsNoWalkWithMarks, MayBeAsked, IsMarkedByChange, IsUnmarkedByChange, WalksGrowByOneLink, IsAnswerBetween};

/// A link isn't usable if the database lacks its reverse. A link in the other direction isn't the
/// reverse if one of its addresses or routers differs. If the database has the reverse, a link that
/// the request admits is usable, even if the reverse has no unreserved bandwidth.
pub fn worked_reverses()
    ensures admitted { MayBeAdmitted from_1_to_2 }
    ensures one_way { IsUnusableAmong (from_1_to_2 ∷ []) }
    ensures other_remote { IsUnusableAmong (from_1_to_2 ∷ back_to_other_address ∷ []) }
    ensures other_local { IsUnusableAmong (from_1_to_2 ∷ back_from_other_address ∷ []) }
    ensures other_to { IsUnusableAmong (from_1_to_2 ∷ back_to_other_router ∷ []) }
    ensures other_from { IsUnusableAmong (from_1_to_2 ∷ back_from_other_router ∷ []) }
    ensures reverse { IsUsableAmong (from_1_to_2 ∷ back from_1_to_2 ∷ []) }
{}

/// A walk doesn't pass through a router that is marked as without transit, but it may begin or end
/// at such a router. If the head-end is marked, a walk may return to the head-end, but may not
/// leave it again. A change that takes transit away from a router marks the router. A change that
/// gives transit to a router removes the mark.
pub fn worked_marks()
    ensures asked { MayBeAsked }
    ensures unmarked { IsWalkWithMarks [] way_by_2 }
    ensures middle { IsNoWalkWithMarks (router 2 ∷ []) way_by_2 }
    ensures head_end { IsWalkWithMarks (router 1 ∷ []) way_by_2 }
    ensures tail_end { IsWalkWithMarks (router 3 ∷ []) way_by_2 }
    ensures to_head_end { IsWalkWithMarks (router 1 ∷ []) way_and_back }
    ensures again { IsNoWalkWithMarks (router 1 ∷ []) way_by_1_again }
    ensures again_unmarked { IsWalkWithMarks [] way_by_1_again }
    ensures grows { WalksGrowByOneLink }
    ensures marked { IsMarkedByChange }
    ensures mark_taken { IsUnmarkedByChange }
{}

/// If the head-end is unknown, the answer is `unknown_from`, whether or not the tail-end is known.
/// If only the tail-end is unknown, the answer is `unknown_to`.
pub fn worked_unknown_ends()
    ensures both { IsAnswerBetween (router 8) (router 9) unknown_from }
    ensures head_end { IsAnswerBetween (router 8) (router 1) unknown_from }
    ensures tail_end { IsAnswerBetween (router 1) (router 9) unknown_to }
{}

/// The routers at both ends of a link are routers of the database, even if no link begins at the
/// second router. A marked Router ID at which no link begins or ends isn't a router of the
/// database.
pub fn worked_ends()
    ensures from { IsRouterOf (network (from_1_to_2 ∷ []) []) (router 1) }
    ensures to { IsRouterOf (network (from_1_to_2 ∷ []) []) (router 2) }
    ensures mark { ¬ IsRouterOf (network (from_1_to_2 ∷ []) (router 3 ∷ [])) (router 3) }
{}
